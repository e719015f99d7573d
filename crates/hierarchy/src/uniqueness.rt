//! What is said of orders, searches, superclasses, resolution and selection has one answer.

ghost use Rattle.std.specs.Prelude.{◌≡◌, ℕ, List, Option};
ghost use Rattle.built_in.specs.Keys.{NameAndType};
ghost use Rattle.built_in.specs.declared.class_id.ClassId.{ClassId};
ghost use Rattle.loading.specs.Families.{Family};
ghost use Rattle.hierarchy.specs.Initialization.{IsInitializationOrder, AreSuperclasses};
ghost use Rattle.hierarchy.specs.Search.{Search};
ghost use Rattle.hierarchy.specs.Resolution.{ResolvesField, ResolvesMethod, Selects};
ghost use Rattle.hierarchy.specs.declared.member.DeclaredMember.{DeclaredMember};
ghost use Rattle.hierarchy.specs.declared.member.Field.{Field};
ghost use Rattle.hierarchy.specs.declared.member.Method.{Method};

/// A class has one order of what is initialized before it (JVMS 5.5).
pub fn one_initialization_order()
    ensures { (family : Family) (c : ℕ) (a b : List ℕ)
        → IsInitializationOrder family c a → IsInitializationOrder family c b → a ≡ b }
{}

/// A search along parents finds one class, or none (JVMS 5.4.3).
pub fn one_search_result()
    ensures { (family : Family) (own : ℕ → Option ℕ) (cs : List ℕ) (a b : Option DeclaredMember)
        → Search family own cs a → Search family own cs b → a ≡ b }
{}

/// A class has one list of superclasses.
pub fn one_superclass_list()
    ensures { (family : Family) (c : ℕ) (a b : List ℕ)
        → AreSuperclasses family c a → AreSuperclasses family c b → a ≡ b }
{}

/// A field reference resolves to one field, or to none (JVMS 5.4.3.2).
pub fn one_resolved_field()
    ensures { (family : Family) (key : NameAndType) (class : ClassId) (a b : Option Field)
        → ResolvesField family key class a → ResolvesField family key class b → a ≡ b }
{}

/// A method reference resolves to one method, or to none (JVMS 5.4.3.3, 5.4.3.4).
pub fn one_resolved_method()
    ensures { (family : Family) (key : NameAndType) (class : ClassId) (a b : Option Method)
        → ResolvesMethod family key class a → ResolvesMethod family key class b → a ≡ b }
{}

/// A call of a method on an object of a class runs one method, or none (JVMS 6.5, invokevirtual and invokeinterface).
pub fn one_selected_method()
    ensures { (family : Family) (class : ClassId) (m : Method) (a b : Option Method)
        → Selects family class m a → Selects family class m b → a ≡ b }
{}
