//! What is said of classes and methods as a list, a test or a function is what is said of them as a relation.

ghost use Rattle.std.specs.Prelude.{◌≡◌, ◌↔◌, ℕ, Option, true};
ghost use Rattle.built_in.specs.declared.class_id.ClassId.{ClassId};
ghost use Rattle.loading.specs.Families.{Family, IsFamily, IsAncestor, AreParentsWithin};
ghost use Rattle.hierarchy.specs.Resolution.{Selects};
ghost use Rattle.hierarchy.specs.Selection.{selected};
ghost use Rattle.hierarchy.specs.declared.member.Method.{Method};
ghost use Rattle.hierarchy.specs.Subclasses.{is_above};

/// One class stands above another where the list of what stands above that has it (JVMS 4.1).
pub fn above_is_listed()
    ensures { (family : Family) (c d : ℕ) → IsFamily family → AreParentsWithin family
        → IsAncestor family c d ↔ (is_above family c d ≡ true) }
{}

/// What a call of a method selects for objects of a class is the function's answer (JVMS 6.5, invokevirtual and
/// invokeinterface).
pub fn selection_is_a_function()
    ensures { (family : Family) (class : ClassId) (m : Method) (r : Option Method) → IsFamily family
        → AreParentsWithin family → Selects family class m r → r ≡ selected family class m }
{}
