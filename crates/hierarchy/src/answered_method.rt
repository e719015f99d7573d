//! What references to methods resolve to, by what was answered of superinterface methods (JVMS 5.4.3.3, 5.4.3.4).

ghost use Rattle.std.specs.Prelude.{◌≡◌, Option, Some, true, false};
ghost use Rattle.built_in.specs.Keys.{NameAndType};
ghost use Rattle.built_in.specs.declared.class_id.ClassId.TheVariants as class_ids;
ghost use Rattle.hierarchy.specs.Resolution.{AmongInterfaces, ResolvesMethod};
ghost use Rattle.hierarchy.specs.declared.member.DeclaredMember.{DeclaredMember as Declared};
ghost use Rattle.hierarchy.specs.declared.wanted.Wanted.TheVariants as kind;
ghost use Rattle.hierarchy.specs.steps.Answers.{Resolves};
ghost use Rattle.hierarchy.specs.steps.FoundAhead.{given_method};
ghost use Rattle.hierarchy.specs.steps.MemberKeys.{IsLookup};
ghost use Rattle.hierarchy.specs.steps.Sought.{sought_name};
ghost use Rattle.loading.specs.Families.{is_interface_in};

use crate::answers::Answer;
use crate::hierarchy::Hierarchy;
use crate::member::DeclaredMember;
use crate::member_key::MemberKey;
use crate::sought::Sought;
use crate::wanted::Wanted;
use loading::given::Superclass;

impl Hierarchy {
    /// The superinterface method that a reference to a method of a class resolves to, by what was found from the class
    /// on. None where that does not tell it, or where the class or a superclass has the method.
    pub(crate) fn answered_method(
        &self,
        sought: Sought<'_>,
        answer: &Answer,
    ) -> Option<Option<DeclaredMember>>
        requires lookup { IsLookup self.now.texts (sought_name sought) sought.key }
        ensures { (m : Option Declared)
            → Resolves self.now kind.InterfaceMethod (sought_name sought.entry) answer.now
            → result ≡ Some m
            → ResolvesMethod self.now.family (sought_name sought.entry) (class_ids.Given answer.now.class)
            (given_method m) }
    {
        let _classes = self.family().classes();
        if self.family().is_interface(answer.class) {
            self.answered_in_interface(sought.key, answer)
        } else {
            self.answered_in_class(sought, answer)
        }
    }

    /// The superinterface method that a reference to a method of an interface resolves to, by its answer.
    fn answered_in_interface(
        &self,
        key: Option<MemberKey>,
        answer: &Answer,
    ) -> Option<Option<DeclaredMember>>
        requires class { is_interface_in self.now.family answer.now.class ≡ true }
        ensures { (name : NameAndType) (m : Option Declared) → IsLookup self.now.texts name key
            → Resolves self.now kind.InterfaceMethod name answer.now
            → result ≡ Some m
            → ResolvesMethod self.now.family name (class_ids.Given answer.now.class) (given_method m) }
    {
        if self.find(Wanted::Method, answer.class, key).is_some() {
            return None;
        }
        self.answered_among_interfaces(key, answer)
    }

    /// The superinterface method that a reference to a method of a class, no interface, resolves to, by its answer.
    fn answered_in_class(
        &self,
        sought: Sought<'_>,
        answer: &Answer,
    ) -> Option<Option<DeclaredMember>>
        requires class { is_interface_in self.now.family answer.now.class ≡ false }
        requires lookup { IsLookup self.now.texts (sought_name sought) sought.key }
        ensures { (m : Option Declared)
            → Resolves self.now kind.InterfaceMethod (sought_name sought.entry) answer.now
            → result ≡ Some m
            → ResolvesMethod self.now.family (sought_name sought.entry) (class_ids.Given answer.now.class)
            (given_method m) }
    {
        if let Some(_) = self.up_classes(Wanted::Method, Superclass::Given(answer.class), sought) {
            return None;
        }
        self.answered_among_interfaces(sought.key, answer)
    }

    /// The superinterface method of a class that declares none: the one default, or else the first that a search finds.
    fn answered_among_interfaces(
        &self,
        key: Option<MemberKey>,
        answer: &Answer,
    ) -> Option<Option<DeclaredMember>>
        ensures { (name : NameAndType) (m : Option Declared) → IsLookup self.now.texts name key
            → Resolves self.now kind.InterfaceMethod name answer.now
            → result ≡ Some m → AmongInterfaces self.now.family name answer.now.class (given_method m) }
    {
        if self
            .find(Wanted::InterfaceMethod, answer.class, key)
            .is_some()
        {
            return None;
        }
        match answer.defaults.only() {
            Some(default) => Some(Some(default)),
            None => answer.found(),
        }
    }
}
