//! The one default among superinterface methods (JVMS 5.4.3.3). The interfaces that declare a method are noted beside
//! its name and descriptor, so that what is asked of the ancestors of a class is whether they are among these.

ghost use Rattle.std.specs.Prelude.{◌≡◌, ◌↔◌, ◌<◌, ◌++◌, ℕ, List, length, IsTrue, MatchOption};
ghost use Rattle.std.specs.List.{Contains};
ghost use Rattle.hierarchy.specs.declared.defaults.FoundMethods.TheVariants as found;
ghost use Rattle.hierarchy.specs.steps.Defaults.{AreFound, found_after, only_of, HasMethod, IsFree, AreCovered};
ghost use Rattle.hierarchy.specs.steps.Defaults.{AreParentsOf, AreDefaults, classes_of, Among};
ghost use Rattle.hierarchy.specs.steps.Reaches.{class_noted};
ghost use Rattle.loading.specs.Families.{IsAncestor, parents_in};
ghost use Rattle.built_in.specs.Keys.{NameAndType};
ghost use Rattle.hierarchy.specs.steps.MemberKeys.{IsLookup};
ghost use Rattle.hierarchy.specs.MemberLookup.{is_abstract, IsTheDefault, HasNoDefault};

use crate::above::Above;
use crate::class_set::ClassSet;
use crate::few_classes::FewClasses;
use crate::hierarchy::Hierarchy;
use crate::member::DeclaredMember;
use crate::member_key::MemberKey;
use crate::reach_table::Reach;
use crate::wanted::Wanted;
use classfile::flags::{ABSTRACT, has_flag};

/// The methods of some kind that were found so far, each in a class of its own.
#[derive(Clone, Copy)]
pub(crate) enum FoundMethods {
    Nothing,
    One { class: u32, index: u16 },
    Several,
}

impl FoundMethods {
    /// What was found with one more class, and the place of such a method there if it has one.
    pub(crate) fn and(self, class: u32, index: Option<u16>) -> FoundMethods
        ensures { result ≡ found_after self class index }
    {
        match index {
            Some(index) => match self {
                FoundMethods::Nothing => FoundMethods::One { class, index },
                FoundMethods::One { class: other, .. } if other == class => self,
                FoundMethods::One { .. } | FoundMethods::Several => FoundMethods::Several,
            },
            None => self,
        }
    }

    /// Whether there are several.
    pub(crate) fn are_several(self) -> bool
        ensures { IsTrue result → self ≡ found.Several }
    {
        match self {
            FoundMethods::Nothing | FoundMethods::One { .. } => false,
            FoundMethods::Several => true,
        }
    }

    /// The method, if there is one and no other.
    pub(crate) fn only(self) -> Option<DeclaredMember>
        ensures { result ≡ only_of self }
    {
        match self {
            FoundMethods::One { class, index } => Some(DeclaredMember { class, index }),
            FoundMethods::Nothing | FoundMethods::Several => None,
        }
    }
}

impl Hierarchy {
    /// The one default of a class: the only method that is not abstract among its maximally specific superinterface
    /// methods.
    pub(crate) fn the_default(&self, class: u32, key: Option<MemberKey>) -> Option<DeclaredMember>
        ensures { (name : NameAndType) → IsLookup self.now.texts name key
            → MatchOption result (HasNoDefault self.now.family name class)
            (λ x. IsTheDefault self.now.family name class x.class x.index) }
    {
        if self.is_undeclared(Wanted::InterfaceMethod, key) {
            return None;
        }
        if self.has_parents(class) {
            return self.default_above(class, key);
        }
        None
    }

    /// Whether a class has given parents.
    fn has_parents(&self, class: u32) -> bool
        ensures { IsTrue result ↔ 0 < length (parents_in self.now.family class) }
    {
        let interfaces = self.family().interfaces(class);
        !interfaces.is_empty() || self.given_superclass(class).is_some()
    }

    /// The one default of a class, by a list of its ancestors or by flags of them. A list is looked through for each
    /// class that was noted, so it serves where few were.
    fn default_above(&self, class: u32, key: Option<MemberKey>) -> Option<DeclaredMember>
        ensures { (name : NameAndType) → IsLookup self.now.texts name key
            → MatchOption result (HasNoDefault self.now.family name class)
            (λ x. IsTheDefault self.now.family name class x.class x.index) }
    {
        if self.noted(Wanted::InterfaceMethod, key).len() > 64 {
            return self.default_flagged(class, key);
        }
        match FewClasses::ancestors(self.family(), class) {
            Some(few) => self.default_among(class, Above::Few(&few), key),
            None => self.default_flagged(class, key),
        }
    }

    /// The one default of a class, by flags of all its ancestors. It stands apart, as its flags take 192 KB of the
    /// stack: a caller that has them in its own frame pays for them at each call.
    #[inline(never)]
    fn default_flagged(&self, class: u32, key: Option<MemberKey>) -> Option<DeclaredMember>
        ensures { (name : NameAndType) → IsLookup self.now.texts name key
            → MatchOption result (HasNoDefault self.now.family name class)
            (λ x. IsTheDefault self.now.family name class x.class x.index) }
    {
        let flagged = ClassSet::ancestors(self.family(), class);
        self.default_among(class, Above::Flagged(&flagged), key)
    }

    /// The one default of a class with these ancestors. Those that have the method are among the classes that were
    /// noted for it.
    pub(crate) fn default_among(
        &self,
        class: u32,
        above: Above<'_>,
        key: Option<MemberKey>,
    ) -> Option<DeclaredMember>
        requires { (m : ℕ) → Contains (classes_of above) m ↔ IsAncestor self.now.family class m }
        ensures { (name : NameAndType) → IsLookup self.now.texts name key
            → MatchOption result (HasNoDefault self.now.family name class)
            (λ x. IsTheDefault self.now.family name class x.class x.index) }
    {
        let _classes = self.family().classes();
        match self.candidates(above, key) {
            FoundMethods::Nothing => None,
            FoundMethods::One {
                class: interface,
                index,
            } => {
                if is_abstract(self.flags(interface, index)) {
                    return None;
                }
                Some(DeclaredMember {
                    class: interface,
                    index,
                })
            }
            FoundMethods::Several => self.all_defaults(above, key).only(),
        }
    }

    /// The defaults among the ancestors. It stands apart, as `default_flagged` does.
    #[inline(never)]
    fn all_defaults(&self, above: Above<'_>, key: Option<MemberKey>) -> FoundMethods
        ensures { (name : NameAndType) → IsLookup self.now.texts name key
            → AreDefaults self.now.family name (classes_of above.entry) result }
    {
        let covered = self.above_candidates(above, key);
        self.defaults(above, &covered, key)
    }

    /// The ancestors that have the method.
    fn candidates(&self, above: Above<'_>, key: Option<MemberKey>) -> FoundMethods
        ensures { (name : NameAndType) → IsLookup self.now.texts name key
            → AreFound (HasMethod self.now.family name) (classes_of above.entry) result }
    {
        let mut found = FoundMethods::Nothing;
        let row = self.noted(Wanted::InterfaceMethod, key);
        for reach in row {
            found = self.with_candidate(above, key, found, reach);
        }
        found
    }

    /// What was found, with a class that was noted, if it is an ancestor that has the method.
    fn with_candidate(
        &self,
        above: Above<'_>,
        key: Option<MemberKey>,
        found: FoundMethods,
        reach: &Reach,
    ) -> FoundMethods
        ensures { (name : NameAndType) (asked : List ℕ) → IsLookup self.now.texts name key
            → AreFound (Among (HasMethod self.now.family name) (classes_of above.entry)) asked found
            → AreFound (Among (HasMethod self.now.family name) (classes_of above.entry))
            (asked ++ class_noted reach.now.nearest) result }
    {
        match reach.nearest {
            Some(member) => found.and(member.class, self.candidate(above, key, member.class)),
            None => found,
        }
    }

    /// The place of a class's method, if it is an ancestor.
    fn candidate(&self, above: Above<'_>, key: Option<MemberKey>, class: u32) -> Option<u16>
        ensures { (name : NameAndType) → IsLookup self.now.texts name key
            → MatchOption result
            ((k : ℕ) → ¬ Among (HasMethod self.now.family name) (classes_of above.entry) class k)
            (λ k. Among (HasMethod self.now.family name) (classes_of above.entry) class k) }
    {
        if above.has(class) {
            self.find(Wanted::InterfaceMethod, class, key)
        } else {
            None
        }
    }

    /// The classes that stand above an ancestor that has the method.
    fn above_candidates(&self, above: Above<'_>, key: Option<MemberKey>) -> ClassSet
        ensures { (name : NameAndType) → IsLookup self.now.texts name key
            → AreCovered self.now.family name (classes_of above.entry) result }
    {
        let mut covered = self.parents_of_candidates(above, key);
        covered.add_above(self.family());
        covered
    }

    /// The parents of the ancestors that have the method.
    fn parents_of_candidates(&self, above: Above<'_>, key: Option<MemberKey>) -> ClassSet
        ensures { (name : NameAndType) → IsLookup self.now.texts name key
            → AreParentsOf self.now.family (HasMethod self.now.family name) (classes_of above.entry) result }
    {
        let mut parents = ClassSet::none();
        let row = self.noted(Wanted::InterfaceMethod, key);
        for reach in row {
            self.add_parents_of(above, key, reach, &mut parents);
        }
        parents
    }

    /// Adds the parents of a class that was noted, if it is an ancestor that has the method.
    fn add_parents_of(
        &self,
        above: Above<'_>,
        key: Option<MemberKey>,
        reach: &Reach,
        parents: &mut ClassSet,
    )
        ensures { (name : NameAndType) (asked : List ℕ) → IsLookup self.now.texts name key
            → AreParentsOf self.now.family (Among (HasMethod self.now.family name) (classes_of above.entry)) asked
            parents.old
            → AreParentsOf self.now.family (Among (HasMethod self.now.family name) (classes_of above.entry))
            (asked ++ class_noted reach.now.nearest) parents.new }
    {
        let Some(member) = reach.nearest else {
            return;
        };
        if self.candidate(above, key, member.class).is_some() {
            parents.add_parents(self.family(), member.class);
        }
    }

    /// The defaults among the ancestors: those that are not covered.
    fn defaults(&self, above: Above<'_>, covered: &ClassSet, key: Option<MemberKey>) -> FoundMethods
        ensures { (name : NameAndType) → IsLookup self.now.texts name key
            → AreFound (IsFree self.now.family name covered.now) (classes_of above.entry) result }
    {
        let mut found = FoundMethods::Nothing;
        let row = self.noted(Wanted::InterfaceMethod, key);
        for reach in row {
            found = self.with_default(above, covered, key, found, reach);
        }
        found
    }

    /// What was found, with a class that was noted, if it is an ancestor with a default that is not covered.
    fn with_default(
        &self,
        above: Above<'_>,
        covered: &ClassSet,
        key: Option<MemberKey>,
        found: FoundMethods,
        reach: &Reach,
    ) -> FoundMethods
        ensures { (name : NameAndType) (asked : List ℕ) → IsLookup self.now.texts name key
            → AreFound (Among (IsFree self.now.family name covered.now) (classes_of above.entry)) asked found
            → AreFound (Among (IsFree self.now.family name covered.now) (classes_of above.entry))
            (asked ++ class_noted reach.now.nearest) result }
    {
        let Some(member) = reach.nearest else {
            return found;
        };
        if above.has(member.class) {
            let index = self.default_in(member.class, covered, key);
            found.and(member.class, index)
        } else {
            found
        }
    }

    /// The place of a class's method, if the class is not covered and the method not abstract.
    fn default_in(&self, class: u32, covered: &ClassSet, key: Option<MemberKey>) -> Option<u16>
        ensures { (name : NameAndType) → IsLookup self.now.texts name key
            → MatchOption result ((k : ℕ) → ¬ IsFree self.now.family name covered.now class k)
            (λ k. IsFree self.now.family name covered.now class k) }
    {
        let index = self.find(Wanted::InterfaceMethod, class, key)?;
        if is_abstract(self.flags(class, index)) {
            return None;
        }
        if covered.has(class) {
            return None;
        }
        Some(index)
    }
}

/// Whether a method of these flags has no code.
fn is_abstract(flags: u16) -> bool
    ensures { result ≡ is_abstract flags }
{
    has_flag(flags, ABSTRACT)
}
