//! What a virtual call may select for objects of any given class (JVMS 6.5, invokevirtual and invokeinterface).

ghost use Rattle.std.specs.Prelude.{◌≡◌, ◌↔◌, ◌⊎◌, ℕ, Some, None, MatchOption, OnOk};
ghost use Rattle.std.specs.List.{Contains};
ghost use Rattle.built_in.specs.Keys.{NameAndType};
ghost use Rattle.hierarchy.specs.Resolution.{instance_method_in};
ghost use Rattle.hierarchy.specs.Selectable.{AddsNamedLike, IsSelectable, IsAmong};
ghost use Rattle.hierarchy.specs.steps.MemberKeys.{IsLookup};
ghost use Rattle.hierarchy.specs.steps.Selectable.{declared_as};

use crate::hierarchy::Hierarchy;
use crate::member::{DeclaredMember, Method};
use crate::member_key::MemberKey;
use crate::wanted::Wanted;
use classfile::flags::{PRIVATE, has_flag};
use std::alloc::AllocError;

/// The methods that calls of a resolved method may run on objects of given classes.
#[derive(Clone, Copy)]
pub enum Selectable {
    /// None that a given class declares.
    Nothing,
    /// This one alone.
    Alone(DeclaredMember),
    /// Each method, neither private nor static, that a given class declares by the name and descriptor of this one.
    Named(DeclaredMember),
}

impl Hierarchy {
    /// What calls of a resolved method may run on objects of given classes. For methods of one name and descriptor
    /// that are not private it is the same.
    pub fn selectable(&self, method: Method) -> Selectable
        ensures { (d k : ℕ) → IsSelectable self.now.family method d k ↔ IsAmong self.now.family result d k }
    {
        match method {
            Method::BuiltIn(member) => self.selectable_by(self.sought_built_in(member).key),
            Method::Given { class, index } => {
                if has_flag(self.flags(class, index), PRIVATE) {
                    return Selectable::Alone(DeclaredMember { class, index });
                }
                match self.name_of(class, index) {
                    Some(member) => self.selectable_by(self.sought(member).key),
                    None => Selectable::Nothing,
                }
            }
        }
    }

    /// What is selected by a name and a descriptor.
    fn selectable_by(&self, key: Option<MemberKey>) -> Selectable
        ensures { (name : NameAndType) (d k : ℕ) → IsLookup self.now.texts name key
            → (instance_method_in self.now.family name d ≡ Some k) ↔ IsAmong self.now.family result d k }
    {
        match self.first_declared(key) {
            Some(member) => Selectable::Named(member),
            None => Selectable::Nothing,
        }
    }

    /// The first method, neither private nor static, that was noted of a name and a descriptor.
    fn first_declared(&self, key: Option<MemberKey>) -> Option<DeclaredMember>
        ensures { (name : NameAndType) → IsLookup self.now.texts name key → MatchOption result
            ((d : ℕ) → instance_method_in self.now.family name d ≡ None)
            (λ member. instance_method_in self.now.family name member.class ≡ Some member.index) }
    {
        for reach in self.noted(Wanted::InstanceMethod, key) {
            if let Some(member) = self.declared_at(reach.nearest, key) {
                return Some(member);
            }
        }
        None
    }

    /// The method, neither private nor static, that the class of a member declares by a name and a descriptor.
    fn declared_at(
        &self,
        noted: Option<DeclaredMember>,
        key: Option<MemberKey>,
    ) -> Option<DeclaredMember>
        ensures { (name : NameAndType) → IsLookup self.now.texts name key
            → result ≡ declared_as (instance_method_in self.now.family name) noted }
    {
        let class = noted?.class;
        let index = self.find(Wanted::InstanceMethod, class, key)?;
        Some(DeclaredMember { class, index })
    }

    /// Adds each method, neither private nor static, that a given class declares by the name and descriptor of a
    /// method. Some may come more than once.
    ///
    /// # Errors
    /// Where memory runs out.
    pub fn add_named_like(
        &self,
        member: DeclaredMember,
        methods: &mut Vec<DeclaredMember>,
    ) -> Result<(), AllocError>
        ensures { OnOk result (AddsNamedLike self.now.family member methods.old.items methods.new.items) }
    {
        let Some(name) = self.name_of(member.class, member.index) else {
            return Ok(());
        };
        self.add_declared(self.sought(name).key, methods)?;
        Ok(())
    }

    /// Adds each method, neither private nor static, that a given class declares by a name and a descriptor.
    fn add_declared(
        &self,
        key: Option<MemberKey>,
        methods: &mut Vec<DeclaredMember>,
    ) -> Result<(), AllocError>
        ensures { OnOk result ((name : NameAndType) (d k : ℕ) → IsLookup self.now.texts name key
            → Contains methods.new.items (record { class = d; index = k })
            ↔ (Contains methods.old.items (record { class = d; index = k })
            ⊎ (instance_method_in self.now.family name d ≡ Some k))) }
    {
        for reach in self.noted(Wanted::InstanceMethod, key) {
            if let Some(found) = self.declared_at(reach.nearest, key) {
                methods.push(found)?;
            }
        }
        Ok(())
    }
}
