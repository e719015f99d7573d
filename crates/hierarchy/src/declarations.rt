//! The declarations of members by some names and descriptors.

ghost use Rattle.std.specs.Prelude.{◌≡◌, ℕ, Some, OnOk, not};
ghost use Rattle.std.specs.List.{Contains};
ghost use Rattle.built_in.specs.Keys.{NameAndType};
ghost use Rattle.hierarchy.specs.MemberLookup.{flags_in, is_abstract};
ghost use Rattle.hierarchy.specs.declared.wanted.Wanted.TheVariants as kind;
ghost use Rattle.hierarchy.specs.steps.Declarations.{AreDeclared, IsListed, IsWhole, Grows};
ghost use Rattle.hierarchy.specs.steps.HierarchyTables.{wanted_in};
ghost use Rattle.hierarchy.specs.steps.MemberKeys.{AreNumbers};
ghost use Rattle.hierarchy.specs.steps.Reaches.{class_noted};

use crate::hierarchy::Hierarchy;
use crate::member::DeclaredMember;
use crate::member_key::MemberKey;
use crate::reach_table::Reach;
use crate::wanted::Wanted;
use classfile::flags::{ABSTRACT, has_flag};
use std::alloc::AllocError;

/// A member that a class declares.
#[derive(Clone, Copy)]
pub(crate) struct Declaration {
    pub(crate) key: MemberKey,
    pub(crate) member: DeclaredMember,
    /// Whether it is a superinterface method with code, as far as its flags say.
    pub(crate) coded: bool,
}

impl Hierarchy {
    /// Adds all declarations of a name and descriptor.
    pub(crate) fn add_declarations(
        &self,
        wanted: Wanted,
        key: MemberKey,
        declared: &mut Vec<Declaration>,
    ) -> Result<(), AllocError>
        requires { AreDeclared self.now wanted declared.old.items }
        ensures goes { OnOk result (Grows self.now wanted key declared.old.items declared.new.items) }
        ensures whole { OnOk result (IsWhole self.now wanted declared.new.items key) }
    {
        let row = self.noted(wanted, Some(key));
        for reach in row {
            self.add_noted(wanted, key, reach, declared)?;
        }
        Ok(())
    }

    /// Adds that of a class that was noted, if it is one.
    fn add_noted(
        &self,
        wanted: Wanted,
        key: MemberKey,
        reach: &Reach,
        declared: &mut Vec<Declaration>,
    ) -> Result<(), AllocError>
        requires { AreDeclared self.now wanted declared.old.items }
        ensures goes { OnOk result (Grows self.now wanted key declared.old.items declared.new.items) }
        ensures there { OnOk result ((name : NameAndType) (class k : ℕ) → AreNumbers self.now.texts name key
            → wanted_in wanted self.now.family name class ≡ Some k → Contains (class_noted reach.now.nearest) class
            → IsListed declared.new.items key class) }
    {
        let Some(member) = reach.nearest else {
            return Ok(());
        };
        let class = member.class;
        let Some(index) = self.find(wanted, class, Some(key)) else {
            return Ok(());
        };
        declared.push(Declaration {
            key,
            member: DeclaredMember { class, index },
            coded: self.has_code(wanted, class, index),
        })?;
        Ok(())
    }

    /// Whether a superinterface method has code. Of other members this is not asked.
    fn has_code(&self, wanted: Wanted, class: u32, index: u16) -> bool
        ensures { wanted ≡ kind.InterfaceMethod
            → result ≡ not (is_abstract (flags_in self.now.family class index)) }
    {
        match wanted {
            Wanted::InterfaceMethod => !has_flag(self.flags(class, index), ABSTRACT),
            _ => false,
        }
    }
}
