//! What was found for references before they are resolved.

ghost use Rattle.std.specs.Prelude.{◌≡◌, ℕ, Some, None, OnOk, if◌then◌else◌};
ghost use Rattle.hierarchy.specs.declared.member_key.MemberKey.{MemberKey as Key};
ghost use Rattle.hierarchy.specs.steps.FoundAhead.{found_in};
ghost use Rattle.hierarchy.specs.steps.MemberKeys.{same_member};

use crate::member::DeclaredMember;
use crate::member_key::{ClassMember, MemberKey};
use std::alloc::{AllocError, Global};
use std::collections::BTreeMap;

/// By the class that a reference names, and the numbers of its name and descriptor: the member that it resolves to, or
/// that there is none.
pub(crate) struct FoundAhead {
    found: BTreeMap<ClassMember, Option<DeclaredMember>>,
}

// By hand, since a derived one is proved anew wherever one is let go.
impl Drop for FoundAhead {
    fn drop(self) {
        let FoundAhead { found: _ } = self;
    }
}

impl FoundAhead {
    /// Nothing found.
    pub(crate) fn new(alloc: Global) -> Self
        ensures { (class : ℕ) (key : Key) → found_in result class key ≡ None }
    {
        FoundAhead {
            found: BTreeMap::new(alloc),
        }
    }

    /// What was found for a reference.
    pub(crate) fn get(&self, class: u32, key: MemberKey) -> Option<Option<DeclaredMember>>
        ensures { result ≡ found_in self.now class key }
    {
        if self.found.is_empty() {
            return None;
        }
        let class = class as usize;
        self.found.get(&ClassMember { class, key }).copied()
    }

    /// Notes what was found for a reference.
    pub(crate) fn insert(
        &mut self,
        class: u32,
        key: MemberKey,
        member: Option<DeclaredMember>,
    ) -> Result<(), AllocError>
        ensures { OnOk result ((c : ℕ) (k : Key) → found_in self.new c k
            ≡ (if same_member (record { class = class; key = key }) (record { class = c; key = k }) then Some member
            else found_in self.old c k)) }
    {
        let class = class as usize;
        self.found.insert(ClassMember { class, key }, member)?;
        Ok(())
    }
}
