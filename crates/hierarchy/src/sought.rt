//! What a member is looked for by.

ghost use Rattle.std.specs.Prelude.{◌≡◌, Some, IsTrue};
ghost use Rattle.built_in.specs.Methods.{key_of_member};
ghost use Rattle.hierarchy.specs.MemberNames.{named_in};
ghost use Rattle.hierarchy.specs.steps.MemberKeys.{IsLookup};
ghost use Rattle.hierarchy.specs.steps.Sought.{sought_name};

use crate::hierarchy::Hierarchy;
use crate::member_key::MemberKey;
use crate::member_name::MemberName;
use built_in::method::BuiltInMethod;

/// A name and a descriptor, as texts for built-in classes and by their numbers for given ones.
#[derive(Clone, Copy)]
pub(crate) struct Sought<'a> {
    pub(crate) name: &'a [u8],
    pub(crate) descriptor: &'a [u8],
    /// None where no given class has a member of this name and descriptor.
    pub(crate) key: Option<MemberKey>,
}

impl Sought<'_> {
    /// Whether these are the numbers of its name and descriptor.
    pub(crate) fn is_of(self, key: MemberKey) -> bool
        ensures { IsTrue result → self.entry.key ≡ Some key }
    {
        match self.key {
            Some(own) => own.name == key.name && own.descriptor == key.descriptor,
            None => false,
        }
    }
}

impl Hierarchy {
    /// What a class file calls a member.
    pub(crate) fn sought(&self, member: MemberName) -> Sought<'_>
        ensures name { sought_name result ≡ named_in self.now.family member }
        ensures lookup { IsLookup self.now.texts (sought_name result) result.key }
    {
        let key = self.key(member);
        Sought {
            name: self.text_of(key.name),
            descriptor: self.text_of(key.descriptor),
            key: Some(key),
        }
    }

    /// What a member of a built-in class is called.
    pub(crate) fn sought_built_in(&self, member: BuiltInMethod) -> Sought<'static>
        ensures name { sought_name result ≡ key_of_member member }
        ensures lookup { IsLookup self.now.texts (sought_name result) result.key }
    {
        Sought {
            name: member.name().as_bytes(),
            descriptor: member.descriptor().as_bytes(),
            key: Some(self.built_in_key(member)),
        }
    }
}
