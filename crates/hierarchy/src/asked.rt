//! The references of class files to members that an interface may declare (JVMS 4.4.2).

ghost use Rattle.std.specs.Prelude.{◌≡◌, ◌<◌, ◌≤◌, length};
ghost use Rattle.hierarchy.specs.steps.FoundAhead.{wanted_by};

use crate::bits::BITS;
use crate::hierarchy::Hierarchy;
use crate::member_key::MemberKey;
use crate::member_name::MemberName;
use crate::wanted::Wanted;
use classfile::{ClassFile, Constant};
use loading::family::Family;
use loading::names::text_at;
use std::alloc::{AllocError, Global};
use std::cmp::Ordering;

/// Which references are looked at.
#[derive(Clone, Copy)]
pub(crate) enum MemberKind {
    Field,
    Method,
}

impl MemberKind {
    /// What is looked for: a field of any class, or a method of an interface.
    pub(crate) fn wanted(self) -> Wanted
        ensures { result ≡ wanted_by self }
    {
        match self {
            MemberKind::Field => Wanted::Field,
            MemberKind::Method => Wanted::InterfaceMethod,
        }
    }

    /// What is looked for in interfaces: a field or a method.
    fn of_interfaces(self) -> Wanted {
        match self {
            MemberKind::Field => Wanted::InterfaceField,
            MemberKind::Method => Wanted::InterfaceMethod,
        }
    }

    /// The indices of the class and of the name and type of a reference of this kind.
    fn indices(self, constant: &Constant) -> Option<(u16, u16)> {
        let is_field = matches!(self, MemberKind::Field);
        match constant {
            Constant::Fieldref {
                class,
                name_and_type,
            } if is_field => Some((*class, *name_and_type)),
            Constant::Methodref {
                class,
                name_and_type,
            }
            | Constant::InterfaceMethodref {
                class,
                name_and_type,
            } if !is_field => Some((*class, *name_and_type)),
            _ => None,
        }
    }
}

/// A reference to a member of a given class.
#[derive(Clone, Copy)]
pub(crate) struct AskedReference {
    pub(crate) key: MemberKey,
    pub(crate) class: u32,
    pub(crate) member: MemberName,
}

/// By name and descriptor, then by class.
fn by_key(a: &AskedReference, b: &AskedReference) -> Ordering {
    (a.key.name, a.key.descriptor, a.class).cmp(&(b.key.name, b.key.descriptor, b.class))
}

/// A name of a class file that was sought among the given classes.
#[derive(Clone, Copy)]
struct NameSought {
    /// The class whose file it is.
    of: u32,
    /// The class that has this name.
    found: Option<u32>,
}

/// Names of class files that were sought, one file after the other.
#[derive(Drop)]
struct NamesSought {
    /// By index of a name: the last one that was sought.
    last: Vec<Option<NameSought>>,
}

impl NamesSought {
    /// None was sought yet.
    fn none(alloc: Global) -> Self {
        NamesSought {
            last: Vec::new(alloc),
        }
    }

    /// The number of the given class that the Class at an index of a class file names. Each name of a file is sought
    /// once, however many references have it.
    fn number_of(
        &mut self,
        family: &Family,
        of: u32,
        file: &ClassFile,
        named: u16,
    ) -> Result<Option<u32>, AllocError> {
        let Some(Constant::Class { name }) = file.constant(named) else {
            return Ok(None);
        };
        let place = usize::from(*name);
        if place >= self.last.len() {
            self.last.resize(place + 1, None)?;
        }
        if let Some(sought) = self.last[place] {
            if sought.of == of {
                return Ok(sought.found);
            }
        }
        let found = family.number_of(text_at(file, *name));
        self.last[place] = Some(NameSought { of, found });
        Ok(found)
    }
}

impl Hierarchy {
    /// How many references, from the first on, have together no more declarations than are looked at in one way; or
    /// those of one name and descriptor.
    pub(crate) fn batch_length(&self, wanted: Wanted, asked: &[AskedReference]) -> usize
        ensures few { result ≤ length asked.now }
        ensures some { 0 < length asked.now → 0 < result }
    {
        let mut declared: usize = 0;
        let mut count = 0;
        while count < asked.len() {
            if count == 0 || !asked[count].key.is(asked[count - 1].key) {
                let row = self.noted(wanted, Some(asked[count].key)).len();
                declared = declared.saturating_add(row);
                if declared > BITS && count > 0 {
                    return count;
                }
            }
            count += 1;
        }
        count
    }

    /// The references of a kind to members of given classes that an interface may declare, those of one name and
    /// descriptor together.
    pub(crate) fn asked(
        &self,
        alloc: Global,
        kind: MemberKind,
    ) -> Result<Vec<AskedReference>, AllocError> {
        let mut asked = Vec::new(alloc);
        let mut names = NamesSought::none(alloc);
        for (class, given) in self.family().classes().iter().enumerate() {
            self.add_asked(kind, class as u32, &given.file, &mut names, &mut asked)?;
        }
        asked.sort_unstable_by(|a, b| by_key(a, b));
        Ok(asked)
    }

    /// Adds those of a class file.
    fn add_asked(
        &self,
        kind: MemberKind,
        class: u32,
        file: &ClassFile,
        names: &mut NamesSought,
        asked: &mut Vec<AskedReference>,
    ) -> Result<(), AllocError> {
        for constant in file.constants() {
            if let Some((named, name_and_type)) = kind.indices(constant) {
                if let Some(member) = self.asked_member(kind, class, file, name_and_type) {
                    if let Some(class) = names.number_of(self.family(), class, file, named)? {
                        let key = self.key(member);
                        asked.push(AskedReference { key, class, member })?;
                    }
                }
            }
        }
        Ok(())
    }

    /// The member at an index of a class file, if an interface may declare it.
    fn asked_member(
        &self,
        kind: MemberKind,
        class: u32,
        file: &ClassFile,
        name_and_type: u16,
    ) -> Option<MemberName> {
        let Some(Constant::NameAndType { name, descriptor }) = file.constant(name_and_type) else {
            return None;
        };
        let member = MemberName {
            class,
            name: *name,
            descriptor: *descriptor,
        };
        if self.is_undeclared(kind.of_interfaces(), Some(self.key(member))) {
            return None;
        }
        Some(member)
    }
}
