//! Equal entries of a constant pool, so that each is resolved once (JVMS 4.4.2, 4.4.3).

ghost use Rattle.std.specs.Prelude.{◌≡◌, ℕ, Some, IsTrue, IfSome, slice_get};

use crate::class::RuntimePool;
use crate::runtime_constant::RuntimeConstant;
use classfile::{ClassFile, Constant};
use std::alloc::{AllocError, Global};

/// By the index of a text: where a String of this text stood last.
#[derive(Drop)]
pub(crate) struct EarlierStrings {
    indices: Vec<Option<u16>>,
}

impl EarlierStrings {
    /// None.
    pub(crate) fn new(alloc: Global) -> Self {
        EarlierStrings {
            indices: Vec::new(alloc),
        }
    }

    /// The index of an earlier String of the same text.
    fn index(&self, constant: &Constant) -> Option<u16> {
        match constant {
            Constant::String { text } => *self.indices.get(usize::from(*text))?,
            _ => None,
        }
    }

    /// Notes where an entry of a pool of `count` stands, if it is a String.
    pub(crate) fn note(
        &mut self,
        constant: &Constant,
        index: u16,
        count: usize,
    ) -> Result<(), AllocError> {
        let Constant::String { text } = constant else {
            return Ok(());
        };
        if self.indices.is_empty() {
            self.indices.resize(count, None)?;
        }
        if let Some(place) = self.indices.get_mut(usize::from(*text)) {
            *place = Some(index);
        }
        Ok(())
    }

    /// What an earlier entry that is equal stands for.
    pub(crate) fn held(
        &self,
        file: &ClassFile,
        constant: &Constant,
        pool: &RuntimePool,
    ) -> Option<RuntimeConstant>
        ensures { IfSome result (λ held. (i : ℕ) × (slice_get file.now.constants i ≡ Some constant.now)
            × (slice_get pool.now i ≡ Some held)) }
    {
        let index = self.index(constant)?;
        if !stands_at(file, index, constant) {
            return None;
        }
        let held = pool.at(index)?;
        Some(held)
    }
}

/// The class and the name and type that a reference to a member names, by their indices.
pub(crate) fn member_named(constant: &Constant) -> Option<(u16, u16)> {
    match constant {
        Constant::Fieldref {
            class,
            name_and_type,
        }
        | Constant::Methodref {
            class,
            name_and_type,
        }
        | Constant::InterfaceMethodref {
            class,
            name_and_type,
        } => Some((*class, *name_and_type)),
        _ => None,
    }
}

/// Whether an equal entry stands at an index.
pub(crate) fn stands_at(file: &ClassFile, index: u16, other: &Constant) -> bool
    ensures { IsTrue result → slice_get file.now.constants index ≡ Some other.now }
{
    match file.constant(index) {
        Some(constant) => is_equal(constant, other),
        None => false,
    }
}

/// Whether two entries are Strings of the same text, or references of one kind to the same member.
fn is_equal(constant: &Constant, other: &Constant) -> bool
    ensures { IsTrue result → constant.now ≡ other.now }
{
    match (constant, other) {
        (Constant::String { text }, Constant::String { text: same }) => text == same,
        (
            Constant::Fieldref {
                class,
                name_and_type,
            },
            Constant::Fieldref {
                class: same_class,
                name_and_type: same,
            },
        ) => class == same_class && name_and_type == same,
        (
            Constant::Methodref {
                class,
                name_and_type,
            },
            Constant::Methodref {
                class: same_class,
                name_and_type: same,
            },
        ) => class == same_class && name_and_type == same,
        (
            Constant::InterfaceMethodref {
                class,
                name_and_type,
            },
            Constant::InterfaceMethodref {
                class: same_class,
                name_and_type: same,
            },
        ) => class == same_class && name_and_type == same,
        _ => false,
    }
}
