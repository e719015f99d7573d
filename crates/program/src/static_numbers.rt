//! The numbers of static fields among those of their class.

ghost use Rattle.std.specs.Prelude.{◌≡◌, IfOk, slice_index_or};
ghost use Rattle.program.specs.steps.StaticNumbers.{AreStaticNumbers};

use crate::statics::is_static_field;
use classfile::ClassFile;
use std::alloc::{AllocError, Global};
use std::marker::Model;

/// For each field of a class, how many of its static fields with values stand before it.
#[derive(Drop)]
pub(crate) struct StaticNumbers {
    numbers: Vec<u32>,
}

impl Model for StaticNumbers {
    ghost use Rattle.std.specs.Prelude.{List, ℕ};

    ghost Value = { List ℕ };

    ghost view = { λ s. s.numbers.items };
}

impl StaticNumbers {
    /// The numbers of the fields of a class.
    pub(crate) fn of_class(alloc: Global, file: &ClassFile) -> Result<StaticNumbers, AllocError>
        ensures { IfOk result (AreStaticNumbers file.now) }
    {
        let fields = file.fields();
        let mut numbers = Vec::with_capacity(alloc, fields.len())?;
        let mut before = 0;
        for field in fields {
            numbers.push(before)?;
            if is_static_field(file, field) {
                before += 1;
            }
        }
        Ok(StaticNumbers { numbers })
    }

    /// The number of the field at a place, or 0 where there is none.
    pub(crate) fn number(&self, index: u16) -> u32
        ensures { result ≡ slice_index_or self.now index 0 }
    {
        match self.numbers.get(usize::from(index)) {
            Some(number) => *number,
            None => 0,
        }
    }
}
