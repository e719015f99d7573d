//! The slots of fields of instances in objects.

ghost use Rattle.std.specs.Prelude.{◌≡◌, ◌+◌, ◌<◌, ◌^◌, length, IfOk, slice_index_or};
ghost use Rattle.program.specs.InstanceFields.{own_kinds};
ghost use Rattle.program.specs.steps.Slots.{AreSlots, AreFieldSlots, AreFieldSlotsOf};

use crate::instance_fields::is_instance_field;
use crate::slots::SlotTable;
use classfile::ClassFile;
use loading::family::Family;
use std::alloc::{AllocError, Global};
use std::marker::Model;

/// For each field of a class, how many slots stand before it in objects.
#[derive(Drop)]
pub(crate) struct FieldSlots {
    slots: Vec<u32>,
}

impl Model for FieldSlots {
    ghost use Rattle.std.specs.Prelude.{List, ℕ};

    ghost Value = { List ℕ };

    ghost view = { λ s. s.slots.items };
}

impl FieldSlots {
    /// The slots of the fields of a class, from how many stand before the first.
    fn of_class(alloc: Global, file: &ClassFile, first: u32) -> Result<FieldSlots, AllocError>
        requires { first + length (own_kinds file.now) < 2 ^ 32 }
        ensures { IfOk result (AreFieldSlots first file.now) }
    {
        let mut slots = Vec::new(alloc);
        let mut before = first;
        let fields = file.fields();
        for field in fields {
            slots.push(before)?;
            if is_instance_field(file, field) {
                before += 1;
            }
        }
        Ok(FieldSlots { slots })
    }

    /// The slot of the field at a place, or 0 where there is none.
    pub(crate) fn slot(&self, index: u16) -> u32
        ensures { result ≡ slice_index_or self.now index 0 }
    {
        match self.slots.get(usize::from(index)) {
            Some(slot) => *slot,
            None => 0,
        }
    }
}

/// By class: the slots of its fields.
pub(crate) fn field_slots_of(
    alloc: Global,
    family: &Family,
    slots: &SlotTable,
) -> Result<Vec<FieldSlots>, AllocError>
    requires { AreSlots family.now slots.now }
    ensures { IfOk result (λ rows. AreFieldSlotsOf family.now rows.items) }
{
    let mut rows = Vec::new(alloc);
    let classes = family.classes();
    for (number, given) in classes.iter().enumerate() {
        let first = slots.before(family, number as u32);
        rows.push(FieldSlots::of_class(alloc, &given.file, first)?)?;
    }
    Ok(rows)
}
