//! The kinds of the values that the static fields of a class and the slots of its objects hold.

ghost use Rattle.std.specs.Prelude.{◌≡◌, ◌++◌, ◌∷◌, [], map, reverse, IfOk, OnOk};
ghost use Rattle.std.specs.List.{filter};
ghost use Rattle.program.specs.Fields.{is_static_field, statics_of};
ghost use Rattle.program.specs.InstanceFields.{kind_of, slots_of, static_kinds};
ghost use Rattle.program.specs.steps.Slots.{AreSlots};

use crate::linked_program::Program;
use crate::runtime_constant::FieldKind;
use crate::slots::SlotTable;
use crate::statics::{field_kind, is_static_field};
use classfile::{ClassFile, Member};
use loading::family::Family;
use loading::names::text_at;
use std::alloc::{AllocError, Global};

impl Program {
    /// The kinds of the slots of the objects of a class, those of the uppermost superclass first.
    ///
    /// # Errors
    /// Where memory runs out.
    pub fn slot_kinds(&self, alloc: Global, class: u32) -> Result<Vec<FieldKind>, AllocError>
        ensures { IfOk result (λ kinds. kinds.items ≡ slots_of self.now.family class) }
    {
        let mut kinds = Vec::new(alloc);
        add_kinds(self.hierarchy.family(), &self.slots, class, &mut kinds)?;
        kinds.reverse();
        Ok(kinds)
    }

    /// The kinds of the static fields of a class that have values, in the file's order.
    ///
    /// # Errors
    /// Where memory runs out.
    pub fn static_kinds(&self, alloc: Global, class: u32) -> Result<Vec<FieldKind>, AllocError>
        ensures { IfOk result (λ kinds. kinds.items ≡ static_kinds self.now.family class) }
    {
        let mut kinds = Vec::new(alloc);
        if let Some(file) = self.hierarchy.family().file(class) {
            add_static_kinds(file, &mut kinds)?;
        }
        Ok(kinds)
    }
}

/// Adds the kind of each slot of a class, the last first.
fn add_kinds(
    family: &Family,
    tables: &SlotTable,
    class: u32,
    kinds: &mut Vec<FieldKind>,
) -> Result<(), AllocError>
    requires tables { AreSlots family.now tables.now }
    requires empty { kinds.old.items ≡ [] }
    ensures { OnOk result (reverse kinds.new.items ≡ slots_of family.now class) }
{
    let _classes = family.classes();
    let mut next = tables.chain(class).nearest;
    while let Some(adding) = next {
        add_kinds_of(tables.added(adding), kinds)?;
        next = tables.above(family, adding).nearest;
    }
    Ok(())
}

/// Adds each of some kinds, the last first.
fn add_kinds_of(added: &[FieldKind], kinds: &mut Vec<FieldKind>) -> Result<(), AllocError>
    ensures { OnOk result (reverse kinds.new.items ≡ added.now ++ reverse kinds.old.items) }
{
    for index in (0..added.len()).rev() {
        kinds.push(added[index])?;
    }
    Ok(())
}

/// Adds the kinds of the static fields that have values.
fn add_static_kinds(file: &ClassFile, kinds: &mut Vec<FieldKind>) -> Result<(), AllocError>
    requires { kinds.old.items ≡ [] }
    ensures { OnOk result (kinds.new.items ≡ map (kind_of file.now) (statics_of file.now)) }
{
    let fields = file.fields();
    for field in fields {
        add_static_kind(file, field, kinds)?;
    }
    Ok(())
}

/// Adds the kind of a field, if it is static and has a value.
fn add_static_kind(
    file: &ClassFile,
    field: &Member,
    kinds: &mut Vec<FieldKind>,
) -> Result<(), AllocError>
    ensures { OnOk result (kinds.new.items
        ≡ kinds.old.items ++ map (kind_of file.now) (filter (is_static_field file.now) (field.now ∷ []))) }
{
    if is_static_field(file, field) {
        kinds.push(field_kind(text_at(file, field.descriptor)))?;
    }
    Ok(())
}
