//! How many bytes of an image's text (version 2) a class's region takes.

use built_in::class_id::{ArrayType, ClassId, ElementType};
use classfile::ClassName;
use image_format::elements::kind_of_elements;
use image_format::names::class_name;
use object_graph::Image;
use program::Program;
use program::runtime_constant::FieldKind;
use region_shape::regions::Region;
use std::alloc::{AllocError, Global};
use vm_state::kept::Kept;
use vm_state::object::Slots;
use vm_state::value::Value;

/// A count of bytes, or of what stands behind it.
const COUNT: u64 = 4;

/// A string of the program, with its tag and the count of its units.
fn string_size(alloc: Global, program: &Program, number: usize) -> Result<u64, AllocError> {
    let text = ClassName::from_modified_utf8(alloc, program.string(number).unwrap_or(&[]))?;
    Ok(
        (text.units().len() as u64)
            .saturating_mul(2)
            .saturating_add(3),
    )
}

/// A value with its tag.
fn value_size(alloc: Global, program: &Program, value: Value) -> Result<u64, AllocError> {
    match value {
        Value::Null | Value::Out | Value::OfThread(_, _) => Ok(1),
        Value::Int(_) => Ok(5),
        Value::Long(_) | Value::OfClass(_, _) => Ok(9),
        Value::Text(number) => string_size(alloc, program, number),
    }
}

/// An element of an array whose elements are held as a kind.
fn element_size(
    alloc: Global,
    program: &Program,
    kind: FieldKind,
    value: Value,
) -> Result<u64, AllocError> {
    match kind {
        FieldKind::Byte => Ok(1),
        FieldKind::Char | FieldKind::Short => Ok(2),
        FieldKind::Int => Ok(4),
        FieldKind::Long => Ok(8),
        _ => value_size(alloc, program, value),
    }
}

/// The elements of an array, with their count.
fn elements_size(
    alloc: Global,
    program: &Program,
    kind: FieldKind,
    slots: &Slots,
) -> Result<u64, AllocError> {
    let mut size = COUNT;
    for slot in 0..slots.len() {
        if let Some(value) = slots.get(slot) {
            size = size.saturating_add(element_size(alloc, program, kind, value)?);
        }
    }
    Ok(size)
}

/// The slots of an object.
fn slots_size(alloc: Global, program: &Program, slots: &Slots) -> Result<u64, AllocError> {
    let mut size = 0u64;
    for slot in 0..slots.len() {
        if let Some(value) = slots.get(slot) {
            size = size.saturating_add(value_size(alloc, program, value)?);
        }
    }
    Ok(size)
}

/// The name of a class, with its length.
fn name_size(alloc: Global, program: &Program, class: ClassId) -> Result<u64, AllocError> {
    let length = match class {
        ClassId::Array(
            ArrayType {
                dimensions,
                element: ElementType::Unknown(number),
            },
        ) => {
            let name = program.string(number as usize).unwrap_or(&[]);
            name.len()
                .saturating_add(usize::from(dimensions))
                .saturating_add(2)
        }
        _ => class_name(alloc, program.family(), class)?.len(),
    };
    Ok((length as u64).saturating_add(2))
}

/// An object, with its number and its form.
fn object_size(alloc: Global, program: &Program, object: &Kept) -> Result<u64, AllocError> {
    let class = object.class.id();
    let name = name_size(alloc, program, class)?;
    let slots = &object.slots;
    let held = match class {
        ClassId::Array(array) => elements_size(alloc, program, kind_of_elements(array), slots)?,
        _ => slots_size(alloc, program, slots)?,
    };
    Ok(
        name.saturating_add(held)
            .saturating_add(COUNT)
            .saturating_add(1),
    )
}

/// The objects of a region, with two counts: how many were made, and how many are kept.
fn objects_size(alloc: Global, program: &Program, region: &Region) -> Result<u64, AllocError> {
    let mut size = COUNT.saturating_add(COUNT);
    for place in 0..region.objects.len() {
        if let Some(held) = region.objects.at(place) {
            size = size.saturating_add(object_size(alloc, program, held.1)?);
        }
    }
    Ok(size)
}

/// How many bytes of the text of an image the region of a class takes: none where the class is not initialized.
///
/// # Errors
/// Where memory runs out.
pub fn region_size(alloc: Global, image: &Image, class: u32) -> Result<u64, AllocError> {
    let Some(region) = image.region(class) else {
        return Ok(0);
    };
    let program = image.program();
    let mut size = objects_size(alloc, program, region)?;
    for field in 0..image.static_count(class) {
        size = size.saturating_add(value_size(alloc, program, region.fields.get(field))?);
    }
    Ok(size)
}
