//! Values, tagged and bare.

ghost use Rattle.std.specs.Prelude.{◌≡◌, ℕ, ◌++◌, List, [], map, slice_index_or, OnOk};
ghost use Rattle.std.specs.List.{flat_map, All};
ghost use Rattle.std.specs.Int.{w8, w16, w32, w64, to_be_bytes, cast_unsigned};
ghost use Rattle.classfile.specs.Spelling.{u1, u2, u4};
ghost use Rattle.vm_state.specs.Statics.{field_in};
ghost use Rattle.image_format.specs.Texts.{u8, units_text, value_text, element_text, int_bits, long_bits};
ghost use Rattle.image_format.specs.Told.{units_in, told_value, told_fields};
ghost use Rattle.image_writer.specs.steps.Sizes.{HasFiles, IsSizedValue};

use crate::numbers::{push_u8, push_u16, push_u32, push_u64, push_units};
use classfile::ClassName;
use program::Program;
use program::runtime_constant::FieldKind;
use std::alloc::{AllocError, Global};
use vm_state::classes::Fields;
use vm_state::object::Slots;
use vm_state::value::Value;

/// A tag and an int.
fn push_int(out: &mut Vec<u8>, number: i32) -> Result<(), AllocError>
    ensures { OnOk result (out.new.items ≡ out.old.items ++ (u1 1 ++ u4 (cast_unsigned w32 number))) }
{
    push_u8(out, 1)?;
    push_u32(out, number.cast_unsigned())
}

/// A tag and a long.
fn push_long(out: &mut Vec<u8>, number: i64) -> Result<(), AllocError>
    ensures { OnOk result (out.new.items ≡ out.old.items ++ (u1 2 ++ u8 (cast_unsigned w64 number))) }
{
    push_u8(out, 2)?;
    push_u64(out, number.cast_unsigned())
}

/// The bytes of a string of the program; none where there is no such string.
pub(crate) fn string_of(program: &Program, number: usize) -> &[u8]
    ensures { result.now ≡ slice_index_or program.now.strings number [] }
{
    match program.string(number) {
        Some(text) => text,
        None => &[],
    }
}

/// A tag and a string of the program.
fn push_text(
    alloc: Global,
    out: &mut Vec<u8>,
    program: &Program,
    number: usize,
) -> Result<(), AllocError>
    requires { HasFiles program.now }
    ensures { OnOk result (out.new.items
        ≡ out.old.items ++ (u1 3 ++ units_text (units_in program.now.strings number))) }
{
    let name = ClassName::from_modified_utf8(alloc, string_of(program, number))?;
    let units = name.units();
    push_u8(out, 3)?;
    push_units(out, units)
}

/// A tag, the number of a class, and that of its object.
fn push_reference(out: &mut Vec<u8>, class: u32, number: u32) -> Result<(), AllocError>
    ensures { OnOk result (out.new.items ≡ out.old.items ++ (u1 4 ++ (u4 class ++ u4 number))) }
{
    push_u8(out, 4)?;
    push_u32(out, class)?;
    push_u32(out, number)
}

/// A value with its tag.
fn push_value(
    alloc: Global,
    out: &mut Vec<u8>,
    program: &Program,
    value: Value,
) -> Result<(), AllocError>
    requires files { HasFiles program.now }
    requires sized { IsSizedValue value }
    ensures { OnOk result (out.new.items ≡ out.old.items ++ value_text (told_value program.now.strings value)) }
{
    match value {
        Value::Int(number) => push_int(out, number),
        Value::Long(number) => push_long(out, number),
        Value::Null => push_u8(out, 0),
        Value::Text(number) => push_text(alloc, out, program, number),
        Value::OfClass(class, number) => push_reference(out, class, number as u32),
        // No region of an image names an object of a thread.
        Value::OfThread(_, _) => push_u8(out, 0),
        Value::Out => push_u8(out, 5),
    }
}

/// Values with their tags.
pub(crate) fn push_values(
    alloc: Global,
    out: &mut Vec<u8>,
    program: &Program,
    slots: &Slots,
) -> Result<(), AllocError>
    requires files { HasFiles program.now }
    requires sized { All IsSizedValue slots.now }
    ensures { OnOk result (out.new.items
        ≡ out.old.items ++ flat_map value_text (map (told_value program.now.strings) slots.now)) }
{
    for slot in 0..slots.len() {
        let Some(value) = slots.get(slot) else {
            return Ok(());
        };
        push_value(alloc, out, program, value)?;
    }
    Ok(())
}

/// The first so many static fields of a class, with their tags.
pub(crate) fn push_fields(
    alloc: Global,
    out: &mut Vec<u8>,
    program: &Program,
    fields: &Fields,
    count: u32,
) -> Result<(), AllocError>
    requires files { HasFiles program.now }
    requires sized { (k : ℕ) → IsSizedValue (field_in fields.now k) }
    ensures { OnOk result (out.new.items
        ≡ out.old.items ++ flat_map value_text (told_fields program.now.strings (field_in fields.now) count)) }
{
    for field in 0..count {
        push_value(alloc, out, program, fields.get(field))?;
    }
    Ok(())
}

/// The bits of an int; 0 of other values.
fn int_bits(value: Value) -> u32
    ensures { (strings : List (List ℕ)) → result ≡ int_bits (told_value strings value) }
{
    match value {
        Value::Int(number) => number.cast_unsigned(),
        _ => 0,
    }
}

/// The bits of a long; 0 of other values.
fn long_bits(value: Value) -> u64
    ensures { (strings : List (List ℕ)) → result ≡ long_bits (told_value strings value) }
{
    match value {
        Value::Long(number) => number.cast_unsigned(),
        _ => 0,
    }
}

/// The lowest byte.
fn push_lowest(out: &mut Vec<u8>, bits: u32) -> Result<(), AllocError>
    ensures { OnOk result (out.new.items ≡ out.old.items ++ to_be_bytes w8 bits) }
{
    push_u8(out, (bits % 256) as u8)
}

/// The lowest two bytes.
fn push_low(out: &mut Vec<u8>, bits: u32) -> Result<(), AllocError>
    ensures { OnOk result (out.new.items ≡ out.old.items ++ to_be_bytes w16 bits) }
{
    push_u16(out, (bits % 65536) as u16)
}

/// An element of an array whose elements are held as a kind.
fn push_element(
    alloc: Global,
    out: &mut Vec<u8>,
    program: &Program,
    kind: FieldKind,
    value: Value,
) -> Result<(), AllocError>
    requires files { HasFiles program.now }
    requires sized { IsSizedValue value }
    ensures { OnOk result
        (out.new.items ≡ out.old.items ++ element_text kind (told_value program.now.strings value)) }
{
    match kind {
        FieldKind::Byte => push_lowest(out, int_bits(value)),
        FieldKind::Char => push_low(out, int_bits(value)),
        FieldKind::Short => push_low(out, int_bits(value)),
        FieldKind::Int => push_u32(out, int_bits(value)),
        FieldKind::Long => push_u64(out, long_bits(value)),
        FieldKind::Boolean => push_value(alloc, out, program, value),
        FieldKind::Float => push_value(alloc, out, program, value),
        FieldKind::Double => push_value(alloc, out, program, value),
        FieldKind::Reference => push_value(alloc, out, program, value),
    }
}

/// The elements of an array.
pub(crate) fn push_elements(
    alloc: Global,
    out: &mut Vec<u8>,
    program: &Program,
    kind: FieldKind,
    slots: &Slots,
) -> Result<(), AllocError>
    requires files { HasFiles program.now }
    requires sized { All IsSizedValue slots.now }
    ensures { OnOk result (out.new.items
        ≡ out.old.items ++ flat_map (element_text kind) (map (told_value program.now.strings) slots.now)) }
{
    for slot in 0..slots.len() {
        let Some(value) = slots.get(slot) else {
            return Ok(());
        };
        push_element(alloc, out, program, kind, value)?;
    }
    Ok(())
}
