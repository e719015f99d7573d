//! Reads values and elements.

ghost use Rattle.std.specs.Prelude.{◌≡◌, [], ◌<◌, ◌^◌, ◌+◌, length, IfOk, OnOk};
ghost use Rattle.image_format.specs.Shapes.{least, greatest, is_in_range};
ghost use Rattle.std.specs.Int.{w8, w16, w32};
ghost use Rattle.program.specs.Tables.{Tables};
ghost use Rattle.image_parser.specs.FirstFailing.{times};
ghost use Rattle.image_parser.specs.reading.Held.{HoldsValue, HoldsValues};
ghost use Rattle.image_parser.specs.reading.Reads.{Reads};
ghost use Rattle.image_parser.specs.reading.Results.{Gives, each_at, number_at};
ghost use Rattle.image_parser.specs.reading.Values.{body_at, byte_of_bits, char_of_bits, counted_units_at, element_at};
ghost use Rattle.image_parser.specs.reading.Values.{int_at, int_of_bits, long_at, made_at, reference_at, short_of_bits};
ghost use Rattle.image_parser.specs.reading.Values.{tagged_at, text_at, unit_at, value_at};

use crate::fault::RegionFault;
use crate::numbers::{u8_at, u16_at, u32_at, u64_at};
use crate::tag::{Tag, may_have, tag_of};
use program::Program;
use program::runtime_constant::FieldKind;
use std::alloc::Global;
use vm_state::object::Slots;
use vm_state::value::Value;

/// The least int of a kind that is held as ints.
fn least(kind: FieldKind) -> i32
    ensures { result ≡ least kind }
{
    match kind {
        FieldKind::Boolean => 0,
        FieldKind::Byte => -128,
        FieldKind::Char => 0,
        FieldKind::Short => -32768,
        _ => i32::MIN,
    }
}

/// The greatest int of a kind that is held as ints.
fn greatest(kind: FieldKind) -> i32
    ensures { result ≡ greatest kind }
{
    match kind {
        FieldKind::Boolean => 1,
        FieldKind::Byte => 127,
        FieldKind::Char => 65535,
        FieldKind::Short => 32767,
        _ => i32::MAX,
    }
}

/// Whether a number is one of a field of this kind.
fn is_in_range(kind: FieldKind, number: i32) -> bool
    ensures { result ≡ is_in_range kind number }
{
    least(kind) <= number && number <= greatest(kind)
}

/// The value of a field that is held as an int.
#[tactic(auto, unfolding(crate::specs::reading::Values::int_at))]
fn int_at(kind: FieldKind, bytes: &[u8]) -> Result<(Value, &[u8]), RegionFault>
    ensures { (P : Tables) → Reads HoldsValue (λ x. (x.0, x.1.now)) P P result (int_at kind bytes.now) }
{
    let (bits, rest) = u32_at(bytes)?;
    let number = bits.cast_signed();
    if !is_in_range(kind, number) {
        return Err(RegionFault::Shape);
    }
    Ok((Value::Int(number), rest))
}

/// The value of a long field.
fn long_at(bytes: &[u8]) -> Result<(Value, &[u8]), RegionFault>
    ensures { (P : Tables) → Reads HoldsValue (λ x. (x.0, x.1.now)) P P result (long_at bytes.now) }
{
    let (bits, rest) = u64_at(bytes)?;
    Ok((Value::Long(bits.cast_signed()), rest))
}

/// Reads so many units after those that stand before.
fn push_units_at<'a>(
    count: u16,
    units: &mut Vec<u16>,
    bytes: &'a [u8],
) -> Result<&'a [u8], RegionFault>
    ensures units { Gives (λ rest. (units.new.items, rest.now)) result
        (each_at unit_at (times count) units.old.items bytes.now) }
    ensures few { OnOk result (length units.new.items < length units.old.items + 2 ^ 16) }
{
    let mut rest = bytes;
    for _index in 0..count {
        let (unit, after) = u16_at(rest)?;
        units.push(unit)?;
        rest = after;
    }
    Ok(rest)
}

/// A count of units, and these.
#[tactic(auto, unfolding(crate::specs::reading::Values::counted_units_at))]
fn counted_units_at(alloc: Global, bytes: &[u8]) -> Result<(Vec<u16>, &[u8]), RegionFault>
    ensures units { Gives (λ x. (x.0.items, x.1.now)) result (counted_units_at bytes.now) }
    ensures few { IfOk result (λ x. length x.0.items < 2 ^ 16) }
{
    let (count, rest) = u16_at(bytes)?;
    let mut units = Vec::with_capacity(alloc, usize::from(count).min(rest.len()))?;
    let rest = push_units_at(count, &mut units, rest)?;
    Ok((units, rest))
}

/// A string, by its number among those of the program, of which it becomes the last where it is new.
#[tactic(auto, unfolding(crate::specs::reading::Values::text_at))]
fn text_at<'a>(
    alloc: Global,
    program: &mut Program,
    bytes: &'a [u8],
) -> Result<(Value, &'a [u8]), RegionFault>
    ensures { Reads HoldsValue (λ x. (x.0, x.1.now)) program.old program.new result (text_at bytes.now) }
{
    let (units, rest) = counted_units_at(alloc, bytes)?;
    let number = program.add_string(alloc, units.as_slice())?;
    Ok((Value::Text(number), rest))
}

/// A reference to an object: the class whose region has it, and its number there.
#[tactic(auto, unfolding(crate::specs::reading::Values::reference_at))]
fn reference_at(bytes: &[u8]) -> Result<(Value, &[u8]), RegionFault>
    ensures { (P : Tables) → Reads HoldsValue (λ x. (x.0, x.1.now)) P P result (reference_at bytes.now) }
{
    let (class, rest) = u32_at(bytes)?;
    let (number, rest) = u32_at(rest)?;
    Ok((Value::OfClass(class, u64::from(number)), rest))
}

/// What follows a tag.
fn body_at<'a>(
    alloc: Global,
    program: &mut Program,
    kind: FieldKind,
    tag: Tag,
    bytes: &'a [u8],
) -> Result<(Value, &'a [u8]), RegionFault>
    ensures { Reads HoldsValue (λ x. (x.0, x.1.now)) program.old program.new result
        (body_at kind tag bytes.now) }
{
    match tag {
        Tag::Null => Ok((Value::Null, bytes)),
        Tag::Int => int_at(kind, bytes),
        Tag::Long => long_at(bytes),
        Tag::Text => text_at(alloc, program, bytes),
        Tag::Object => reference_at(bytes),
        Tag::Out => Ok((Value::Out, bytes)),
    }
}

/// What follows a tag, if there is such a tag and values of the kind have it.
fn tagged_at<'a>(
    alloc: Global,
    program: &mut Program,
    kind: FieldKind,
    tag: Option<Tag>,
    bytes: &'a [u8],
) -> Result<(Value, &'a [u8]), RegionFault>
    ensures { Reads HoldsValue (λ x. (x.0, x.1.now)) program.old program.new result
        (tagged_at kind tag bytes.now) }
{
    let Some(tag) = tag else {
        return Err(RegionFault::Shape);
    };
    if !may_have(kind, tag) {
        return Err(RegionFault::Shape);
    }
    body_at(alloc, program, kind, tag, bytes)
}

/// A value of a kind, with its tag.
#[tactic(auto, unfolding(crate::specs::reading::Values::value_at))]
pub(crate) fn value_at<'a>(
    alloc: Global,
    program: &mut Program,
    kind: FieldKind,
    bytes: &'a [u8],
) -> Result<(Value, &'a [u8]), RegionFault>
    ensures { Reads HoldsValue (λ x. (x.0, x.1.now)) program.old program.new result
        (value_at kind bytes.now) }
{
    let (tag, rest) = u8_at(bytes)?;
    tagged_at(alloc, program, kind, tag_of(tag), rest)
}

/// An element of an array of bytes or booleans.
fn byte_at(bytes: &[u8]) -> Result<(Value, &[u8]), RegionFault>
    ensures { (P : Tables) → Reads HoldsValue (λ x. (x.0, x.1.now)) P P result
        (made_at byte_of_bits (number_at w8 bytes.now)) }
{
    let (bits, rest) = u8_at(bytes)?;
    Ok((Value::Int(i32::from(bits.cast_signed())), rest))
}

/// An element of an array of chars.
fn char_at(bytes: &[u8]) -> Result<(Value, &[u8]), RegionFault>
    ensures { (P : Tables) → Reads HoldsValue (λ x. (x.0, x.1.now)) P P result
        (made_at char_of_bits (number_at w16 bytes.now)) }
{
    let (bits, rest) = u16_at(bytes)?;
    Ok((Value::Int(i32::from(bits)), rest))
}

/// An element of an array of shorts.
fn short_at(bytes: &[u8]) -> Result<(Value, &[u8]), RegionFault>
    ensures { (P : Tables) → Reads HoldsValue (λ x. (x.0, x.1.now)) P P result
        (made_at short_of_bits (number_at w16 bytes.now)) }
{
    let (bits, rest) = u16_at(bytes)?;
    Ok((Value::Int(i32::from(bits.cast_signed())), rest))
}

/// An element of an array of ints.
fn bare_int_at(bytes: &[u8]) -> Result<(Value, &[u8]), RegionFault>
    ensures { (P : Tables) → Reads HoldsValue (λ x. (x.0, x.1.now)) P P result
        (made_at int_of_bits (number_at w32 bytes.now)) }
{
    let (bits, rest) = u32_at(bytes)?;
    Ok((Value::Int(bits.cast_signed()), rest))
}

/// An element of an array whose elements are held as a kind.
#[tactic(auto, unfolding(crate::specs::reading::Values::element_at))]
pub(crate) fn element_at<'a>(
    alloc: Global,
    program: &mut Program,
    kind: FieldKind,
    bytes: &'a [u8],
) -> Result<(Value, &'a [u8]), RegionFault>
    ensures { Reads HoldsValue (λ x. (x.0, x.1.now)) program.old program.new result
        (element_at kind bytes.now) }
{
    match kind {
        FieldKind::Byte => byte_at(bytes),
        FieldKind::Char => char_at(bytes),
        FieldKind::Short => short_at(bytes),
        FieldKind::Int => bare_int_at(bytes),
        FieldKind::Long => long_at(bytes),
        FieldKind::Boolean => value_at(alloc, program, kind, bytes),
        FieldKind::Float => value_at(alloc, program, kind, bytes),
        FieldKind::Double => value_at(alloc, program, kind, bytes),
        FieldKind::Reference => value_at(alloc, program, kind, bytes),
    }
}

/// Reads a value for each of these kinds, where there is none yet.
pub(crate) fn push_values_at<'a>(
    alloc: Global,
    program: &mut Program,
    kinds: &[FieldKind],
    values: &mut Vec<Value>,
    bytes: &'a [u8],
) -> Result<&'a [u8], RegionFault>
    requires { values.old.items ≡ [] }
    ensures { Reads HoldsValues (λ rest. (values.new.items, rest.now)) program.old program.new result
        (each_at value_at kinds.now [] bytes.now) }
{
    let mut rest = bytes;
    for kind in kinds {
        let (value, after) = value_at(alloc, program, *kind, rest)?;
        values.push(value)?;
        rest = after;
    }
    Ok(rest)
}

/// Reads so many elements, where there is none yet.
pub(crate) fn push_elements_at<'a>(
    alloc: Global,
    program: &mut Program,
    kind: FieldKind,
    count: u32,
    slots: &mut Slots,
    bytes: &'a [u8],
) -> Result<&'a [u8], RegionFault>
    requires { slots.old ≡ [] }
    ensures { Reads HoldsValues (λ rest. (slots.new, rest.now)) program.old program.new result
        (each_at (λ (one : Unit {0}). element_at kind) (times count) [] bytes.now) }
{
    let mut rest = bytes;
    for _index in 0..count {
        let (value, after) = element_at(alloc, program, kind, rest)?;
        slots.push(value)?;
        rest = after;
    }
    Ok(rest)
}
