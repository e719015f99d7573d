//! Reads the constants of a constant pool.

ghost use Rattle.std.specs.Prelude.{◌≡◌, ◌-◌, ◌+◌, nat_eq, true, false};
ghost use Rattle.classfile.specs.Constants.{is_wide};
ghost use Rattle.classfile.specs.Gives.{Gives};
ghost use Rattle.classfile.specs.reading.Kinds.{is_of_one, is_of_halves, is_of_indices};
ghost use Rattle.classfile.specs.reading.Constants.{is_after_wide, utf8_at, constant_body_at, tagged_at};
ghost use Rattle.classfile.specs.reading.Constants.{constant_at, constants_from, with_front, constants_at};

use crate::constant::{Constant, Kind, kind_of_tag};
use crate::fault::ClassFault;
use crate::modified::{ModifiedUtf8, is_modified};
use crate::numbers::{room_for, run_at, u8_at, u16_at, u16_pair_at, u32_at};
use std::alloc::Global;

#[tactic(auto, unfolding(crate::specs::reading::Constants::utf8_at))]
fn utf8_at(
    alloc: Global,
    total: usize,
    index: u16,
    bytes: &[u8],
) -> Result<(Constant, &[u8]), ClassFault>
    ensures { Gives (λ x. (x.0, x.1.now)) result (utf8_at total index bytes.now) }
{
    let (length, rest) = u16_at(total, bytes)?;
    let (text, rest) = run_at(total, usize::from(length), rest)?;
    if !is_modified(text) {
        return Err(ClassFault::Utf8 { index });
    }
    let text = ModifiedUtf8::copy_of(alloc, text)?;
    Ok((Constant::Utf8 { text }, rest))
}

/// The body of a constant that is one number: an index, or the bits of an int or a float.
#[tactic(auto, unfolding(crate::specs::reading::Constants::constant_body_at))]
fn one_at(
    kind: Kind,
    total: usize,
    index: u16,
    bytes: &[u8],
) -> Result<(Constant, &[u8]), ClassFault>
    requires { is_of_one kind ≡ true }
    ensures { Gives (λ x. (x.0, x.1.now)) result (constant_body_at kind total index bytes.now) }
{
    if matches!(kind, Kind::Integer | Kind::Float) {
        let (bits, rest) = u32_at(total, bytes)?;
        let constant = match kind {
            Kind::Integer => Constant::Integer { bits },
            _ => Constant::Float { bits },
        };
        return Ok((constant, rest));
    }
    let (named, rest) = u16_at(total, bytes)?;
    let constant = match kind {
        Kind::Class => Constant::Class { name: named },
        Kind::String => Constant::String { text: named },
        _ => Constant::MethodType { descriptor: named },
    };
    Ok((constant, rest))
}

/// The body of a constant that is two halves.
#[tactic(auto, unfolding(crate::specs::reading::Constants::constant_body_at))]
fn halves_at(
    kind: Kind,
    total: usize,
    index: u16,
    bytes: &[u8],
) -> Result<(Constant, &[u8]), ClassFault>
    requires { is_of_halves kind ≡ true }
    ensures { Gives (λ x. (x.0, x.1.now)) result (constant_body_at kind total index bytes.now) }
{
    let (high, rest) = u32_at(total, bytes)?;
    let (low, rest) = u32_at(total, rest)?;
    let constant = match kind {
        Kind::Long => Constant::Long { high, low },
        _ => Constant::Double { high, low },
    };
    Ok((constant, rest))
}

/// The body of a constant that is two indices, or a bootstrap method's number and an index.
#[tactic(auto, unfolding(crate::specs::reading::Constants::constant_body_at))]
fn indices_at(
    kind: Kind,
    total: usize,
    index: u16,
    bytes: &[u8],
) -> Result<(Constant, &[u8]), ClassFault>
    requires { is_of_indices kind ≡ true }
    ensures { Gives (λ x. (x.0, x.1.now)) result (constant_body_at kind total index bytes.now) }
{
    let ((first, second), rest) = u16_pair_at(total, bytes)?;
    let constant = match kind {
        Kind::Fieldref => Constant::Fieldref {
            class: first,
            name_and_type: second,
        },
        Kind::Methodref => Constant::Methodref {
            class: first,
            name_and_type: second,
        },
        Kind::InterfaceMethodref => Constant::InterfaceMethodref {
            class: first,
            name_and_type: second,
        },
        Kind::NameAndType => Constant::NameAndType {
            name: first,
            descriptor: second,
        },
        _ => Constant::InvokeDynamic {
            bootstrap: first,
            name_and_type: second,
        },
    };
    Ok((constant, rest))
}

#[tactic(auto, unfolding(crate::specs::reading::Constants::constant_body_at))]
fn method_handle_at(total: usize, index: u16, bytes: &[u8]) -> Result<(Constant, &[u8]), ClassFault>
    ensures { Gives (λ x. (x.0, x.1.now)) result (constant_body_at Kind.MethodHandle total index bytes.now) }
{
    let (kind, rest) = u8_at(total, bytes)?;
    let (reference, rest) = u16_at(total, rest)?;
    Ok((Constant::MethodHandle { kind, reference }, rest))
}

/// What stands after a constant's tag (JVMS 4.4).
#[tactic(auto, unfolding(crate::specs::reading::Constants::constant_body_at))]
fn constant_body_at(
    alloc: Global,
    kind: Kind,
    total: usize,
    index: u16,
    bytes: &[u8],
) -> Result<(Constant, &[u8]), ClassFault>
    ensures { Gives (λ x. (x.0, x.1.now)) result (constant_body_at kind total index bytes.now) }
{
    match kind {
        Kind::Utf8 => utf8_at(alloc, total, index, bytes),
        Kind::Integer | Kind::Float | Kind::Class | Kind::String | Kind::MethodType => {
            one_at(kind, total, index, bytes)
        }
        Kind::Long | Kind::Double => halves_at(kind, total, index, bytes),
        Kind::Fieldref
        | Kind::Methodref
        | Kind::InterfaceMethodref
        | Kind::NameAndType
        | Kind::InvokeDynamic => indices_at(kind, total, index, bytes),
        Kind::MethodHandle => method_handle_at(total, index, bytes),
    }
}

#[tactic(auto, unfolding(crate::specs::reading::Constants::tagged_at))]
fn tagged_at(
    alloc: Global,
    total: usize,
    index: u16,
    bytes: &[u8],
) -> Result<(Constant, &[u8]), ClassFault>
    ensures { Gives (λ x. (x.0, x.1.now)) result (tagged_at total index bytes.now) }
{
    let (tag, rest) = u8_at(total, bytes)?;
    match kind_of_tag(tag) {
        None => Err(ClassFault::Tag { index }),
        Some(kind) => constant_body_at(alloc, kind, total, index, rest),
    }
}

/// What stands at the index before: it takes that one alone, or the next one, too.
#[derive(Clone, Copy)]
enum Previous {
    Narrow,
    Wide,
}

/// The one or the other.
fn previous_of(constant: &Constant) -> Previous
    ensures { is_after_wide result ≡ is_wide constant.now }
{
    if constant.is_wide() {
        Previous::Wide
    } else {
        Previous::Narrow
    }
}

/// What stands at an index below `count`: nothing after a Long or a Double, else the next constant.
#[tactic(auto, unfolding(crate::specs::reading::Constants::constant_at))]
fn constant_at(
    alloc: Global,
    before: Previous,
    total: usize,
    count: u16,
    index: u16,
    bytes: &[u8],
) -> Result<(Constant, &[u8]), ClassFault>
    ensures { Gives (λ x. (x.0, x.1.now)) result
        (constant_at (is_after_wide before) (nat_eq (index + 1) count) total index bytes.now) }
{
    match before {
        Previous::Wide => Ok((Constant::Unusable, bytes)),
        Previous::Narrow => {
            let (constant, rest) = tagged_at(alloc, total, index, bytes)?;
            if constant.is_wide() && usize::from(index) + 1 == usize::from(count) {
                return Err(ClassFault::Index {
                    at: total.saturating_sub(bytes.len()),
                });
            }
            Ok((constant, rest))
        }
    }
}

/// The constants 1 to `count` - 1, after an unusable one at index 0.
#[tactic(auto, unfolding(crate::specs::reading::Constants::constants_at))]
pub(crate) fn constants_at(
    alloc: Global,
    total: usize,
    count: u16,
    bytes: &[u8],
) -> Result<(Vec<Constant>, &[u8]), ClassFault>
    ensures { Gives (λ x. (x.0.items, x.1.now)) result (constants_at count total bytes.now) }
{
    // No more than the bytes can fill: each constant takes at least three.
    let mut constants = Vec::with_capacity(alloc, room_for(count, bytes))?;
    constants.push(Constant::Unusable)?;
    let rest = push_constants_at(alloc, total, count, &mut constants, bytes)?;
    Ok((constants, rest))
}

/// Reads the constants 1 to `count` - 1 after those that stand before.
fn push_constants_at<'a>(
    alloc: Global,
    total: usize,
    count: u16,
    constants: &mut Vec<Constant>,
    bytes: &'a [u8],
) -> Result<&'a [u8], ClassFault>
    ensures { Gives (λ rest. (constants.new.items, rest.now)) result
        (with_front constants.old.items (constants_from (count - 1) false total count 1 bytes.now)) }
{
    let mut rest = bytes;
    let mut before = Previous::Narrow;
    for index in 1..count {
        let (constant, after) = constant_at(alloc, before, total, count, index, rest)?;
        before = previous_of(&constant);
        constants.push(constant)?;
        rest = after;
    }
    Ok(rest)
}
