//! A class's flags, its name, and its parents.

ghost use Rattle.std.specs.Prelude.{◌≡◌};
ghost use Rattle.classfile.specs.Gives.{Gives};
ghost use Rattle.classfile.specs.reading.Repeat.{repeat_at};
ghost use Rattle.classfile.specs.reading.Class.{class_indices_at, interface_at, interfaces_at, header_at};

use crate::constant::Constant;
use crate::fault::ClassFault;
use crate::index::{WantedConstant, index_at};
use crate::numbers::{room_for, u16_at};
use std::alloc::Global;
use std::marker::Model;

/// Indices of Classes, in the file's order.
#[derive(Drop)]
pub(crate) struct Interfaces {
    items: Vec<u16>,
}

impl Model for Interfaces {
    ghost use Rattle.std.specs.Prelude.{List, ℕ};

    ghost Value = { List ℕ };

    ghost view = { λ i. i.items.items };
}

impl Interfaces {
    pub(crate) fn as_slice(&self) -> &[u16]
        ensures { result.now ≡ self.now }
    {
        &self.items
    }
}

/// The header of a class: what stands between the constant pool and the members.
#[derive(Drop)]
pub(crate) struct Header {
    pub(crate) access_flags: u16,
    pub(crate) this_class: u16,
    pub(crate) super_class: u16,
    pub(crate) interfaces: Interfaces,
}

/// The indices of the class itself and of its superclass.
#[derive(Clone, Copy)]
struct ClassIndices {
    this_class: u16,
    super_class: u16,
}

/// The class itself and its superclass.
#[tactic(auto, unfolding(crate::specs::reading::Class::class_indices_at))]
fn class_indices_at<'a>(
    pool: &[Constant],
    total: usize,
    bytes: &'a [u8],
) -> Result<(ClassIndices, &'a [u8]), ClassFault>
    ensures { Gives (λ x. ((x.0.this_class, x.0.super_class), x.1.now)) result
        (class_indices_at pool.now total bytes.now) }
{
    let (this_class, rest) = index_at(WantedConstant::PlainClass, pool, total, bytes)?;
    let (super_class, rest) = index_at(WantedConstant::ClassOrNone, pool, total, rest)?;
    let indices = ClassIndices {
        this_class,
        super_class,
    };
    Ok((indices, rest))
}

#[tactic(auto, unfolding(crate::specs::reading::Class::interfaces_at))]
fn interfaces_at<'a>(
    alloc: Global,
    pool: &[Constant],
    total: usize,
    bytes: &'a [u8],
) -> Result<(Interfaces, &'a [u8]), ClassFault>
    ensures { Gives (λ x. (x.0, x.1.now)) result (interfaces_at pool.now total bytes.now) }
{
    let (count, rest) = u16_at(total, bytes)?;
    let mut items = Vec::with_capacity(alloc, room_for(count, rest))?;
    let rest = push_interfaces_at(pool, total, count, &mut items, rest)?;
    Ok((Interfaces { items }, rest))
}

/// Reads `count` indices after those that stand before.
fn push_interfaces_at<'a>(
    pool: &[Constant],
    total: usize,
    count: u16,
    items: &mut Vec<u16>,
    bytes: &'a [u8],
) -> Result<&'a [u8], ClassFault>
    ensures { Gives (λ rest. (items.new.items, rest.now)) result
        (repeat_at (λ earlier. interface_at pool.now total) count items.old.items bytes.now) }
{
    let mut rest = bytes;
    for _index in 0..count {
        let (interface, after) = index_at(WantedConstant::Class, pool, total, rest)?;
        items.push(interface)?;
        rest = after;
    }
    Ok(rest)
}

#[tactic(auto, unfolding(crate::specs::reading::Class::header_at, crate::specs::reading::Class::class_indices_at))]
pub(crate) fn header_at<'a>(
    alloc: Global,
    pool: &[Constant],
    total: usize,
    bytes: &'a [u8],
) -> Result<(Header, &'a [u8]), ClassFault>
    ensures { Gives (λ x. (x.0, x.1.now)) result (header_at pool.now total bytes.now) }
{
    let (access_flags, rest) = u16_at(total, bytes)?;
    let (indices, rest) = class_indices_at(pool, total, rest)?;
    let (interfaces, rest) = interfaces_at(alloc, pool, total, rest)?;
    let header = Header {
        access_flags,
        this_class: indices.this_class,
        super_class: indices.super_class,
        interfaces,
    };
    Ok((header, rest))
}
