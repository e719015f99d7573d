//! Attributes that are kept unread.

ghost use Rattle.std.specs.Prelude.{◌≡◌, List};
ghost use Rattle.classfile.specs.Gives.{Gives};
ghost use Rattle.classfile.specs.reading.Repeat.{repeat_at};
ghost use Rattle.classfile.specs.reading.Code.{content_at, framed_at, unread_at, unread_attributes_at};

use crate::bytes::Bytes;
use crate::constant::Constant;
use crate::fault::ClassFault;
use crate::index::{WantedConstant, index_at};
use crate::numbers::{room_for, run_at, u16_at, u32_at};
use std::alloc::Global;
use std::marker::Model;

/// An attribute that is not looked into (JVMS 4.7): the index of its name, and its bytes.
#[derive(Drop)]
pub struct UnreadAttribute {
    pub name: u16,
    pub bytes: Bytes,
}

/// Attributes that are not looked into, in the file's order.
#[derive(Drop)]
pub struct UnreadAttributes {
    items: Vec<UnreadAttribute>,
}

impl Model for UnreadAttributes {
    ghost use Rattle.std.specs.Prelude.{List};
    ghost use Rattle.classfile.specs.declared.unread.UnreadAttribute.{UnreadAttribute};

    ghost Value = { List UnreadAttribute };

    ghost view = { λ a. a.items.items };
}

impl UnreadAttributes {
    /// The attributes as a slice.
    pub fn as_slice(&self) -> &[UnreadAttribute]
        ensures { result.now ≡ self.now }
    {
        &self.items
    }
}

/// A length, and as many bytes.
#[tactic(auto, unfolding(crate::specs::reading::Code::content_at))]
fn content_at(total: usize, bytes: &[u8]) -> Result<(&[u8], &[u8]), ClassFault>
    ensures { Gives (λ x. (x.0.now, x.1.now)) result (content_at total bytes.now) }
{
    let (length, rest) = u32_at(total, bytes)?;
    run_at(total, length as usize, rest)
}

/// The name and the content of an attribute.
#[tactic(auto, unfolding(crate::specs::reading::Code::framed_at, crate::specs::reading::Code::content_at))]
pub(crate) fn framed_at<'a>(
    pool: &[Constant],
    total: usize,
    bytes: &'a [u8],
) -> Result<((u16, &'a [u8]), &'a [u8]), ClassFault>
    ensures { Gives (λ x. ((x.0.0, x.0.1.now), x.1.now)) result (framed_at pool.now total bytes.now) }
{
    let (name, rest) = index_at(WantedConstant::Utf8, pool, total, bytes)?;
    let (content, rest) = content_at(total, rest)?;
    Ok(((name, content), rest))
}

#[tactic(auto, unfolding(crate::specs::reading::Code::unread_at))]
fn unread_at<'a>(
    alloc: Global,
    pool: &[Constant],
    total: usize,
    bytes: &'a [u8],
) -> Result<(UnreadAttribute, &'a [u8]), ClassFault>
    ensures { Gives (λ x. (x.0, x.1.now)) result (unread_at pool.now total bytes.now) }
{
    let ((name, content), rest) = framed_at(pool, total, bytes)?;
    let bytes = Bytes::copy_of(alloc, content)?;
    Ok((UnreadAttribute { name, bytes }, rest))
}

/// A table of attributes that are not looked into.
#[tactic(auto, unfolding(crate::specs::reading::Code::unread_attributes_at))]
pub(crate) fn unread_attributes_at<'a>(
    alloc: Global,
    pool: &[Constant],
    total: usize,
    bytes: &'a [u8],
) -> Result<(UnreadAttributes, &'a [u8]), ClassFault>
    ensures { Gives (λ x. (x.0, x.1.now)) result (unread_attributes_at pool.now total bytes.now) }
{
    let (count, rest) = u16_at(total, bytes)?;
    let mut items = Vec::with_capacity(alloc, room_for(count, rest))?;
    let rest = push_unread_at(alloc, pool, total, count, &mut items, rest)?;
    Ok((UnreadAttributes { items }, rest))
}

/// Reads `count` attributes after those that stand before.
fn push_unread_at<'a>(
    alloc: Global,
    pool: &[Constant],
    total: usize,
    count: u16,
    items: &mut Vec<UnreadAttribute>,
    bytes: &'a [u8],
) -> Result<&'a [u8], ClassFault>
    ensures { Gives (λ rest. (items.new.items, rest.now)) result
        (repeat_at (λ earlier. unread_at pool.now total) count items.old.items bytes.now) }
{
    let mut rest = bytes;
    for _index in 0..count {
        let (attribute, after) = unread_at(alloc, pool, total, rest)?;
        items.push(attribute)?;
        rest = after;
    }
    Ok(rest)
}
