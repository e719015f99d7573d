//! The attributes of classes, fields and methods.

ghost use Rattle.std.specs.Prelude.{◌≡◌, List, option_map};
ghost use Rattle.std.specs.List.{list_any};
ghost use Rattle.classfile.specs.Lookup.{utf8_of};
ghost use Rattle.classfile.specs.Gives.{Gives};
ghost use Rattle.classfile.specs.Members.{is_constant_value, is_code};
ghost use Rattle.classfile.specs.reading.Repeat.{repeat_at};
ghost use Rattle.classfile.specs.reading.Members.{meaning_of, meaning_at, is_int_descriptor, suits, suits_at, value_of};
ghost use Rattle.classfile.specs.reading.Members.{constant_value_of, code_attribute_of, content_of};
ghost use Rattle.classfile.specs.reading.Members.{attribute_at, attributes_at};

use crate::bytes::Bytes;
use crate::code::{Code, whole_code};
use crate::constant::Constant;
use crate::fault::ClassFault;
use crate::flags::{STATIC, has_flag, has_no_body};
use crate::lookup::utf8_of;
use crate::numbers::{room_for, u16_at};
use crate::unread::{UnreadAttribute, framed_at};
use std::alloc::Global;
use std::marker::Model;

/// An attribute (JVMS 4.7). `name` is the index of its name.
#[derive(Drop)]
pub enum Attribute {
    /// The value of a static field (JVMS 4.7.2): the index of a constant that suits the field's descriptor.
    ConstantValue { name: u16, value: u16 },
    /// The code of a method (JVMS 4.7.3).
    Code { name: u16, code: Code },
    /// Any other attribute.
    Unread(UnreadAttribute),
}

/// Attributes in the file's order.
#[derive(Drop)]
pub struct Attributes {
    items: Vec<Attribute>,
}

impl Model for Attributes {
    ghost use Rattle.std.specs.Prelude.{List};
    ghost use Rattle.classfile.specs.declared.attribute.Attribute.{Attribute};

    ghost Value = { List Attribute };

    ghost view = { λ a. a.items.items };
}

impl Attributes {
    /// The attributes as a slice.
    pub fn as_slice(&self) -> &[Attribute]
        ensures { result.now ≡ self.now }
    {
        &self.items
    }
}

/// What has the attributes.
#[derive(Clone, Copy)]
pub(crate) enum Owner {
    Class,
    Field { access_flags: u16, descriptor: u16 },
    Method { access_flags: u16 },
}

/// What an attribute's name means to its owner.
#[derive(Clone, Copy)]
enum Meaning {
    /// The value of a field with the descriptor at this index.
    ConstantValue { descriptor: u16 },
    /// The code of a method of these flags.
    Code { access_flags: u16 },
    Unread,
}

const CONSTANT_VALUE: &[u8] = b"ConstantValue";

const CODE: &[u8] = b"Code";

const STRING: &[u8] = b"Ljava/lang/String;";

fn meaning_of(owner: Owner, name: &[u8]) -> Meaning
    ensures { result ≡ meaning_of owner name.now }
{
    match owner {
        Owner::Class => Meaning::Unread,
        Owner::Field {
            access_flags,
            descriptor,
        } => {
            if has_flag(access_flags, STATIC) && name == CONSTANT_VALUE {
                Meaning::ConstantValue { descriptor }
            } else {
                Meaning::Unread
            }
        }
        Owner::Method { access_flags } => {
            if name == CODE {
                Meaning::Code { access_flags }
            } else {
                Meaning::Unread
            }
        }
    }
}

fn is_int_descriptor(descriptor: &[u8]) -> bool
    ensures { result ≡ is_int_descriptor descriptor.now }
{
    matches!(descriptor, [b'I' | b'S' | b'C' | b'B' | b'Z'])
}

/// Whether a field of this descriptor may have this constant as its value (JVMS 4.7.2, table 4.7.2-A).
fn suits(descriptor: &[u8], constant: Option<&Constant>) -> bool
    ensures { result ≡ suits descriptor.now (option_map (λ c. c.now) constant.entry) }
{
    match constant {
        Some(Constant::Integer { .. }) => is_int_descriptor(descriptor),
        Some(Constant::Long { .. }) => descriptor == b"J".as_slice(),
        Some(Constant::Float { .. }) => descriptor == b"F".as_slice(),
        Some(Constant::Double { .. }) => descriptor == b"D".as_slice(),
        Some(Constant::String { .. }) => descriptor == STRING,
        _ => false,
    }
}

#[tactic(auto, unfolding(crate::specs::reading::Members::suits_at))]
fn suits_at(pool: &[Constant], descriptor: u16, value: u16) -> bool
    ensures { result ≡ suits_at pool.now descriptor value }
{
    match utf8_of(pool, descriptor) {
        None => false,
        Some(text) => suits(text, pool.get(usize::from(value))),
    }
}

fn value_of(content: &[u8]) -> Option<u16>
    ensures { result ≡ value_of content.now }
{
    match content {
        [high, low] => Some(u16::from_be_bytes([*high, *low])),
        _ => None,
    }
}

#[tactic(auto, unfolding(crate::specs::reading::Members::constant_value_of))]
fn constant_value_of(
    pool: &[Constant],
    at: usize,
    descriptor: u16,
    earlier: &[Attribute],
    name: u16,
    content: &[u8],
) -> Result<Attribute, ClassFault>
    ensures { Gives (λ a. a) result
        (constant_value_of pool.now at descriptor earlier.now name content.now) }
{
    if has_constant_value(earlier) {
        return Err(ClassFault::Attribute { at });
    }
    match value_of(content) {
        Some(value) if suits_at(pool, descriptor, value) => {
            Ok(Attribute::ConstantValue { name, value })
        }
        _ => Err(ClassFault::Attribute { at }),
    }
}

fn has_constant_value(attributes: &[Attribute]) -> bool
    ensures { result ≡ list_any is_constant_value attributes.now }
{
    attributes.iter().any(|attribute| matches!(attribute, Attribute::ConstantValue { .. }))
}

/// Whether one of the attributes is Code.
pub(crate) fn has_code(attributes: &[Attribute]) -> bool
    ensures { result ≡ list_any is_code attributes.now }
{
    attributes
        .iter()
        .any(|attribute| matches!(attribute, Attribute::Code { .. }))
}

#[tactic(auto, unfolding(crate::specs::reading::Members::code_attribute_of))]
fn code_attribute_of(
    alloc: Global,
    pool: &[Constant],
    at: usize,
    access_flags: u16,
    earlier: &[Attribute],
    name: u16,
    content: &[u8],
) -> Result<Attribute, ClassFault>
    ensures { Gives (λ a. a) result
        (code_attribute_of pool.now at access_flags earlier.now name content.now) }
{
    if has_no_body(access_flags) || has_code(earlier) {
        return Err(ClassFault::Attribute { at });
    }
    match whole_code(alloc, pool, content) {
        Ok(code) => Ok(Attribute::Code { name, code }),
        Err(fault) => Err(fault.inside_attribute(at)),
    }
}

#[tactic(auto, unfolding(crate::specs::reading::Members::content_of))]
fn content_of(
    alloc: Global,
    pool: &[Constant],
    at: usize,
    meaning: Meaning,
    earlier: &[Attribute],
    name: u16,
    content: &[u8],
) -> Result<Attribute, ClassFault>
    ensures { Gives (λ a. a) result (content_of pool.now at meaning earlier.now name content.now) }
{
    match meaning {
        Meaning::Unread => {
            let bytes = Bytes::copy_of(alloc, content)?;
            Ok(Attribute::Unread(UnreadAttribute { name, bytes }))
        }
        Meaning::ConstantValue { descriptor } => {
            constant_value_of(pool, at, descriptor, earlier, name, content)
        }
        Meaning::Code { access_flags } => {
            code_attribute_of(alloc, pool, at, access_flags, earlier, name, content)
        }
    }
}

/// What the name at an index means to an attribute's owner.
fn meaning_at(pool: &[Constant], owner: Owner, name: u16) -> Meaning
    ensures { result ≡ meaning_at owner (utf8_of pool.now name) }
{
    match utf8_of(pool, name) {
        None => Meaning::Unread,
        Some(text) => meaning_of(owner, text),
    }
}

#[tactic(auto, unfolding(crate::specs::reading::Members::attribute_at))]
fn attribute_at<'a>(
    alloc: Global,
    pool: &[Constant],
    owner: Owner,
    total: usize,
    earlier: &[Attribute],
    bytes: &'a [u8],
) -> Result<(Attribute, &'a [u8]), ClassFault>
    ensures { Gives (λ x. (x.0, x.1.now)) result
        (attribute_at pool.now owner total earlier.now bytes.now) }
{
    let at = total.saturating_sub(bytes.len());
    let ((name, content), rest) = framed_at(pool, total, bytes)?;
    let meaning = meaning_at(pool, owner, name);
    let attribute = content_of(alloc, pool, at, meaning, earlier, name, content)?;
    Ok((attribute, rest))
}

/// A table of attributes.
#[tactic(auto, unfolding(crate::specs::reading::Members::attributes_at))]
pub(crate) fn attributes_at<'a>(
    alloc: Global,
    pool: &[Constant],
    owner: Owner,
    total: usize,
    bytes: &'a [u8],
) -> Result<(Attributes, &'a [u8]), ClassFault>
    ensures { Gives (λ x. (x.0, x.1.now)) result (attributes_at pool.now owner total bytes.now) }
{
    let (count, rest) = u16_at(total, bytes)?;
    let mut items = Vec::with_capacity(alloc, room_for(count, rest))?;
    let rest = push_attributes_at(alloc, pool, owner, total, count, &mut items, rest)?;
    Ok((Attributes { items }, rest))
}

/// Reads `count` attributes after those that stand before.
fn push_attributes_at<'a>(
    alloc: Global,
    pool: &[Constant],
    owner: Owner,
    total: usize,
    count: u16,
    items: &mut Vec<Attribute>,
    bytes: &'a [u8],
) -> Result<&'a [u8], ClassFault>
    ensures { Gives (λ rest. (items.new.items, rest.now)) result
        (repeat_at (attribute_at pool.now owner total) count items.old.items bytes.now) }
{
    let mut rest = bytes;
    for _index in 0..count {
        let (attribute, after) = attribute_at(alloc, pool, owner, total, items, rest)?;
        items.push(attribute)?;
        rest = after;
    }
    Ok(rest)
}
