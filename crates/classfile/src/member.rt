//! Fields and methods.

ghost use Rattle.std.specs.Prelude.{◌≡◌, ◌++◌, [], ◌∷◌, true, option_map, IfOk};
ghost use Rattle.classfile.specs.reading.Earlier.{Finds};
ghost use Rattle.classfile.specs.Members.{code_among, value_among};
ghost use Rattle.classfile.specs.Gives.{Gives};
ghost use Rattle.classfile.specs.reading.Repeat.{repeat_at};
ghost use Rattle.classfile.specs.reading.LookupTests.{has_utf8};
ghost use Rattle.classfile.specs.reading.Members.{has_descriptor, descriptor_at, name_and_descriptor_at};
ghost use Rattle.classfile.specs.Members.{owner_of};
ghost use Rattle.classfile.specs.reading.Members.{lacks_code, member_body_at, member_at, counted_members_at};
ghost use Rattle.classfile.specs.reading.Members.{members_at};

use crate::attribute::{Attribute, Attributes, Owner, attributes_at, has_code};
use crate::code::Code;
use crate::constant::Constant;
use crate::earlier::{Earlier, is_declared};
use crate::fault::ClassFault;
use crate::flags::has_no_body;
use crate::index::{WantedConstant, index_at};
use crate::numbers::{room_for, u16_at};
use crate::pool::ConstantPool;
use std::alloc::Global;
use std::marker::Model;

/// A field or a method (JVMS 4.5, 4.6): its flags, the indices of its name and its descriptor,
/// and its attributes.
#[derive(Drop)]
pub struct Member {
    pub access_flags: u16,
    pub name: u16,
    pub descriptor: u16,
    pub attributes: Attributes,
}

/// The fields or the methods of a class, in the file's order.
#[derive(Drop)]
pub struct Members {
    items: Vec<Member>,
}

impl Member {
    /// The method's code, if it has some (JVMS 4.7.3).
    pub fn code(&self) -> Option<&Code>
        ensures { option_map (λ c. c.now) result ≡ code_among self.now.attributes }
    {
        for attribute in self.attributes.as_slice() {
            if let Attribute::Code { code, .. } = attribute {
                return Some(code);
            }
        }
        None
    }

    /// The index of the constant that is the value of a static field, if it has one (JVMS 4.7.2).
    pub fn constant_value(&self) -> Option<u16>
        ensures { result ≡ value_among self.now.attributes }
    {
        for attribute in self.attributes.as_slice() {
            if let Attribute::ConstantValue { value, .. } = attribute {
                return Some(*value);
            }
        }
        None
    }
}

impl Model for Members {
    ghost use Rattle.std.specs.Prelude.{List};
    ghost use Rattle.classfile.specs.declared.member.Member.{Member};

    ghost Value = { List Member };

    ghost view = { λ m. m.items.items };
}

impl Members {
    /// The members as a slice.
    pub fn as_slice(&self) -> &[Member]
        ensures { result.now ≡ self.now }
    {
        &self.items
    }
}

#[derive(Clone, Copy)]
pub(crate) enum MemberKind {
    Field,
    Method,
}

#[tactic(auto, unfolding(crate::specs::reading::Members::has_descriptor))]
fn has_descriptor(kind: MemberKind, pool: &ConstantPool, index: u16) -> bool
    ensures { result ≡ has_descriptor kind pool.now index }
{
    match kind {
        MemberKind::Field => pool.is_field(index),
        MemberKind::Method => pool.is_method(index),
    }
}

/// The index of a descriptor.
#[tactic(auto, unfolding(crate::specs::reading::Members::descriptor_at))]
fn descriptor_at<'a>(
    kind: MemberKind,
    pool: &ConstantPool,
    total: usize,
    bytes: &'a [u8],
) -> Result<(u16, &'a [u8]), ClassFault>
    ensures { Gives (λ x. (x.0, x.1.now)) result (descriptor_at kind pool.now total bytes.now) }
{
    let (index, rest) = index_at(WantedConstant::Utf8, pool.as_slice(), total, bytes)?;
    if !has_descriptor(kind, pool, index) {
        return Err(ClassFault::Descriptor { index });
    }
    Ok((index, rest))
}

/// The indices of a member's name and descriptor.
#[derive(Clone, Copy)]
struct NameAndDescriptor {
    name: u16,
    descriptor: u16,
}

/// A member's name and descriptor.
#[tactic(auto, unfolding(crate::specs::reading::Members::name_and_descriptor_at))]
fn name_and_descriptor_at<'a>(
    kind: MemberKind,
    pool: &ConstantPool,
    total: usize,
    bytes: &'a [u8],
) -> Result<(NameAndDescriptor, &'a [u8]), ClassFault>
    ensures read { Gives (λ x. ((x.0.name, x.0.descriptor), x.1.now)) result
        (name_and_descriptor_at kind pool.now total bytes.now) }
    ensures texts { IfOk result (λ x.
        (has_utf8 pool.now x.0.name ≡ true) × (has_utf8 pool.now x.0.descriptor ≡ true)) }
{
    let (name, rest) = index_at(WantedConstant::Utf8, pool.as_slice(), total, bytes)?;
    let (descriptor, rest) = descriptor_at(kind, pool, total, rest)?;
    Ok((NameAndDescriptor { name, descriptor }, rest))
}

fn owner_of(kind: MemberKind, access_flags: u16, descriptor: u16) -> Owner
    ensures { result ≡ owner_of kind access_flags descriptor }
{
    match kind {
        MemberKind::Field => Owner::Field {
            access_flags,
            descriptor,
        },
        MemberKind::Method => Owner::Method { access_flags },
    }
}

/// Whether a method that has to have code has none.
fn lacks_code(kind: MemberKind, access_flags: u16, attributes: &Attributes) -> bool
    ensures { result ≡ lacks_code kind access_flags attributes.now }
{
    match kind {
        MemberKind::Field => false,
        MemberKind::Method => !has_no_body(access_flags) && !has_code(attributes.as_slice()),
    }
}

/// What stands before the attributes of a member, and where it begins.
#[derive(Clone, Copy)]
struct MemberHeader {
    at: usize,
    access_flags: u16,
    name: u16,
    descriptor: u16,
}

/// The attributes of the member of this header.
#[tactic(auto, unfolding(crate::specs::reading::Members::member_body_at))]
fn member_body_at<'a>(
    alloc: Global,
    kind: MemberKind,
    pool: &[Constant],
    total: usize,
    header: MemberHeader,
    bytes: &'a [u8],
) -> Result<(Member, &'a [u8]), ClassFault>
    ensures { Gives (λ x. (x.0, x.1.now)) result (member_body_at kind pool.now total header.at header.access_flags
        header.name header.descriptor bytes.now) }
{
    let MemberHeader {
        at,
        access_flags,
        name,
        descriptor,
    } = header;
    let owner = owner_of(kind, access_flags, descriptor);
    let (attributes, rest) = attributes_at(alloc, pool, owner, total, bytes)?;
    if lacks_code(kind, access_flags, &attributes) {
        return Err(ClassFault::Attribute { at });
    }
    let member = Member {
        access_flags,
        name,
        descriptor,
        attributes,
    };
    Ok((member, rest))
}

/// The next member. From then on it is one of those that stand before.
fn member_at<'p, 'a>(
    alloc: Global,
    kind: MemberKind,
    pool: &'p ConstantPool,
    total: usize,
    earlier: &mut Earlier<'p>,
    bytes: &'a [u8],
) -> Result<(Member, &'a [u8]), ClassFault>
    requires { Finds pool.now earlier.old earlier.old.members.items }
    ensures value { Gives (λ x. (x.0, x.1.now)) result
        (member_at kind pool.now total earlier.old.members.items bytes.now) }
    ensures members { earlier.new.members ≡ earlier.old.members }
    ensures finds { IfOk result (λ x. Finds pool.now earlier.new (earlier.old.members.items ++ x.0 ∷ [])) }
{
    let at = total.saturating_sub(bytes.len());
    let (access_flags, rest) = u16_at(total, bytes)?;
    let (NameAndDescriptor { name, descriptor }, rest) = name_and_descriptor_at(
        kind, pool, total, rest,
    )?;
    if is_declared(pool.as_slice(), earlier, name, descriptor)? {
        return Err(ClassFault::Index { at });
    }
    let header = MemberHeader {
        at,
        access_flags,
        name,
        descriptor,
    };
    member_body_at(alloc, kind, pool.as_slice(), total, header, rest)
}

/// A table of fields or methods.
#[tactic(auto, unfolding(crate::specs::reading::Members::members_at))]
pub(crate) fn members_at<'a>(
    alloc: Global,
    kind: MemberKind,
    pool: &ConstantPool,
    total: usize,
    bytes: &'a [u8],
) -> Result<(Members, &'a [u8]), ClassFault>
    ensures { Gives (λ x. (x.0, x.1.now)) result (members_at kind pool.now total bytes.now) }
{
    let (count, rest) = u16_at(total, bytes)?;
    counted_members_at(alloc, kind, pool, total, count, rest)
}

/// The first `count` members of a table.
fn counted_members_at<'a>(
    alloc: Global,
    kind: MemberKind,
    pool: &ConstantPool,
    total: usize,
    count: u16,
    bytes: &'a [u8],
) -> Result<(Members, &'a [u8]), ClassFault>
    ensures { Gives (λ x. (x.0, x.1.now)) result (counted_members_at kind pool.now total count bytes.now) }
{
    let mut earlier = Earlier::new(alloc, pool.as_slice(), count, room_for(count, bytes))?;
    let rest = push_members_at(alloc, kind, pool, total, count, &mut earlier, bytes)?;
    let items = earlier.into_members();
    Ok((Members { items }, rest))
}

/// Reads `count` members after those that stand before.
fn push_members_at<'p, 'a>(
    alloc: Global,
    kind: MemberKind,
    pool: &'p ConstantPool,
    total: usize,
    count: u16,
    earlier: &mut Earlier<'p>,
    bytes: &'a [u8],
) -> Result<&'a [u8], ClassFault>
    requires { Finds pool.now earlier.old earlier.old.members.items }
    ensures { Gives (λ rest. (earlier.new.members.items, rest.now)) result
        (repeat_at (member_at kind pool.now total) count earlier.old.members.items bytes.now) }
{
    let mut rest = bytes;
    for _index in 0..count {
        let (member, after) = member_at(alloc, kind, pool, total, earlier, rest)?;
        earlier.members.push(member)?;
        rest = after;
    }
    Ok(rest)
}
