//! Reads what a class file holds, from its front to its back.

ghost use Rattle.std.specs.Prelude.{◌≡◌, ◌<◌, ◌^◌};
ghost use Rattle.classfile.specs.Gives.{Gives};
ghost use Rattle.classfile.specs.reading.Code.{ends_at};
ghost use Rattle.classfile.specs.ClassFile.{ClassFile};
ghost use Rattle.classfile.specs.reading.Class.{magic_at, version_at, methods_and_attributes_at, tables_at};
ghost use Rattle.classfile.specs.reading.Class.{class_body_at, contents_at, class_at, class_of};

use crate::attribute::{Attributes, Owner, attributes_at};
use crate::fault::ClassFault;
use crate::header::{Header, header_at};
use crate::member::{MemberKind, Members, members_at};
use crate::numbers::{u16_pair_at, u32_at};
use crate::pool::{ConstantPool, pool_at};
use std::alloc::Global;
use std::marker::Model;

/// What [`ClassFile`](crate::ClassFile) holds, while it is read: no rule of chapter 4 is promised of it.
#[derive(Drop)]
pub(crate) struct RawClassFile {
    pub(crate) constants: ConstantPool,
    pub(crate) header: Header,
    pub(crate) fields: Members,
    pub(crate) methods: Members,
    pub(crate) attributes: Attributes,
}

impl Model for RawClassFile {
    ghost use Rattle.classfile.specs.ClassFile.{ClassFile};
    ghost use Rattle.classfile.specs.reading.Class.{class_file_of};

    ghost Value = { ClassFile };

    ghost view = { λ c. class_file_of c.constants c.header c.fields c.methods c.attributes };
}

#[tactic(auto, unfolding(crate::specs::reading::Class::magic_at))]
fn magic_at(total: usize, bytes: &[u8]) -> Result<(u32, &[u8]), ClassFault>
    ensures { Gives (λ x. (x.0, x.1.now)) result (magic_at total bytes.now) }
{
    let (magic, rest) = u32_at(total, bytes)?;
    if magic != 0xCAFE_BABE {
        return Err(ClassFault::Magic);
    }
    Ok((magic, rest))
}

/// The version of a file.
#[derive(Clone, Copy)]
struct Version {
    minor: u16,
    major: u16,
}

#[tactic(auto, unfolding(crate::specs::reading::Class::version_at))]
fn version_at(total: usize, bytes: &[u8]) -> Result<(Version, &[u8]), ClassFault>
    ensures { Gives (λ x. ((x.0.minor, x.0.major), x.1.now)) result (version_at total bytes.now) }
{
    let ((minor, major), rest) = u16_pair_at(total, bytes)?;
    if minor != 0 || major != 52 {
        return Err(ClassFault::Version { major, minor });
    }
    Ok((Version { minor, major }, rest))
}

/// The methods, and the class's own attributes.
fn methods_and_attributes_at<'a>(
    alloc: Global,
    pool: &ConstantPool,
    total: usize,
    bytes: &'a [u8],
) -> Result<((Members, Attributes), &'a [u8]), ClassFault>
    ensures { Gives (λ x. ((x.0.0, x.0.1), x.1.now)) result (methods_and_attributes_at pool.now total bytes.now) }
{
    let (methods, rest) = members_at(alloc, MemberKind::Method, pool, total, bytes)?;
    let (attributes, rest) = attributes_at(alloc, pool.as_slice(), Owner::Class, total, rest)?;
    Ok(((methods, attributes), rest))
}

/// The fields, and after them the methods and the class's own attributes.
#[tactic(auto, unfolding(crate::specs::reading::Class::tables_at))]
fn tables_at<'a>(
    alloc: Global,
    pool: &ConstantPool,
    total: usize,
    bytes: &'a [u8],
) -> Result<((Members, (Members, Attributes)), &'a [u8]), ClassFault>
    ensures { Gives (λ x. ((x.0.0, (x.0.1.0, x.0.1.1)), x.1.now)) result (tables_at pool.now total bytes.now) }
{
    let (fields, rest) = members_at(alloc, MemberKind::Field, pool, total, bytes)?;
    let (others, rest) = methods_and_attributes_at(alloc, pool, total, rest)?;
    Ok(((fields, others), rest))
}

#[tactic(auto, unfolding(crate::specs::reading::Class::class_body_at, crate::specs::reading::Class::tables_at))]
fn class_body_at<'a>(
    alloc: Global,
    constants: ConstantPool,
    header: Header,
    total: usize,
    bytes: &'a [u8],
) -> Result<(RawClassFile, &'a [u8]), ClassFault>
    ensures { Gives (λ x. (x.0, x.1.now)) result (class_body_at constants header total bytes.now) }
{
    let ((fields, (methods, attributes)), rest) = tables_at(alloc, &constants, total, bytes)?;
    let class = RawClassFile {
        constants,
        header,
        fields,
        methods,
        attributes,
    };
    Ok((class, rest))
}

/// The constant pool, and what is after it.
#[tactic(auto, unfolding(crate::specs::reading::Class::contents_at))]
fn contents_at(
    alloc: Global,
    total: usize,
    bytes: &[u8],
) -> Result<(RawClassFile, &[u8]), ClassFault>
    requires { total < 2 ^ 63 }
    ensures { Gives (λ x. (x.0, x.1.now)) result (contents_at total bytes.now) }
{
    let (constants, rest) = pool_at(alloc, total, bytes)?;
    let (header, rest) = header_at(alloc, constants.as_slice(), total, rest)?;
    class_body_at(alloc, constants, header, total, rest)
}

#[tactic(auto, unfolding(crate::specs::reading::Class::class_at, crate::specs::reading::Class::contents_at))]
fn class_at(alloc: Global, total: usize, bytes: &[u8]) -> Result<(RawClassFile, &[u8]), ClassFault>
    requires { total < 2 ^ 63 }
    ensures { Gives (λ x. (x.0, x.1.now)) result (class_at total bytes.now) }
{
    let (_magic, rest) = magic_at(total, bytes)?;
    let (_version, rest) = version_at(total, rest)?;
    contents_at(alloc, total, rest)
}

/// The class file that fills these bytes.
#[tactic(auto, unfolding(crate::specs::reading::Class::class_of))]
pub(crate) fn class_of(alloc: Global, bytes: &[u8]) -> Result<RawClassFile, ClassFault>
    ensures { Gives (λ c. c) result (class_of bytes.now) }
{
    let total = bytes.len();
    let (class, rest) = class_at(alloc, total, bytes)?;
    ended(class, total, rest)
}

/// A class after which nothing may be left.
fn ended(class: RawClassFile, total: usize, rest: &[u8]) -> Result<RawClassFile, ClassFault>
    ensures { Gives (λ c. c) result (ends_at {X = ClassFile} total (class, rest.now)) }
{
    if !rest.is_empty() {
        return Err(ClassFault::Extra {
            at: total.saturating_sub(rest.len()),
        });
    }
    Ok(class)
}
