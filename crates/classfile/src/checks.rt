//! Checks the constants of a constant pool against one another.

ghost use Rattle.std.specs.Prelude.{◌≡◌, ◌+◌, ◌-◌, ◌<◌, ◌^◌};
ghost use Rattle.classfile.specs.Gives.{Gives};
ghost use Rattle.classfile.specs.reading.Checks.{member_check, class_check, utf8_check, type_check, check, checks};
ghost use Rattle.classfile.specs.reading.Descriptors.{is_field, is_method};
ghost use Rattle.classfile.specs.Lookup.{utf8_of};

use crate::constant::Constant;
use crate::fault::ClassFault;
use crate::lookup::{descriptor_of, has_utf8, is_class, is_member};
use crate::pool::ConstantPool;

/// The check of a Fieldref: a Class, and a NameAndType with a field's descriptor (JVMS 4.4.2).
#[tactic(auto, unfolding(crate::specs::reading::Checks::member_check))]
fn field_check(
    pool: &ConstantPool,
    at: usize,
    index: u16,
    class: u16,
    name_and_type: u16,
) -> Result<(), ClassFault>
    requires { at < 2 ^ 63 }
    ensures { Gives (λ x. x) result (member_check is_field pool.now at index class name_and_type) }
{
    if !is_class(pool.as_slice(), class) {
        return Err(ClassFault::Index { at: at + 1 });
    }
    match descriptor_of(pool.as_slice(), name_and_type) {
        None => Err(ClassFault::Index { at: at + 3 }),
        Some(descriptor) if pool.is_field(descriptor) => Ok(()),
        Some(_) => Err(ClassFault::Descriptor { index }),
    }
}

/// The check of a Methodref or an InterfaceMethodref: a Class, and a NameAndType with a method's descriptor (JVMS
/// 4.4.2).
#[tactic(auto, unfolding(crate::specs::reading::Checks::member_check))]
fn method_check(
    pool: &ConstantPool,
    at: usize,
    index: u16,
    class: u16,
    name_and_type: u16,
) -> Result<(), ClassFault>
    requires { at < 2 ^ 63 }
    ensures { Gives (λ x. x) result (member_check is_method pool.now at index class name_and_type) }
{
    if !is_class(pool.as_slice(), class) {
        return Err(ClassFault::Index { at: at + 1 });
    }
    match descriptor_of(pool.as_slice(), name_and_type) {
        None => Err(ClassFault::Index { at: at + 3 }),
        Some(descriptor) if pool.is_method(descriptor) => Ok(()),
        Some(_) => Err(ClassFault::Descriptor { index }),
    }
}

/// The check of a Class: a Utf8 that is the name of a class or an array's descriptor (JVMS 4.4.1).
#[tactic(auto, unfolding(crate::specs::reading::LookupTests::has_utf8))]
fn class_check(pool: &ConstantPool, at: usize, index: u16, name: u16) -> Result<(), ClassFault>
    requires { at < 2 ^ 63 }
    ensures { Gives (λ x. x) result (class_check at index (utf8_of pool.now name)) }
{
    if !has_utf8(pool.as_slice(), name) {
        return Err(ClassFault::Index { at: at + 1 });
    }
    if !pool.is_class_name(name) {
        return Err(ClassFault::Descriptor { index });
    }
    Ok(())
}

/// The check of a String or a MethodType, and the first one of a NameAndType: a Utf8 (JVMS 4.4.3, 4.4.6, 4.4.9).
fn utf8_check(pool: &ConstantPool, at: usize, text: u16) -> Result<(), ClassFault>
    requires { at < 2 ^ 63 }
    ensures { Gives (λ x. x) result (utf8_check pool.now at text) }
{
    if !has_utf8(pool.as_slice(), text) {
        return Err(ClassFault::Index { at: at + 1 });
    }
    Ok(())
}

/// The check of a NameAndType's descriptor: a Utf8 that is a field's descriptor or a method's (JVMS 4.4.6).
#[tactic(auto, unfolding(crate::specs::reading::LookupTests::has_utf8))]
fn type_check(pool: &ConstantPool, at: usize, index: u16, descriptor: u16) -> Result<(), ClassFault>
    requires { at < 2 ^ 63 }
    ensures { Gives (λ x. x) result (type_check at index (utf8_of pool.now descriptor)) }
{
    if !has_utf8(pool.as_slice(), descriptor) {
        return Err(ClassFault::Index { at: at + 3 });
    }
    if !pool.is_field(descriptor) && !pool.is_method(descriptor) {
        return Err(ClassFault::Descriptor { index });
    }
    Ok(())
}

/// The check of a MethodHandle: a kind from 1 to 9, and a reference to a member (JVMS 4.4.8).
#[tactic(auto, unfolding(crate::specs::reading::Checks::check))]
fn handle_check(
    pool: &ConstantPool,
    at: usize,
    index: u16,
    kind: u8,
    reference: u16,
) -> Result<(), ClassFault>
    requires { at < 2 ^ 63 }
    ensures { Gives (λ x. x) result (check pool.now at index (Constant.MethodHandle kind reference)) }
{
    if kind < 1 || 9 < kind {
        return Err(ClassFault::Index { at: at + 1 });
    }
    if !is_member(pool.as_slice(), reference) {
        return Err(ClassFault::Index { at: at + 2 });
    }
    Ok(())
}

/// The check of the constant at an index, which begins at `at`, against those that it names (JVMS 4.4).
#[tactic(auto, unfolding(crate::specs::reading::Checks::check))]
pub(crate) fn check(
    pool: &ConstantPool,
    at: usize,
    index: u16,
    constant: &Constant,
) -> Result<(), ClassFault>
    requires { at < 2 ^ 63 }
    ensures { Gives (λ x. x) result (check pool.now at index constant.now) }
{
    match constant {
        Constant::Class { name } => class_check(pool, at, index, *name),
        Constant::String { text } | Constant::MethodType { descriptor: text } => {
            utf8_check(pool, at, *text)
        }
        Constant::Fieldref {
            class,
            name_and_type,
        } => field_check(pool, at, index, *class, *name_and_type),
        Constant::Methodref {
            class,
            name_and_type,
        }
        | Constant::InterfaceMethodref {
            class,
            name_and_type,
        } => method_check(pool, at, index, *class, *name_and_type),
        Constant::NameAndType { name, descriptor } => {
            utf8_check(pool, at, *name)?;
            type_check(pool, at, index, *descriptor)
        }
        Constant::MethodHandle { kind, reference } => {
            handle_check(pool, at, index, *kind, *reference)
        }
        Constant::InvokeDynamic { name_and_type, .. } => {
            if descriptor_of(pool.as_slice(), *name_and_type).is_none() {
                return Err(ClassFault::Index { at: at + 3 });
            }
            Ok(())
        }
        _ => Ok(()),
    }
}

/// The first check that fails, over all constants in order. `left` bytes stand from the first constant on
/// in a file of `total` bytes.
#[tactic(auto, unfolding(crate::specs::reading::Checks::checks))]
pub(crate) fn check_all(pool: &ConstantPool, total: usize, left: usize) -> Result<(), ClassFault>
    requires { total < 2 ^ 63 }
    ensures { Gives {Y = Unit {0}} (λ x. x) result (checks pool.now total left 0 pool.now) }
{
    let mut left = left;
    let mut index = 0u16;
    for constant in pool.as_slice() {
        check(pool, total.saturating_sub(left), index, constant)?;
        left = left.saturating_sub(constant.size());
        index = index.wrapping_add(1);
    }
    Ok(())
}
