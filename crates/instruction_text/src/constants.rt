//! What the constant of an instruction names.

ghost use Rattle.std.specs.Prelude.{◌≡◌, IfOk};
ghost use Rattle.std.specs.String.{string_bytes};
ghost use Rattle.instruction_text.specs.Texts.{text_at, class_at, signature_at, member_text, named_at, pushed_at};

use classfile::{ClassFile, Constant, printed};
use std::alloc::{AllocError, Global};

/// The text at an index, for a reader.
pub(crate) fn text_at(alloc: Global, file: &ClassFile, index: u16) -> Result<String, AllocError>
    ensures { IfOk result (λ text. string_bytes text ≡ text_at file.now index) }
{
    printed(alloc, file.utf8(index).unwrap_or(&[]))
}

/// The name of the class at an index, with slashes.
pub(crate) fn class_at(alloc: Global, file: &ClassFile, index: u16) -> Result<String, AllocError>
    ensures { IfOk result (λ text. string_bytes text ≡ class_at file.now index) }
{
    printed(alloc, file.class_name(index).unwrap_or(&[]))
}

/// A name and a descriptor, with this between them.
fn signature_at(
    alloc: Global,
    file: &ClassFile,
    index: u16,
    between: &str,
) -> Result<String, AllocError>
    ensures { IfOk result (λ text. string_bytes text ≡ signature_at file.now between.now index) }
{
    let Some(Constant::NameAndType { name, descriptor }) = file.constant(index) else {
        return Ok(String::new(alloc));
    };
    let name = text_at(alloc, file, *name)?;
    let descriptor = text_at(alloc, file, *descriptor)?;
    format!(in alloc; "{name}{between}{descriptor}")
}

/// A member of a class, with this between its name and its descriptor.
fn member_at(
    alloc: Global,
    file: &ClassFile,
    class: u16,
    signature: u16,
    between: &str,
) -> Result<String, AllocError>
    ensures { IfOk result (λ text. string_bytes text ≡ member_text file.now between.now class signature) }
{
    let class = class_at(alloc, file, class)?;
    let signature = signature_at(alloc, file, signature, between)?;
    format!(in alloc; "{class}.{signature}")
}

/// What the constant at an index names: a class, a member, or the method of an `invokedynamic`.
pub(crate) fn named_at(alloc: Global, file: &ClassFile, index: u16) -> Result<String, AllocError>
    ensures { IfOk result (λ text. string_bytes text ≡ named_at file.now index) }
{
    match file.constant(index) {
        Some(Constant::Class { name }) => text_at(alloc, file, *name),
        Some(
            Constant::Fieldref {
                class,
                name_and_type,
            },
        ) => { member_at(alloc, file, *class, *name_and_type, ":") }
        Some(
            Constant::Methodref {
                class,
                name_and_type,
            }
            | Constant::InterfaceMethodref {
                class,
                name_and_type,
            },
        ) => member_at(alloc, file, *class, *name_and_type, ""),
        Some(Constant::InvokeDynamic { name_and_type, .. }) => {
            signature_at(alloc, file, *name_and_type, "")
        }
        _ => Ok(String::new(alloc)),
    }
}

/// What `ldc` and its kin push: the kind of the constant at an index, and of a class its name.
pub(crate) fn pushed_at(alloc: Global, file: &ClassFile, index: u16) -> Result<String, AllocError>
    ensures { IfOk result (λ text. string_bytes text ≡ pushed_at file.now index) }
{
    let kind = match file.constant(index) {
        Some(Constant::Integer { .. }) => "int",
        Some(Constant::Float { .. }) => "float",
        Some(Constant::Long { .. }) => "long",
        Some(Constant::Double { .. }) => "double",
        Some(Constant::String { .. }) => "string",
        Some(Constant::MethodHandle { .. }) => "method handle",
        Some(Constant::MethodType { .. }) => "method type",
        Some(Constant::Class { name }) => {
            let name = text_at(alloc, file, *name)?;
            return format!(in alloc; "class {name}");
        }
        _ => "",
    };
    String::from_str(alloc, kind)
}
