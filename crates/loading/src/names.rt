//! The names that a class file gives (JVMS 4.1, 4.2.1).

ghost use Rattle.std.specs.Prelude.{◌≡◌, IfOk};
ghost use Rattle.classfile.specs.Class.{IsNoArray};
ghost use Rattle.classfile.specs.Units.{units_text, IsModifiedUtf8};
ghost use Rattle.loading.specs.Names.{class_name_at, text_at, name_of, is_interface};

use classfile::flags::{INTERFACE, has_flag};
use classfile::{ClassFile, ClassName};
use std::alloc::{AllocError, Global};

/// The bytes of the name of the Class at an index, or none.
pub fn class_name_at(file: &ClassFile, index: u16) -> &[u8]
    ensures value { result.now ≡ class_name_at file.now index }
    ensures modified { IsModifiedUtf8 result.now }
{
    match file.class_name(index) {
        Some(name) => name,
        None => &[],
    }
}

/// The text at an index of a class file's constants, or no bytes.
pub fn text_at(file: &ClassFile, index: u16) -> &[u8]
    ensures { result.now ≡ text_at file.now index }
{
    file.utf8(index).unwrap_or(&[])
}

/// The bytes of the class's own name, which is no array's.
pub fn name_of(file: &ClassFile) -> &[u8]
    ensures value { result.now ≡ name_of file.now }
    ensures modified { IsModifiedUtf8 result.now }
    ensures plain { IsNoArray result.now }
{
    // What holds of every class file that was read.
    let _constants = file.constants();
    class_name_at(file, file.this_class())
}

/// The class's own name, to be kept.
///
/// # Errors
/// Where memory runs out.
pub(crate) fn copy_of_name(alloc: Global, file: &ClassFile) -> Result<ClassName, AllocError>
    ensures { IfOk result (λ name. units_text name ≡ name_of file.now) }
{
    ClassName::from_modified_utf8(alloc, name_of(file))
}

/// Whether the class is an interface (JVMS 4.1).
pub fn is_interface(file: &ClassFile) -> bool
    ensures { result ≡ is_interface file.now }
{
    has_flag(file.access_flags(), INTERFACE)
}
