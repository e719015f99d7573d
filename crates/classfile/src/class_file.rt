//! Class files.

ghost use Rattle.std.specs.Prelude.{◌≡◌, ◌<◌, ◌^◌, ℕ, List, length, Ok, Err, IfOk, IfErr, IfSome, option_map};
ghost use Rattle.std.specs.Prelude.{slice_get};
ghost use Rattle.classfile.specs.declared.fault.ClassFault.{ClassFault};
ghost use Rattle.classfile.specs.Class.{IsClassFile, IsClassText};
ghost use Rattle.classfile.specs.Faults.{IsBytes};
ghost use Rattle.classfile.specs.FirstFault.{FirstFault, IsFirstFault, ExactlyOne};
ghost use Rattle.classfile.specs.Lookup.{utf8_of, class_name_of};
ghost use Rattle.classfile.specs.Gives.{Gives};
ghost use Rattle.classfile.specs.ClassFile.{ClassFile, declares_default, is_default_method};
ghost use Rattle.classfile.specs.Text.{class_text};
ghost use Rattle.classfile.specs.Units.{IsModifiedUtf8};

use crate::attribute::Attribute;
use crate::bytes::Bytes;
use crate::constant::Constant;
use crate::fault::ClassFault;
use crate::flags::{ABSTRACT, STATIC, has_flag};
use crate::lookup::{class_name_of, utf8_of};
use crate::member::Member;
use crate::raw::{RawClassFile, class_of};
use std::alloc::{AllocError, Global};
use std::marker::Model;

/// A class file of version 52 (JVMS 4.1). [`read`] alone makes one, and it keeps its text, what every byte
/// says and every rule that is checked.
#[derive(Drop)]
pub struct ClassFile {
    text: Bytes,
    raw: RawClassFile,
}

impl Model for ClassFile {
    ghost use Rattle.classfile.specs.ClassFile.{ClassFile};
    ghost use Rattle.classfile.specs.Class.{IsClassText};

    ghost Value = { ClassFile };

    ghost view = { λ c. c.raw };

    ghost invariant = { λ c. IsClassText c.text c.raw };
}

/// Reads a class file. What is accepted is, byte for byte, the text of the class file that is answered,
/// and meets every rule of chapter 4 that is checked (JVMS 4.1 to 4.7).
///
/// # Errors
///
/// The fault of the first rule that is broken, from the file's front to its back, or `Memory` where
/// memory runs out. Nothing is answered then.
pub fn read(alloc: Global, bytes: &[u8]) -> Result<ClassFile, ClassFault>
    // What is accepted is the text of the class file that is answered.
    ensures text { IfOk result (λ class. IsClassText bytes.now class) }
    // Every text of a class file is accepted as that class file, unless memory runs out.
    ensures only_text { (class : ClassFile) → IsClassText bytes.now class → Gives (λ c. c) result (Ok class) }
    // What is refused is refused for the first rule that it breaks, or because memory runs out.
    ensures fault { IfErr result (λ fault. IsFirstFault bytes.now fault) }
    // Everything else is refused for the first rule that it breaks, unless memory runs out.
    ensures only_fault { (fault : ClassFault) → FirstFault bytes.now fault
        → Gives {Y = ClassFile} (λ c. c) result (Err fault) }
{
    let text = Bytes::copy_of(alloc, bytes)?;
    let raw = class_of(alloc, bytes)?;
    Ok(ClassFile { text, raw })
}

/// A copy of the text of a class file (JVMS 4.1): the very bytes that it was read from.
///
/// # Errors
///
/// `AllocError` where memory runs out; the class file stays as it was.
pub fn write(alloc: Global, class: &ClassFile) -> Result<Vec<u8>, AllocError>
    ensures { IfOk result (λ bytes. bytes.items ≡ class_text class.now) }
{
    Vec::from_slice(alloc, class.text())
}

/// Bytes are the text of one class file or break one rule first, and never both.
pub fn text_or_fault()
    ensures { (bytes : List ℕ) → IsBytes bytes → ExactlyOne bytes }
{}

impl ClassFile {
    /// The text of the class file (JVMS 4.1): the very bytes that it was read from.
    pub fn text(&self) -> &[u8]
        ensures { result.now ≡ class_text self.now }
    {
        self.text.as_slice()
    }

    /// The constants of the constant pool by index (JVMS 4.4): index 0 is unusable, and so is the one
    /// after a Long or a Double.
    pub fn constants(&self) -> &[Constant]
        ensures value { result.now ≡ self.now.constants }
        // What holds of every class file that was read.
        ensures fits { IsClassFile self.now }
    {
        self.raw.constants.as_slice()
    }

    /// The access flags (JVMS 4.1).
    pub fn access_flags(&self) -> u16
        ensures { result ≡ self.now.access_flags }
    {
        self.raw.header.access_flags
    }

    /// The index of the class's own Class, which is no array.
    pub fn this_class(&self) -> u16
        ensures { result ≡ self.now.this_class }
    {
        self.raw.header.this_class
    }

    /// The index of the superclass's Class, or 0.
    pub fn super_class(&self) -> u16
        ensures { result ≡ self.now.super_class }
    {
        self.raw.header.super_class
    }

    /// The indices of the direct superinterfaces' Classes, in the file's order.
    pub fn interfaces(&self) -> &[u16]
        ensures { result.now ≡ self.now.interfaces }
    {
        self.raw.header.interfaces.as_slice()
    }

    /// The fields, in the file's order: at most 65,535.
    pub fn fields(&self) -> &[Member]
        ensures value { result.now ≡ self.now.fields }
        ensures count { length result.now < 2 ^ 16 }
    {
        self.raw.fields.as_slice()
    }

    /// The methods, in the file's order: at most 65,535.
    pub fn methods(&self) -> &[Member]
        ensures value { result.now ≡ self.now.methods }
        ensures count { length result.now < 2 ^ 16 }
    {
        self.raw.methods.as_slice()
    }

    /// The class's own attributes, in the file's order.
    pub fn attributes(&self) -> &[Attribute]
        ensures { result.now ≡ self.now.attributes }
    {
        self.raw.attributes.as_slice()
    }

    /// Whether an interface declares a method that is neither abstract nor static (JVMS 4.6).
    pub fn declares_default(&self) -> bool
        ensures { result ≡ declares_default self.now }
    {
        self.methods().iter().any(is_default_method)
    }

    /// The constant at an index of the constant pool.
    pub fn constant(&self, index: u16) -> Option<&Constant>
        ensures { option_map (λ c. c.now) result ≡ slice_get self.now.constants index }
    {
        self.constants().get(usize::from(index))
    }

    /// The bytes of the Utf8 at an index, if one stands there (JVMS 4.4.7).
    pub fn utf8(&self, index: u16) -> Option<&[u8]>
        ensures value { option_map (λ t. t.now) result ≡ utf8_of self.now.constants index }
        ensures modified { IfSome result (λ t. IsModifiedUtf8 t.now) }
    {
        utf8_of(self.constants(), index)
    }

    /// The bytes of the name of the Class at an index, if one stands there (JVMS 4.4.1).
    pub fn class_name(&self, index: u16) -> Option<&[u8]>
        ensures value { option_map (λ t. t.now) result ≡ class_name_of self.now.constants index }
        ensures modified { IfSome result (λ t. IsModifiedUtf8 t.now) }
    {
        class_name_of(self.constants(), index)
    }
}

fn is_default_method(method: &Member) -> bool
    ensures { result ≡ is_default_method method.now }
{
    !(has_flag(method.access_flags, ABSTRACT) || has_flag(method.access_flags, STATIC))
}
