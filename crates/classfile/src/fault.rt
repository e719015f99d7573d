//! Why bytes are no class file.

ghost use Rattle.std.specs.Prelude.{◌≡◌};
ghost use Rattle.classfile.specs.declared.fault.ClassFault.TheVariants.{Memory};
ghost use Rattle.classfile.specs.reading.Numbers.{inside_attribute};

use std::alloc::{AllocError, AllocFailed};
use std::fmt::{self, Debug, Display, Formatter, Write};
use thiserror::Error;

/// The first rule that the bytes break, or that memory ran out.
/// `at` is an offset in the file, in bytes; `index` is an index of the constant pool.
#[derive(Drop, Error)]
pub enum ClassFault {
    /// Memory ran out.
    Memory,
    /// The number or the run of bytes that begins at `at` passes the end of the file.
    Truncated { at: usize },
    /// Bytes follow the class file, the first of them at `at`.
    Extra { at: usize },
    /// The file doesn't begin with `CAFEBABE`.
    Magic,
    /// The version isn't 52.0.
    Version { major: u16, minor: u16 },
    /// The constant at `index` has an unknown tag (JVMS 4.4).
    Tag { index: u16 },
    /// The number at `at` is no index of a constant of the kind that is wanted there.
    Index { at: usize },
    /// The text of the constant at `index` is no modified UTF-8 (JVMS 4.4.7).
    Utf8 { index: u16 },
    /// The constant at `index` has a descriptor or a class name of the wrong form (JVMS 4.3, 4.4.1).
    Descriptor { index: u16 },
    /// The attribute at `at` isn't well formed, or the method at `at` has no code (JVMS 4.7).
    Attribute { at: usize },
}

impl ClassFault {
    /// The fault of an attribute at `at` inside which this one was found; that memory ran out stays what it is.
    pub(crate) fn inside_attribute(self, at: usize) -> ClassFault
        ensures { result ≡ inside_attribute self at }
    {
        match self {
            ClassFault::Memory => ClassFault::Memory,
            _ => ClassFault::Attribute { at },
        }
    }
}

fn number(it: u16) -> Option<usize> {
    Some(usize::from(it))
}

impl ClassFault {
    /// The fault's name, and the numbers after it.
    fn words(&self) -> (&'static str, Option<usize>, Option<usize>) {
        match self {
            ClassFault::Memory => ("Memory", None, None),
            ClassFault::Truncated { at } => ("Truncated", Some(*at), None),
            ClassFault::Extra { at } => ("Extra", Some(*at), None),
            ClassFault::Magic => ("Magic", None, None),
            ClassFault::Version { major, minor } => ("Version", number(*major), number(*minor)),
            ClassFault::Tag { index } => ("Tag", number(*index), None),
            ClassFault::Index { at } => ("Index", Some(*at), None),
            ClassFault::Utf8 { index } => ("Utf8", number(*index), None),
            ClassFault::Descriptor { index } => ("Descriptor", number(*index), None),
            ClassFault::Attribute { at } => ("Attribute", Some(*at), None),
        }
    }
}

impl Display for ClassFault {
    fn fmt<W: Write>(&self, f: &mut Formatter<W>) -> Result<(), fmt::Error> {
        let (name, first, second) = self.words();
        f.write_str(name)?;
        for number in [first, second] {
            if let Some(number) = number {
                write!(f, " {number}")?;
            }
        }
        Ok(())
    }
}

impl Debug for ClassFault {
    fn fmt<W: Write>(&self, f: &mut Formatter<W>) -> Result<(), fmt::Error> {
        Display::fmt(self, f)
    }
}

impl From<AllocError> for ClassFault {
    ghost from_gives = { λ _ e. e ≡ Memory };

    fn from(_error: AllocError) -> ClassFault {
        ClassFault::Memory
    }
}

impl<T: Drop> From<AllocFailed<T>> for ClassFault {
    ghost from_gives = { λ _ e. e ≡ Memory };

    fn from(_error: AllocFailed<T>) -> ClassFault {
        ClassFault::Memory
    }
}
