//! Instructions on arrays.

use built_in::class_id::ArrayType;
use bytecode::{ElementKind, PrimitiveKind};

/// An instruction on arrays, once what it names is looked up (JVMS 6.5).
#[derive(Clone, Copy)]
pub enum ArrayOperation {
    /// `newarray`.
    New(PrimitiveKind),
    /// `anewarray` that makes arrays of this type.
    NewOfReferences(ArrayType),
    /// `arraylength`.
    Length,
    /// `iaload`, `laload`, `aaload`, `baload`, `caload` and `saload`.
    Load(ElementKind),
    /// `iastore`, `lastore`, `aastore`, `bastore`, `castore` and `sastore`.
    Store(ElementKind),
}
