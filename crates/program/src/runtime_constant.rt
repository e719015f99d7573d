//! Constants of run-time constant pools (JVMS 5.1): what the entries of a class file's constant pool stand for, once
//! they are resolved.

ghost use Rattle.std.specs.Prelude.{◌≡◌};
ghost use Rattle.program.specs.Fields.{narrowed, narrowed_value};

use built_in::class_id::ClassId;
use hierarchy::member::{Method, Unresolved};
use vm_state::value::Value;

/// How a field's value is stored, by its type (JVMS 2.11.1, 4.3.2).
#[derive(Clone, Copy, Debug)]
pub enum FieldKind {
    Boolean,
    Byte,
    Char,
    Short,
    Int,
    Long,
    /// Left out: fields of this type have no value.
    Float,
    /// Left out: fields of this type have no value.
    Double,
    Reference,
}

impl FieldKind {
    /// What narrowing an int to the type of a field gives (JVMS 2.11.4).
    #[inline(always)]
    pub(crate) fn narrowed(self, number: i32) -> i32
        ensures { result ≡ narrowed self number }
    {
        let bits = number.cast_unsigned();
        match self {
            FieldKind::Boolean => (bits % 2) as i32,
            FieldKind::Byte => ((bits % 256) as u8).cast_signed() as i32,
            FieldKind::Char => (bits % 65536) as i32,
            FieldKind::Short => ((bits % 65536) as u16).cast_signed() as i32,
            _ => number,
        }
    }

    /// A value as a field of this kind holds it, or a method that returns this kind gives it: an int with the bits
    /// alone that the type has (JVMS 2.11.1; 6.5, putfield and ireturn).
    #[inline(always)]
    pub fn narrow(self, value: Value) -> Value
        ensures { result ≡ narrowed_value self value }
    {
        match value {
            Value::Int(number) => Value::Int(self.narrowed(number)),
            _ => value,
        }
    }
}

/// A field as instructions use it.
#[derive(Clone, Copy, Debug)]
pub enum FieldTarget {
    Static {
        class: u32,
        /// Its number among the class's static fields that have values.
        number: u32,
        is_final: bool,
        /// Its place among the fields that the class declares.
        index: u16,
    },
    /// A field of instances.
    Instance {
        class: u32,
        /// Its place among the fields that the class declares.
        index: u16,
        /// Its place among the slots of every object of the class or of one below it; nothing where it has no value.
        slot: u32,
    },
    /// `System.out`.
    Out,
}

/// A reference to a method (JVMS 4.4.2).
#[derive(Clone, Copy, Debug)]
pub struct MethodReference {
    /// The class that it names, if it is given or built in, or an array class of such.
    pub class: Option<ClassId>,
    /// The index of its descriptor in the constant pool of its class file, at which its class has its signature; 0
    /// where it names none.
    pub descriptor: u16,
    /// What it resolves to.
    pub target: Result<Method, Unresolved>,
}

/// A constant of a run-time constant pool.
#[derive(Clone, Copy, Debug)]
pub enum RuntimeConstant {
    /// No instruction that is executed names it.
    Other,
    Int(i32),
    Long(i64),
    Float,
    Double,
    /// A string, by its number in the program's table of distinct strings.
    String(usize),
    /// A class, if it is given or built in, or an array class of such.
    Class(Option<ClassId>),
    /// Left out: method handles are not executed.
    MethodHandle,
    /// Left out: method types are not executed.
    MethodType,
    /// A field reference: the kind of its descriptor, and what it resolves to.
    Field(FieldKind, Result<FieldTarget, Unresolved>),
    /// A method reference.
    Method(MethodReference),
    /// A reference to a method of an interface.
    InterfaceMethod(MethodReference),
}
