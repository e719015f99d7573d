//! Members as references name them and as they are found.

use built_in::method::BuiltInMethod;

/// A field that a reference resolves to.
#[derive(Clone, Copy)]
pub enum Field {
    /// The field of this place among those that a given class declares.
    Given { class: u32, index: u16 },
    /// `System.out`.
    Out,
}

/// A field or a method that a given class declares.
#[derive(Clone, Copy)]
pub struct DeclaredMember {
    pub class: u32,
    /// Its place among the class's members of its kind.
    pub index: u16,
}

/// A method that a reference resolves to, or that a call selects.
#[derive(Clone, Copy, Debug)]
pub enum Method {
    /// The method of this place among those that a given class declares.
    Given { class: u32, index: u16 },
    BuiltIn(BuiltInMethod),
}

/// Why a reference resolves to no member.
#[derive(Clone, Copy, Debug)]
pub enum Unresolved {
    /// No reference of the kind stands there.
    NoReference,
    /// Its class is neither given nor built in, or has no such member.
    Missing,
    /// A Methodref that names an interface, or an InterfaceMethodref that names a class (JVMS 5.4.3.3, 5.4.3.4).
    Incompatible,
}
