//! What is looked for in a class.

/// The kind of member that counts.
#[derive(Clone, Copy)]
pub(crate) enum Wanted {
    Field,
    /// A field of an interface.
    InterfaceField,
    Method,
    /// A method that is neither private nor static.
    InstanceMethod,
    /// A method of an interface that is neither private nor static: a superinterface method as it is looked up
    /// (JVMS 5.4.3.3).
    InterfaceMethod,
}
