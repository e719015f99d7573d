//! What members are called, as class files say it.

/// The name and the descriptor of a member, by their indices in the constant pool of a class (JVMS 4.4.6, 4.6).
#[derive(Clone, Copy)]
pub struct MemberName {
    /// The class that has the constant pool.
    pub class: u32,
    pub name: u16,
    pub descriptor: u16,
}

impl MemberName {
    /// No bytes: no class has this number.
    pub const NONE: MemberName = MemberName {
        class: u32::MAX,
        name: 0,
        descriptor: 0,
    };
}
