//! Access flags (JVMS 4.1, 4.5, 4.6).

ghost use Rattle.std.specs.Prelude.{◌≡◌};
ghost use Rattle.classfile.specs.Flags.{has_flag, has_no_body};

/// Usable only inside its class.
pub const PRIVATE: u16 = 0x0002;
/// Of the class and not of its instances.
pub const STATIC: u16 = 0x0008;
/// Not assigned after it is made, or not overridden or extended.
pub const FINAL: u16 = 0x0010;
/// Of a method: entered under a monitor. Of a class this bit is `ACC_SUPER`.
pub const SYNCHRONIZED: u16 = 0x0020;
/// Of a method: not in bytecode.
pub const NATIVE: u16 = 0x0100;
/// Of a class: an interface.
pub const INTERFACE: u16 = 0x0200;
/// Without code, or without instances.
pub const ABSTRACT: u16 = 0x0400;

/// Whether access flags have a flag.
pub fn has_flag(access_flags: u16, flag: u16) -> bool
    ensures { result ≡ has_flag access_flags flag }
{
    access_flags & flag != 0
}

/// Whether a method of these flags has no code.
pub(crate) fn has_no_body(access_flags: u16) -> bool
    ensures { result ≡ has_no_body access_flags }
{
    has_flag(access_flags, NATIVE) || has_flag(access_flags, ABSTRACT)
}
