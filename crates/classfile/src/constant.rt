//! The constants of a constant pool.

ghost use Rattle.std.specs.Prelude.{◌≡◌, length};
ghost use Rattle.classfile.specs.Constants.{is_wide, kind_of_tag};
ghost use Rattle.classfile.specs.Spelling.{constant_text};

use crate::modified::ModifiedUtf8;

/// A constant of a constant pool (JVMS 4.4). A number that names another constant is its index.
#[derive(Drop)]
pub enum Constant {
    /// Index 0, and the second index of a Long or a Double.
    Unusable,
    /// A text (JVMS 4.4.7).
    Utf8 { text: ModifiedUtf8 },
    /// The bits of an int (JVMS 4.4.4).
    Integer { bits: u32 },
    /// The bits of a float (JVMS 4.4.4).
    Float { bits: u32 },
    /// The upper and the lower half of a long (JVMS 4.4.5).
    Long { high: u32, low: u32 },
    /// The upper and the lower half of a double's bits (JVMS 4.4.5).
    Double { high: u32, low: u32 },
    /// A class, an interface or an array type, by the Utf8 of its name (JVMS 4.4.1).
    Class { name: u16 },
    /// A string, by its Utf8 (JVMS 4.4.3).
    String { text: u16 },
    /// A field, by its Class and its NameAndType (JVMS 4.4.2).
    Fieldref { class: u16, name_and_type: u16 },
    /// A method of a class (JVMS 4.4.2).
    Methodref { class: u16, name_and_type: u16 },
    /// A method of an interface (JVMS 4.4.2).
    InterfaceMethodref { class: u16, name_and_type: u16 },
    /// A name and a descriptor, by their Utf8s (JVMS 4.4.6).
    NameAndType { name: u16, descriptor: u16 },
    /// A kind from 1 to 9, and a Fieldref, Methodref or InterfaceMethodref (JVMS 4.4.8).
    MethodHandle { kind: u8, reference: u16 },
    /// A method type, by a Utf8 (JVMS 4.4.9).
    MethodType { descriptor: u16 },
    /// A bootstrap method's number, and a NameAndType (JVMS 4.4.10).
    InvokeDynamic { bootstrap: u16, name_and_type: u16 },
}

impl Constant {
    /// Whether it takes two indices (JVMS 4.4.5).
    pub fn is_wide(&self) -> bool
        ensures { result ≡ is_wide self.now }
    {
        matches!(self, Constant::Long { .. } | Constant::Double { .. })
    }

    /// How many bytes it takes in the file.
    pub fn size(&self) -> usize
        ensures { result ≡ length (constant_text self.now) }
    {
        match self {
            Constant::Unusable => 0,
            Constant::Utf8 { text } => text.bytes().len().saturating_add(3),
            Constant::Class { .. } | Constant::String { .. } | Constant::MethodType { .. } => 3,
            Constant::MethodHandle { .. } => 4,
            Constant::Long { .. } | Constant::Double { .. } => 9,
            _ => 5,
        }
    }
}

/// What a tag stands for (JVMS 4.4, table 4.4-A).
#[derive(Clone, Copy, Drop)]
pub(crate) enum Kind {
    Utf8,
    Integer,
    Float,
    Long,
    Double,
    Class,
    String,
    Fieldref,
    Methodref,
    InterfaceMethodref,
    NameAndType,
    MethodHandle,
    MethodType,
    InvokeDynamic,
}

#[tactic(auto, unfolding(crate::specs::Constants::kind_of_tag))]
pub(crate) fn kind_of_tag(tag: u8) -> Option<Kind>
    ensures { result ≡ kind_of_tag tag }
{
    match tag {
        1 => Some(Kind::Utf8),
        3 => Some(Kind::Integer),
        4 => Some(Kind::Float),
        5 => Some(Kind::Long),
        6 => Some(Kind::Double),
        7 => Some(Kind::Class),
        8 => Some(Kind::String),
        9 => Some(Kind::Fieldref),
        10 => Some(Kind::Methodref),
        11 => Some(Kind::InterfaceMethodref),
        12 => Some(Kind::NameAndType),
        15 => Some(Kind::MethodHandle),
        16 => Some(Kind::MethodType),
        18 => Some(Kind::InvokeDynamic),
        _ => None,
    }
}
