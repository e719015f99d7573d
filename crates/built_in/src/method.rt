//! The members of the classes that the machine has of itself.

ghost use Rattle.std.specs.Prelude.{◌≡◌, ◌≢◌, ◌↔◌, List, IsTrue, MatchOption};
ghost use Rattle.std.specs.List.{All, Contains};
ghost use Rattle.built_in.specs.Methods.{HasMember, HasArrayMember, key_of_member};
ghost use Rattle.built_in.specs.Methods.{name_of_member, descriptor_of_member, printed_descriptor, members_of};
ghost use Rattle.built_in.specs.declared.method.BuiltInMethod.{BuiltInMethod as Method};

use crate::class_id::BuiltIn;

/// What is printed by `print` and `println` of `java.io.PrintStream`.
#[derive(Clone, Copy, Debug)]
pub enum Printed {
    Int,
    Long,
    Char,
    Boolean,
    String,
}

/// A method of a built-in class or of an array class.
#[derive(Clone, Copy, Debug)]
pub enum BuiltInMethod {
    /// `Object()`, which other classes that are no throwables have from it.
    NewObject,
    /// `Throwable()` and the same of the classes below.
    NewThrowable,
    /// `Throwable(String)` and the same of the classes below. The text is dropped.
    NewThrowableOfText,
    /// `Enum(String, int)`.
    NewEnum,
    /// `Enum.name()`.
    EnumName,
    /// `Enum.ordinal()`.
    EnumOrdinal,
    /// `PrintStream.print` of a value.
    Print(Printed),
    /// `PrintStream.println` of a value.
    PrintLine(Printed),
    /// `PrintStream.println()`.
    EndLine,
    /// `clone()` of an array (JLS 10.7).
    CloneArray,
}

const OF_OBJECT: [BuiltInMethod; 1] = [BuiltInMethod::NewObject];

const OF_THROWABLE: [BuiltInMethod; 2] = [
    BuiltInMethod::NewThrowable,
    BuiltInMethod::NewThrowableOfText,
];

const OF_ENUM: [BuiltInMethod; 4] = [
    BuiltInMethod::NewObject,
    BuiltInMethod::NewEnum,
    BuiltInMethod::EnumName,
    BuiltInMethod::EnumOrdinal,
];

const OF_PRINT_STREAM: [BuiltInMethod; 12] = [
    BuiltInMethod::NewObject,
    BuiltInMethod::Print(Printed::Int),
    BuiltInMethod::Print(Printed::Long),
    BuiltInMethod::Print(Printed::Char),
    BuiltInMethod::Print(Printed::Boolean),
    BuiltInMethod::Print(Printed::String),
    BuiltInMethod::PrintLine(Printed::Int),
    BuiltInMethod::PrintLine(Printed::Long),
    BuiltInMethod::PrintLine(Printed::Char),
    BuiltInMethod::PrintLine(Printed::Boolean),
    BuiltInMethod::PrintLine(Printed::String),
    BuiltInMethod::EndLine,
];

const OF_ARRAY: [BuiltInMethod; 2] = [BuiltInMethod::CloneArray, BuiltInMethod::NewObject];

impl Printed {
    /// The descriptor of a method that prints this.
    fn descriptor(self) -> &'static str
        ensures { result.now ≡ printed_descriptor self }
    {
        match self {
            Printed::Int => "(I)V",
            Printed::Long => "(J)V",
            Printed::Char => "(C)V",
            Printed::Boolean => "(Z)V",
            Printed::String => "(Ljava/lang/String;)V",
        }
    }
}

impl BuiltInMethod {
    /// The method of a name and a descriptor that a built-in class has, its own or that of its superclasses.
    pub fn of_class(class: BuiltIn, name: &[u8], descriptor: &[u8]) -> Option<BuiltInMethod>
        ensures { MatchOption result
            ((m : Method) → HasMember class m
            → key_of_member m ≢ record { name = name.now; descriptor = descriptor.now })
            (λ m. HasMember class m × (key_of_member m ≡ record { name = name.now; descriptor = descriptor.now })) }
    {
        first_named(members_of(class), name, descriptor)
    }

    /// The method of a name and a descriptor that an array class has (JVMS 6.5, invokevirtual).
    pub fn of_array(name: &[u8], descriptor: &[u8]) -> Option<BuiltInMethod>
        ensures { MatchOption result
            ((m : Method) → HasArrayMember m
            → key_of_member m ≢ record { name = name.now; descriptor = descriptor.now })
            (λ m. HasArrayMember m × (key_of_member m ≡ record { name = name.now; descriptor = descriptor.now })) }
    {
        first_named(&OF_ARRAY, name, descriptor)
    }

    /// Its name.
    pub fn name(self) -> &'static str
        ensures { result.now ≡ name_of_member self }
    {
        match self {
            BuiltInMethod::NewObject
            | BuiltInMethod::NewThrowable
            | BuiltInMethod::NewThrowableOfText
            | BuiltInMethod::NewEnum => "<init>",
            BuiltInMethod::EnumName => "name",
            BuiltInMethod::EnumOrdinal => "ordinal",
            BuiltInMethod::Print(_) => "print",
            BuiltInMethod::PrintLine(_) | BuiltInMethod::EndLine => "println",
            BuiltInMethod::CloneArray => "clone",
        }
    }

    /// Its descriptor.
    pub fn descriptor(self) -> &'static str
        ensures { result.now ≡ descriptor_of_member self }
    {
        match self {
            BuiltInMethod::NewObject | BuiltInMethod::NewThrowable | BuiltInMethod::EndLine => {
                "()V"
            }
            BuiltInMethod::NewThrowableOfText => "(Ljava/lang/String;)V",
            BuiltInMethod::NewEnum => "(Ljava/lang/String;I)V",
            BuiltInMethod::EnumName => "()Ljava/lang/String;",
            BuiltInMethod::EnumOrdinal => "()I",
            BuiltInMethod::Print(what) | BuiltInMethod::PrintLine(what) => what.descriptor(),
            BuiltInMethod::CloneArray => "()Ljava/lang/Object;",
        }
    }

    /// Whether it has a name and a descriptor.
    fn is_named(self, name: &[u8], descriptor: &[u8]) -> bool
        ensures { IsTrue result ↔ (key_of_member self ≡ record { name = name.now; descriptor = descriptor.now }) }
    {
        self.name().as_bytes() == name && self.descriptor().as_bytes() == descriptor
    }
}

/// All methods of a built-in class.
fn members_of(class: BuiltIn) -> &'static [BuiltInMethod]
    ensures { result.now ≡ members_of class }
{
    match class {
        BuiltIn::Object | BuiltIn::String | BuiltIn::System => &OF_OBJECT,
        BuiltIn::Enum => &OF_ENUM,
        BuiltIn::PrintStream => &OF_PRINT_STREAM,
        _ => &OF_THROWABLE,
    }
}

/// The first of some methods that has a name and a descriptor.
fn first_named(members: &[BuiltInMethod], name: &[u8], descriptor: &[u8]) -> Option<BuiltInMethod>
    ensures { MatchOption result
        (All (λ m. key_of_member m ≢ record { name = name.now; descriptor = descriptor.now }) members.now)
        (λ m. Contains members.now m × (key_of_member m ≡ record { name = name.now; descriptor = descriptor.now })) }
{
    for member in members {
        if member.is_named(name, descriptor) {
            return Some(*member);
        }
    }
    None
}
