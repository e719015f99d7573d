//! What built-in methods are called, by numbers that are the same in each family.

ghost use Rattle.std.specs.Prelude.{◌≡◌, List, ℕ, Some, map, slice_get};
ghost use Rattle.built_in.specs.Methods.{key_of_member, name_of_member, descriptor_of_member, printed_descriptor};
ghost use Rattle.hierarchy.specs.steps.BuiltInTexts.{built_in_texts};
ghost use Rattle.hierarchy.specs.steps.GrowingTexts.{KeepsNumbers};
ghost use Rattle.hierarchy.specs.steps.MemberKeys.{AreNumbers};

use crate::member_key::MemberKey;
use built_in::method::{BuiltInMethod, Printed};

/// The empty text, then names, then descriptors: each text at its number.
const TEXTS: [&str; 17] = [
    "",
    "<init>",
    "name",
    "ordinal",
    "print",
    "println",
    "clone",
    "()V",
    "(Ljava/lang/String;)V",
    "(Ljava/lang/String;I)V",
    "()Ljava/lang/String;",
    "()I",
    "(I)V",
    "(J)V",
    "(C)V",
    "(Z)V",
    "()Ljava/lang/Object;",
];

/// The texts, in the order of their numbers.
#[tactic(auto, unfolding(crate::specs::steps::BuiltInTexts::built_in_texts))]
pub(crate) fn built_in_texts() -> &'static [&'static str]
    ensures { map (λ text. text.now) result.now ≡ built_in_texts }
{
    &TEXTS
}

/// The numbers of what a built-in method is called.
pub(crate) fn built_in_key(member: BuiltInMethod) -> MemberKey
    ensures { (texts : List (List ℕ)) → KeepsNumbers built_in_texts texts → AreNumbers texts (key_of_member member) result }
{
    MemberKey {
        name: name_number(member),
        descriptor: descriptor_number(member),
    }
}

/// The number of a built-in method's name.
#[tactic(auto, unfolding(crate::specs::steps::BuiltInTexts::built_in_texts))]
fn name_number(member: BuiltInMethod) -> usize
    ensures { slice_get built_in_texts result ≡ Some (name_of_member member) }
{
    match member {
        BuiltInMethod::NewObject
        | BuiltInMethod::NewThrowable
        | BuiltInMethod::NewThrowableOfText
        | BuiltInMethod::NewEnum => 1,
        BuiltInMethod::EnumName => 2,
        BuiltInMethod::EnumOrdinal => 3,
        BuiltInMethod::Print(_) => 4,
        BuiltInMethod::PrintLine(_) | BuiltInMethod::EndLine => 5,
        BuiltInMethod::CloneArray => 6,
    }
}

/// The number of a built-in method's descriptor.
#[tactic(auto, unfolding(crate::specs::steps::BuiltInTexts::built_in_texts))]
fn descriptor_number(member: BuiltInMethod) -> usize
    ensures { slice_get built_in_texts result ≡ Some (descriptor_of_member member) }
{
    match member {
        BuiltInMethod::NewObject | BuiltInMethod::NewThrowable | BuiltInMethod::EndLine => 7,
        BuiltInMethod::NewThrowableOfText => 8,
        BuiltInMethod::NewEnum => 9,
        BuiltInMethod::EnumName => 10,
        BuiltInMethod::EnumOrdinal => 11,
        BuiltInMethod::Print(what) | BuiltInMethod::PrintLine(what) => printed_number(what),
        BuiltInMethod::CloneArray => 16,
    }
}

/// The number of the descriptor of a method that prints this.
#[tactic(auto, unfolding(crate::specs::steps::BuiltInTexts::built_in_texts))]
fn printed_number(what: Printed) -> usize
    ensures { slice_get built_in_texts result ≡ Some (printed_descriptor what) }
{
    match what {
        Printed::String => 8,
        Printed::Int => 12,
        Printed::Long => 13,
        Printed::Char => 14,
        Printed::Boolean => 15,
    }
}
