//! The tags of values and the forms of objects.

ghost use Rattle.std.specs.Prelude.{◌≡◌};
ghost use Rattle.image_parser.specs.Tags.{tag_of, may_have};

use program::runtime_constant::FieldKind;

/// What a value's tag says.
#[derive(Clone, Copy)]
pub enum Tag {
    Null,
    Int,
    Long,
    Text,
    Object,
    Out,
}

/// The tag that a number is.
#[tactic(auto, unfolding(crate::specs::Tags::tag_of))]
pub(crate) fn tag_of(number: u8) -> Option<Tag>
    ensures { result ≡ tag_of number }
{
    match number {
        0 => Some(Tag::Null),
        1 => Some(Tag::Int),
        2 => Some(Tag::Long),
        3 => Some(Tag::Text),
        4 => Some(Tag::Object),
        5 => Some(Tag::Out),
        _ => None,
    }
}

/// Whether values of a kind have such a tag.
#[tactic(auto, unfolding(crate::specs::Tags::may_have))]
pub(crate) fn may_have(kind: FieldKind, tag: Tag) -> bool
    ensures { result ≡ may_have kind tag }
{
    match kind {
        FieldKind::Long => matches!(tag, Tag::Long),
        FieldKind::Reference => !matches!(tag, Tag::Int | Tag::Long),
        FieldKind::Float | FieldKind::Double => false,
        FieldKind::Boolean
        | FieldKind::Byte
        | FieldKind::Char
        | FieldKind::Short
        | FieldKind::Int => { matches!(tag, Tag::Int) }
    }
}
