//! Elements of arrays.

ghost use Rattle.std.specs.Prelude.{◌≡◌};
ghost use Rattle.image_format.specs.Elements.{kind_of_type, kind_of_elements};

use built_in::class_id::{ArrayType, ElementType};
use program::runtime_constant::FieldKind;

/// As which kind elements of a type that is no array are held.
fn kind_of_type(element: ElementType) -> FieldKind
    ensures { result ≡ kind_of_type element }
{
    match element {
        ElementType::Boolean => FieldKind::Byte,
        ElementType::Byte => FieldKind::Byte,
        ElementType::Char => FieldKind::Char,
        ElementType::Short => FieldKind::Short,
        ElementType::Int => FieldKind::Int,
        ElementType::Long => FieldKind::Long,
        ElementType::Float => FieldKind::Float,
        ElementType::Double => FieldKind::Double,
        ElementType::Given(_) => FieldKind::Reference,
        ElementType::BuiltIn(_) => FieldKind::Reference,
        ElementType::Unknown(_) => FieldKind::Reference,
    }
}

/// As which kind the elements of an array are held.
pub fn kind_of_elements(array: ArrayType) -> FieldKind
    ensures { result ≡ kind_of_elements array }
{
    if 1 < array.dimensions {
        return FieldKind::Reference;
    }
    kind_of_type(array.element)
}
