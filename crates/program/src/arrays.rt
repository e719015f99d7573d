//! The classes of arrays (JVMS 4.3.2).

ghost use Rattle.std.specs.Prelude.{◌≡◌, Some, None, length, nat_le, option_map, if◌then◌else◌};
ghost use Rattle.loading.specs.ClassIds.{element_text};
ghost use Rattle.program.specs.Arrays.{array_type, array_of};

use crate::linked_program::Program;
use built_in::class_id::{ArrayType, ClassId, ElementType};
use loading::family::Family;
use loading::names::name_of;

/// The most bytes that a Utf8 has, and so the name of a class (JVMS 4.4.7).
const MOST_NAME_BYTES: usize = 65_535;

impl Program {
    /// The class of arrays whose components are of a class (JVMS 6.5, anewarray). None where it would have more than
    /// 255 dimensions, or a name of more than 65,535 bytes (4.4.1).
    pub fn array_of(&self, component: ClassId) -> Option<ArrayType>
        ensures { result ≡ array_of self.now.family component }
    {
        let array = array_type(component)?;
        let length = element_length(self.hierarchy.family(), array.element)?;
        if length <= MOST_NAME_BYTES - usize::from(array.dimensions) {
            Some(array)
        } else {
            None
        }
    }
}

/// The type of arrays whose components are of a class, if it has at most 255 dimensions.
fn array_type(component: ClassId) -> Option<ArrayType>
    ensures { result ≡ (if nat_le (array_type component).dimensions 255 then Some (array_type component) else None) }
{
    match component {
        ClassId::Given(number) => Some(array_of_objects(ElementType::Given(number))),
        ClassId::BuiltIn(class) => Some(array_of_objects(ElementType::BuiltIn(class))),
        ClassId::Array(array) => one_more_dimension(array),
    }
}

/// An array type of one dimension.
fn array_of_objects(element: ElementType) -> ArrayType
    ensures { result ≡ record { dimensions = 1; element = element } }
{
    ArrayType {
        dimensions: 1,
        element,
    }
}

/// The type of arrays of arrays of a type.
fn one_more_dimension(array: ArrayType) -> Option<ArrayType>
    ensures { result ≡ (if nat_le (array_type (ClassId.Array array)).dimensions 255
        then Some (array_type (ClassId.Array array)) else None) }
{
    if array.dimensions == u8::MAX {
        return None;
    }
    Some(ArrayType {
        dimensions: array.dimensions + 1,
        element: array.element,
    })
}

/// The length of the descriptor of an element type (JVMS 4.3.2), if there is such a given or built-in class.
fn element_length(family: &Family, element: ElementType) -> Option<usize>
    ensures { result ≡ option_map length (element_text family.now element) }
{
    match element {
        ElementType::Given(number) => Some(name_of(family.file(number)?).len() + 2),
        ElementType::BuiltIn(class) => Some(class.name().len() + 2),
        ElementType::Unknown(_) => None,
        ElementType::Boolean
        | ElementType::Byte
        | ElementType::Char
        | ElementType::Short
        | ElementType::Int
        | ElementType::Long
        | ElementType::Float
        | ElementType::Double => Some(1),
    }
}
