//! The types of arrays: which one an instruction makes, which ones it serves, and what they hold (JVMS 6.5).

ghost use Rattle.std.specs.Prelude.{◌≡◌};
ghost use Rattle.hierarchy.specs.Subtypes.{class_of_element};
ghost use Rattle.machine.specs.Arrays.{element_type, type_of_primitives, zero_of, kind_of_element, kind_of_component};
ghost use Rattle.machine.specs.Arrays.{component_class, stored_as, array_type, served_type, can_hold};

use built_in::class_id::{ArrayType, ClassId, ElementType};
use bytecode::{ElementKind, PrimitiveKind};
use frame_instructions::trap::Trap;
use program::Program;
use program::runtime_constant::FieldKind;
use vm_state::value::Value;

/// The element type of the arrays that a `newarray` makes (JVMS table 6.5.newarray-A).
fn element_type(kind: PrimitiveKind) -> ElementType
    ensures { result ≡ element_type kind }
{
    match kind {
        PrimitiveKind::Boolean => ElementType::Boolean,
        PrimitiveKind::Char => ElementType::Char,
        PrimitiveKind::Byte => ElementType::Byte,
        PrimitiveKind::Short => ElementType::Short,
        PrimitiveKind::Int => ElementType::Int,
        PrimitiveKind::Long => ElementType::Long,
    }
}

/// The type of the arrays that a `newarray` makes.
pub fn type_of_primitives(kind: PrimitiveKind) -> ArrayType
    ensures { result ≡ type_of_primitives kind }
{
    ArrayType {
        dimensions: 1,
        element: element_type(kind),
    }
}

/// What the elements of such an array begin as (JVMS 2.3).
pub fn zero_of(kind: PrimitiveKind) -> Value
    ensures { result ≡ zero_of kind }
{
    match kind {
        PrimitiveKind::Long => Value::Long(0),
        PrimitiveKind::Boolean | PrimitiveKind::Char | PrimitiveKind::Byte => Value::Int(0),
        PrimitiveKind::Short | PrimitiveKind::Int => Value::Int(0),
    }
}

/// The instructions that load and store elements of a type that is no array; none of floats and doubles.
#[inline(always)]
fn kind_of_element(element: ElementType) -> Option<ElementKind>
    ensures { result ≡ kind_of_element element }
{
    match element {
        ElementType::Boolean | ElementType::Byte => Some(ElementKind::Byte),
        ElementType::Char => Some(ElementKind::Char),
        ElementType::Short => Some(ElementKind::Short),
        ElementType::Int => Some(ElementKind::Int),
        ElementType::Long => Some(ElementKind::Long),
        ElementType::Float | ElementType::Double => None,
        ElementType::Given(_) | ElementType::BuiltIn(_) | ElementType::Unknown(_) => {
            Some(ElementKind::Reference)
        }
    }
}

/// The instructions that load and store components of an array.
#[inline(always)]
fn kind_of_component(array: ArrayType) -> Option<ElementKind>
    ensures { result ≡ kind_of_component array }
{
    if array.dimensions > 1 {
        Some(ElementKind::Reference)
    } else {
        kind_of_element(array.element)
    }
}

/// The class of an element type, if it is given or built in.
fn class_of_element(element: ElementType) -> Option<ClassId>
    ensures { result ≡ class_of_element element }
{
    match element {
        ElementType::Given(number) => Some(ClassId::Given(number)),
        ElementType::BuiltIn(class) => Some(ClassId::BuiltIn(class)),
        _ => None,
    }
}

/// The class of an array's components, if they are references. None where it is neither given nor built in: then no
/// component is anything but null.
fn component_class(array: ArrayType) -> Option<ClassId>
    ensures { result ≡ component_class array }
{
    if array.dimensions > 1 {
        Some(ClassId::Array(ArrayType {
            dimensions: array.dimensions - 1,
            element: array.element,
        }))
    } else {
        class_of_element(array.element)
    }
}

/// As what a field an element is stored that an instruction stores: a byte, char or short is narrowed.
#[inline(always)]
pub fn stored_as(kind: ElementKind) -> FieldKind
    ensures { result ≡ stored_as kind }
{
    match kind {
        ElementKind::Int => FieldKind::Int,
        ElementKind::Long => FieldKind::Long,
        ElementKind::Reference => FieldKind::Reference,
        ElementKind::Byte => FieldKind::Byte,
        ElementKind::Char => FieldKind::Char,
        ElementKind::Short => FieldKind::Short,
    }
}

/// The type of an array, by its class.
///
/// # Errors
/// `Trap::Fault` where it is the class of no array.
#[inline(always)]
pub fn array_type(class: Option<ClassId>) -> Result<ArrayType, Trap>
    ensures { result ≡ array_type class }
{
    match class {
        Some(ClassId::Array(array)) => Ok(array),
        _ => Err(Trap::Fault),
    }
}

/// The type of an array, by its class, where instructions of a kind serve its elements.
///
/// # Errors
/// `Trap::Fault` where they do not, or it is the class of no array.
#[inline(always)]
pub fn served_type(kind: ElementKind, class: Option<ClassId>) -> Result<ArrayType, Trap>
    ensures { result ≡ served_type kind class }
{
    match class {
        Some(ClassId::Array(array)) if kind_of_component(array) == Some(kind) => Ok(array),
        _ => Err(Trap::Fault),
    }
}

/// Whether a component of an array can refer to an object of a class.
pub fn can_hold(program: &Program, array: ArrayType, class: ClassId) -> bool
    ensures { result ≡ can_hold program.now array class }
{
    match component_class(array) {
        Some(component) => program.is_below(class, component),
        None => false,
    }
}
