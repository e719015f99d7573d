//! The names of classes as an image spells them.

ghost use Rattle.std.specs.Prelude.{◌≡◌, ◌++◌, [], replicate, unwrap_or, IfOk, OnOk};
ghost use Rattle.loading.specs.ClassIds.{element_text, object_type};
ghost use Rattle.image_format.specs.Names.{class_name};

use built_in::class_id::{ArrayType, ClassId, ElementType};
use loading::family::Family;
use loading::names::name_of;
use std::alloc::{AllocError, Global};

/// The name of a class: of an array class the descriptor of its type.
///
/// # Errors
/// Where memory runs out.
pub fn class_name(alloc: Global, family: &Family, class: ClassId) -> Result<Vec<u8>, AllocError>
    ensures { IfOk result (λ name. name.items ≡ class_name family.now class) }
{
    match class {
        ClassId::Given(number) => given_name(alloc, family, number),
        ClassId::BuiltIn(class) => Vec::from_slice(alloc, class.name().as_bytes()),
        ClassId::Array(array) => array_name(alloc, family, array),
    }
}

fn given_name(alloc: Global, family: &Family, number: u32) -> Result<Vec<u8>, AllocError>
    ensures { IfOk result (λ name. name.items ≡ class_name family.now (ClassId.Given number)) }
{
    match family.file(number) {
        Some(file) => Vec::from_slice(alloc, name_of(file)),
        None => Ok(Vec::new(alloc)),
    }
}

fn array_name(alloc: Global, family: &Family, array: ArrayType) -> Result<Vec<u8>, AllocError>
    ensures { IfOk result (λ name. name.items ≡ class_name family.now (ClassId.Array array)) }
{
    let mut name = vec![in alloc; b'['; usize::from(array.dimensions)]?;
    push_element(alloc, &mut name, family, array.element)?;
    Ok(name)
}

/// Adds the descriptor of an element type (JVMS 4.3.2), if there is such a class.
fn push_element(
    alloc: Global,
    name: &mut Vec<u8>,
    family: &Family,
    element: ElementType,
) -> Result<(), AllocError>
    ensures { OnOk result (name.new.items ≡ name.old.items ++ unwrap_or (element_text family.now element) []) }
{
    match element {
        ElementType::Boolean => name.extend_from_slice(&[b'Z']),
        ElementType::Byte => name.extend_from_slice(&[b'B']),
        ElementType::Char => name.extend_from_slice(&[b'C']),
        ElementType::Short => name.extend_from_slice(&[b'S']),
        ElementType::Int => name.extend_from_slice(&[b'I']),
        ElementType::Long => name.extend_from_slice(&[b'J']),
        ElementType::Float => name.extend_from_slice(&[b'F']),
        ElementType::Double => name.extend_from_slice(&[b'D']),
        ElementType::Given(number) => push_given(name, family, number),
        ElementType::BuiltIn(class) => push_object_type(name, class.name().as_bytes()),
        ElementType::Unknown(_) => Ok(()),
    }
}

fn push_given(name: &mut Vec<u8>, family: &Family, number: u32) -> Result<(), AllocError>
    ensures { OnOk result
        (name.new.items ≡ name.old.items ++ unwrap_or (element_text family.now (ElementType.Given number)) []) }
{
    match family.file(number) {
        Some(file) => push_object_type(name, name_of(file)),
        None => Ok(()),
    }
}

/// Adds a class in a descriptor.
///
/// # Errors
/// Where memory runs out.
pub fn push_object_type(name: &mut Vec<u8>, class: &[u8]) -> Result<(), AllocError>
    ensures { OnOk result (name.new.items ≡ name.old.items ++ object_type class.now) }
{
    name.push(b'L')?;
    name.extend_from_slice(class)?;
    name.extend_from_slice(&[b';'])
}
