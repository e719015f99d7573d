//! The names of classes, as messages print them.

use built_in::class_id::{ArrayType, ClassId, ElementType};
use classfile::printed;
use hierarchy::texts::Texts;
use loading::family::Family;
use loading::names::name_of;
use std::alloc::{AllocError, Global};

/// The name of a class of a family, or of none of it by the number of its name.
pub(crate) fn class_text(
    alloc: Global,
    family: &Family,
    strings: &Texts,
    class: ClassId,
) -> Result<String, AllocError> {
    match class {
        ClassId::Given(number) => given_text(alloc, family, number),
        ClassId::BuiltIn(class) => String::from_str(alloc, class.name()),
        ClassId::Array(array) => array_text(alloc, family, strings, array),
    }
}

fn given_text(alloc: Global, family: &Family, number: u32) -> Result<String, AllocError> {
    match family.file(number) {
        Some(file) => printed(alloc, name_of(file)),
        None => Ok(String::new(alloc)),
    }
}

fn array_text(
    alloc: Global,
    family: &Family,
    strings: &Texts,
    array: ArrayType,
) -> Result<String, AllocError> {
    let mut text = String::new(alloc);
    push_dimensions(array.dimensions, &mut text)?;
    push_element(alloc, family, strings, array.element, &mut text)?;
    Ok(text)
}

/// Adds what the descriptor of an array class begins with.
fn push_dimensions(dimensions: u8, text: &mut String) -> Result<(), AllocError> {
    for _ in 0..dimensions {
        text.push_str("[")?;
    }
    Ok(())
}

/// Adds the descriptor of an array's elements (JVMS 4.3.2).
fn push_element(
    alloc: Global,
    family: &Family,
    strings: &Texts,
    element: ElementType,
    text: &mut String,
) -> Result<(), AllocError> {
    match element {
        ElementType::Boolean => text.push_str("Z"),
        ElementType::Byte => text.push_str("B"),
        ElementType::Char => text.push_str("C"),
        ElementType::Short => text.push_str("S"),
        ElementType::Int => text.push_str("I"),
        ElementType::Long => text.push_str("J"),
        ElementType::Float => text.push_str("F"),
        ElementType::Double => text.push_str("D"),
        ElementType::Given(number) => push_given(alloc, family, number, text),
        ElementType::BuiltIn(class) => push_class(class.name(), text),
        ElementType::Unknown(number) => push_unknown(alloc, strings, number, text),
    }
}

/// Adds the descriptor of a given class.
fn push_given(
    alloc: Global,
    family: &Family,
    number: u32,
    text: &mut String,
) -> Result<(), AllocError> {
    let name = given_text(alloc, family, number)?;
    push_class(&name, text)
}

/// Adds the descriptor of a class that is neither given nor built in, by the number of its name.
fn push_unknown(
    alloc: Global,
    strings: &Texts,
    number: u32,
    text: &mut String,
) -> Result<(), AllocError> {
    match strings.text(number as usize) {
        Some(name) => push_class(&printed(alloc, name)?, text),
        None => Ok(()),
    }
}

/// Adds the descriptor of the class of a name.
fn push_class(name: &str, text: &mut String) -> Result<(), AllocError> {
    text.push_str("L")?;
    text.push_str(name)?;
    text.push_str(";")
}
