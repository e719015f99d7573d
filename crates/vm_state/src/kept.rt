//! Objects as pools keep them: without number and monitor, their classes in 8 bytes.

ghost use Rattle.std.specs.Prelude.{◌≡◌, IfOk, true};
ghost use Rattle.built_in.specs.declared.class_id.ClassId.TheVariants.{Given};
ghost use Rattle.vm_state.specs.ArrayClasses.{has_references};
ghost use Rattle.vm_state.specs.steps.ClassWords.{array_of, class_of_word, element_of, expected_class};

use crate::items::CopiedItem;
use crate::object::Slots;
use built_in::class_id::{ArrayType, BuiltIn, ClassId, ElementType};
use std::alloc::{AllocError, Global};
use std::marker::Model;

/// What the elements of an array of numbers are.
#[derive(Clone, Copy, PartialEq, Eq)]
pub enum Primitive {
    Boolean,
    Byte,
    Char,
    Short,
    Int,
    Long,
    Float,
    Double,
}

/// The class that a store expects of an object.
#[derive(Clone, Copy)]
pub enum Expected {
    /// This given class.
    Given(u32),
    /// The arrays of one dimension whose elements are these numbers.
    ArrayOf(Primitive),
}

/// A class in 8 bytes: an array class by how many dimensions it has, and its elements.
#[derive(Clone, Copy)]
enum ClassWord {
    Given(u32),
    BuiltIn(BuiltIn),
    /// The arrays of one dimension of these numbers.
    Numbers(Primitive),
    OfPrimitive(u8, Primitive),
    OfGiven(u8, u32),
    OfBuiltIn(u8, BuiltIn),
    OfUnknown(u8, u32),
}

/// A class.
#[derive(Drop)]
pub struct KeptClass {
    word: ClassWord,
}

impl Model for KeptClass {
    ghost use Rattle.built_in.specs.declared.class_id.ClassId.{ClassId as Class};
    ghost use Rattle.vm_state.specs.steps.ClassWords.{class_of_word};

    ghost Value = { Class };

    ghost view = { λ s. class_of_word s.word };
}

/// An array class.
#[inline(always)]
fn array_of(dimensions: u8, element: ElementType) -> ClassId
    ensures { result ≡ array_of dimensions element }
{
    ClassId::Array(ArrayType {
        dimensions,
        element,
    })
}

/// The type of elements that are numbers.
#[inline(always)]
fn element_of(primitive: Primitive) -> ElementType
    ensures { result ≡ element_of primitive }
{
    match primitive {
        Primitive::Boolean => ElementType::Boolean,
        Primitive::Byte => ElementType::Byte,
        Primitive::Char => ElementType::Char,
        Primitive::Short => ElementType::Short,
        Primitive::Int => ElementType::Int,
        Primitive::Long => ElementType::Long,
        Primitive::Float => ElementType::Float,
        Primitive::Double => ElementType::Double,
    }
}

/// Whether these are the same.
#[inline(always)]
fn same_primitive(left: Primitive, right: Primitive) -> bool
    ensures { result ≡ true → left ≡ right }
{
    left == right
}

/// A class of arrays of numbers as it is kept.
fn numbers_word(dimensions: u8, primitive: Primitive) -> ClassWord
    ensures { class_of_word result ≡ array_of dimensions (element_of primitive) }
{
    if dimensions == 1 {
        ClassWord::Numbers(primitive)
    } else {
        ClassWord::OfPrimitive(dimensions, primitive)
    }
}

/// An array class as it is kept.
fn array_word(dimensions: u8, element: ElementType) -> ClassWord
    ensures { class_of_word result ≡ array_of dimensions element }
{
    match element {
        ElementType::Boolean => numbers_word(dimensions, Primitive::Boolean),
        ElementType::Byte => numbers_word(dimensions, Primitive::Byte),
        ElementType::Char => numbers_word(dimensions, Primitive::Char),
        ElementType::Short => numbers_word(dimensions, Primitive::Short),
        ElementType::Int => numbers_word(dimensions, Primitive::Int),
        ElementType::Long => numbers_word(dimensions, Primitive::Long),
        ElementType::Float => numbers_word(dimensions, Primitive::Float),
        ElementType::Double => numbers_word(dimensions, Primitive::Double),
        ElementType::Given(class) => ClassWord::OfGiven(dimensions, class),
        ElementType::BuiltIn(class) => ClassWord::OfBuiltIn(dimensions, class),
        ElementType::Unknown(name) => ClassWord::OfUnknown(dimensions, name),
    }
}

impl KeptClass {
    /// The class as it is kept.
    pub fn of(class: ClassId) -> KeptClass
        ensures { result ≡ class }
    {
        let word = match class {
            ClassId::Given(class) => ClassWord::Given(class),
            ClassId::BuiltIn(class) => ClassWord::BuiltIn(class),
            ClassId::Array(array) => array_word(array.dimensions, array.element),
        };
        KeptClass { word }
    }

    /// A copy of the class.
    fn copy(&self) -> KeptClass
        ensures { result ≡ self.now }
    {
        KeptClass { word: self.word }
    }

    /// Whether it is this given class.
    #[inline(always)]
    pub fn is_given(&self, class: u32) -> bool
        ensures { result ≡ true → self.now ≡ Given class }
    {
        match self.word {
            ClassWord::Given(held) => held == class,
            _ => false,
        }
    }

    /// Whether it is the class of the arrays of one dimension whose elements are these numbers.
    #[inline(always)]
    pub fn is_array_of(&self, primitive: Primitive) -> bool
        ensures { result ≡ true → self.now ≡ array_of 1 (element_of primitive) }
    {
        match self.word {
            ClassWord::Numbers(held) => same_primitive(held, primitive),
            _ => false,
        }
    }

    /// Whether it is the class that is expected.
    #[inline(always)]
    pub fn is_expected(&self, expected: Expected) -> bool
        ensures { result ≡ true → self.now ≡ expected_class expected }
    {
        match expected {
            Expected::Given(class) => self.is_given(class),
            Expected::ArrayOf(primitive) => self.is_array_of(primitive),
        }
    }

    /// Whether it is the class of arrays whose components are references.
    #[inline(always)]
    pub fn has_references(&self) -> bool
        ensures { result ≡ has_references self.now }
    {
        match self.word {
            ClassWord::Given(_) | ClassWord::BuiltIn(_) | ClassWord::Numbers(_) => false,
            ClassWord::OfPrimitive(dimensions, _) => dimensions > 1,
            ClassWord::OfGiven(_, _) | ClassWord::OfBuiltIn(_, _) | ClassWord::OfUnknown(_, _) => {
                true
            }
        }
    }

    /// The class.
    #[inline(always)]
    pub fn id(&self) -> ClassId
        ensures { result ≡ self.now }
    {
        match self.word {
            ClassWord::Given(class) => ClassId::Given(class),
            ClassWord::BuiltIn(class) => ClassId::BuiltIn(class),
            ClassWord::Numbers(primitive) => array_of(1, element_of(primitive)),
            ClassWord::OfPrimitive(dimensions, primitive) => {
                array_of(dimensions, element_of(primitive))
            }
            ClassWord::OfGiven(dimensions, class) => {
                array_of(dimensions, ElementType::Given(class))
            }
            ClassWord::OfBuiltIn(dimensions, class) => {
                array_of(dimensions, ElementType::BuiltIn(class))
            }
            ClassWord::OfUnknown(dimensions, name) => {
                array_of(dimensions, ElementType::Unknown(name))
            }
        }
    }
}

/// An object without its number and its monitor.
#[derive(Drop)]
pub struct Kept {
    pub class: KeptClass,
    pub slots: Slots,
}

impl CopiedItem for Kept {
    fn copy(&self, alloc: Global) -> Result<Kept, AllocError> {
        Ok(Kept {
            class: self.class.copy(),
            slots: self.slots.copy(alloc)?,
        })
    }
}
