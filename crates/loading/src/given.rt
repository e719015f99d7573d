//! Given classes and their parents by number (JVMS 5.3.5).

ghost use Rattle.std.specs.Prelude.{◌≡◌};

use built_in::class_id::BuiltIn;
use classfile::ClassFile;
use std::marker::Model;

/// The superclass of a given class.
#[derive(Clone, Copy)]
pub enum Superclass {
    /// A given class, by its number.
    Given(u32),
    BuiltIn(BuiltIn),
}

/// Numbers of given classes.
#[derive(Drop)]
pub struct ClassNumbers {
    pub(crate) numbers: Vec<u32>,
}

impl Model for ClassNumbers {
    ghost use Rattle.std.specs.Prelude.{List, ℕ};

    ghost Value = { List ℕ };

    ghost view = { λ s. s.numbers.items };
}

impl ClassNumbers {
    /// Numbers in this order.
    pub fn new(numbers: Vec<u32>) -> ClassNumbers
        ensures { result ≡ numbers.items }
    {
        ClassNumbers { numbers }
    }

    /// The numbers as a slice.
    pub fn as_slice(&self) -> &[u32]
        ensures { result.now ≡ self.now }
    {
        self.numbers.as_slice()
    }
}

/// A given class.
#[derive(Drop)]
pub struct GivenClass {
    pub file: ClassFile,
    pub superclass: Superclass,
    /// The direct superinterfaces, in the file's order.
    pub interfaces: ClassNumbers,
}
