//! Regions of classes. Those that class initialization methods leave have the shape that an image wants, and name
//! objects alone that there are and strings alone that are the program's. Each function here is a law: its contract is
//! what is proved, and calling it does nothing, but that `show_from_files` looks at each class once.
#![tactic(auto)]

pub mod regions;

ghost use Rattle.std.specs.Prelude.{ℕ};
ghost use Rattle.region_shape.specs.Laws.{SettledHaveShape, SettledAreWithin, SettledNameObjects, IsLinked, IsFromFile};
ghost use Rattle.region_shape.specs.Laws.{SettledHaveTexts, SettledHoldAll};

use program::Program;

/// What the laws below ask of a program.
pub fn show_linked(program: &Program)
    ensures { IsLinked program.now }
{
    let _tables = program.classes();
    let _given = program.family().classes();
}

/// What they ask of a class.
pub fn show_from_file(program: &Program, class: u32)
    ensures { IsFromFile program.now class }
{
    if let Some(file) = program.family().file(class) {
        let _constants = file.constants();
    }
}

/// What they ask of all classes.
pub fn show_from_files(program: &Program)
    ensures { (class : ℕ) → IsFromFile program.now class }
{
    let classes = program.family().classes();
    for class in 0..classes.len() as u32 {
        show_from_file(program, class);
    }
}

/// What an initializer leaves has shape, and is no larger than what it cost.
pub fn regions_have_shape()
    ensures settled { SettledHaveShape }
    ensures within { SettledAreWithin }
{}

/// Each object that such a region names is held by a region at hand or by itself, and it holds all that were made.
pub fn regions_name_objects()
    ensures names { SettledNameObjects }
    ensures all { SettledHoldAll }
{}

/// Each string that such a region names is one of the program's.
pub fn regions_have_texts()
    ensures { SettledHaveTexts }
{}
