//! Class files' bytes, read and linked to one program.
ghost use Rattle.std.specs.Prelude.{◌≡◌, ◌⊎◌, ◌++◌, ◌∷◌, [], ℕ, List, IfErr, IfOk, OnOk};
ghost use Rattle.classfile.specs.Class.{IsClassText};
ghost use Rattle.loading.specs.Families.{IsFamilyOf};
ghost use Rattle.loading.specs.Files.{Links};
ghost use Rattle.program.specs.Programs.{HasOwnStrings, IsProgram};
ghost use Rattle.cli.specs.Runs.{AreClassFiles, IsProgramOf, NotLinked, texts_of};
ghost use Rattle.cli.specs.steps.Refusals.{IsBadAt, IsNoClassFile, IsUnlinkable, MakesProgram};
ghost use Rattle.cli.specs.declared.fault.CommandFault.TheVariants.{Memory};

use crate::CommandFault;
use classfile::ClassFile;
use program::Program;
use std::alloc::{AllocError, Global};

/// The program that class files make.
///
/// # Errors
/// `Class` of the first text that is no class file, by its place from 0, else `Link` with what linking refuses; or
/// `Memory`.
pub fn linked_program(alloc: Global, files: &[Vec<u8>]) -> Result<Program, CommandFault>
    ensures program { IfOk result (λ program. IsProgramOf (texts_of files.now) program) }
    ensures refusal { IfErr result (λ refusal. (refusal ≡ Memory) ⊎ NotLinked (texts_of files.now) refusal) }
{
    linked_if_read(alloc, class_files(alloc, files))
}

/// The program that class files make, which are let go once they are read.
pub(crate) fn program_of_texts(alloc: Global, files: Vec<Vec<u8>>) -> Result<Program, CommandFault>
    ensures program { IfOk result (λ program. IsProgramOf (texts_of files.items) program) }
    ensures refusal { IfErr result (λ refusal. (refusal ≡ Memory) ⊎ NotLinked (texts_of files.items) refusal) }
{
    linked_if_read(alloc, class_files_of(alloc, files))
}

/// The program of the class files that some texts are, or why these are none.
fn linked_if_read(
    alloc: Global,
    classes: Result<Vec<ClassFile>, CommandFault>,
) -> Result<Program, CommandFault>
    ensures { (texts : List (List ℕ)) → IfOk classes (λ classes. AreClassFiles texts classes.items)
        → IfErr classes (λ refusal. (refusal ≡ Memory) ⊎ IsNoClassFile texts refusal) → MakesProgram texts result }
{
    match classes {
        Ok(classes) => linked(alloc, classes),
        Err(refusal) => Err(refusal),
    }
}

/// The class files that some texts are, which are let go.
fn class_files_of(alloc: Global, files: Vec<Vec<u8>>) -> Result<Vec<ClassFile>, CommandFault>
    ensures files { IfOk result (λ classes. AreClassFiles (texts_of files.items) classes.items) }
    ensures refusal { IfErr result (λ refusal. (refusal ≡ Memory) ⊎ IsNoClassFile (texts_of files.items) refusal) }
{
    class_files(alloc, files.as_slice())
}

/// The program of some class files.
fn linked(alloc: Global, classes: Vec<ClassFile>) -> Result<Program, CommandFault>
    ensures links { OnOk result (Links classes.items) }
    ensures program { IfOk result (λ program. IsFamilyOf classes.items program.family × IsProgram program) }
    ensures own_strings { IfOk result HasOwnStrings }
    ensures refusal { IfErr result (λ refusal. (refusal ≡ Memory) ⊎ IsUnlinkable classes.items refusal) }
{
    match program::link(alloc, classes) {
        Ok(program) => Ok(program),
        Err(fault) => Err(CommandFault::of_link(fault)),
    }
}

/// The class files that some texts are.
pub(crate) fn class_files(alloc: Global, files: &[Vec<u8>]) -> Result<Vec<ClassFile>, CommandFault>
    ensures files { IfOk result (λ classes. AreClassFiles (texts_of files.now) classes.items) }
    ensures refusal { IfErr result (λ refusal. (refusal ≡ Memory) ⊎ IsNoClassFile (texts_of files.now) refusal) }
{
    let mut classes = Vec::new(alloc);
    for (place, bytes) in files.iter().enumerate() {
        match class_file(alloc, place, bytes.as_slice()) {
            Ok(class) => add_class(&mut classes, class)?,
            Err(refusal) => return Err(refusal),
        }
    }
    Ok(classes)
}

fn add_class(classes: &mut Vec<ClassFile>, class: ClassFile) -> Result<(), AllocError>
    ensures { OnOk result (classes.new.items ≡ classes.old.items ++ class ∷ []) }
{
    Ok(classes.push(class)?)
}

/// The class file that the text of a place is.
fn class_file(alloc: Global, place: usize, bytes: &[u8]) -> Result<ClassFile, CommandFault>
    ensures file { IfOk result (λ class. IsClassText bytes.now class) }
    ensures refusal { IfErr result (λ refusal. (refusal ≡ Memory) ⊎ IsBadAt place bytes.now refusal) }
{
    match classfile::read(alloc, bytes) {
        Ok(class) => Ok(class),
        Err(fault) => Err(CommandFault::of_class(place, fault)),
    }
}
