//! The command `audit`: where the threads of entries may end for want of what is left out or not there.
ghost use Rattle.std.specs.Prelude.{◌≡◌, IfOk};
ghost use Rattle.cli.specs.Audits.{IsAudit, IsAuditFrom, IsAuditOf};

use crate::class_files::program_of_texts;
use crate::files::contents;
use crate::left_out::add_note;
use crate::{Audit, CommandFault, Files, entries_of};
use audit::{EndPlace, audit, audit_text};
use classfile::ClassName;
use hierarchy::member::DeclaredMember;
use init_engine::starting::entry_classes;
use program::Program;
use std::alloc::{AllocError, Global};
use vm_state::ends::FaultKind;

/// The text of an audit, and whether it found nothing.
#[derive(Drop)]
pub(crate) struct Audited {
    pub(crate) text: Vec<u8>,
    /// There is no place where a thread may end so.
    pub(crate) is_clean: bool,
    /// What is left out at these places, where that is asked for.
    pub(crate) notes: String,
}

/// Reads the class files, and answers what their audit tells, as the words say.
///
/// # Errors
/// The first refusal: a file, a class file, linking, an entry, or memory.
pub(crate) fn run<F: Files>(
    alloc: Global,
    words: &Audit<'_>,
    files: &mut F,
) -> Result<Audited, CommandFault>
    ensures audit { IfOk result (λ audited. IsAudit (F.holds files.old) words.now audited.text.items audited.is_clean) }
    ensures same { F.holds files.new ≡ F.holds files.old }
{
    let texts = contents(alloc, words.files.as_slice(), files, usize::MAX)?;
    let entries = entries_of(alloc, words.entries)?;
    match program_of_texts(alloc, texts) {
        Ok(program) => audit_by_names(alloc, &program, entries.as_slice(), words.verbose),
        Err(refusal) => Err(refusal),
    }
}

/// The audit of some entries of a program.
fn audit_by_names(
    alloc: Global,
    program: &Program,
    entries: &[ClassName],
    is_verbose: bool,
) -> Result<Audited, CommandFault>
    ensures { IfOk result (λ audited. IsAuditOf program.now entries.now audited.text.items audited.is_clean) }
{
    match entry_classes(alloc, program, entries) {
        Ok(classes) => Ok(audit_by_classes(alloc, program, classes.as_slice(), is_verbose)?),
        Err(fault) => Err(CommandFault::of_entry(fault)),
    }
}

/// The audit of some entries, by their classes.
fn audit_by_classes(
    alloc: Global,
    program: &Program,
    classes: &[u32],
    is_verbose: bool,
) -> Result<Audited, AllocError>
    ensures { IfOk result (λ audited. IsAuditFrom program.now classes.now audited.text.items audited.is_clean) }
{
    let places = audit(alloc, program, classes)?;
    let text = audit_text(alloc, program, places.as_slice())?;
    let notes = notes_if(alloc, program, places.as_slice(), is_verbose)?;
    Ok(Audited {
        text: text.into_bytes(),
        is_clean: places.is_empty(),
        notes,
    })
}

/// What is left out at these places, if more is to be told.
fn notes_if(
    alloc: Global,
    program: &Program,
    places: &[EndPlace],
    is_verbose: bool,
) -> Result<String, AllocError> {
    if is_verbose {
        notes_of(alloc, program, places)
    } else {
        Ok(String::new(alloc))
    }
}

/// What is left out at these places, a line for each of which more is to be said.
fn notes_of(alloc: Global, program: &Program, places: &[EndPlace]) -> Result<String, AllocError> {
    let mut notes = String::new(alloc);
    for place in places {
        if let FaultKind::Unsupported = place.kind {
            let method = DeclaredMember {
                class: place.class,
                index: place.index,
            };
            add_note(alloc, program, method, place.pc, &mut notes)?;
        }
    }
    Ok(notes)
}
