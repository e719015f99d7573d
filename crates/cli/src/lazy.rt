//! The lazy procedure from class files' bytes to what is seen, and the command `lazy` over it.
ghost use Rattle.std.specs.Prelude.{◌≡◌, ◌↔◌, ◌⊎◌, Err, IfErr, IfOk, length};
ghost use Rattle.init_engine.specs.Turns.{world_of};
ghost use Rattle.init_engine.specs.Starts.{IsEntryCount, IsStart};
ghost use Rattle.init_engine.specs.declared.fault.EntryFault.TheVariants.{Count};
ghost use Rattle.cli.specs.Begins.{IsBegun};
ghost use Rattle.cli.specs.Runs.{IsProgramOf, IsRefused, IsShown, IsShownFrom, texts_of};
ghost use Rattle.cli.specs.steps.Refusals.{IsRefusedEntry};
ghost use Rattle.cli.specs.declared.fault.CommandFault.TheVariants.{Entry, Memory};

use crate::class_files::{linked_program, program_of_texts};
use crate::entries::is_entry_count;
use crate::files::contents;
use crate::{CommandFault, Files, Lazy, entries_of};
use classfile::ClassName;
use init_engine::{EntryFault, Rest, Seen, World};
use program::Program;
use std::alloc::{AllocError, Global};

/// What a run by turns has shown.
#[derive(Drop)]
pub struct Shown {
    /// The prints, and how far each thread has come.
    pub seen: Seen,
    /// The schedule by its runs: a thread, and how many steps it made in a row.
    pub schedule: Vec<(u32, u64)>,
    /// Whether all threads have ended, or none has a step, or one still has.
    pub rest: Rest,
}

/// A program of class files, and what a run of it has shown.
#[derive(Drop)]
pub struct LazyRun {
    pub program: Program,
    pub shown: Shown,
}

/// Runs class files by turns, from their bytes: each entry's `main` in a thread of its own, each class initialized when
/// a thread first needs it, for at most `limit` steps.
///
/// # Errors
/// The first that holds of `Entry` of `Count` (there is no entry or more than 64), `Class` (a text is no class file),
/// `Link` and `Entry`; or `Memory`, but never where the number of entries is wrong.
pub fn run_class_files(
    alloc: Global,
    files: &[Vec<u8>],
    entries: &[ClassName],
    limit: u64,
) -> Result<LazyRun, CommandFault>
    // The texts are class files that link to the program, the entries are its classes, and what is shown is what is
    // seen after the turns of its lazy start.
    ensures program { IfOk result (λ run. IsProgramOf (texts_of files.now) run.program) }
    ensures shown { IfOk result (λ run. IsShown run.program entries.now limit run.shown) }

    // What is answered otherwise is the first that is wrong, or that memory ran out.
    ensures refusal { IfErr result
        (λ refusal. (refusal ≡ Memory) ⊎ IsRefused (texts_of files.now) entries.now refusal) }
    // A wrong number of entries is told just where there is one, and nothing else is told then: it takes no memory to
    // see.
    ensures count { (result ≡ Err (Entry Count)) ↔ (¬ IsEntryCount (length entries.now)) }
{
    if !is_entry_count(entries.len()) {
        return Err(CommandFault::Entry(EntryFault::Count));
    }
    match lazy_start(alloc, files, entries) {
        Ok(LazyStart { program, world }) => {
            let shown = shown_by_turns(alloc, &program, world, limit)?;
            Ok(LazyRun { program, shown })
        }
        Err(refusal) => Err(refusal),
    }
}

/// Runs a world by turns, for at most `limit` steps.
pub(crate) fn shown_by_turns(
    alloc: Global,
    program: &Program,
    world: World,
    limit: u64,
) -> Result<Shown, AllocError>
    ensures { IfOk result (λ shown. IsShownFrom program.now (world_of world) limit shown) }
{
    let (last, schedule) = init_engine::turns(alloc, program, world, limit)?;
    let rest = last.rest(program);
    let seen = last.into_seen(alloc)?;
    Ok(Shown {
        seen,
        schedule,
        rest,
    })
}

/// A program, and a world of it that has not begun to run.
#[derive(Drop)]
pub(crate) struct LazyStart {
    pub program: Program,
    pub world: World,
}

/// The lazy start of the program of class files.
fn lazy_start(
    alloc: Global,
    files: &[Vec<u8>],
    entries: &[ClassName],
) -> Result<LazyStart, CommandFault>
    requires { IsEntryCount (length entries.now) }
    ensures program { IfOk result (λ start. IsProgramOf (texts_of files.now) start.program) }
    ensures start { IfOk result (λ start. IsStart start.program entries.now (world_of start.world)) }
    ensures refusal { IfErr result
        (λ refusal. (refusal ≡ Memory) ⊎ IsRefused (texts_of files.now) entries.now refusal) }
{
    match linked_program(alloc, files) {
        Ok(program) => started(alloc, program, entries),
        Err(refusal) => Err(refusal),
    }
}

/// The lazy start of a program.
fn started(
    alloc: Global,
    program: Program,
    entries: &[ClassName],
) -> Result<LazyStart, CommandFault>
    ensures program { IfOk result (λ start. start.program ≡ program) }
    ensures start { IfOk result (λ start. IsStart start.program entries.now (world_of start.world)) }
    ensures refusal { IfErr result (λ refusal. (refusal ≡ Memory) ⊎ IsRefusedEntry program entries.now refusal) }
{
    match World::lazy(alloc, &program, entries) {
        Ok(world) => Ok(LazyStart { program, world }),
        Err(fault) => Err(CommandFault::of_entry(fault)),
    }
}

/// Reads the class files, and answers their lazy start, as the words say.
///
/// # Errors
/// The first refusal: a file, a class file, linking, an entry, or memory.
pub(crate) fn begin<F: Files>(
    alloc: Global,
    words: &Lazy<'_>,
    files: &mut F,
) -> Result<LazyStart, CommandFault>
    // The world is the lazy start of the program of the class files that the words name.
    ensures begun { IfOk result
        (λ start. IsBegun (F.holds files.old) words.now start.program (world_of start.world)) }
    ensures same { F.holds files.new ≡ F.holds files.old }
{
    let texts = contents(alloc, words.files.as_slice(), files, usize::MAX)?;
    let entries = entries_of(alloc, words.entries)?;
    match program_of_texts(alloc, texts) {
        Ok(program) => started(alloc, program, entries.as_slice()),
        Err(refusal) => Err(refusal),
    }
}
