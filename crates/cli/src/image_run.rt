//! From an image's bytes to what a run of it by turns shows, and the start of the command `run`.
ghost use Rattle.std.specs.Prelude.{◌≡◌, ◌↔◌, ◌⊎◌, Err, IfErr, IfOk, length};
ghost use Rattle.program.specs.Programs.{IsProgram};
ghost use Rattle.init_engine.specs.Starts.{IsEntryCount};
ghost use Rattle.init_engine.specs.Turns.{world_of};
ghost use Rattle.init_engine.specs.declared.fault.EntryFault.TheVariants.{Count};
ghost use Rattle.image_reader.specs.Starts.{IsImageStart};
ghost use Rattle.cli.specs.Begins.{IsBegunFromFile};
ghost use Rattle.cli.specs.ImageBuilds.{IsReadAsBuilt};
ghost use Rattle.cli.specs.ImageRuns.{IsNoRun, IsShownFromImage, IsSomeTextOf};
ghost use Rattle.cli.specs.steps.Starts.{IsBegunFrom, IsBegunFromBytes};
ghost use Rattle.cli.specs.declared.fault.CommandFault.TheVariants.{Entry, Memory};

use crate::entries::is_entry_count;
use crate::files::get;
use crate::lazy::{Shown, shown_by_turns};
use crate::{CommandFault, Files, Run, entries_of};
use classfile::ClassName;
use image_reader::{into_world, read, read_by_several, world};
use init_engine::{EntryFault, World};
use object_graph::Image;
use program::Program;
use std::alloc::Global;
use std::thread::Threads;

/// An image, and what a run of it has shown.
#[derive(Drop)]
pub struct ImageRun {
    pub image: Image,
    pub shown: Shown,
}

/// Runs an image by turns, from its bytes: each entry's `main` in a thread of its own, the image's classes initialized
/// from the start and each other class when a thread first needs it, for at most `limit` steps.
///
/// # Errors
/// The first that holds of `Entry` of `Count` (there is no entry or more than 64), `Image` (the bytes are no image) and
/// `Entry`; or `Memory`, but never where the number of entries is wrong.
pub fn run_image(
    alloc: Global,
    bytes: &[u8],
    entries: &[ClassName],
    limit: u64,
) -> Result<ImageRun, CommandFault>
    // The bytes are a text of the image, of either version, the entries are its classes, and what is shown is what is
    // seen after the turns of its start.
    ensures image { IfOk result (λ run. IsSomeTextOf bytes.now run.image) }
    ensures shown { IfOk result (λ run. IsShownFromImage run.image entries.now limit run.shown) }
    // The text of an image that is built of class files is run as such an image. So the headline holds of it: what it
    // shows, these class files show under some schedule of the lazy procedure, and conversely, for every list of
    // entries.
    ensures built { IfOk result (λ run. IsReadAsBuilt bytes.now run.image) }

    // What is answered otherwise is the first that is wrong, or that memory ran out.
    ensures refusal { IfErr result (λ refusal. (refusal ≡ Memory) ⊎ IsNoRun bytes.now entries.now refusal) }
    // A wrong number of entries is told just where there is one, and nothing else is told then: it takes no memory to
    // see.
    ensures count { (result ≡ Err (Entry Count)) ↔ (¬ IsEntryCount (length entries.now)) }
{
    if !is_entry_count(entries.len()) {
        return Err(CommandFault::Entry(EntryFault::Count));
    }
    match image_world(alloc, bytes, entries) {
        Ok(ImageWorld { image, world }) => {
            let shown = shown_by_turns(alloc, image.program(), world, limit)?;
            Ok(ImageRun { image, shown })
        }
        Err(refusal) => Err(refusal),
    }
}

/// An image, and the world that starts from it.
#[derive(Drop)]
struct ImageWorld {
    image: Image,
    world: World,
}

/// The start from an image of these bytes.
fn image_world(
    alloc: Global,
    bytes: &[u8],
    entries: &[ClassName],
) -> Result<ImageWorld, CommandFault>
    ensures image { IfOk result (λ start. IsSomeTextOf bytes.now start.image) }
    ensures program { IfOk result (λ start. IsProgram start.image.program) }
    ensures start { IfOk result (λ start. IsImageStart start.image entries.now (world_of start.world)) }
    ensures built { IfOk result (λ start. IsReadAsBuilt bytes.now start.image) }
    ensures refusal { IsEntryCount (length entries.now)
        → IfErr result (λ refusal. (refusal ≡ Memory) ⊎ IsNoRun bytes.now entries.now refusal) }
{
    match read(alloc, bytes) {
        Ok(image) => {
            let _classes = image.program().classes();
            match world(alloc, &image, entries) {
                Ok(world) => Ok(ImageWorld { image, world }),
                Err(fault) => Err(CommandFault::of_entry(fault)),
            }
        }
        Err(fault) => Err(CommandFault::of_image(fault)),
    }
}

/// The program of an image, and a world that starts from it.
#[derive(Drop)]
pub(crate) struct ImageStart {
    pub program: Program,
    pub world: World,
    /// That world once more, where stacks are told after the run.
    pub again: Option<World>,
}

/// Reads the image of a file, and answers the start from it, from the entries of a list. Several threads may read the
/// image.
///
/// # Errors
/// The first refusal: the file, the image, an entry, or memory.
pub(crate) fn start<R: Threads + Sync, F: Files>(
    rt: &R,
    alloc: Global,
    words: &Run<'_>,
    files: &mut F,
) -> Result<ImageStart, CommandFault>
    ensures begun { IfOk result (λ start. IsBegunFromFile (F.holds files.old) words.now.image.now words.now.entries.now
        start.program (world_of start.world)) }
    ensures same { F.holds files.new ≡ F.holds files.old }
{
    match get(alloc, words.image, files) {
        Ok(bytes) => start_by_several(rt, alloc, words.entries, bytes, may_tell_stacks(words)),
        Err(refusal) => Err(refusal),
    }
}

/// Whether it may be told where the threads of a run stand.
fn may_tell_stacks(words: &Run<'_>) -> bool {
    words.stacks || words.verbose
}

/// The start from an image of these bytes, which several threads may read. The bytes are let go before the world is
/// made.
fn start_by_several<R: Threads + Sync>(
    rt: &R,
    alloc: Global,
    list: &str,
    bytes: Vec<u8>,
    stacks: bool,
) -> Result<ImageStart, CommandFault>
    ensures { IfOk result (λ start. IsBegunFromBytes bytes.items list.now start.program (world_of start.world)) }
{
    let entries = entries_of(alloc, list)?;
    match read_by_several(rt, alloc, bytes.as_slice()) {
        Ok(image) => {
            drop(bytes);
            started(alloc, image, entries.as_slice(), stacks)
        }
        Err(fault) => Err(CommandFault::of_image(fault)),
    }
}

/// The start from an image.
fn started(
    alloc: Global,
    image: Image,
    entries: &[ClassName],
    stacks: bool,
) -> Result<ImageStart, CommandFault>
    ensures { IfOk result (λ start. IsBegunFrom image entries.now start.program (world_of start.world)) }
{
    let _classes = image.program().classes();
    match copied_world(alloc, &image, entries, stacks) {
        Ok(again) => moved_start(alloc, image, entries, again),
        Err(fault) => Err(CommandFault::of_entry(fault)),
    }
}

/// A world that starts from an image, if it is wanted.
fn copied_world(
    alloc: Global,
    image: &Image,
    entries: &[ClassName],
    wanted: bool,
) -> Result<Option<World>, EntryFault> {
    if !wanted {
        return Ok(None);
    }
    match world(alloc, image, entries) {
        Ok(world) => Ok(Some(world)),
        Err(fault) => Err(fault),
    }
}

/// The start from an image whose regions are moved there.
fn moved_start(
    alloc: Global,
    image: Image,
    entries: &[ClassName],
    again: Option<World>,
) -> Result<ImageStart, CommandFault>
    requires { IsProgram image.program }
    ensures { IfOk result (λ start. IsBegunFrom image entries.now start.program (world_of start.world)) }
{
    match into_world(alloc, image, entries) {
        Ok((program, world)) => Ok(ImageStart {
            program,
            world,
            again,
        }),
        Err(fault) => Err(CommandFault::of_entry(fault)),
    }
}
