//! From an image's bytes and a journal's text to what the image's replay by the first steps of that journal shows.
ghost use Rattle.std.specs.Prelude.{◌≡◌, IfOk};
ghost use Rattle.image_runner.specs.Replays.{IsImageReplay};
ghost use Rattle.cli.specs.FirstSteps.{IsReplayedTo, SpellsFirst};

use crate::{CommandFault, ImageReplay};
use classfile::ClassName;
use image_reader::read;
use image_runner::replay;
use journal::Journal;
use object_graph::Image;
use std::alloc::Global;

/// Replays the first steps of a journal, at most so many, from its text, of an image, from its bytes.
///
/// # Errors
/// The first that holds of `Image` (the bytes are no image), `Text` (the text is no journal), `Entry` and `Turn` (a
/// line of these steps has a thread that is not there, or has no such steps); or `Memory`.
pub(crate) fn replay_first(
    alloc: Global,
    bytes: Vec<u8>,
    entries: &[ClassName],
    text: &[u8],
    steps: u64,
) -> Result<ImageReplay, CommandFault>
    ensures { IfOk result (IsReplayedTo steps bytes.items entries.now text.now) }
{
    match read(alloc, bytes.as_slice()) {
        Ok(image) => {
            drop(bytes);
            let _classes = image.program().classes();
            replay_first_of_text(alloc, image, entries, text, steps)
        }
        Err(fault) => Err(CommandFault::of_image(fault)),
    }
}

/// Replays the first steps of the journal of this text.
fn replay_first_of_text(
    alloc: Global,
    image: Image,
    entries: &[ClassName],
    text: &[u8],
    steps: u64,
) -> Result<ImageReplay, CommandFault>
    ensures image { IfOk result (λ replay. replay.image ≡ image) }
    ensures journal { IfOk result (λ replay. SpellsFirst steps text.now replay.journal) }
    ensures shown { IfOk result (λ replay. IsImageReplay image entries.now replay.journal replay.seen) }
{
    match first_steps(alloc, text, steps) {
        Ok(journal) => match replay(alloc, &image, entries, &journal) {
            Ok(seen) => Ok(ImageReplay {
                image,
                journal,
                seen,
            }),
            Err(fault) => Err(CommandFault::of_replay(fault)),
        },
        Err(refusal) => Err(refusal),
    }
}

/// The journal of the first steps that a text spells.
fn first_steps(alloc: Global, text: &[u8], steps: u64) -> Result<Journal, CommandFault>
    ensures { IfOk result (SpellsFirst steps text.now) }
{
    match Journal::parse(alloc, text) {
        Ok(journal) => Ok(journal.first(alloc, steps)?),
        Err(fault) => Err(CommandFault::of_journal(fault)),
    }
}
