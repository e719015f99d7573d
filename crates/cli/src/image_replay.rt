//! From an image's bytes and a journal's text to what the image's replay shows, and the command `replay` over them.
ghost use Rattle.std.specs.Prelude.{◌≡◌, ◌⊎◌, ℕ, List, IfErr, IfOk};
ghost use Rattle.program.specs.Programs.{IsProgram};
ghost use Rattle.journal.specs.Journals.{IsJournalOf};
ghost use Rattle.image_runner.specs.Replays.{IsImageReplay};
ghost use Rattle.cli.specs.ImageReplays.{IsNoReplay, IsReplayed, IsReplayOf};
ghost use Rattle.cli.specs.ImageRuns.{IsSomeTextOf};
ghost use Rattle.cli.specs.declared.fault.CommandFault.TheVariants.{Memory};

use crate::files::get;
use crate::first_steps::replay_first;
use crate::{CommandFault, Files, Replay, entries_of};
use classfile::ClassName;
use image_reader::read;
use image_runner::replay;
use init_engine::Seen;
use journal::Journal;
use object_graph::Image;
use std::alloc::Global;

/// An image, a journal, and what the image's replay by that journal has shown.
#[derive(Drop)]
pub struct ImageReplay {
    pub image: Image,
    pub journal: Journal,
    pub seen: Seen,
}

/// Replays a journal, from its text, of an image, from its bytes, which are let go once the image is read.
///
/// # Errors
/// The first that holds of `Image` (the bytes are no image), `Text` (the text is no journal), `Entry` and `Turn`; or
/// `Memory`.
pub fn replay_image(
    alloc: Global,
    bytes: Vec<u8>,
    entries: &[ClassName],
    text: &[u8],
) -> Result<ImageReplay, CommandFault>
    ensures replayed { IfOk result (IsReplayed bytes.items entries.now text.now) }
    ensures refusal { IfErr result
        (λ refusal. (refusal ≡ Memory) ⊎ IsNoReplay bytes.items entries.now text.now refusal) }
{
    match read(alloc, bytes.as_slice()) {
        Ok(image) => {
            drop(bytes);
            let _classes = image.program().classes();
            replay_text(alloc, image, entries, text)
        }
        Err(fault) => Err(CommandFault::of_image(fault)),
    }
}

/// Replays the journal of this text.
fn replay_text(
    alloc: Global,
    image: Image,
    entries: &[ClassName],
    text: &[u8],
) -> Result<ImageReplay, CommandFault>
    ensures image { IfOk result (λ replay. replay.image ≡ image) }
    ensures journal { IfOk result (λ replay. IsJournalOf text.now replay.journal) }
    ensures shown { IfOk result (λ replay. IsImageReplay image entries.now replay.journal replay.seen) }
    ensures refusal { (bytes : List ℕ) → IsProgram image.program → IsSomeTextOf bytes image
        → IfErr result (λ refusal. (refusal ≡ Memory) ⊎ IsNoReplay bytes entries.now text.now refusal) }
{
    match Journal::parse(alloc, text) {
        Ok(journal) => match replay(alloc, &image, entries, &journal) {
            Ok(seen) => Ok(ImageReplay {
                image,
                journal,
                seen,
            }),
            Err(fault) => Err(CommandFault::of_replay(fault)),
        },
        Err(fault) => Err(CommandFault::of_journal(fault)),
    }
}

/// Replays the journal of an image, as the words say.
///
/// # Errors
/// The first refusal: the image's file, the journal's, the image, the journal, an entry, a line of the journal, or
/// memory.
pub(crate) fn replayed<F: Files>(
    alloc: Global,
    words: &Replay<'_>,
    files: &mut F,
) -> Result<ImageReplay, CommandFault>
    ensures replayed { IfOk result (IsReplayOf (F.holds files.old) words.now) }
    ensures same { F.holds files.new ≡ F.holds files.old }
{
    let image = get(alloc, words.image, files)?;
    let journal = get(alloc, words.journal, files)?;
    let entries = entries_of(alloc, words.entries)?;
    let names = entries.as_slice();
    let text = journal.as_slice();
    match words.at {
        Some(steps) => replay_first(alloc, image, names, text, steps),
        None => replay_image(alloc, image, names, text),
    }
}
