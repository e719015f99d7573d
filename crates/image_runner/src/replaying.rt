//! Replays of images.

ghost use Rattle.std.specs.Prelude.{◌≡◌, ◌↔◌, ◌⊎◌, ◌<◌, Err, IfErr, IfOk, length};
ghost use Rattle.init_engine.specs.declared.fault.EntryFault.TheVariants.{Count};
ghost use Rattle.image_runner.specs.Replays.{ImageReplayFails, IsImageReplay};
ghost use Rattle.image_runner.specs.declared.fault.ReplayFault.TheVariants.{Entry, Memory};

use crate::fault::ReplayFault;
use classfile::ClassName;
use image_reader::world;
use init_engine::Seen;
use journal::Journal;
use object_graph::Image;
use std::alloc::Global;
use thread_runner::replay::ReplayFault as NoRun;

/// Replays a journal from the start of an image, and answers what is seen at its end. The image stays.
///
/// # Errors
/// `Entry` exactly where `image_reader::world` refuses the entries; `Turn` with the first line, from 1, whose steps the
/// world has not; `Memory` where memory is refused.
pub fn replay(
    alloc: Global,
    image: &Image,
    entries: &[ClassName],
    journal: &Journal,
) -> Result<Seen, ReplayFault>
    ensures ok { IfOk result (IsImageReplay image.now entries.now journal.now) }
    ensures err { IfErr result
        (λ fault. (fault ≡ Memory) ⊎ ImageReplayFails image.now entries.now journal.now fault) }
    // A wrong number of entries is told just where there is one, whatever memory does.
    ensures count { (result ≡ Err (Entry Count)) ↔ ((length entries.now ≡ 0) ⊎ (64 < length entries.now)) }
{
    match world(alloc, image, entries) {
        Ok(world) => match thread_runner::replay::replay(alloc, image.program(), world, journal) {
            Ok(seen) => Ok(seen),
            Err(NoRun::Memory) => Err(ReplayFault::Memory),
            Err(NoRun::Turn(line)) => Err(ReplayFault::Turn(line)),
        },
        Err(fault) => Err(ReplayFault::of_entries(fault)),
    }
}
