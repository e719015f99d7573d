//! From an image's bytes to those of the same image in the version that is written, and the command `renew` over it.
ghost use Rattle.std.specs.Prelude.{◌≡◌, ◌⊎◌, List, Option, IfErr, IfOk, OnOk};
ghost use Rattle.loading.specs.Families.{Family as Classes};
ghost use Rattle.image_format.specs.Regions.{ImageRegion as Told};
ghost use Rattle.image_format.specs.Images.{ImageText};
ghost use Rattle.command_line.specs.declared.request.Request.TheVariants.{Renew as ToRenew};
ghost use Rattle.cli.specs.Done.{HasRenewed};
ghost use Rattle.cli.specs.Left.{HasLeft};
ghost use Rattle.cli.specs.Renewals.{IsNoImage, IsRenewed};
ghost use Rattle.cli.specs.steps.Left.{status_of_done};
ghost use Rattle.cli.specs.declared.fault.CommandFault.TheVariants.{Memory};

use crate::files::{get, put};
use crate::{CommandFault, Files, Renew};
use image_reader::read;
use image_writer::image_text;
use std::alloc::Global;

/// Reads an image of version 1 or 2, and answers its text of version 2.
///
/// # Errors
/// `Image` where the bytes are no image; or `Memory`.
pub fn renewed_image(alloc: Global, bytes: &[u8]) -> Result<Vec<u8>, CommandFault>
    // What is answered is the text of an image whose text, of either version, was read.
    ensures image { IfOk result (λ renewed. IsRenewed bytes.now renewed.items) }
    // A text of version 2 is answered as it is.
    ensures same { (family : Classes) (regions : List (Option Told)) → ImageText bytes.now family regions
        → IfOk result (λ renewed. renewed.items ≡ bytes.now) }
    // Nothing is answered otherwise but for want of memory, or for what is wrong first.
    ensures refusal { IfErr result (λ refusal. (refusal ≡ Memory) ⊎ IsNoImage bytes.now refusal) }
{
    match read(alloc, bytes) {
        Ok(image) => match image_text(alloc, &image) {
            Ok(renewed) => Ok(renewed),
            Err(_) => Err(CommandFault::Memory),
        },
        Err(fault) => Err(CommandFault::of_image(fault)),
    }
}

/// Reads the image, and writes it to the new file, as the words say.
///
/// # Errors
/// The first refusal: the image's file, the image, the new file, or memory.
#[tactic(auto, using(crate::proofs::LeftLemmas::renewed_left, crate::proofs::LeftLemmas::unchanged))]
pub(crate) fn run<F: Files>(
    alloc: Global,
    words: &Renew<'_>,
    files: &mut F,
) -> Result<(), CommandFault>
    ensures renewed { OnOk result (HasRenewed (F.holds files.old) (F.holds files.new) words.now) }
    ensures left { HasLeft (F.holds files.old) (F.holds files.new) (ToRenew words.now) (status_of_done result) }
{
    let bytes = get(alloc, words.image, files)?;
    let renewed = renewed_image(alloc, bytes.as_slice())?;
    put(alloc, words.new, renewed.as_slice(), files)
}
