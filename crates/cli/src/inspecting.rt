//! From an image's bytes to what is said of it, and the command `inspect` over it.
ghost use Rattle.std.specs.Prelude.{◌≡◌, ◌⊎◌, IfErr, IfOk};
ghost use Rattle.cli.specs.Inspections.{IsInspected, IsInspectionOf};
ghost use Rattle.cli.specs.Renewals.{IsNoImage};
ghost use Rattle.cli.specs.declared.fault.CommandFault.TheVariants.{Memory};

use crate::files::get;
use crate::{CommandFault, Files, Inspect};
use image_reader::read;
use inspection::inspection;
use std::alloc::Global;

/// Reads an image of version 1 or 2, and answers what it holds, as text: its version and digest, a line for each class,
/// and its largest classes.
///
/// # Errors
/// `Image` where the bytes are no image; or `Memory`.
pub fn inspected_image(alloc: Global, bytes: &[u8]) -> Result<Vec<u8>, CommandFault>
    // What is answered is what is said of the image whose text, of either version, the bytes are.
    ensures image { IfOk result (λ text. IsInspected bytes.now text.items) }
    // Nothing is answered otherwise but for want of memory, or for what is wrong first.
    ensures refusal { IfErr result (λ refusal. (refusal ≡ Memory) ⊎ IsNoImage bytes.now refusal) }
{
    match read(alloc, bytes) {
        Ok(image) => match inspection(alloc, bytes, &image) {
            Ok(text) => Ok(text.into_bytes()),
            Err(_) => Err(CommandFault::Memory),
        },
        Err(fault) => Err(CommandFault::of_image(fault)),
    }
}

/// Reads the image of a file, and answers what it holds, as the words say.
///
/// # Errors
/// The first refusal: the image's file, the image, or memory.
pub(crate) fn run<F: Files>(
    alloc: Global,
    words: &Inspect<'_>,
    files: &mut F,
) -> Result<Vec<u8>, CommandFault>
    ensures inspected { IfOk result (λ text. IsInspectionOf (F.holds files.old) words.now text.items) }
    ensures same { F.holds files.new ≡ F.holds files.old }
{
    let bytes = get(alloc, words.image, files)?;
    inspected_image(alloc, bytes.as_slice())
}
