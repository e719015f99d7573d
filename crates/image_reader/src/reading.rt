//! Reads images.

ghost use Rattle.std.specs.Prelude.{◌≡◌, IfOk};
ghost use Rattle.program.specs.Programs.{IsProgram};
ghost use Rattle.image_format.specs.declared.version.Version.TheVariants.{One, Two};
ghost use Rattle.image_format.specs.Images.{AreRegions, AreShort};
ghost use Rattle.image_format.specs.Reached.{IsDropped};
ghost use Rattle.image_parser.specs.AllRegions.{IsShown};
ghost use Rattle.image_parser.specs.Parsings.{IsOfFiles, told_in};
ghost use Rattle.image_writer.specs.ImageTexts.{told_of};
ghost use Rattle.image_reader.specs.Readings.{IsRead};

use image_format::version::Version;
use image_parser::{ImageFault, Parsed, parse, parse_by_several};
use image_writer::image_text;
use object_graph::{Image, gather};
use std::alloc::{AllocError, Global};
use std::thread::Threads;

/// Reads an image of version 2, or of version 1 without the objects that no static field reaches: the program of its
/// class files, with the strings that its classes hold, and what its classes that are initialized hold.
///
/// # Errors
/// What is wrong first, from the frame inward and then from front to back; `Memory` where memory runs out.
pub fn read(alloc: Global, bytes: &[u8]) -> Result<Image, ImageFault>
    ensures { IsRead bytes.now result }
{
    match parse(alloc, bytes) {
        Ok(parsed) => match image_of(alloc, parsed) {
            Ok(image) => Ok(image),
            Err(_) => Err(ImageFault::Memory),
        },
        Err(fault) => Err(fault),
    }
}

/// Does the same as `read`. Where there is much to read, several threads do.
///
/// # Errors
/// Those of `read`.
pub fn read_by_several<R: Threads + Sync>(
    rt: &R,
    alloc: Global,
    bytes: &[u8],
) -> Result<Image, ImageFault>
    ensures { IsRead bytes.now result }
{
    match parse_by_several(rt, alloc, bytes) {
        Ok(parsed) => match image_of(alloc, parsed) {
            Ok(image) => Ok(image),
            Err(_) => Err(ImageFault::Memory),
        },
        Err(wrong) => Err(wrong),
    }
}

/// The image that a text says, without the objects that are not reached.
fn image_of(alloc: Global, parsed: Parsed) -> Result<Image, AllocError>
    requires program { IsProgram parsed.program }
    requires fits { AreRegions parsed.version parsed.program.family (told_in parsed) }
    requires short { AreShort parsed.program.family }
    requires files { IsOfFiles parsed.program parsed.regions }
    ensures family { IfOk result (λ image. image.program.family ≡ parsed.program.family) }
    ensures told { IfOk result (λ image. IsShown parsed.version (told_in parsed) (told_of image)) }
    ensures program { IfOk result (λ image. IsProgram image.program) }
    ensures files { IfOk result (λ image. IsOfFiles image.program image.regions) }
{
    match parsed.version {
        Version::One => renewed(alloc, parsed),
        Version::Two => Ok(reached_image(parsed)),
    }
}

/// The image of what a text of version 2 says.
fn reached_image(parsed: Parsed) -> Image
    requires version { parsed.version ≡ Two }
    requires program { IsProgram parsed.program }
    requires fits { AreRegions parsed.version parsed.program.family (told_in parsed) }
    requires files { IsOfFiles parsed.program parsed.regions }
    ensures { result ≡ record { program = parsed.program; regions = parsed.regions } }
{
    let Parsed {
        version: _,
        program,
        regions,
    } = parsed;
    Image::of_reached(program, regions)
}

/// The image of what a text of version 1 says, without the objects that are not reached. It is read from its own text,
/// so that its program has no string which only an object holds that is left out.
fn renewed(alloc: Global, parsed: Parsed) -> Result<Image, AllocError>
    requires version { parsed.version ≡ One }
    requires program { IsProgram parsed.program }
    requires fits { AreRegions parsed.version parsed.program.family (told_in parsed) }
    requires short { AreShort parsed.program.family }
    requires files { IsOfFiles parsed.program parsed.regions }
    ensures family { IfOk result (λ image. image.program.family ≡ parsed.program.family) }
    ensures told { IfOk result (λ image. IsDropped (told_in parsed) (told_of image)) }
    ensures program { IfOk result (λ image. IsProgram image.program) }
    ensures files { IfOk result (λ image. IsOfFiles image.program image.regions) }
{
    let Parsed {
        version: _,
        program,
        regions,
    } = parsed;
    let image = gather(alloc, program, regions)?;
    let text = image_text(alloc, &image)?;
    drop(image);
    match parse(alloc, text.as_slice()) {
        Ok(again) => Ok(reached_image(again)),
        Err(_) => Err(AllocError),
    }
}
