//! The text of an image.

ghost use Rattle.std.specs.Prelude.{◌≡◌, ◌++◌, ◌<◌, ◌^◌, length, IfOk, OnOk};
ghost use Rattle.std.specs.List.{flat_map};
ghost use Rattle.sha2.specs.Sha256.{sha256};
ghost use Rattle.classfile.specs.Spelling.{u2, u4};
ghost use Rattle.classfile.specs.Text.{class_text};
ghost use Rattle.region_shape.specs.Regions.{environment_of};
ghost use Rattle.image_format.specs.declared.version.Version.TheVariants.{Two};
ghost use Rattle.image_format.specs.Texts.{given_text, body_text, file_text};
ghost use Rattle.image_format.specs.Images.{AreShort, ImageText};
ghost use Rattle.image_format.specs.Told.{told_regions};
ghost use Rattle.image_writer.specs.ImageTexts.{text_of, told_of};

use crate::files::show_files;
use crate::fitting::show_classes_fit;
use crate::numbers::{push_u16, push_u32};
use crate::objects::push_flags;
use classfile::ClassFile;
use loading::given::GivenClass;
use object_graph::Image;
use sha2::{Digest, Sha256};
use std::alloc::{AllocError, Global};

/// The bytes of a class file's length and of its class's flag.
const BESIDE_EACH_FILE: usize = 5;

/// The bytes of what stands before the class files, and of the digest.
const AROUND_CLASSES: usize = 42;

/// A length, and a class file.
fn push_file(out: &mut Vec<u8>, file: &ClassFile) -> Result<(), AllocError>
    requires { length (class_text file.now) < 2 ^ 32 }
    ensures { OnOk result (out.new.items ≡ out.old.items ++ file_text file.now) }
{
    let text = file.text();
    push_u32(out, text.len() as u32)?;
    out.extend_from_slice(text)
}

/// The class files of all classes.
fn push_files(out: &mut Vec<u8>, classes: &[GivenClass]) -> Result<(), AllocError>
    requires { AreShort classes.now }
    ensures { OnOk result (out.new.items ≡ out.old.items ++ flat_map given_text classes.now) }
{
    for given in classes {
        push_file(out, &given.file)?;
    }
    Ok(())
}

/// `JPIM`, the version, and the count of classes.
fn push_header(out: &mut Vec<u8>, count: u32) -> Result<(), AllocError>
    ensures { OnOk result (out.new.items ≡ out.old.items ++ (u4 1246775629 ++ (u2 2 ++ u4 count))) }
{
    push_u32(out, 0x4A50_494D)?;
    push_u16(out, 2)?;
    push_u32(out, count)
}

/// How many bytes the class files take, with their lengths and flags.
fn files_length(classes: &[GivenClass]) -> usize {
    let mut length = 0usize;
    for given in classes {
        length = length
            .saturating_add(given.file.text().len())
            .saturating_add(BESIDE_EACH_FILE);
    }
    length
}

/// Room for the text of an image, but for what the regions of its classes take.
fn room_for(image: &Image) -> usize {
    files_length(image.program().family().classes()).saturating_add(AROUND_CLASSES)
}

/// All before the digest.
fn push_body(alloc: Global, out: &mut Vec<u8>, image: &Image) -> Result<(), AllocError>
    requires { AreShort image.now.program.family }
    ensures { OnOk result (out.new.items ≡ out.old.items ++ body_text Two image.now.program.family
        (told_regions image.now.program (environment_of image.now.regions))) }
{
    let classes = image.program().family().classes();
    push_header(out, classes.len() as u32)?;
    push_files(out, classes)?;
    push_flags(alloc, out, image)
}

/// The digest of what stands before.
fn push_digest(out: &mut Vec<u8>) -> Result<(), AllocError>
    ensures { OnOk result (out.new.items ≡ out.old.items ++ sha256 out.old.items) }
{
    let mut hasher = Sha256::new();
    hasher.update(out.as_slice());
    let digest = hasher.finalize();
    out.extend_from_slice(&digest)
}

/// The text of an image is one of it.
fn show_text(image: &Image)
    requires { AreShort image.now.program.family }
    ensures { ImageText (text_of image.now) image.now.program.family (told_of image.now) }
{
    image.program().links();
    show_files(image.program());
    show_classes_fit(image);
    let _classes = image.program().family().classes();
    let _region = image.region(0);
}

/// The text of an image whose class files are shorter than 2^32 bytes.
///
/// # Errors
/// Where memory runs out.
pub fn image_text(alloc: Global, image: &Image) -> Result<Vec<u8>, AllocError>
    requires { AreShort image.now.program.family }
    ensures text { IfOk result (λ bytes. bytes.items ≡ text_of image.now) }
    // It is the text of an image: that of these class files, which make one program, and of these regions.
    ensures image { ImageText (text_of image.now) image.now.program.family (told_of image.now) }
{
    show_text(image);
    let mut out = Vec::with_capacity(alloc, room_for(image))?;
    push_body(alloc, &mut out, image)?;
    push_digest(&mut out)?;
    Ok(out)
}
