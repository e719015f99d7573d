//! All that is said of an image.

ghost use Rattle.std.specs.Prelude.{◌≡◌, ◌<◌, ◌^◌, ℕ, IfOk, length};
ghost use Rattle.std.specs.List.{All};
ghost use Rattle.std.specs.String.{string_bytes};
ghost use Rattle.image_writer.specs.ImageTexts.{region_sizes};
ghost use Rattle.inspection.specs.Texts.{IsInspection, text_on};

use crate::head::head_text;
use crate::largest::{largest, largest_lines};
use crate::lines::class_lines;
use image_writer::region_sizes;
use object_graph::Image;
use std::alloc::{AllocError, Global};

/// How many of the largest classes are named.
const MOST: usize = 10;

/// What is said of an image, of which these bytes are the text, where its regions have these sizes, and these classes
/// are the largest.
fn text_on(
    alloc: Global,
    bytes: &[u8],
    image: &Image,
    sizes: &[usize],
    classes: &[usize],
) -> Result<String, AllocError>
    requires sizes { sizes.now ≡ region_sizes image.now }
    requires few { length sizes.now < 2 ^ 32 }
    requires classes { All (λ (class : ℕ). class < length sizes.now) classes.now }
    ensures { IfOk result (λ text. string_bytes text ≡ text_on bytes.now image.now classes.now) }
{
    let head = head_text(alloc, bytes, image)?;
    let lines = class_lines(alloc, image, sizes)?;
    let last = largest_lines(alloc, image, sizes, classes)?;
    format!(in alloc; "{head}{lines}{last}")
}

/// The text on an image, where its regions have these sizes.
fn text_by_sizes(
    alloc: Global,
    bytes: &[u8],
    image: &Image,
    sizes: &[usize],
) -> Result<String, AllocError>
    requires sizes { sizes.now ≡ region_sizes image.now }
    requires few { length sizes.now < 2 ^ 32 }
    ensures { IfOk result (λ text. IsInspection bytes.now image.now (string_bytes text)) }
{
    let classes = largest(alloc, sizes, MOST)?;
    text_on(alloc, bytes, image, sizes, classes.as_slice())
}

/// What an image holds, of which these bytes are the text: its version and digest, how many bytes, classes, initialized
/// classes and objects it has; a line for each class, in the order of the names, with the count of its objects and the
/// bytes of its region if it is initialized; and the ten classes whose regions take the most bytes.
///
/// # Errors
/// Where memory runs out.
pub fn inspection(alloc: Global, bytes: &[u8], image: &Image) -> Result<String, AllocError>
    ensures { IfOk result (λ text. IsInspection bytes.now image.now (string_bytes text)) }
{
    let sizes = region_sizes(alloc, image)?;
    text_by_sizes(alloc, bytes, image, sizes.as_slice())
}
