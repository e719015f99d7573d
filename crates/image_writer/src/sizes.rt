//! How many bytes the regions of an image take in its text.

ghost use Rattle.std.specs.Prelude.{◌≡◌, ◌<◌, ◌^◌, [], IfOk, OnOk, length, map, option_map};
ghost use Rattle.std.specs.List.{range_with_len};
ghost use Rattle.region_shape.specs.Regions.{environment_of};
ghost use Rattle.image_format.specs.Told.{told_region};
ghost use Rattle.image_writer.specs.ImageTexts.{held_text, region_size, region_sizes};
ghost use Rattle.image_writer.specs.steps.Sizes.{HasFiles};

use crate::files::show_files;
use crate::objects::push_region;
use object_graph::Image;
use std::alloc::{AllocError, Global};

/// Writes the region of a class to what is empty, if there is one.
fn push_held(alloc: Global, out: &mut Vec<u8>, image: &Image, class: u32) -> Result<(), AllocError>
    requires empty { out.old.items ≡ [] }
    requires files { HasFiles image.now.program }
    ensures { OnOk result (out.new.items ≡ held_text image.now.program.family
        (option_map (told_region image.now.program class) (environment_of image.now.regions class))) }
{
    match image.region(class) {
        Some(region) => push_region(alloc, out, image, class, region),
        None => Ok(()),
    }
}

/// How many bytes the region of a class takes, which is written to a buffer.
fn size_of_region(
    alloc: Global,
    buffer: &mut Vec<u8>,
    image: &Image,
    class: u32,
) -> Result<usize, AllocError>
    requires { HasFiles image.now.program }
    ensures { IfOk result (λ size. size ≡ region_size image.now class) }
{
    buffer.clear();
    push_held(alloc, buffer, image, class)?;
    Ok(buffer.len())
}

/// The sizes of the regions of the classes below a number.
fn sizes_below(alloc: Global, image: &Image, count: u32) -> Result<Vec<usize>, AllocError>
    requires { HasFiles image.now.program }
    ensures sizes { IfOk result (λ sizes. sizes.items ≡ map (region_size image.now) (range_with_len 0 count)) }
    ensures count { IfOk result (λ sizes. length sizes.items ≡ count) }
{
    let mut buffer = Vec::new(alloc);
    let mut sizes = Vec::new(alloc);
    for class in 0..count {
        let size = size_of_region(alloc, &mut buffer, image, class)?;
        sizes.push(size)?;
    }
    Ok(sizes)
}

/// By class, how many bytes its region takes in the text of an image: none where it has no region. Each region is
/// written to memory for that, and let go before the next one.
///
/// # Errors
/// Where memory runs out.
pub fn region_sizes(alloc: Global, image: &Image) -> Result<Vec<usize>, AllocError>
    ensures sizes { IfOk result (λ sizes. sizes.items ≡ region_sizes image.now) }
    ensures few { IfOk result (λ sizes. length sizes.items < 2 ^ 32) }
{
    show_files(image.program());
    let classes = image.program().family().classes();
    sizes_below(alloc, image, classes.len() as u32)
}
