//! A line for each class.

ghost use Rattle.std.specs.Prelude.{◌≡◌, ◌++◌, ◌<◌, length, IfOk, OnOk};
ghost use Rattle.std.specs.String.{string_bytes};
ghost use Rattle.image_writer.specs.ImageTexts.{region_sizes};
ghost use Rattle.region_shape.specs.Regions.{environment_of};
ghost use Rattle.inspection.specs.Largest.{size_at};
ghost use Rattle.inspection.specs.Texts.{class_line, holding_text, lines_below};

use crate::largest::size_at;
use object_graph::Image;
use report::class_text;
use std::alloc::{AllocError, Global};

/// What an image holds of a class whose region takes so many bytes.
fn holding_text(alloc: Global, image: &Image, class: u32, size: usize) -> Result<String, AllocError>
    ensures { IfOk result
        (λ text. string_bytes text ≡ holding_text (environment_of image.now.regions class) size) }
{
    match image.region(class) {
        Some(_) => {
            let count = image.object_count(class);
            format!(in alloc; "build objects {count} bytes {size}")
        }
        None => String::from_str(alloc, "run"),
    }
}

/// Adds the line of a class whose region takes so many bytes.
fn add_line(
    alloc: Global,
    text: &mut String,
    image: &Image,
    class: u32,
    size: usize,
) -> Result<(), AllocError>
    requires { size ≡ size_at (region_sizes image.now) class }
    ensures { OnOk result (string_bytes text.new ≡ string_bytes text.old ++ class_line image.now class) }
{
    let name = class_text(alloc, image.program().family(), class)?;
    let holding = holding_text(alloc, image, class, size)?;
    writeln!(text, "{name} {holding}")
}

/// The lines of all classes, whose regions have these sizes.
pub(crate) fn class_lines(
    alloc: Global,
    image: &Image,
    sizes: &[usize],
) -> Result<String, AllocError>
    requires { sizes.now ≡ region_sizes image.now }
    ensures { IfOk result (λ text. string_bytes text ≡ lines_below image.now (length image.now.program.family)) }
{
    let mut text = String::new(alloc);
    let classes = image.program().family().classes();
    for class in 0..classes.len() as u32 {
        let size = size_at(sizes, class as usize);
        add_line(alloc, &mut text, image, class, size)?;
    }
    Ok(text)
}
