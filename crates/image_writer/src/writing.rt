//! Writes images.

ghost use Rattle.std.specs.Prelude.{◌≡◌, OnOk, IfErr};
ghost use Rattle.std.specs.Io.KnownBytes.{Appends};
ghost use Rattle.image_format.specs.Images.{AreShort, ImageText};
ghost use Rattle.image_writer.specs.ImageTexts.{text_of, told_of};
ghost use Rattle.sinks.specs.Sendings.{IsBegun, HasFailed};

use crate::text::image_text;
use object_graph::Image;
use sinks::{Sink, WriteFault, send};
use std::alloc::Global;

/// Writes an image whose class files are shorter than 2^32 bytes: its text goes out to a sink.
///
/// # Errors
/// `Memory` where memory runs out, before anything has gone out. `Device` where the sink failed in this call: the first
/// bytes of the text have gone out then, as many as the fault says, and nothing else.
pub fn write<S: Sink>(alloc: Global, image: &Image, sink: &mut S) -> Result<(), WriteFault>
    requires { AreShort image.now.program.family }
    ensures whole { OnOk result (Appends (S.got sink.old) (S.got sink.new) (text_of image.now)) }
    ensures begun { IfErr result (IsBegun (text_of image.now) (S.got sink.old) (S.got sink.new)) }
    ensures failed { IfErr result (HasFailed (S.failures sink.old) (S.failures sink.new)) }
    ensures well { OnOk result (S.failures sink.new ≡ S.failures sink.old) }
    // The text is one of the image.
    ensures image { ImageText (text_of image.now) image.now.program.family (told_of image.now) }
{
    match image_text(alloc, image) {
        Ok(text) => send(&text, sink),
        Err(_) => Err(WriteFault::Memory { sent: 0 }),
    }
}
