//! Reports go out to a sink.

ghost use Rattle.std.specs.Prelude.{◌≡◌, OnOk, IfErr};
ghost use Rattle.std.specs.Io.KnownBytes.{Appends};
ghost use Rattle.sinks.specs.Sendings.{IsBegun, HasFailed};
ghost use Rattle.report.specs.Texts.{report_text};
ghost use Rattle.report.specs.Waves.{GiveWaves};

use crate::lines::report_text;
use initializer_analysis::verdict::Verdicts;
use object_graph::Image;
use sinks::{Sink, WriteFault, send};
use std::alloc::Global;

/// Writes the report of an image and the last verdicts on its classes: its text goes out to a sink.
///
/// # Errors
/// `Memory` where memory runs out, before anything has gone out. `Device` where the sink failed in this call: the first
/// bytes of the text have gone out then, as many as the fault says, and nothing else.
pub fn render<S: Sink>(
    alloc: Global,
    image: &Image,
    verdicts: &Verdicts,
    sink: &mut S,
) -> Result<(), WriteFault>
    // The classes that have a wave are those that have a region.
    requires { GiveWaves image.now verdicts.now }
    ensures whole { OnOk result (Appends (S.got sink.old) (S.got sink.new) (report_text image.now verdicts.now)) }
    ensures begun { IfErr result (IsBegun (report_text image.now verdicts.now) (S.got sink.old) (S.got sink.new)) }
    ensures failed { IfErr result (HasFailed (S.failures sink.old) (S.failures sink.new)) }
    ensures well { OnOk result (S.failures sink.new ≡ S.failures sink.old) }
{
    match report_text(alloc, image, verdicts.as_slice()) {
        Ok(text) => send(text.as_bytes(), sink),
        Err(_) => Err(WriteFault::Memory { sent: 0 }),
    }
}
