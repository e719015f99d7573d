//! The lines of a report.

ghost use Rattle.std.specs.Prelude.{◌≡◌, ◌++◌, ◌<◌, length, IfOk, OnOk};
ghost use Rattle.std.specs.String.{string_bytes};
ghost use Rattle.initializer_analysis.specs.declared.verdict.Verdict.TheVariants.{Wave, Refused};
ghost use Rattle.report.specs.Texts.{verdict_text, line_text, report_text};

use crate::words::{class_text, reason_text};
use initializer_analysis::verdict::{Reason, Verdict};
use object_graph::Image;
use std::alloc::{AllocError, Global};

/// The words on a class that is initialized at build time.
fn built_text(alloc: Global, image: &Image, class: u32, wave: usize) -> Result<String, AllocError>
    ensures { IfOk result (λ text. string_bytes text ≡ verdict_text image.now class (Wave wave)) }
{
    let count = image.object_count(class);
    format!(in alloc; "build {wave} {count}")
}

/// The words on a class that is initialized at run time.
fn refused_text(
    alloc: Global,
    image: &Image,
    class: u32,
    reason: Reason,
) -> Result<String, AllocError>
    ensures { IfOk result (λ text. string_bytes text ≡ verdict_text image.now class (Refused reason)) }
{
    let reason = reason_text(alloc, image.program().family(), reason)?;
    format!(in alloc; "run {reason}")
}

/// The words on a class, as `build 1 2` or `run Prints`.
pub fn verdict_text(
    alloc: Global,
    image: &Image,
    class: u32,
    verdict: Verdict,
) -> Result<String, AllocError>
    ensures { IfOk result (λ text. string_bytes text ≡ verdict_text image.now class verdict) }
{
    match verdict {
        Verdict::Wave(wave) => built_text(alloc, image, class, wave),
        Verdict::Refused(reason) => refused_text(alloc, image, class, reason),
    }
}

/// Adds the line of a class.
fn add_line(
    alloc: Global,
    text: &mut String,
    image: &Image,
    class: u32,
    verdict: Verdict,
) -> Result<(), AllocError>
    ensures { OnOk result (string_bytes text.new ≡ string_bytes text.old ++ line_text image.now class verdict) }
{
    let name = class_text(alloc, image.program().family(), class)?;
    let verdict = verdict_text(alloc, image, class, verdict)?;
    writeln!(text, "{name} {verdict}")
}

/// The lines of all classes, where each has a verdict.
pub(crate) fn report_text(
    alloc: Global,
    image: &Image,
    verdicts: &[Verdict],
) -> Result<String, AllocError>
    requires { length verdicts.now ≡ length image.now.program.classes }
    ensures { IfOk result (λ text. string_bytes text ≡ report_text image.now verdicts.now) }
{
    let mut text = String::new(alloc);
    for class in 0..image.program().given_count() {
        add_line(alloc, &mut text, image, class, verdicts[class as usize])?;
    }
    Ok(text)
}
