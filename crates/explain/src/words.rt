//! Names, places and lines on a class.

ghost use Rattle.std.specs.Prelude.{◌≡◌, IfOk, string_bytes};
ghost use Rattle.report.specs.Texts.{class_text};
ghost use Rattle.explain.specs.Texts.{evidence_text, line, place_line};

use classfile::printed;
use initializer_analysis::verdict::Reason;
use instruction_text::place_text;
use loading::family::Family;
use loading::names::name_of;
use report::reason_text;
use std::alloc::{AllocError, Global};
use use_graph::mark::Evidence;

/// The name of a class with slashes.
pub(crate) fn name_text(alloc: Global, family: &Family, class: usize) -> Result<String, AllocError>
    ensures { IfOk result (λ text. string_bytes text ≡ class_text family.now class) }
{
    match family.classes().get(class) {
        Some(given) => printed(alloc, name_of(&given.file)),
        None => Ok(String::new(alloc)),
    }
}

/// A method, a pc and the instruction there.
fn evidence_text(alloc: Global, family: &Family, at: Evidence) -> Result<String, AllocError>
    ensures { IfOk result (λ text. string_bytes text ≡ evidence_text family.now at) }
{
    match family.file(at.class) {
        Some(file) => place_text(alloc, file, at.index, at.pc),
        None => Ok(String::new(alloc)),
    }
}

/// The name of a class and some words, as a line.
pub(crate) fn line(
    alloc: Global,
    family: &Family,
    class: u32,
    words: &str,
) -> Result<String, AllocError>
    ensures { IfOk result (λ text. string_bytes text ≡ line family.now class words.now) }
{
    let name = name_text(alloc, family, class as usize)?;
    format!(in alloc; "{name} {words}\n")
}

/// The line of a reason, with an instruction and how it has to do with the reason.
pub(crate) fn place_line(
    alloc: Global,
    family: &Family,
    class: u32,
    reason: Reason,
    how: &str,
    at: Evidence,
) -> Result<String, AllocError>
    ensures { IfOk result (λ text. string_bytes text ≡ place_line family.now class reason how.now at) }
{
    let reason = reason_text(alloc, family, reason)?;
    let place = evidence_text(alloc, family, at)?;
    let words = format!(in alloc; "{reason} {how} {place}")?;
    line(alloc, family, class, words.as_str())
}
