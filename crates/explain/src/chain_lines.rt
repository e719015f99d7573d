//! Lines of the classes for whose sake a class stays at run time.

ghost use Rattle.std.specs.Prelude.{◌≡◌, slice_get, IfOk, string_bytes};
ghost use Rattle.explain.specs.Texts.{dependences, end_text, ends_line, last_verdict, own_text};
ghost use Rattle.explain.specs.Texts.{IsChainLine, IsChainText, IsEndsLine, IsEndsText};
ghost use Rattle.explain.specs.steps.Roots.{AreRoots};

use crate::blamed::root_of;
use crate::chains::{chain_of, verdict_of};
use crate::words::name_text;
use initializer_analysis::verdict::Verdict;
use loading::family::Family;
use report::reason_text;
use std::alloc::{AllocError, Global};

/// The reason of a class that is not accepted, after a blank.
fn own_text(alloc: Global, family: &Family, verdict: Option<Verdict>) -> Result<String, AllocError>
    ensures { IfOk result (λ text. string_bytes text ≡ own_text family.now verdict) }
{
    let Some(Verdict::Refused(reason)) = verdict else {
        return Ok(String::new(alloc));
    };
    let reason = reason_text(alloc, family, reason)?;
    format!(in alloc; " {reason}")
}

/// The classes of a chain, each as one that is depended on.
fn dependences(alloc: Global, family: &Family, chain: &[u32]) -> Result<String, AllocError>
    ensures { IfOk result (λ text. string_bytes text ≡ dependences family.now chain.now) }
{
    let mut text = String::new(alloc);
    for class in chain {
        let name = name_text(alloc, family, *class as usize)?;
        write!(text, " DependsOn {name}")?;
    }
    Ok(text)
}

/// The verdict on the last of some classes.
fn last_verdict(verdicts: &[Verdict], chain: &[u32]) -> Option<Verdict>
    ensures { result ≡ last_verdict verdicts.now chain.now }
{
    match chain.last() {
        Some(last) => verdict_of(verdicts, *last),
        None => None,
    }
}

/// The line of a chain from a class on, each of which uses the next, with the reason of the last.
fn chain_line(
    alloc: Global,
    family: &Family,
    verdicts: &[Verdict],
    class: u32,
    first: u32,
) -> Result<String, AllocError>
    ensures { IfOk result (λ text. IsChainLine family.now verdicts.now class first (string_bytes text)) }
{
    let name = name_text(alloc, family, class as usize)?;
    let chain = chain_of(alloc, verdicts, first)?;
    let dependences = dependences(alloc, family, chain.as_slice())?;
    let own = own_text(alloc, family, last_verdict(verdicts, chain.as_slice()))?;
    let text = format!(in alloc; "{name}{dependences}{own}\n")?;
    Ok(text)
}

/// The line of the chain from the first class that a class uses and that is not accepted, if there is one.
pub(crate) fn chain_text(
    alloc: Global,
    family: &Family,
    verdicts: &[Verdict],
    class: u32,
    first: Option<u32>,
) -> Result<String, AllocError>
    ensures { IfOk result (λ text. IsChainText family.now verdicts.now class first (string_bytes text)) }
{
    match first {
        Some(first) => chain_line(alloc, family, verdicts, class, first),
        None => Ok(String::new(alloc)),
    }
}

/// The verdict on a class, if it is given.
fn verdict_at(verdicts: &[Verdict], class: usize) -> Option<Verdict>
    ensures { result ≡ slice_get verdicts.now class }
{
    verdicts.get(class).copied()
}

/// The end of a chain, where it is another class than the first.
fn end_text(alloc: Global, family: &Family, first: usize, last: usize) -> Result<String, AllocError>
    ensures { IfOk result (λ text. string_bytes text ≡ end_text family.now first last) }
{
    if last == first {
        return Ok(String::new(alloc));
    }
    let last = name_text(alloc, family, last)?;
    format!(in alloc; " .. {last}")
}

/// The line of the first class that a class uses and that is not accepted, and of one at which a chain from there ends.
fn ends_line(
    alloc: Global,
    family: &Family,
    verdicts: &[Verdict],
    class: u32,
    first: usize,
    last: usize,
) -> Result<String, AllocError>
    ensures { IfOk result
        (λ text. string_bytes text ≡ ends_line family.now verdicts.now class first last) }
{
    let name = name_text(alloc, family, class as usize)?;
    let next = name_text(alloc, family, first)?;
    let end = end_text(alloc, family, first, last)?;
    let own = own_text(alloc, family, verdict_at(verdicts, last))?;
    format!(in alloc; "{name} DependsOn {next}{end}{own}\n")
}

/// That line, with the end that the roots have of the chain.
fn ends_from(
    alloc: Global,
    family: &Family,
    verdicts: &[Verdict],
    roots: &[usize],
    class: u32,
    first: usize,
) -> Result<String, AllocError>
    requires { AreRoots verdicts.now roots.now }
    ensures { IfOk result (λ text. IsEndsLine family.now verdicts.now class first (string_bytes text)) }
{
    let last = root_of(roots, first);
    let text = ends_line(alloc, family, verdicts, class, first, last)?;
    Ok(text)
}

/// That line, if a class uses one that is not accepted.
pub(crate) fn ends_text(
    alloc: Global,
    family: &Family,
    verdicts: &[Verdict],
    roots: &[usize],
    class: u32,
    first: Option<u32>,
) -> Result<String, AllocError>
    requires { AreRoots verdicts.now roots.now }
    ensures { IfOk result (λ text. IsEndsText family.now verdicts.now class first (string_bytes text)) }
{
    match first {
        Some(first) => ends_from(alloc, family, verdicts, roots, class, first as usize),
        None => Ok(String::new(alloc)),
    }
}
