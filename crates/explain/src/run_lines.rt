//! Lines of what a run of an initializer shows.

ghost use Rattle.std.specs.Prelude.{◌≡◌, IfOk, string_bytes};
ghost use Rattle.region_shape.specs.Regions.{environment_of};
ghost use Rattle.explain.specs.Costs.{cost_text};
ghost use Rattle.explain.specs.Texts.{is_of_run, made_count, IsCostLine, IsRunText, IsStopText};

use crate::costs::Cost;
use crate::reruns::run_again;
use crate::sizes::region_size;
use crate::stops::stop_within;
use crate::words::{line, place_line};
use initializer_analysis::verdict::{Reason, Verdict};
use loading::family::Family;
use object_graph::Image;
use std::alloc::{AllocError, Global};

/// How many objects the initializer of a class made.
pub(crate) fn made_count(image: &Image, class: u32) -> u64
    ensures { result ≡ made_count (environment_of image.now.regions class) }
{
    match image.region(class) {
        Some(region) => region.objects.count(),
        None => 0,
    }
}

/// The line of what an accepted class costs: the cost of its initializer, how many objects it made and how many of
/// these are kept, and how many bytes they take in the image with the static fields.
///
/// # Errors
/// Where memory runs out.
pub fn cost_text(alloc: Global, family: &Family, found: Cost) -> Result<String, AllocError>
    ensures { IfOk result (λ text. string_bytes text ≡ cost_text family.now found) }
{
    let Cost {
        class,
        cost,
        made,
        kept,
        bytes,
    } = found;
    let words = format!(in alloc; "cost {cost} made {made} kept {kept} bytes {bytes}")?;
    line(alloc, family, class, words.as_str())
}

/// The cost of an accepted class's initializer, how many objects it made and how many of these are kept, and how many
/// bytes they take in the image with the static fields.
fn cost_line(alloc: Global, image: &Image, budget: u64, class: u32) -> Result<String, AllocError>
    ensures { IfOk result (λ text. IsCostLine image.now budget class (string_bytes text)) }
{
    let made = made_count(image, class);
    let kept = image.object_count(class);
    let bytes = region_size(alloc, image, class)?;
    let again = run_again(alloc, image, class, budget)?;
    let cost = again.budget;
    let words = format!(in alloc; "cost {cost} made {made} kept {kept} bytes {bytes}")?;
    let text = line(alloc, image.program().family(), class, words.as_str())?;
    Ok(text)
}

/// Whether a reason is found by running an initializer.
fn is_of_run(reason: Reason) -> bool
    ensures { result ≡ is_of_run reason }
{
    match reason {
        Reason::Raised | Reason::ForeignObject | Reason::Budget | Reason::Faulted => true,
        Reason::Forced | Reason::Marked(_) | Reason::Cycle | Reason::DependsOn(_) => false,
    }
}

/// Where the initializer of a class was stopped, if it was run and stopped for this reason.
fn stop_line(
    alloc: Global,
    image: &Image,
    budget: u64,
    class: u32,
    reason: Reason,
) -> Result<String, AllocError>
    ensures { IfOk result (λ text. IsStopText image.now.program.family class reason (string_bytes text)) }
{
    if !is_of_run(reason) {
        return Ok(String::new(alloc));
    }
    let again = run_again(alloc, image, class, budget)?;
    // The instruction itself costs 1, where it is not for its cost that it is refused.
    let before = match reason {
        Reason::Budget => again.budget,
        _ => again.budget.saturating_sub(1),
    };
    let Some(at) = stop_within(alloc, image, class, before)? else {
        return Ok(String::new(alloc));
    };
    let text = place_line(alloc, image.program().family(), class, reason, "at", at)?;
    Ok(text)
}

/// What a run of the initializer of a class shows, where it was run.
pub(crate) fn run_text(
    alloc: Global,
    image: &Image,
    budget: u64,
    class: u32,
    verdict: Option<Verdict>,
) -> Result<String, AllocError>
    ensures { IfOk result (λ text. IsRunText image.now budget class verdict (string_bytes text)) }
{
    match verdict {
        Some(Verdict::Wave(_)) => cost_line(alloc, image, budget, class),
        Some(Verdict::Refused(reason)) => stop_line(alloc, image, budget, class, reason),
        None => Ok(String::new(alloc)),
    }
}
