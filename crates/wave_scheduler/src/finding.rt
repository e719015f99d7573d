//! The outcome of one class in its wave.

ghost use Rattle.std.specs.Prelude.{◌≡◌, ◌<◌, ◌⊎◌, length, slice_set, option_map, None, IfOk, OnOk};
ghost use Rattle.machine.specs.Linked.{program_of};
ghost use Rattle.region_shape.specs.Regions.{region_of, region_in, environment_of};
ghost use Rattle.evaluator.specs.Outcomes.{IsOutcome, IsUnbarred, reason_of as why_of};
ghost use Rattle.wave_scheduler.specs.Settled.{Stopped};
ghost use Rattle.wave_scheduler.specs.Outcomes.{outcome_of, settled_of};
ghost use Rattle.wave_scheduler.specs.steps.Finding.{CanRun, IsFoundOf, IsFoundIn, SetsClass, FindsClass};

use crate::gate::{Gate, Worker};
use crate::lent::Lent;
use crate::outcome::Settled;
use crate::results::Done;
use crate::wave::Wave;
use evaluator::outcome::{Outcome, Refusal};
use evaluator::settling::settle;
use initializer_analysis::verdict::{Reason, Verdict};
use region_shape::regions::{Region, Regions};
use std::alloc::{AllocError, Global};

/// The verdict on a class, with its region.
#[derive(Drop)]
struct Finding {
    verdict: Verdict,
    /// Its region, if it is accepted.
    region: Option<Region>,
}

/// The reason that a refusal of the evaluator is.
fn reason_of(refusal: Refusal) -> Reason
    ensures { outcome_of (Verdict.Refused result) ≡ Stopped (why_of refusal) }
{
    match refusal {
        Refusal::Raised => Reason::Raised,
        Refusal::ForeignObject => Reason::ForeignObject,
        Refusal::OverBudget => Reason::Budget,
        Refusal::Faulted => Reason::Faulted,
    }
}

/// The verdict on a class of this outcome in a wave, with its region.
fn found_of(outcome: Outcome, wave: usize) -> Finding
    ensures { IsFoundOf wave outcome (outcome_of result.verdict) (option_map region_of result.region) }
{
    match outcome {
        Outcome::Settled(region) => Finding {
            verdict: Verdict::Wave(wave),
            region: Some(region),
        },
        Outcome::Refused(refusal) => Finding {
            verdict: Verdict::Refused(reason_of(refusal)),
            region: None,
        },
    }
}

/// The outcome of a class, or else that of its initializer if it is run now.
fn outcome_now<W: Lent, G: Gate>(
    alloc: Global,
    wave: Wave<'_>,
    regions: &Regions,
    class: u32,
    given: Option<Done<W>>,
    caller: &Worker<'_, G>,
) -> Result<Outcome, AllocError>
    requires lent { wave.terms.program.now ≡ W.program }
    requires budget { wave.terms.budget ≡ W.budget }
    requires run { IsUnbarred (program_of wave.terms.program.now) (environment_of regions.now) class wave.terms.budget }
    ensures { IfOk result (λ outcome.
        IsOutcome (program_of wave.entry.terms.program.now) (environment_of W.regions) class
        wave.entry.terms.budget outcome
        ⊎ IsOutcome (program_of wave.entry.terms.program.now) (environment_of regions.now) class
        wave.entry.terms.budget outcome) }
{
    if let Some(done) = given {
        if let Some(outcome) = done.outcome_of(class) {
            return Ok(outcome);
        }
    }
    let outcome = settle(alloc, wave.terms.program, regions, class, wave.terms.budget)?;
    caller.done(class);
    Ok(outcome)
}

/// What becomes of a class in this wave, where it depends on a refused class, or nothing taints it.
fn find<W: Lent, G: Gate>(
    alloc: Global,
    wave: Wave<'_>,
    regions: &Regions,
    class: u32,
    taint: Option<u32>,
    given: Option<Done<W>>,
    caller: &Worker<'_, G>,
) -> Result<Finding, AllocError>
    requires lent { wave.terms.program.now ≡ W.program }
    requires budget { wave.terms.budget ≡ W.budget }
    requires run { CanRun (program_of wave.terms.program.now) (environment_of regions.now) wave.terms.budget class
        taint }
    ensures { IfOk result (λ found. IsFoundIn (program_of wave.entry.terms.program.now) (environment_of W.regions)
        (environment_of regions.now) wave.entry.terms.budget wave.entry.number class taint (outcome_of found.verdict)
        (option_map region_of found.region)) }
{
    match taint {
        Some(refused) => Ok(Finding {
            verdict: Verdict::Refused(Reason::DependsOn(refused)),
            region: None,
        }),
        None => match outcome_now::<W, G>(alloc, wave, regions, class, given, caller) {
            Ok(outcome) => Ok(found_of(outcome, wave.number)),
            Err(error) => Err(error),
        },
    }
}

/// Puts a region at the place of a class, where there is none yet.
fn put_region(regions: &mut Regions, class: u32, region: Option<Region>)
    requires class { class < length regions.old }
    requires none { region_in regions.old class ≡ None }
    ensures { regions.new ≡ slice_set regions.old class region }
{
    match region {
        Some(region) => regions.set(class, region),
        None => {}
    }
}

/// Puts what was found of a class in its place.
fn put(settled: &mut Settled, class: u32, found: Finding)
    requires class { class < length settled.old.verdicts }
    requires place { class < length settled.old.regions }
    requires none { region_in settled.old.regions class ≡ None }
    ensures { SetsClass class (outcome_of found.verdict) (option_map region_of found.region) (settled_of settled.old)
        (settled_of settled.new) }
{
    settled.verdicts.put(class, found.verdict);
    put_region(&mut settled.regions, class, found.region);
}

/// Finds what becomes of a class in this wave, where it depends on a refused class, or nothing taints it.
pub(crate) fn find_class<W: Lent, G: Gate>(
    alloc: Global,
    wave: Wave<'_>,
    class: u32,
    taint: Option<u32>,
    given: Option<Done<W>>,
    caller: &Worker<'_, G>,
    settled: &mut Settled,
) -> Result<(), AllocError>
    requires lent { wave.terms.program.now ≡ W.program }
    requires budget { wave.terms.budget ≡ W.budget }
    requires class { class < length settled.old.verdicts }
    requires place { class < length settled.old.regions }
    requires none { region_in settled.old.regions class ≡ None }
    requires run { CanRun (program_of wave.terms.program.now) (environment_of settled.old.regions) wave.terms.budget
        class taint }
    ensures { OnOk result (FindsClass (program_of wave.entry.terms.program.now) (environment_of W.regions)
        (environment_of settled.old.regions) wave.entry.terms.budget wave.entry.number class taint
        (settled_of settled.old) (settled_of settled.new)) }
{
    match find(alloc, wave, &settled.regions, class, taint, given, caller) {
        Ok(found) => {
            put(settled, class, found);
            Ok(())
        }
        Err(error) => Err(error),
    }
}
