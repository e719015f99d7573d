//! The outcomes of all classes, in the end.
//!
//! Each function makes one part and hands it to the next at once: one that held several parts where a call can fail
//! would be dear to prove.

ghost use Rattle.std.specs.Prelude.{◌≡◌, ◌↔◌, Bool, List, length, IfErr, IfOk, IsTrue};
ghost use Rattle.initializer_analysis.specs.Verdicts.{AreVerdicts};
ghost use Rattle.wave_scheduler.specs.steps.Judged.{FollowVerdicts};
ghost use Rattle.wave_scheduler.specs.Settled.{AreSettled};
ghost use Rattle.wave_scheduler.specs.Outcomes.{settled_of, AreJudged, CanWork, IsWaveFault};
ghost use Rattle.wave_scheduler.specs.declared.outcome.WaveFault.TheVariants.{Memory};

use crate::gate::{Gate, Worker};
use crate::outcome::{Settled, WaveFault};
use crate::plan::plan_of;
use crate::wave::Terms;
use crate::waves::{try_all, try_all_here};
use initializer_analysis::verdict::Verdicts;
use program::Program;
use std::alloc::{AllocError, Global};
use std::sync::Wait;
use std::thread::Threads;

/// Settles all classes on this thread.
fn settle_judged_here(alloc: Global, terms: Terms<'_>) -> Result<Settled, AllocError>
    requires { AreJudged terms.program.now terms.verdicts.now }
    ensures { IfOk result (λ settled. FollowVerdicts terms.entry.program.now terms.entry.budget terms.entry.verdicts.now
        (settled_of settled)) }
{
    let mut plan = plan_of(alloc, terms.program, terms.verdicts)?;
    try_all_here(
        alloc,
        terms,
        plan.waves.as_slice(),
        &mut plan.tainted,
        &mut plan.settled,
    )?;
    plan.into_settled(alloc, terms.program)
}

/// Settles all classes by workers.
fn settle_judged<G: Gate, R: Threads + Wait + Sync>(
    rt: &R,
    alloc: Global,
    terms: Terms<'_>,
    caller: &Worker<'_, G>,
) -> Result<Settled, AllocError>
    requires { AreJudged terms.program.now terms.verdicts.now }
    ensures { IfOk result (λ settled. FollowVerdicts terms.entry.program.now terms.entry.budget terms.entry.verdicts.now
        (settled_of settled)) }
{
    let mut plan = plan_of(alloc, terms.program, terms.verdicts)?;
    try_all(
        rt,
        alloc,
        terms,
        plan.waves.as_slice(),
        caller,
        &mut plan.tainted,
        &mut plan.settled,
    )?;
    plan.into_settled(alloc, terms.program)
}

/// Settles all classes of a program on this thread, wave by wave, from their verdicts: runs the initializer of each
/// class that has a wave and uses no refused class, within a budget for each.
///
/// # Errors
/// `Memory` where memory is refused. There are no workers here, so never `Workers`.
pub fn settle_all_here(
    alloc: Global,
    program: &Program,
    verdicts: Verdicts,
    budget: u64,
) -> Result<Settled, WaveFault>
    requires { AreJudged program.now verdicts }
    ensures settled { IfOk result (λ settled. (forced : List Bool) → AreVerdicts program.now forced verdicts
        → AreSettled program.now forced budget (settled_of settled)) }
    // There is a verdict on each class.
    ensures count { IfOk result (λ settled. length settled.verdicts ≡ length program.now.classes) }
    ensures fault { IfErr result (λ fault. fault ≡ Memory) }
{
    let terms = Terms {
        program,
        verdicts: verdicts.as_slice(),
        budget,
    };
    match settle_judged_here(alloc, terms) {
        Ok(settled) => Ok(settled),
        Err(AllocError) => Err(WaveFault::Memory),
    }
}

/// The most workers.
const MOST_WORKERS: u32 = 64;

/// Whether there may be this many workers.
pub fn can_work(workers: u32) -> bool
    ensures { IsTrue result ↔ CanWork workers }
{
    1 <= workers && workers <= MOST_WORKERS
}

/// Settles all classes of a program on 1 to 64 workers, wave by wave, as `settle_all_here` does. Each worker asks the
/// gate before a class and settles it by the gate. What no worker settled is settled by the caller. A wave has as many
/// threads as workers, or as classes if these are fewer; a single worker works on the caller's thread.
///
/// # Errors
/// `Workers` where there are none or more than 64. `Memory` where memory is refused.
pub fn settle_all<G: Gate, R: Threads + Wait + Sync>(
    rt: &R,
    alloc: Global,
    program: &Program,
    verdicts: Verdicts,
    budget: u64,
    workers: u32,
    gate: &G,
) -> Result<Settled, WaveFault>
    requires { AreJudged program.now verdicts }
    ensures settled { IfOk result (λ settled. (forced : List Bool) → AreVerdicts program.now forced verdicts
        → AreSettled program.now forced budget (settled_of settled)) }
    // There is a verdict on each class.
    ensures count { IfOk result (λ settled. length settled.verdicts ≡ length program.now.classes) }
    ensures workers { IfOk result (λ settled. CanWork workers) }
    ensures fault { IfErr result (λ fault. IsWaveFault workers fault) }
{
    if !can_work(workers) {
        return Err(WaveFault::Workers);
    }
    let caller = Worker { gate, who: workers };
    let terms = Terms {
        program,
        verdicts: verdicts.as_slice(),
        budget,
    };
    match settle_judged(rt, alloc, terms, &caller) {
        Ok(settled) => Ok(settled),
        Err(AllocError) => Err(WaveFault::Memory),
    }
}
