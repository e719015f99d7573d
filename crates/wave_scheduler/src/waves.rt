//! Waves of classes, one after another.

ghost use Rattle.std.specs.Prelude.{◌≡◌, ◌+◌, ◌<◌, length, OnOk, None};
ghost use Rattle.graph.specs.Rows.{rows_of};
ghost use Rattle.semantics.specs.Quiet as quiet;
ghost use Rattle.semantics.specs.Settling.{StoppedBy};
ghost use Rattle.machine.specs.Linked.{program_of};
ghost use Rattle.region_shape.specs.Regions.{region_in, environment_of};
ghost use Rattle.wave_scheduler.specs.Outcomes.{settled_of};
ghost use Rattle.wave_scheduler.specs.steps.Waves.{AreTriedBelow};
ghost use Rattle.wave_scheduler.specs.steps.Tainting.{vertex_in, IsSeen, IsSearched, TriesClass};
ghost use Rattle.wave_scheduler.specs.steps.Plans.{CanTry, CanTryAll, IsNthWave, StandsBefore};

use crate::crew::results_of;
use crate::finding::find_class;
use crate::gate::{Gate, Open, Worker};
use crate::lent::Lent;
use crate::outcome::Settled;
use crate::results::{Done, Results};
use crate::tainted::{Tainted, taint};
use crate::wave::{Terms, Wave};
use std::alloc::{AllocError, Global};
use std::marker::Brand;
use std::sync::Wait;
use std::thread::Threads;

/// Tries a class of a wave, where this came of it, or maybe nothing.
fn try_class<W: Lent, G: Gate>(
    alloc: Global,
    wave: Wave<'_>,
    class: u32,
    given: Option<Done<W>>,
    caller: &Worker<'_, G>,
    tainted: &mut Tainted,
    settled: &mut Settled,
) -> Result<(), AllocError>
    requires lent { wave.terms.program.now ≡ W.program }
    requires budget { wave.terms.budget ≡ W.budget }
    requires searched { IsSearched tainted.old }
    requires vertex { vertex_in tainted.old class < length tainted.old.dependents }
    requires class { class < length settled.old.verdicts }
    requires place { class < length settled.old.regions }
    requires none { region_in settled.old.regions class ≡ None }
    requires run { (¬ IsSeen tainted.old (vertex_in tainted.old class))
        → StoppedBy (program_of wave.terms.program.now) (environment_of settled.old.regions) class wave.terms.budget
        quiet.Barred → ⊥ }
    ensures { OnOk result (TriesClass wave.entry.terms.program.now (environment_of W.regions)
        (environment_of settled.old.regions) wave.entry.terms.budget wave.entry.number class tainted.old
        (settled_of settled.old) tainted.new (settled_of settled.new)) }
{
    let taint = taint(tainted, class);
    find_class(alloc, wave, class, taint, given, caller, settled)?;
    tainted.add_refused(settled, class)?;
    Ok(())
}

/// Tries the classes of a wave, with what came of some of them.
fn collect<W: Lent, G: Gate>(
    alloc: Global,
    wave: Wave<'_>,
    results: Results<W>,
    caller: &Worker<'_, G>,
    tainted: &mut Tainted,
    settled: &mut Settled,
) -> Result<(), AllocError>
    requires lent { wave.terms.program.now ≡ W.program }
    requires regions { settled.old.regions ≡ W.regions }
    requires budget { wave.terms.budget ≡ W.budget }
    requires wave { CanTry wave (settled_of settled.old) tainted.old }
    ensures { OnOk result (StandsBefore wave.entry.terms (wave.entry.number + 1) (settled_of settled.new) tainted.new) }
{
    let _given = wave.terms.program.family().classes();
    let _tables = wave.terms.program.classes();
    let mut results = results;
    for class in wave.classes {
        let given = results.take_next();
        try_class(alloc, wave, *class, given, caller, tainted, settled)?;
    }
    Ok(())
}

/// Tries the classes of a wave, none of which is settled yet.
fn run_wave_here<W: Lent>(
    alloc: Global,
    wave: Wave<'_>,
    tainted: &mut Tainted,
    settled: &mut Settled,
) -> Result<(), AllocError>
    requires lent { wave.terms.program.now ≡ W.program }
    requires regions { settled.old.regions ≡ W.regions }
    requires budget { wave.terms.budget ≡ W.budget }
    requires wave { CanTry wave (settled_of settled.old) tainted.old }
    ensures { OnOk result (StandsBefore wave.entry.terms (wave.entry.number + 1) (settled_of settled.new) tainted.new) }
{
    let results = Results::none(alloc);
    let caller = Worker {
        gate: &Open,
        who: 0,
    };
    collect::<W, Open>(alloc, wave, results, &caller, tainted, settled)
}

/// Tries the classes of a wave on this thread.
fn try_wave_here(
    alloc: Global,
    wave: Wave<'_>,
    tainted: &mut Tainted,
    settled: &mut Settled,
) -> Result<(), AllocError>
    requires { CanTry wave (settled_of settled.old) tainted.old }
    ensures { OnOk result (StandsBefore wave.entry.terms (wave.entry.number + 1) (settled_of settled.new) tainted.new) }
{
    run_wave_here::<Brand>(alloc, wave, tainted, settled)
}

/// Tries the classes of a wave by workers, which are lent the regions that there are before.
fn run_wave<W: Lent + Send + Sync, G: Gate, R: Threads + Wait + Sync>(
    rt: &R,
    alloc: Global,
    wave: Wave<'_>,
    caller: &Worker<'_, G>,
    tainted: &mut Tainted,
    settled: &mut Settled,
) -> Result<(), AllocError>
    requires lent { wave.terms.program.now ≡ W.program }
    requires regions { settled.old.regions ≡ W.regions }
    requires budget { wave.terms.budget ≡ W.budget }
    requires wave { CanTry wave (settled_of settled.old) tainted.old }
    ensures { OnOk result (StandsBefore wave.entry.terms (wave.entry.number + 1) (settled_of settled.new) tainted.new) }
{
    let _given = wave.terms.program.family().classes();
    let _tables = wave.terms.program.classes();
    let results = results_of::<W, G, R>(rt, alloc, wave, &settled.regions, tainted, caller)?;
    collect::<W, G>(alloc, wave, results, caller, tainted, settled)
}

/// Tries the classes of a wave by workers.
fn try_wave<G: Gate, R: Threads + Wait + Sync>(
    rt: &R,
    alloc: Global,
    wave: Wave<'_>,
    caller: &Worker<'_, G>,
    tainted: &mut Tainted,
    settled: &mut Settled,
) -> Result<(), AllocError>
    requires wave { CanTry wave (settled_of settled.old) tainted.old }
    ensures { OnOk result (StandsBefore wave.entry.terms (wave.entry.number + 1) (settled_of settled.new) tainted.new) }
{
    run_wave::<Brand, G, R>(rt, alloc, wave, caller, tainted, settled)
}

/// The wave of a number, with its classes.
fn nth_wave<'a>(terms: Terms<'a>, waves: &'a [Vec<u32>], number: usize) -> Wave<'a>
    requires { number < length waves.now }
    ensures { IsNthWave terms.entry (rows_of waves.now) number result }
{
    Wave {
        terms,
        number,
        classes: waves[number].as_slice(),
    }
}

/// Tries the classes of all waves on this thread.
pub(crate) fn try_all_here(
    alloc: Global,
    terms: Terms<'_>,
    waves: &[Vec<u32>],
    tainted: &mut Tainted,
    settled: &mut Settled,
) -> Result<(), AllocError>
    requires { CanTryAll terms (rows_of waves.now) (settled_of settled.old) tainted.old }
    ensures { OnOk result (AreTriedBelow terms.entry.program.now terms.entry.budget terms.entry.verdicts.now
        (length waves.now) (settled_of settled.new)) }
{
    for number in 0..waves.len() {
        let wave = nth_wave(terms, waves, number);
        try_wave_here(alloc, wave, tainted, settled)?;
    }
    Ok(())
}

/// Tries the classes of all waves by workers.
pub(crate) fn try_all<G: Gate, R: Threads + Wait + Sync>(
    rt: &R,
    alloc: Global,
    terms: Terms<'_>,
    waves: &[Vec<u32>],
    caller: &Worker<'_, G>,
    tainted: &mut Tainted,
    settled: &mut Settled,
) -> Result<(), AllocError>
    requires waves { CanTryAll terms (rows_of waves.now) (settled_of settled.old) tainted.old }
    ensures { OnOk result (AreTriedBelow terms.entry.program.now terms.entry.budget terms.entry.verdicts.now
        (length waves.now) (settled_of settled.new)) }
{
    for number in 0..waves.len() {
        let wave = nth_wave(terms, waves, number);
        try_wave(rt, alloc, wave, caller, tainted, settled)?;
    }
    Ok(())
}
