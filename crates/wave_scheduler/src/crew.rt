//! The workers of a wave.

ghost use Rattle.std.specs.Prelude.{◌≡◌, ◌≤◌};
ghost use Rattle.machine.specs.Linked.{program_of};
ghost use Rattle.region_shape.specs.Regions.{environment_of};
ghost use Rattle.evaluator.specs.Outcomes.{IsUnbarred};
ghost use Rattle.wave_scheduler.specs.steps.Crews.{CanRunWave};

use crate::gate::{Gate, Worker};
use crate::lent::Lent;
use crate::results::{Done, Results};
use crate::tainted::{Tainted, taint};
use crate::wave::Wave;
use region_shape::regions::Regions;
use std::alloc::{AllocError, Global};
use std::sync::{Mutex, Wait};
use std::thread;
use std::thread::Threads;

/// The results of the classes of a wave, by as many workers as the number of their caller: of those that depend on no
/// class that is not accepted, and maybe not of all. One worker alone works on this thread.
///
/// # Errors
/// `AllocError` where memory is refused.
pub(crate) fn results_of<W: Lent + Send + Sync, G: Gate, R: Threads + Wait + Sync>(
    rt: &R,
    alloc: Global,
    wave: Wave<'_>,
    regions: &Regions,
    tainted: &Tainted,
    caller: &Worker<'_, G>,
) -> Result<Results<W>, AllocError>
    requires wave { CanRunWave W.program W.regions W.budget wave regions.now tainted.now }
{
    let mut results = Results::of_places(alloc, wave.classes.len())?;
    let crew = crew_of(caller.who, wave.classes.len());
    if crew < 2 {
        let claimed = Mutex::new(0usize);
        let worker = Worker {
            gate: caller.gate,
            who: 0,
        };
        results.put_all(work(rt, alloc, wave, regions, tainted, &claimed, &worker));
        return Ok(results);
    }
    for dones in gather::<W, G, R>(rt, alloc, wave, regions, tainted, crew, caller.gate) {
        results.put_all(dones);
    }
    Ok(results)
}

/// How many of the workers a wave of `count` classes gets: one for each class at most.
fn crew_of(workers: u32, count: usize) -> u32
    ensures { result ≤ workers }
{
    if count < workers as usize {
        count as u32
    } else {
        workers
    }
}

/// Has a crew of workers settle the classes of a wave, joins them all, and answers what they moved back.
fn gather<W: Lent + Send + Sync, G: Gate, R: Threads + Wait + Sync>(
    rt: &R,
    alloc: Global,
    wave: Wave<'_>,
    regions: &Regions,
    tainted: &Tainted,
    crew: u32,
    gate: &G,
) -> Vec<Vec<Done<W>>>
    requires wave { CanRunWave W.program W.regions W.budget wave regions.now tainted.now }
{
    let claimed = Mutex::new(0usize);
    let claimed = &claimed;
    thread::scope(
        thread::scope_env(),
        rt,
        |scope| -> Vec<Vec<Done<W>>>
            requires { CanRunWave W.program W.regions W.budget wave regions.now tainted.now }
        {
            let mut handles = Vec::new(alloc);
            for who in 0..crew {
                let one = scope.spawn(
                    move || -> Vec<Done<W>>
                        requires { CanRunWave W.program W.regions W.budget wave regions.now tainted.now }
                    {
                        let worker = Worker { gate, who };
                        work::<W, G, R>(rt, alloc, wave, regions, tainted, claimed, &worker)
                    },
                );
                if let Ok(handle) = one {
                    let _ = handles.push(handle);
                }
            }
            let mut all = Vec::new(alloc);
            for handle in handles {
                let _ = all.push(handle.join(rt));
            }
            all
        },
    )
}

/// The next place of a wave that nobody has claimed.
fn claim<R: Wait>(rt: &R, claimed: &Mutex<usize>, count: usize) -> Option<usize> {
    let mut next = claimed.lock(rt);
    let place = *next;
    if place >= count {
        return None;
    }
    *next = place + 1;
    Some(place)
}

/// Claims classes of a wave and settles them, until none is left. Where memory is refused it stops early.
fn work<W: Lent, G: Gate, R: Wait>(
    rt: &R,
    alloc: Global,
    wave: Wave<'_>,
    regions: &Regions,
    tainted: &Tainted,
    claimed: &Mutex<usize>,
    worker: &Worker<'_, G>,
) -> Vec<Done<W>>
    requires wave { CanRunWave W.program W.regions W.budget wave regions.now tainted.now }
{
    let classes = wave.classes;
    let mut all = Vec::new(alloc);
    for _ in 0..classes.len() {
        let Some(place) = claim(rt, claimed, classes.len()) else {
            return all;
        };
        if place >= classes.len() {
            return all;
        }
        let class = classes[place];
        if taint(tainted, class).is_some() {
            continue;
        }
        let Ok(done) = run_class::<W, G>(alloc, wave, regions, place, class, worker) else {
            return all;
        };
        if all.push(done).is_err() {
            return all;
        }
    }
    all
}

/// Settles the class at a place, by the gate.
fn run_class<W: Lent, G: Gate>(
    alloc: Global,
    wave: Wave<'_>,
    regions: &Regions,
    place: usize,
    class: u32,
    worker: &Worker<'_, G>,
) -> Result<Done<W>, AllocError>
    requires program { wave.terms.program.now ≡ W.program }
    requires regions { regions.now ≡ W.regions }
    requires budget { wave.terms.budget ≡ W.budget }
    requires run { IsUnbarred (program_of wave.terms.program.now) (environment_of regions.now) class wave.terms.budget }
{
    let (program, budget) = (wave.terms.program, wave.terms.budget);
    worker.ask(class);
    match worker.gate.settle(alloc, program, regions, class, budget) {
        Ok(outcome) => {
            worker.done(class);
            Ok(Done::new(place, class, outcome))
        }
        Err(error) => Err(error),
    }
}
