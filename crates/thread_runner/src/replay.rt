//! Journals, replayed.

ghost use Rattle.std.specs.Prelude.{◌≡◌, ◌<◌, ◌⊎◌, true, false, IfOk, IfErr, OnOk, length, replicate};
ghost use Rattle.method_lowering.specs.steps.StepTables.{KeepsSteps};
ghost use Rattle.semantics.specs.Worlds.{Run};
ghost use Rattle.machine.specs.Linked.{program_of};
ghost use Rattle.init_engine.specs.Schedules.{schedule_of, AreRuns};
ghost use Rattle.init_engine.specs.Turns.{world_of};
ghost use Rattle.thread_runner.specs.Replays.{IsReplay, NoRun, ReplayFails};
ghost use Rattle.thread_runner.specs.declared.replay.ReplayFault.TheVariants.{Memory};

use init_engine::{Seen, World};
use journal::Journal;
use method_lowering::step_table::StepTable;
use program::Program;
use std::alloc::{AllocError, Global};

/// Why a journal is not replayed. Lines count from 1.
#[derive(Debug, Drop)]
pub enum ReplayFault {
    Memory,
    /// The line's thread is not there, or has no step at its place.
    Turn(usize),
}

impl From<AllocError> for ReplayFault {
    ghost from_gives = { λ _ e. e ≡ Memory };

    fn from(_error: AllocError) -> ReplayFault {
        ReplayFault::Memory
    }
}

/// Takes `steps` steps of a thread. It answers whether it had them all.
///
/// # Errors
/// `AllocError` where memory is refused; the thread may have lost its frames then.
pub fn take_steps(
    alloc: Global,
    program: &Program,
    world: &mut World,
    table: &mut StepTable,
    thread: u32,
    steps: u64,
) -> Result<bool, AllocError>
    requires thread { thread < length world.old.threads }
    requires keeps { KeepsSteps program.now table.old }
    ensures keeps { OnOk result (KeepsSteps program.now table.new) }
    ensures yes { IfOk result (λ went. went ≡ true → Run (program_of program.now) (world_of world.old)
        (replicate steps thread) (world_of world.new)) }
    ensures no { IfOk result (λ went. went ≡ false → NoRun (program_of program.now) (world_of world.old)
        (replicate steps thread)) }
    ensures threads { length world.new.threads ≡ length world.old.threads }
{
    let mut left = steps;
    'slices: while left > 0 {
        match world.run_alone(alloc, program, table, thread, left, u64::MAX) {
            Ok(made) => {
                if made == 0 {
                    return Ok(false);
                }
                left -= made;
            }
            Err(error) => return Err(error),
        }
    }
    Ok(true)
}

/// Takes the steps of a run, where its thread is there. It answers whether it had them all.
fn take_run(
    alloc: Global,
    program: &Program,
    world: &mut World,
    table: &mut StepTable,
    run: (u32, u64),
) -> Result<bool, AllocError>
    requires some { 0 < run.1 }
    requires keeps { KeepsSteps program.now table.old }
    ensures keeps { OnOk result (KeepsSteps program.now table.new) }
    ensures yes { IfOk result (λ went. went ≡ true → Run (program_of program.now) (world_of world.old)
        (replicate run.1 run.0) (world_of world.new)) }
    ensures no { IfOk result (λ went. went ≡ false → NoRun (program_of program.now) (world_of world.old)
        (replicate run.1 run.0)) }
{
    if run.0 >= world.thread_count() {
        return Ok(false);
    }
    take_steps(alloc, program, world, table, run.0, run.1)
}

/// Takes the steps of runs.
fn take_runs(
    alloc: Global,
    program: &Program,
    world: &mut World,
    runs: &[(u32, u64)],
) -> Result<(), ReplayFault>
    requires { AreRuns runs.now }
    ensures ok { OnOk result (Run (program_of program.now) (world_of world.old) (schedule_of runs.now)
        (world_of world.new)) }
    ensures err { IfErr result
        (λ fault. (fault ≡ Memory) ⊎ ReplayFails (program_of program.now) (world_of world.old) runs.now fault) }
{
    let mut table = StepTable::new(alloc);
    for place in 0..runs.len() {
        match take_run(alloc, program, world, &mut table, runs[place]) {
            Ok(true) => {}
            Ok(false) => return Err(ReplayFault::Turn(place + 1)),
            Err(_) => return Err(ReplayFault::Memory),
        }
    }
    Ok(())
}

/// Replays a journal from a start, and answers what is seen at its end.
///
/// # Errors
/// `Turn` with the first line, from 1, whose steps the world has not; `Memory` where memory is refused.
pub fn replay(
    alloc: Global,
    program: &Program,
    start: World,
    journal: &Journal,
) -> Result<Seen, ReplayFault>
    ensures ok { IfOk result (λ s. IsReplay (program_of program.now) (world_of start) journal.now s) }
    ensures err { IfErr result
        (λ fault. (fault ≡ Memory) ⊎ ReplayFails (program_of program.now) (world_of start) journal.now fault) }
{
    let mut world = start;
    match take_runs(alloc, program, &mut world, journal.runs()) {
        Ok(()) => match world.into_seen(alloc) {
            Ok(seen) => Ok(seen),
            Err(_) => Err(ReplayFault::Memory),
        },
        Err(fault) => Err(fault),
    }
}
