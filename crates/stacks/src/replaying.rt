//! A run over a schedule, which keeps the stack of each thread before its last step.

ghost use Rattle.std.specs.Prelude.{◌≡◌, ◌<◌, ◌⊎◌, ℕ, Bool, true, false, Some, None, IfOk, IfErr, IfSome, OnOk};
ghost use Rattle.std.specs.Prelude.{length, replicate, slice_get, slice_set};
ghost use Rattle.semantics.specs.Worlds.{Run};
ghost use Rattle.machine.specs.Linked.{program_of};
ghost use Rattle.method_lowering.specs.steps.StepTables.{KeepsSteps};
ghost use Rattle.init_engine.specs.Schedules.{schedule_of, AreRuns};
ghost use Rattle.init_engine.specs.Turns.{world_of};
ghost use Rattle.thread_runner.specs.Replays.{NoRun, ReplayFails};
ghost use Rattle.thread_runner.specs.declared.replay.ReplayFault.TheVariants.{Memory};
ghost use Rattle.stacks.specs.Stacks.{AreBefore};
ghost use Rattle.stacks.specs.steps.Replaying.{AreLast, IsKept, StoodIn};

use init_engine::World;
use method_lowering::step_table::StepTable;
use program::Program;
use std::alloc::{AllocError, Global};
use thread_runner::replay::{ReplayFault, take_steps};
use vm_state::initialization::Frames;

/// Where the threads of a run stand.
#[derive(Drop)]
pub struct ThreadStacks {
    /// The world that the run leads to.
    pub world: World,
    /// The frames of each thread before its last step; none where it made no step.
    pub before: Vec<Option<Frames>>,
}

/// Notes the place of a run of a thread, where it is one of those that are looked for.
fn note_run(last: &mut Vec<usize>, thread: u32, place: usize)
    ensures there { thread < length last.old.items → last.new.items ≡ slice_set last.old.items thread place }
    ensures past { ¬ (thread < length last.old.items) → last.new.items ≡ last.old.items }
{
    if (thread as usize) < last.len() {
        last[thread as usize] = place;
    }
}

/// For each of `count` threads the place of its last run, if it has one.
fn last_runs(alloc: Global, runs: &[(u32, u64)], count: usize) -> Result<Vec<usize>, AllocError>
    ensures last { IfOk result (λ last. AreLast runs.now last.items) }
    ensures count { IfOk result (λ last. length last.items ≡ count) }
{
    let mut last = vec![in alloc; 0; count]?;
    for place in 0..runs.len() {
        note_run(&mut last, runs[place].0, place);
    }
    Ok(last)
}

/// Whether the last run of a thread is at this place.
fn is_last(last: &[usize], thread: u32, place: usize) -> bool
    ensures yes { result ≡ true → slice_get last.now thread ≡ Some place }
    ensures no { slice_get last.now thread ≡ Some place → result ≡ true }
{
    match last.get(thread as usize) {
        Some(at) => *at == place,
        None => false,
    }
}

/// Makes `steps` steps of a thread, and answers its frames before the last of them, if it had them all.
fn take_last_run(
    alloc: Global,
    program: &Program,
    world: &mut World,
    table: &mut StepTable,
    thread: u32,
    steps: u64,
) -> Result<Option<Frames>, AllocError>
    requires thread { thread < length world.old.threads }
    requires some { 0 < steps }
    requires steps { KeepsSteps program.now table.old }
    ensures steps { OnOk result (KeepsSteps program.now table.new) }
    ensures yes { IfOk result (λ r. IfSome r (λ s. Run (program_of program.now) (world_of world.old)
        (replicate steps thread) (world_of world.new)
        × StoodIn (program_of program.now) (world_of world.old) thread steps s)) }
    ensures no { IfOk result (λ r. r ≡ None → NoRun (program_of program.now) (world_of world.old)
        (replicate steps thread)) }
    ensures threads { length world.new.threads ≡ length world.old.threads }
{
    let went = take_steps(alloc, program, world, table, thread, steps - 1)?;
    if !went {
        return Ok(None);
    }
    let frames = world.frames(alloc, thread)?;
    match take_steps(alloc, program, world, table, thread, 1) {
        Ok(true) => Ok(Some(frames)),
        Ok(false) => Ok(None),
        Err(error) => Err(error),
    }
}

/// Makes the steps of a run, where its thread is there, and keeps the frames of the thread before the last of them,
/// where it is its last run. It answers whether it had them all.
fn take_run(
    alloc: Global,
    program: &Program,
    world: &mut World,
    table: &mut StepTable,
    before: &mut Vec<Option<Frames>>,
    run: (u32, u64),
    is_last: bool,
) -> Result<bool, AllocError>
    requires some { 0 < run.1 }
    requires count { length before.old.items ≡ length world.old.threads }
    requires steps { KeepsSteps program.now table.old }
    ensures steps { OnOk result (KeepsSteps program.now table.new) }
    ensures yes { IfOk result (λ went. went ≡ true → Run (program_of program.now) (world_of world.old)
        (replicate run.1 run.0) (world_of world.new)) }
    ensures there { IfOk result (λ went. went ≡ true → run.0 < length before.old.items) }
    ensures kept { IfOk result (λ went. went ≡ true → IsKept (program_of program.now) (world_of world.old) run.0 run.1
        is_last before.old.items before.new.items) }
    ensures no { IfOk result (λ went. went ≡ false → NoRun (program_of program.now) (world_of world.old)
        (replicate run.1 run.0)) }
    ensures count { length before.new.items ≡ length before.old.items }
    ensures threads { length world.new.threads ≡ length world.old.threads }
{
    let (thread, steps) = run;
    let count = world.thread_count();
    if thread >= count {
        return Ok(false);
    }
    if !is_last {
        let went = take_steps(alloc, program, world, table, thread, steps)?;
        return Ok(went);
    }
    match take_last_run(alloc, program, world, table, thread, steps) {
        Ok(Some(frames)) => {
            before[thread as usize] = Some(frames);
            Ok(true)
        }
        Ok(None) => Ok(false),
        Err(error) => Err(error),
    }
}

/// For each of `count` threads no frames.
fn no_frames(alloc: Global, count: u32) -> Result<Vec<Option<Frames>>, AllocError>
    ensures { IfOk result (λ before. length before.items ≡ count) }
{
    let mut before = Vec::new(alloc);
    for place in 0..count {
        before.push(None)?;
    }
    Ok(before)
}

/// Makes the steps of runs, and keeps the frames of each thread before its last one.
fn take_runs(
    alloc: Global,
    program: &Program,
    world: &mut World,
    before: &mut Vec<Option<Frames>>,
    runs: &[(u32, u64)],
    last: &[usize],
) -> Result<(), ReplayFault>
    requires runs { AreRuns runs.now }
    requires count { length before.old.items ≡ length world.old.threads }
    requires last_count { length last.now ≡ length world.old.threads }
    requires last { AreLast runs.now last.now }
    ensures run { OnOk result (Run (program_of program.now) (world_of world.old) (schedule_of runs.now)
        (world_of world.new)) }
    ensures before { OnOk result (AreBefore (program_of program.now) (world_of world.old) runs.now before.new.items) }
    ensures err { IfErr result
        (λ fault. (fault ≡ Memory) ⊎ ReplayFails (program_of program.now) (world_of world.old) runs.now fault) }
{
    let mut table = StepTable::new(alloc);
    for place in 0..runs.len() {
        let run = runs[place];
        let is_last = is_last(last, run.0, place);
        match take_run(alloc, program, world, &mut table, before, run, is_last) {
            Ok(true) => {}
            Ok(false) => return Err(ReplayFault::Turn(place + 1)),
            Err(_) => return Err(ReplayFault::Memory),
        }
    }
    Ok(())
}

/// Goes through a schedule, given by its runs, from a world on.
///
/// # Errors
/// `Turn` with the first run, from 1, whose steps the world has not; `Memory` where memory is refused.
pub fn stacks(
    alloc: Global,
    program: &Program,
    start: World,
    runs: &[(u32, u64)],
) -> Result<ThreadStacks, ReplayFault>
    requires { AreRuns runs.now }
    ensures run { IfOk result (λ s. Run (program_of program.now) (world_of start) (schedule_of runs.now)
        (world_of s.world)) }
    ensures before { IfOk result (λ s. AreBefore (program_of program.now) (world_of start) runs.now s.before.items) }
    ensures err { IfErr result
        (λ fault. (fault ≡ Memory) ⊎ ReplayFails (program_of program.now) (world_of start) runs.now fault) }
{
    let mut world = start;
    let count = world.thread_count();
    let last = last_runs(alloc, runs, count as usize)?;
    let mut before = no_frames(alloc, count)?;
    match take_runs(
        alloc,
        program,
        &mut world,
        &mut before,
        runs,
        last.as_slice(),
    ) {
        Ok(()) => Ok(ThreadStacks { world, before }),
        Err(fault) => Err(fault),
    }
}
