//! Parts of a commit.

ghost use Rattle.std.specs.Prelude.{◌≡◌, ◌+◌, ◌<◌, ◌≤◌, ◌^◌, ◌++◌, true, false, IfOk, OnErr, length, replicate};
ghost use Rattle.std.specs.Prelude.{slice_get, vec_len, vec_capacity};
ghost use Rattle.machine.specs.Linked.{program_of};
ghost use Rattle.init_engine.specs.Schedules.{schedule_of, AreRuns};
ghost use Rattle.init_engine.specs.Turns.{Goes, IsTurn, Prints, world_of};
ghost use Rattle.thread_runner.specs.Commits.{there};
ghost use Rattle.thread_runner.specs.Fronts.{AreInitialized};
ghost use Rattle.thread_runner.specs.Unshared.{AreDone};
ghost use Rattle.thread_runner.specs.steps.Advances.{answered, counted};

use crate::done_set::DoneSet;
use init_engine::{Turn, World};
use journal::runs::add_steps;
use program::Program;
use std::alloc::{AllocError, Global};
use vm_state::initialization::Frames;

/// Whether the classes of a set are initialized.
pub(crate) fn all_done(world: &World, done: &DoneSet) -> bool
    ensures yes { result ≡ true → AreDone done.now (world_of world.now).shared }
    ensures no { result ≡ false → ¬ AreDone done.now (world_of world.now).shared }
{
    for class in 0..done.len() {
        if done.has(class) && !world.is_initialized(class) {
            return false;
        }
    }
    true
}

/// Whether classes are initialized.
pub(crate) fn all_initialized(world: &World, classes: &[u32]) -> bool
    ensures yes { result ≡ true → AreInitialized classes.now (world_of world.now).shared }
    ensures no { result ≡ false → ¬ AreInitialized classes.now (world_of world.now).shared }
{
    for class in classes {
        if !world.is_initialized(*class) {
            return false;
        }
    }
    true
}

/// Makes a step of a thread, where there is one, with these frames in place of its own, which are not put in place
/// where they are after no step.
///
/// # Errors
/// `AllocError` where memory is refused; the world is as it was.
pub(crate) fn advance(
    alloc: Global,
    world: &mut World,
    program: &Program,
    thread: u32,
    to: Frames,
    count: u64,
) -> Result<Turn, AllocError>
    requires thread { thread < length world.old.threads }
    requires number { to.thread ≡ thread }
    requires going { 0 < count → Goes (slice_get (world_of world.old).threads thread) }
    ensures far { IfOk result (λ turn. IsTurn (program_of program.now)
        (there (world_of world.old) thread to count) thread turn (world_of world.new)) }
    ensures threads { length world.new.threads ≡ length world.old.threads }
    ensures prints { IfOk result (λ turn. Prints turn world.old.printed world.new.printed) }
    ensures memory { OnErr result (world_of world.new ≡ world_of world.old) }
{
    if count == 0 {
        return world.step(alloc, program, thread);
    }
    let mut frames = to;
    world.exchange(thread, &mut frames);
    match world.step(alloc, program, thread) {
        Ok(turn) => Ok(turn),
        Err(error) => {
            world.exchange(thread, &mut frames);
            Err(error)
        }
    }
}

/// How many steps there were, with `count` of a stretch before a turn.
pub(crate) fn counted(turn: Turn, count: u64) -> u64
    requires { count ≤ 1023 }
    ensures { result ≡ counted turn count }
{
    match turn {
        Turn::Moved => count + 1,
        Turn::Waiting => count,
        Turn::Ended => count,
    }
}

/// The answer to a commit.
#[derive(Clone, Copy, Debug)]
pub enum Commit {
    /// The journal has as many steps as it may. Nothing changes.
    Full,
    /// The stretch does not begin where its thread is, or takes a class to be initialized that is not. Nothing changes.
    Stale,
    /// A step was counted, or more.
    Moved,
    /// None was: the thread has no step until another one moves.
    Waiting,
    /// None was: the thread has ended.
    Ended,
}

/// The answer to a commit of `count` steps of a stretch and then this turn.
pub(crate) fn answer_of(turn: Turn, count: u64) -> Commit
    ensures { result ≡ answered turn count }
{
    match turn {
        Turn::Moved => Commit::Moved,
        Turn::Waiting => match count {
            0 => Commit::Waiting,
            _ => Commit::Moved,
        },
        Turn::Ended => match count {
            0 => Commit::Ended,
            _ => Commit::Moved,
        },
    }
}

/// Adds steps of a thread to runs that have room for one more, and nothing where there are none.
pub(crate) fn add_some(runs: &mut Vec<(u32, u64)>, thread: u32, steps: u64)
    requires room { vec_len runs.old < vec_capacity runs.old }
    requires runs { AreRuns runs.old.items }
    requires fits { length (schedule_of runs.old.items) + steps < 2 ^ 64 }
    ensures runs { AreRuns runs.new.items }
    ensures schedule { schedule_of runs.new.items ≡ schedule_of runs.old.items ++ replicate steps thread }
    ensures none { steps ≡ 0 → runs.new.items ≡ runs.old.items }
{
    if steps == 0 {
        return;
    }
    if !add_steps(runs, thread, steps) {
        unreachable!()
    }
}

/// Where a run of one thread and at most `limit` steps ends: after the start of its thread and 1,024 steps at a time.
pub(crate) fn most_steps(limit: u64) -> u64
    requires { limit ≤ 2 ^ 62 }
    ensures least { limit ≤ result }
    ensures most { result < limit + 1024 }
    ensures none { limit ≡ 0 → result ≡ 0 }
{
    if limit == 0 {
        return 0;
    }
    let past = (limit - 1) % 1024;
    if past == 0 {
        return limit;
    }
    limit + (1024 - past)
}
