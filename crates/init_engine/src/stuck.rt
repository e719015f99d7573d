//! Whether a world goes on: a thread has a step, none has, or all have ended.

ghost use Rattle.std.specs.Prelude.{◌≡◌, ◌↔◌, ℕ, List, IsTrue, not, is_some};
ghost use Rattle.vm_state.specs.Output.{Print};
ghost use Rattle.vm_state.specs.Shares.{shared_of};
ghost use Rattle.vm_state.specs.Stacks.{first_of};
ghost use Rattle.semantics.specs.Steps.{step_thread};
ghost use Rattle.machine.specs.Effects.{going};
ghost use Rattle.machine.specs.Linked.{program_of};
ghost use Rattle.init_engine.specs.Numbering.{AreNumbered};
ghost use Rattle.init_engine.specs.Rests.{IsRest, IsStuck};
ghost use Rattle.init_engine.specs.Threads.{HasNumber};
ghost use Rattle.init_engine.specs.Turns.{world_of};
ghost use Rattle.init_engine.specs.steps.Rests.{waits_for, joined, IsThreadRest};
ghost use Rattle.init_engine.specs.steps.Threads.{view_of};

use crate::world::{Thread, World};
use machine::waiting::has_to_wait;
use program::Program;
use vm_state::classes::Usability;
use vm_state::initialization::{Frames, Level};
use vm_state::shared::Shared;

/// Whether some threads go on, or one of them.
#[derive(Clone, Copy)]
pub enum Rest {
    /// All have ended.
    Ended,
    /// One has not ended, and none has a step.
    Stuck,
    /// One has a step.
    Going,
}

/// Whether the highest initialization of a thread has no step: another thread initializes its next parent.
fn initialization_waits(thread: u32, level: &Level, shared: &Shared) -> bool
    ensures { (p : List Print) → result ≡ waits_for thread (shared_of shared.now p) level.now.initialization.pending
        (first_of level.now.initialization.left) }
{
    if level.initialization.pending.is_some() {
        return false;
    }
    match level.initialization.left.first() {
        Some(parent) => match shared.state(parent).usability(thread) {
            Usability::Busy => true,
            Usability::Ready | Usability::Fresh | Usability::Broken => false,
        },
        None => false,
    }
}

/// Whether a thread that stands so has no step.
#[tactic(auto, unfolding(semantics::specs::Steps::step_thread))]
fn has_no_step(program: &Program, frames: &Frames, shared: &Shared) -> bool
    ensures { (p : List Print) → result ≡ not (is_some
        (step_thread (program_of program.now) frames.now.thread (shared_of shared.now p) (going frames.now))) }
{
    match (&frames.segment, &frames.levels) {
        (Some(segment), _) => has_to_wait(program, frames.thread, &segment.innermost, shared),
        (None, Some(levels)) => initialization_waits(frames.thread, &levels.highest, shared),
        (None, None) => true,
    }
}

/// Whether a thread has ended, or has no step, or has one.
#[tactic(auto, unfolding(semantics::specs::Steps::step_thread))]
fn thread_rest(program: &Program, thread: &Thread, shared: &Shared) -> Rest
    ensures { (t : ℕ) (p : List Print) → HasNumber thread.now t
        → IsThreadRest (program_of program.now) t (view_of thread.now shared.now p) result }
{
    match thread {
        Thread::Going(frames) => {
            if has_no_step(program, frames, shared) {
                Rest::Stuck
            } else {
                Rest::Going
            }
        }
        Thread::Ended(_) => Rest::Ended,
    }
}

/// Whether some threads go on, or one more.
fn joined(before: Rest, here: Rest) -> Rest
    ensures { result ≡ joined before here }
{
    match (before, here) {
        (Rest::Going, _) | (_, Rest::Going) => Rest::Going,
        (Rest::Stuck, _) | (_, Rest::Stuck) => Rest::Stuck,
        (Rest::Ended, Rest::Ended) => Rest::Ended,
    }
}

/// Whether some threads go on, over what they share.
fn rest_of(program: &Program, threads: &[Thread], shared: &Shared) -> Rest
    requires { AreNumbered threads.now }
    ensures { (p : List Print) → IsRest (program_of program.now)
        (world_of (record { threads = threads.now; shared = shared.now; printed = p })) result }
{
    let mut rest = Rest::Ended;
    for thread in threads {
        rest = joined(rest, thread_rest(program, thread, shared));
    }
    rest
}

impl World {
    /// Whether all threads have ended, or none has a step, or one has. It takes no memory.
    pub fn rest(&self, program: &Program) -> Rest
        ensures { IsRest (program_of program.now) (world_of self.now) result }
    {
        rest_of(program, self.threads(), self.shared())
    }

    /// Whether some thread has not ended, and no thread has a step. It takes no memory.
    pub fn stuck(&self, program: &Program) -> bool
        ensures { IsTrue result ↔ IsStuck (program_of program.now) (world_of self.now) }
    {
        match self.rest(program) {
            Rest::Stuck => true,
            Rest::Ended | Rest::Going => false,
        }
    }
}
