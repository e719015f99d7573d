//! Where a thread stands before the last step of a commit.

ghost use Rattle.std.specs.Prelude.{◌≡◌, ◌<◌, IfOk, OnErr, length};
ghost use Rattle.machine.specs.Linked.{program_of};
ghost use Rattle.init_engine.specs.Turns.{IsTurn, Prints, world_of};
ghost use Rattle.thread_runner.specs.steps.Landings.{MayLand, landed};

use crate::advance::advance;
use crate::top::advance_top;
use init_engine::{Turn, World};
use program::Program;
use std::alloc::{AllocError, Global};
use vm_state::frame::Segment;
use vm_state::initialization::Frames;

/// Where a thread stands before the last step of a commit.
#[derive(Drop)]
pub(crate) enum Landing {
    /// It has these frames.
    Whole(Frames),
    /// It has these in the place of its innermost one.
    Top(Segment),
}

/// Makes a step of a thread that landed so, where there is one.
///
/// # Errors
/// `AllocError` where memory is refused; the world is as it was.
pub(crate) fn land(
    alloc: Global,
    world: &mut World,
    program: &Program,
    thread: u32,
    to: Landing,
    count: u64,
) -> Result<Turn, AllocError>
    requires thread { thread < length world.old.threads }
    requires may { MayLand (world_of world.old) thread to count }
    ensures far { IfOk result (λ turn. IsTurn (program_of program.now)
        (landed (world_of world.old) thread to count) thread turn (world_of world.new)) }
    ensures threads { length world.new.threads ≡ length world.old.threads }
    ensures prints { IfOk result (λ turn. Prints turn world.old.printed world.new.printed) }
    ensures memory { OnErr result (world_of world.new ≡ world_of world.old) }
{
    match to {
        Landing::Whole(frames) => advance(alloc, world, program, thread, frames, count),
        Landing::Top(top) => advance_top(alloc, world, program, thread, top),
    }
}
