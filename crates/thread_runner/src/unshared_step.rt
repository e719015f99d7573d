//! One unshared instruction of a thread: one that touches its thread's frames alone, and asks for classes at most.

ghost use Rattle.std.specs.Prelude.{◌≡◌, List, Bool, Some, IfOk};
ghost use Rattle.vm_state.specs.Stacks.{levels_of};
ghost use Rattle.machine.specs.Effects.{going};
ghost use Rattle.machine.specs.Accesses.{unless_refused};
ghost use Rattle.thread_runner.specs.Fronts.{AreMembers};
ghost use Rattle.thread_runner.specs.Unshared.{unshared_step};
ghost use Rattle.thread_runner.specs.steps.Asked.{Local, refused};
ghost use Rattle.thread_runner.specs.steps.Ends.{IsUnsharedStep, IsRefused, WentOn};

use crate::asked::AskedStore;
use machine::effects::actor_of;
use machine::execute::execute;
use machine::kinds::{Conclusion, Stop};
use machine::moving::{Left, conclude};
use program::Program;
use std::alloc::{AllocError, Global};
use vm_state::frame::Segment;
use vm_state::initialization::Frames;
use vm_state::spares::Spares;

/// What became of a thread by its next instruction.
#[derive(Clone, Copy)]
pub(crate) enum UnsharedStep {
    /// It was an unshared one, and the thread goes on.
    Done,
    /// Nothing: it needs this class, which was not asked for before.
    Lacks(u32),
    /// Nothing: it is no unshared one, or the thread does not go on after it.
    Stops,
}

/// Puts frames back that were taken.
fn stand(frames: &mut Frames, segment: Segment)
    ensures { frames.new ≡ record frames.old { segment = Some segment } }
{
    frames.segment = Some(segment);
}

/// What the conclusion of an instruction makes of its thread, whose frames were taken, where that goes on.
///
/// # Errors
/// `AllocError` where memory is refused.
fn go_on(
    spares: &mut Spares,
    frames: &mut Frames,
    segment: Segment,
    conclusion: Conclusion,
) -> Result<UnsharedStep, AllocError>
    ensures went { IfOk result (λ step. WentOn conclusion segment (levels_of frames.old) step (going frames.new)) }
    ensures thread { frames.new.thread ≡ frames.old.thread }
{
    let mut segment = segment;
    match conclude(spares, &mut segment, conclusion)? {
        Left::Stands => {
            stand(frames, segment);
            return Ok(UnsharedStep::Done);
        }
        Left::Nothing => {
            if frames.levels.is_some() {
                frames.segment = None;
                return Ok(UnsharedStep::Done);
            }
        }
        Left::NoRoom(caller) => {
            if segment.callers.push_caller(caller, 0).is_err() {
                return Err(AllocError);
            }
        }
        Left::Prints { .. } | Left::Raises(..) | Left::Halts(_) => {}
    }
    stand(frames, segment);
    Ok(UnsharedStep::Stops)
}

/// What an instruction that was stopped makes of its thread.
///
/// # Errors
/// `AllocError` where memory stopped it.
#[tactic(auto, unfolding(machine::specs::Accesses::unless_refused))]
fn stopped(stop: Stop) -> Result<UnsharedStep, AllocError>
    ensures { IfOk result (λ step. (there : Local) → unless_refused stop there ≡ unless_refused stop (refused stop)
        → IsRefused step there) }
{
    match stop {
        Stop::Needs(class) => Ok(UnsharedStep::Lacks(class)),
        Stop::Waits | Stop::ForeignObject | Stop::Barred | Stop::OverBudget => {
            Ok(UnsharedStep::Stops)
        }
        Stop::Memory => Err(AllocError),
    }
}

/// Does the next instruction of a thread, where it is an unshared one after which the thread goes on, over classes that
/// were asked for before.
///
/// # Errors
/// `AllocError` where memory is refused; the thread's frames are of no use then.
pub(crate) fn step_unshared(
    alloc: Global,
    spares: &mut Spares,
    program: &Program,
    asked: &[u32],
    frames: &mut Frames,
) -> Result<UnsharedStep, AllocError>
    ensures step { IfOk result (λ step. (done : List Bool) → AreMembers asked.now done
        → IsUnsharedStep asked.now done step (unshared_step program.now done (going frames.old)) (going frames.old)
        (going frames.new)) }
    ensures thread { frames.new.thread ≡ frames.old.thread }
{
    let by = actor_of(frames);
    let Some(mut segment) = frames.segment.take() else {
        return Ok(UnsharedStep::Stops);
    };
    let frame = &mut segment.innermost;
    let mut store = AskedStore { classes: asked };
    match execute(alloc, spares, program, by, frame, &mut store) {
        Ok(conclusion) => go_on(spares, frames, segment, conclusion),
        Err(stop) => {
            stand(frames, segment);
            stopped(stop)
        }
    }
}
