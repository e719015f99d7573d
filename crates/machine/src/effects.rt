//! One instruction of a thread.

ghost use Rattle.std.specs.Prelude.{◌≡◌, ◌∷◌, ◌++◌, [], ℕ, List, IfOk, OnOk, OnErr, IsSome, Some, None, Ok};
ghost use Rattle.vm_state.specs.declared.frame.Frame.{Frame};
ghost use Rattle.vm_state.specs.Output.{Print};
ghost use Rattle.vm_state.specs.Shares.{shared_of, SharesTheSame};
ghost use Rattle.vm_state.specs.Segments.{frames_of};
ghost use Rattle.vm_state.specs.Stacks.{levels_of};
ghost use Rattle.program.specs.Tables.{Tables};
ghost use Rattle.semantics.specs.Moves.{advanced, moved, unwound, with_operands, Throw};
ghost use Rattle.machine.specs.Linked.{program_of};
ghost use Rattle.semantics.specs.Rows.{Move, Moved, Next, Raise, Result as Led, run_row};
ghost use Rattle.semantics.specs.Steps.{maker_of};
ghost use Rattle.vm_state.specs.SharedTables.{SharedTables};
ghost use Rattle.vm_state.specs.SharedState.{SharedState};
ghost use Rattle.vm_state.specs.declared.value.Maker.{Maker};
ghost use Rattle.machine.specs.declared.kinds.Stop.{Stop};
ghost use Rattle.vm_state.specs.Operands.{dropped};
ghost use Rattle.machine.specs.Accesses.{Kept, KeptBy, Untouched, concluded, unless_refused};
ghost use Rattle.vm_state.specs.declared.initialization.Frames.{Frames};
ghost use Rattle.vm_state.specs.declared.initialization.Level.{Level};
ghost use Rattle.machine.specs.Sharing.{stopped_shared};
ghost use Rattle.machine.specs.Effects.{HasPrinted, IsEmpty, IsStep, IsStopped, IsEffect, PrintsNothing, Stays};

use crate::execute::execute;
use crate::kinds::{Actor, Conclusion, Effect, Stop};
pub use crate::moving::receive;
use crate::moving::{Left, conclude};
use crate::unwinding::{Unwound, unwind};
use built_in::class_id::ClassId;
use frame_instructions::numeric::advance;
use program::Program;
use std::alloc::{AllocError, Global};
use vm_state::ends::{End, FaultKind};
use vm_state::frame::Segment;
use vm_state::initialization::Frames;
use vm_state::output::Output;
use vm_state::shared::Shared;
use vm_state::spares::Spares;
use vm_state::text::Text;
use vm_state::value::{Maker, Name};

/// Who executes the instructions of a thread. Its objects are counted by the class of its highest initialization, or by
/// the thread.
pub fn actor_of(frames: &Frames) -> Actor
    ensures thread { result.thread ≡ frames.now.thread }
    ensures maker { result.maker ≡ maker_of frames.now.thread (levels_of frames.now) }
{
    Actor {
        thread: frames.thread,
        maker: maker_of(frames),
    }
}

fn maker_of(frames: &Frames) -> Maker
    ensures { result ≡ maker_of frames.now.thread (levels_of frames.now) }
{
    match &frames.levels {
        Some(levels) => Maker::Class(levels.highest.initialization.class),
        None => Maker::Thread(frames.thread),
    }
}

/// Ends a thread: nothing is left of its stack.
fn halt(frames: &mut Frames, end: End) -> Effect
    ensures effect { result ≡ Effect.Halt end }
    ensures empty { IsEmpty frames.new }
    ensures thread { frames.new.thread ≡ frames.old.thread }
{
    frames.segment = None;
    frames.levels = None;
    Effect::Halt(end)
}

/// Puts frames back that were taken.
fn stand(frames: &mut Frames, segment: Segment)
    ensures { frames.new ≡ record frames.old { segment = Some segment } }
{
    frames.segment = Some(segment);
}

/// No frame is left above the highest initialization: it goes on, or the thread has returned.
fn leave_last(frames: &mut Frames) -> Effect
    ensures step { (P : Tables) (move : Move) (f : Frame) (fs : List Frame) (before after : SharedState)
        → moved move f fs ≡ Some [] → IsStep P frames.old.thread (f ∷ fs) (levels_of frames.old) before
        (Moved (Next move) after) result frames.new after }
    ensures moves { ((old new : Frames) → Stays result old new)
        × ((before after : SharedTables) → Stays result before after) }
    ensures silent { PrintsNothing result }
    ensures thread { frames.new.thread ≡ frames.old.thread }
{
    if frames.levels.is_none() {
        return halt(frames, End::Returned);
    }
    frames.segment = None;
    Effect::Next
}

/// An exception that no frame above the highest initialization catches: it becomes pending there, and where there is
/// no initialization its thread ends (JVMS 2.10, 5.5).
fn leave_uncaught(frames: &mut Frames, exception: Name, class: ClassId) -> Effect
    ensures step { (P : Tables) (fs : List Frame) (f : Frame) (before after : SharedState)
        → unwound (program_of P) exception class (f ∷ fs) ≡ Throw exception class
        → IsStep P frames.old.thread (f ∷ fs) (levels_of frames.old) before (Moved (Raise exception class) after) result
        frames.new after }
    ensures moves { ((old new : Frames) → Stays result old new)
        × ((before after : SharedTables) → Stays result before after) }
    ensures silent { PrintsNothing result }
    ensures thread { frames.new.thread ≡ frames.old.thread }
{
    if frames.levels.is_none() {
        return halt(frames, End::Uncaught(class));
    }
    frames.set_pending(exception);
    Effect::Raise
}

/// Throws an exception of a class in the innermost of some frames, which were taken of their thread's stack.
fn throw(
    program: &Program,
    frames: &mut Frames,
    segment: Segment,
    exception: Name,
    class: ClassId,
) -> Effect
    ensures step { (before after : SharedState)
        → IsStep program.now frames.old.thread (frames_of segment) (levels_of frames.old) before
        (Moved (Raise exception class) after) result frames.new after }
    ensures moves { ((old new : Frames) → Stays result old new)
        × ((before after : SharedTables) → Stays result before after) }
    ensures silent { PrintsNothing result }
    ensures thread { frames.new.thread ≡ frames.old.thread }
{
    let Segment { innermost, callers } = segment;
    match unwind(program, innermost, callers, exception, class) {
        Unwound::Caught(innermost, callers) => {
            stand(frames, Segment { innermost, callers });
            Effect::Raise
        }
        Unwound::NoRoom => halt(frames, End::Faulted(FaultKind::Fault)),
        Unwound::Uncaught => leave_uncaught(frames, exception, class),
    }
}

/// A print: the innermost frame goes on at the next instruction without these operands, and the text comes behind what
/// was printed before.
///
/// # Errors
/// `AllocError` where memory is refused: then the stack is as it was, and so is what was printed.
fn print(
    frames: &mut Frames,
    segment: Segment,
    text: Text,
    operands: usize,
    printed: &mut Output,
) -> Result<Effect, AllocError>
    ensures ok { OnOk result
        (frames.new ≡ record frames.old {
          segment = Some (record segment {
            innermost = advanced (with_operands segment.innermost (dropped operands segment.innermost.operands));
          });
        }) }
    ensures text { IfOk result (λ e. e ≡ Effect.Print text) }
    ensures printed { OnOk result
        (printed.new ≡ printed.old ++ record { thread = frames.old.thread; text = text } ∷ []) }
    ensures kept { OnErr result (printed.new ≡ printed.old) }
    ensures err { OnErr result (frames.new ≡ record frames.old { segment = Some segment }) }
{
    let mut segment = segment;
    match printed.add(frames.thread, text.as_bytes()) {
        Ok(()) => {
            segment.innermost.cells.drop_many(operands);
            advance(&mut segment.innermost);
            stand(frames, segment);
            Ok(Effect::Print(text))
        }
        Err(error) => {
            stand(frames, segment);
            Err(error)
        }
    }
}

/// What the conclusion of an instruction makes of its thread, of whose stack its frames were taken. What it prints
/// comes behind what was printed before.
///
/// # Errors
/// `AllocError` where memory is refused to a call or a print: then the stack is as it was, and so is what was printed.
fn go_on(
    spares: &mut Spares,
    program: &Program,
    frames: &mut Frames,
    segment: Segment,
    conclusion: Conclusion,
    printed: &mut Output,
) -> Result<Effect, AllocError>
    ensures step { IfOk result
        (λ e. (maker : Maker) (f : Frame) (before after : SharedState) → f.activity ≡ segment.innermost.activity
        → Untouched (Ok conclusion) f segment.innermost →
        IsStep program.now frames.old.thread (f ∷ segment.callers) (levels_of frames.old) before
        (run_row frames.old.thread maker after (concluded conclusion segment.innermost)) e frames.new after) }
    ensures moves { IfOk result (λ e. ((old new : Frames) → Stays e old new)
        × ((before after : SharedTables) → Stays e before after)) }
    ensures thread { frames.new.thread ≡ frames.old.thread }
    ensures err { OnErr result (((f : Frame) → Untouched (Ok conclusion) f segment.innermost → frames.new
        ≡ record frames.old { segment = Some (record segment { innermost = f }) })
        × ((old new : SharedTables) → KeptBy shared_of (Ok conclusion) old new → SharesTheSame old new)) }
    ensures printed { IfOk result (λ e. HasPrinted e frames.old.thread printed.old printed.new) }
    ensures kept { OnErr result (printed.new ≡ printed.old) }
{
    let mut segment = segment;
    match conclude(spares, &mut segment, conclusion) {
        Ok(Left::Stands) => {
            stand(frames, segment);
            Ok(Effect::Next)
        }
        Ok(Left::Nothing) => Ok(leave_last(frames)),
        Ok(Left::NoRoom(_)) => Ok(halt(frames, End::Faulted(FaultKind::Fault))),
        Ok(Left::Prints { text, operands }) => print(frames, segment, text, operands, printed),
        Ok(Left::Raises(exception, class)) => {
            Ok(throw(program, frames, segment, exception, class))
        }
        Ok(Left::Halts(kind)) => Ok(halt(frames, End::Faulted(kind))),
        Err(error) => {
            stand(frames, segment);
            Err(error)
        }
    }
}

/// What stopped an instruction, as an effect.
#[tactic(auto, unfolding(crate::specs::Accesses::unless_refused))]
fn stopped(stop: Stop) -> Result<Effect, AllocError>
    ensures step { IfOk result
        (λ e. (P : Tables) (t : ℕ) (fs : List Frame) (ls : List Level) (before after : SharedState) (r : Led)
        (new : Frames) → unless_refused stop r ≡ unless_refused stop (stopped_shared stop)
        → IsStep P t fs ls before r e new after) }
    ensures stays { IfOk result IsStopped }
    ensures kept { IfOk result (λ e. (old new : SharedTables) → Kept shared_of stop old new → Stays e old new) }
    ensures err { OnErr result (stop ≡ Stop.Memory) }
{
    match stop {
        Stop::Needs(class) => Ok(Effect::Needs(class)),
        Stop::Waits | Stop::ForeignObject | Stop::Barred | Stop::OverBudget => Ok(Effect::Wait),
        Stop::Memory => Err(AllocError),
    }
}

/// One instruction of a thread, on top of whose stack a frame stands. What it prints comes behind what was printed
/// before. Where it ends the thread nothing is left of the stack. Where memory is refused nothing changes.
///
/// # Errors
/// `AllocError` where memory is refused: then the thread's stack is as it was, and so is what was printed, and what
/// definitions see of what threads share.
pub fn effect(
    alloc: Global,
    program: &Program,
    frames: &mut Frames,
    shared: &mut Shared,
    printed: &mut Output,
) -> Result<Effect, AllocError>
    requires { IsSome frames.old.segment }

    // What it answers and leaves is what the row of the table gives.
    ensures gives { IfOk result
        (λ e. (p : List Print) → IsEffect program.now frames.old (shared_of shared.old p) e frames.new
        (shared_of shared.new p)) }

    ensures thread { frames.new.thread ≡ frames.old.thread }

    // Where a thread needs a class or waits, its stack and what is shared stay as they were. Where memory is refused
    // its stack does, and so does what definitions see of what is shared.
    ensures stays { IfOk result (λ e. (Stays e frames.old frames.new) × (Stays e shared.old shared.new)) }
    ensures err { OnErr result ((frames.new ≡ frames.old) × (SharesTheSame shared.old shared.new)) }

    // What it printed comes behind what was printed before.
    ensures printed { IfOk result (λ e. HasPrinted e frames.old.thread printed.old printed.new) }
    ensures kept { OnErr result (printed.new ≡ printed.old) }
{
    let by = actor_of(frames);
    let Some(mut segment) = frames.segment.take() else {
        unreachable!()
    };
    let mut spares = Spares::none(alloc);
    let frame = &mut segment.innermost;
    match execute(alloc, &mut spares, program, by, frame, shared) {
        Ok(conclusion) => go_on(&mut spares, program, frames, segment, conclusion, printed),
        Err(stop) => {
            stand(frames, segment);
            stopped(stop)
        }
    }
}
