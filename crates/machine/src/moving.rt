//! What the conclusion of an instruction makes of the frames above the highest initialization (JVMS 2.6).

ghost use Rattle.std.specs.Prelude.{◌≡◌, ◌∷◌, IfOk, OnErr, OnOk, Some, None};
ghost use Rattle.vm_state.specs.Operands.{dropped};
ghost use Rattle.semantics.specs.Moves.{received, with_operands};
ghost use Rattle.machine.specs.steps.Moving.{IsCall, Leaves};

use crate::kinds::Conclusion;
use built_in::class_id::ClassId;
use frame_instructions::numeric::advance;
use std::alloc::AllocError;
use std::mem;
use vm_state::ends::FaultKind;
use vm_state::frame::{Frame, Segment};
use vm_state::spares::Spares;
use vm_state::text::Text;
use vm_state::value::{Fault, Name, Value};

/// What is left of the frames. Where the thread does not go on in them they are as they were.
#[derive(Drop)]
pub enum Left {
    /// These, as they are now.
    Stands,
    /// None: the last one returned.
    Nothing,
    /// Nothing to go on in: this caller has no room for the value returned. It alone was taken off.
    NoRoom(Frame),
    /// A text to print, after which the innermost goes on without this number of operands.
    Prints { text: Text, operands: usize },
    /// An exception of this class, raised in the innermost (JVMS 2.10).
    Raises(Name, ClassId),
    /// A thread that can't go on.
    Halts(FaultKind),
}

/// A call: the frame of the method called stands on its caller, which loses the arguments.
///
/// # Errors
/// `AllocError` where memory is refused; nothing has changed then.
fn call(segment: &mut Segment, callee: Frame, arguments: usize) -> Result<(), AllocError>
    ensures ok { OnOk result
        (segment.new ≡ record {
          innermost = callee;
          callers = with_operands segment.old.innermost (dropped arguments segment.old.innermost.operands)
              ∷ segment.old.callers;
        }) }
    ensures err { OnErr result (segment.new ≡ segment.old) }
{
    let caller = mem::replace(&mut segment.innermost, callee);
    match segment.callers.push_caller(caller, arguments) {
        Ok(()) => Ok(()),
        Err(caller) => {
            segment.innermost = caller;
            Err(AllocError)
        }
    }
}

/// After a call, with the value returned on the operand stack.
///
/// # Errors
/// `Fault`, and nothing changed, where that has no room.
#[inline(always)]
pub fn receive(frame: &mut Frame, value: Option<Value>) -> Result<(), Fault>
    ensures ok { OnOk result (received value frame.old ≡ Some frame.new) }
    ensures err { OnErr result (received value frame.old ≡ None) }
    ensures same { OnErr result (frame.new ≡ frame.old) }
{
    if let Some(value) = value {
        frame.cells.push(value)?;
    }
    advance(frame);
    Ok(())
}

/// A return: the caller of the innermost frame, whose memory is kept, goes on with the value.
fn leave(spares: &mut Spares, segment: &mut Segment, value: Option<Value>) -> Left
    ensures { Leaves (Conclusion.Returns value) segment.old result segment.new }
{
    let Some(mut caller) = segment.callers.pop() else {
        return Left::Nothing;
    };
    match receive(&mut caller, value) {
        Ok(()) => {
            spares.keep(mem::replace(&mut segment.innermost, caller));
            Left::Stands
        }
        Err(Fault) => Left::NoRoom(caller),
    }
}

/// What the conclusion of an instruction leaves of the frames. The memory of one that has returned is kept.
///
/// # Errors
/// `AllocError` where memory is refused to a call; nothing has changed then.
pub fn conclude(
    spares: &mut Spares,
    segment: &mut Segment,
    conclusion: Conclusion,
) -> Result<Left, AllocError>
    ensures ok { IfOk result (λ left. Leaves conclusion segment.old left segment.new) }
    ensures err { OnErr result (IsCall conclusion × (segment.new ≡ segment.old)) }
{
    match conclusion {
        Conclusion::Stays => Ok(Left::Stands),
        Conclusion::Becomes(frame) => {
            segment.innermost = frame;
            Ok(Left::Stands)
        }
        Conclusion::Calls { callee, arguments } => {
            call(segment, callee, arguments)?;
            Ok(Left::Stands)
        }
        Conclusion::Returns(value) => Ok(leave(spares, segment, value)),
        Conclusion::Prints { text, operands } => Ok(Left::Prints { text, operands }),
        Conclusion::Raises(exception, class) => Ok(Left::Raises(exception, class)),
        Conclusion::Halts(kind) => Ok(Left::Halts(kind)),
    }
}
