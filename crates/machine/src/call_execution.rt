//! The instructions that call methods, over any store.

ghost use Rattle.std.specs.Prelude.{List};
ghost use Rattle.vm_state.specs.Output.{Print};
ghost use Rattle.machine.specs.Table.{call_row};
ghost use Rattle.machine.specs.Accesses.{Gives, Keeps};

use crate::call_operation::CallOperation;
use crate::calling::call_static;
use crate::instance_calls::call_instance;
use crate::kinds::{Conclusion, Execution, Stop};
use crate::printing::{end_line, print_value};
use crate::store::Store;
use vm_state::frame::Frame;
use vm_state::spares::Spares;

/// `invokestatic`, `invokespecial`, `invokevirtual` and `invokeinterface` (JVMS 6.5).
///
/// # Errors
/// The store's reason, or `Stop::Memory`. The frame is as it was, and so is the store; where memory is refused, what
/// definitions see of it.
#[tactic(auto, using(crate::proofs::AccessesLemmas::untouched_as))]
pub fn execute_call<S: Store>(
    given: Execution<'_>,
    spares: &mut Spares,
    frame: &mut Frame,
    store: &mut S,
    operation: CallOperation,
) -> Result<Conclusion, Stop>
    ensures gives { (p : List Print) → Gives S.stopped (S.run given.entry.by (S.state store.old p))
        (S.run given.entry.by (S.state store.new p))
        (call_row given.entry.program.now operation frame.old) frame.new result }
    ensures kept { Keeps S.state result store.old store.new frame.old frame.new }
{
    match operation {
        CallOperation::Static(call) => call_static(given, spares, frame, store, call),
        CallOperation::Instance(call) => call_instance(given, spares, frame, store, call),
        CallOperation::Print(what, line, call) => {
            print_value(given, spares, frame, store, what, line, call)
        }
        CallOperation::EndLine(call) => end_line(given, spares, frame, store, call),
    }
}
