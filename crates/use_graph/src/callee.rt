//! Which methods of given classes an instruction may call.

ghost use Rattle.std.specs.Prelude.{◌≡◌};
ghost use Rattle.machine.specs.Operations.{meaning};
ghost use Rattle.use_graph.specs.Code.{callee_of, callee_of_call, chosen_callee};

use hierarchy::member::Method;
use machine::call_operation::{CallOperation, Choice};
use machine::resolved::Resolved;

/// Which methods of given classes an instruction may call, as far as its code says.
#[derive(Clone, Copy)]
pub enum Callee {
    Nobody,
    /// This one, whatever its receiver is.
    Exactly { class: u32, index: u16 },
    /// What is selected for the class of the receiver, of a method that was resolved.
    Selected(Method),
}

/// The callee of a call of an instance method.
fn chosen_callee(choice: Choice) -> Callee
    ensures { result ≡ chosen_callee choice }
{
    match choice {
        Choice::Selected(method) => Callee::Selected(method),
        Choice::Found(Some(Method::Given { class, index })) => Callee::Exactly { class, index },
        Choice::Found(_) => Callee::Nobody,
    }
}

/// The callee of a call.
fn callee_of_call(call: CallOperation) -> Callee
    ensures { result ≡ callee_of_call call }
{
    match call {
        CallOperation::Static(call) => Callee::Exactly {
            class: call.class,
            index: call.index,
        },
        CallOperation::Instance(call) => chosen_callee(call.choice),
        CallOperation::Print(_, _, call) => chosen_callee(call.choice),
        CallOperation::EndLine(call) => chosen_callee(call.choice),
    }
}

/// The callee of an instruction.
pub fn callee_of(resolved: Resolved) -> Callee
    ensures { result ≡ callee_of (meaning resolved) }
{
    match resolved {
        Resolved::OnCall(call) => callee_of_call(call),
        _ => Callee::Nobody,
    }
}
