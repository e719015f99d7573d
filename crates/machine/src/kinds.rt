//! Who executes an instruction, in what program, how it ends, and what stops one.

ghost use Rattle.std.specs.Prelude.{◌≡◌};

use built_in::class_id::ClassId;
use program::Program;
use std::alloc::{AllocError, Global};
use vm_state::ends::{End, FaultKind};
use vm_state::frame::Frame;
use vm_state::text::Text;
use vm_state::value::{Maker, Name, Value};

/// Who executes an instruction.
#[derive(Clone, Copy)]
pub struct Actor {
    /// The thread's number.
    pub thread: u32,
    /// Who counts the objects that it makes.
    pub maker: Maker,
}

/// What instructions are executed in, beside their frame and their store.
#[derive(Clone, Copy)]
pub struct Execution<'a> {
    pub alloc: Global,
    pub program: &'a Program,
    pub by: Actor,
}

/// The receiver of a call, the lowest of so many operands on top.
#[derive(Clone, Copy)]
pub struct Receiver {
    pub value: Value,
    pub count: usize,
}

/// How an instruction ended in its own frame.
#[derive(Drop)]
pub enum Conclusion {
    /// The frame goes on, as it is now.
    Stays,
    /// This one takes its place.
    Becomes(Frame),
    /// It waits at its call, and the frame of the method called stands on it, whose arguments are this number of
    /// operands on top. The frame is as it was.
    Calls { callee: Frame, arguments: usize },
    /// The frame goes, with a value for its caller or with none.
    Returns(Option<Value>),
    /// It prints this text, and the frame goes on without this number of operands. The frame is as it was.
    Prints { text: Text, operands: usize },
    /// This exception, of this class, is raised in it (JVMS 2.10).
    Raises(Name, ClassId),
    /// The thread can't go on.
    Halts(FaultKind),
}

/// Why an instruction was not done. Nothing has changed.
#[derive(Clone, Copy)]
pub enum Stop {
    /// The class of this number has to be initialized first.
    Needs(u32),
    /// Another thread is in the way.
    Waits,
    /// At build time: an object of another maker is looked into or changed.
    ForeignObject,
    /// At build time: what no class does that may be initialized then. Outside a lock: any access but to ask for a
    /// class.
    Barred,
    /// At build time: the elements that it makes cost more than is left.
    OverBudget,
    /// Memory is refused.
    Memory,
}

impl From<AllocError> for Stop {
    ghost use Rattle.machine.specs.declared.kinds.Stop.TheVariants as stops;

    ghost from_gives = { λ error stop. stop ≡ stops.Memory };

    fn from(_error: AllocError) -> Stop {
        Stop::Memory
    }
}

/// What an instruction of a thread did.
#[derive(Drop)]
pub enum Effect {
    /// It was done, and the thread goes on.
    Next,
    /// It raised an exception, for which the thread stands in a handler, or at an initialization where it is pending.
    Raise,
    /// Nothing: the class of this number has to be initialized first.
    Needs(u32),
    /// Nothing: another thread is in the way.
    Wait,
    /// It was done, and printed a text.
    Print(Text),
    /// The thread ended so.
    Halt(End),
}
