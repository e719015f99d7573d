//! Places of a stack as text.

use built_in::class_id::ClassId;
use instruction_text::place_text;
use machine::waiting::Trigger;
use program::Program;
use program::class::Implementation;
use std::alloc::{AllocError, Global};
use vm_state::frame::{Activity, Frame};
use vm_state::shared::Shared;
use vm_state::value::{Maker, Name};

/// A given class by its name.
pub(crate) fn class_text(
    alloc: Global,
    program: &Program,
    class: u32,
) -> Result<String, AllocError> {
    program.class_text(alloc, ClassId::Given(class))
}

/// Where a frame stands: a method with its pc and instruction, or the start of a thread.
pub(crate) fn frame_text(
    alloc: Global,
    program: &Program,
    frame: &Frame,
) -> Result<String, AllocError> {
    match frame.activity {
        Activity::Start(class) => {
            let class = class_text(alloc, program, class)?;
            format!(in alloc; "start of {class}")
        }
        Activity::Method { class, index } => {
            let pc = pc_of(program, class, index, frame.place);
            match program.family().file(class) {
                Some(file) => place_text(alloc, file, index, pc),
                None => class_text(alloc, program, class),
            }
        }
    }
}

/// The pc of a place in a method's body, 0 where there is none.
fn pc_of(program: &Program, class: u32, index: u16, place: u32) -> u16 {
    let Some(Implementation::Code(code)) = program.implementation(class, index) else {
        return 0;
    };
    code.body.pc(place).unwrap_or(0)
}

/// What a thread waits for: a class whose initialization is in progress, or the monitor of an object.
pub(crate) fn needed_text(
    alloc: Global,
    program: &Program,
    shared: &Shared,
    needed: Trigger,
) -> Result<String, AllocError> {
    match needed {
        Trigger::Nothing => Ok(String::new(alloc)),
        Trigger::Class(class) => {
            let class = class_text(alloc, program, class)?;
            format!(in alloc; "the initialization of {class}")
        }
        Trigger::Monitor(object) => {
            let object = object_text(alloc, program, shared, object)?;
            format!(in alloc; "the monitor of {object}")
        }
    }
}

/// An object by its class and name.
pub(crate) fn object_text(
    alloc: Global,
    program: &Program,
    shared: &Shared,
    object: Name,
) -> Result<String, AllocError> {
    let number = object.number;
    let maker = match object.maker {
        Maker::Class(class) => class_text(alloc, program, class)?,
        Maker::Thread(thread) => format!(in alloc; "thread {thread}")?,
    };
    match shared.class_of(object) {
        Some(class) => {
            let class = program.class_text(alloc, class)?;
            format!(in alloc; "{class} ({number}, made by {maker})")
        }
        None => format!(in alloc; "object {number} made by {maker}"),
    }
}
