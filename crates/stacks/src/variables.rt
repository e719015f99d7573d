//! What the innermost frames of threads hold, as lines.

use crate::places::object_text;
use crate::replaying::ThreadStacks;
use classfile::printed;
use init_engine::world::Thread;
use program::Program;
use std::alloc::{AllocError, Global};
use std::fmt::Write;
use vm_state::ends::End;
use vm_state::frame::Frame;
use vm_state::initialization::Frames;
use vm_state::shared::Shared;
use vm_state::value::{Maker, Name, Value};

/// How many characters of a string are shown.
const SHOWN: usize = 60;

/// A string in quotes, of a long one its beginning. A control character is shown as `?`.
fn string_text(alloc: Global, program: &Program, number: usize) -> Result<String, AllocError> {
    let whole = printed(alloc, program.string(number).unwrap_or(&[]))?;
    let mut text = String::from_str(alloc, "\"")?;
    for character in whole.chars().take(SHOWN) {
        text.push(if character.is_control() {
            '?'
        } else {
            character
        })?;
    }
    text.push('"')?;
    if whole.chars().nth(SHOWN).is_some() {
        text.push_str("..")?;
    }
    Ok(text)
}

/// A value, by its kind.
fn value_text(
    alloc: Global,
    program: &Program,
    shared: &Shared,
    value: Value,
) -> Result<String, AllocError> {
    let object = match value {
        Value::Int(number) => return format!(in alloc; "int {number}"),
        Value::Long(number) => return format!(in alloc; "long {number}"),
        Value::Null => return String::from_str(alloc, "null"),
        Value::Out => return String::from_str(alloc, "System.out"),
        Value::Text(number) => return string_text(alloc, program, number),
        Value::OfClass(class, number) => Name {
            maker: Maker::Class(class),
            number,
        },
        Value::OfThread(thread, number) => Name {
            maker: Maker::Thread(thread),
            number,
        },
    };
    object_text(alloc, program, shared, object)
}

/// The lines of the local variables that hold something, and of the operands, the lowest first.
fn frame_lines(
    alloc: Global,
    program: &Program,
    shared: &Shared,
    thread: u32,
    frame: &Frame,
) -> Result<String, AllocError> {
    let mut text = String::new(alloc);
    let cells = &frame.cells;
    for local in 0..cells.local_count() {
        if local <= 65_535
            && let Ok(value) = cells.value_at(local as u16)
        {
            let value = value_text(alloc, program, shared, value)?;
            writeln!(text, "thread {thread} local {local} {value}")?;
        }
    }
    let count = cells.len();
    for operand in 0..count {
        if let Ok(value) = cells.below(count - 1 - operand) {
            let value = value_text(alloc, program, shared, value)?;
            writeln!(text, "thread {thread} operand {operand} {value}")?;
        }
    }
    Ok(text)
}

/// The lines of the innermost frame of a thread, if it has one.
fn innermost_lines(
    alloc: Global,
    program: &Program,
    shared: &Shared,
    frames: &Frames,
) -> Result<String, AllocError> {
    match frames.innermost() {
        Some(frame) => frame_lines(alloc, program, shared, frames.thread, frame),
        None => Ok(String::new(alloc)),
    }
}

/// What the innermost frame of each thread holds that has not returned: a line for each local variable that holds
/// something and for each operand, thread by thread. Of one that has ended otherwise it is the frame before its last
/// step.
///
/// # Errors
/// `AllocError` where memory is refused.
pub fn variable_lines(
    alloc: Global,
    program: &Program,
    stacks: &ThreadStacks,
) -> Result<String, AllocError> {
    let mut text = String::new(alloc);
    let shared = stacks.world.shared();
    let threads = stacks.world.threads();
    for place in 0..threads.len() {
        let frames = match &threads[place] {
            Thread::Going(frames) => Some(frames),
            Thread::Ended(End::Returned) => None,
            Thread::Ended(_) => match stacks.before.get(place) {
                Some(Some(frames)) => Some(frames),
                _ => None,
            },
        };
        if let Some(frames) = frames {
            text.push_str(&innermost_lines(alloc, program, shared, frames)?)?;
        }
    }
    Ok(text)
}
