//! Stacks as lines.

use crate::left_out::left_out_words;
use crate::places::{class_text, frame_text, needed_text};
use crate::replaying::ThreadStacks;
use init_engine::world::Thread;
use machine::waiting::{Trigger, holder, trigger_of};
use program::Program;
use std::alloc::{AllocError, Global};
use std::fmt::Write;
use vm_state::ends::End;
use vm_state::frame::{Frame, FrameList};
use vm_state::initialization::{Frames, Level, Levels};
use vm_state::shared::Shared;

/// How many places of a stack are shown at each of its ends.
const SHOWN: usize = 20;

/// A place of a stack.
#[derive(Clone, Copy)]
enum StackPlace<'a> {
    Frame(&'a Frame),
    /// An initialization that has no frame of its class initialization method above it.
    Initialization(u32),
}

/// The frames of a list, the innermost first.
fn add_frames<'a>(
    places: &mut Vec<StackPlace<'a>>,
    frames: &'a FrameList,
) -> Result<(), AllocError> {
    for frame in frames.outermost_first().iter().rev() {
        places.push(StackPlace::Frame(frame))?;
    }
    Ok(())
}

/// An initialization, unless its class initialization method is above it, and the frames under it.
fn add_level<'a>(
    places: &mut Vec<StackPlace<'a>>,
    level: &'a Level,
    runs: bool,
) -> Result<(), AllocError> {
    if !(level.initialization.begun && runs) {
        places.push(StackPlace::Initialization(level.initialization.class))?;
    }
    add_frames(places, &level.under)
}

/// All initializations, the highest first, with the frames under each. Above the highest one is some frame or none.
fn add_levels<'a>(
    places: &mut Vec<StackPlace<'a>>,
    levels: &'a Levels,
    runs: bool,
) -> Result<(), AllocError> {
    add_level(places, &levels.highest, runs)?;
    for level in levels.outer.outermost_first().iter().rev() {
        add_level(places, level, true)?;
    }
    Ok(())
}

/// The places of a stack, the innermost first.
fn places_of<'a>(alloc: Global, frames: &'a Frames) -> Result<Vec<StackPlace<'a>>, AllocError> {
    let mut places = Vec::new(alloc);
    if let Some(segment) = &frames.segment {
        places.push(StackPlace::Frame(&segment.innermost))?;
        add_frames(&mut places, &segment.callers)?;
    }
    if let Some(levels) = &frames.levels {
        add_levels(&mut places, levels, frames.segment.is_some())?;
    }
    Ok(places)
}

fn place_text(
    alloc: Global,
    program: &Program,
    place: StackPlace<'_>,
) -> Result<String, AllocError> {
    match place {
        StackPlace::Frame(frame) => frame_text(alloc, program, frame),
        StackPlace::Initialization(class) => {
            let class = class_text(alloc, program, class)?;
            format!(in alloc; "initialization of {class}")
        }
    }
}

/// A stack, a line for each place, the innermost first, and of a long one both ends.
fn stack_text(alloc: Global, program: &Program, frames: &Frames) -> Result<String, AllocError> {
    let thread = frames.thread;
    let places = places_of(alloc, frames)?;
    let count = places.len();
    let mut text = String::new(alloc);
    for at in 0..count {
        if at < SHOWN || count - at <= SHOWN {
            let word = if at == 0 { "at" } else { "in" };
            let place = place_text(alloc, program, places[at])?;
            writeln!(text, "thread {thread} {word} {place}")?;
        } else if at == SHOWN {
            let left_out = count - 2 * SHOWN;
            writeln!(text, "thread {thread} .. {left_out} left out")?;
        }
    }
    Ok(text)
}

/// The innermost place of a stack, as a line, with what is left out there.
fn first_text(
    alloc: Global,
    program: &Program,
    shared: &Shared,
    frames: &Frames,
) -> Result<String, AllocError> {
    let thread = frames.thread;
    let places = places_of(alloc, frames)?;
    let Some(first) = places.first() else {
        return Ok(String::new(alloc));
    };
    let place = place_text(alloc, program, *first)?;
    let words = match *first {
        StackPlace::Frame(frame) => left_out_words(alloc, program, shared, frame)?,
        StackPlace::Initialization(_) => String::new(alloc),
    };
    format!(in alloc; "thread {thread} at {place}{words}\n")
}

/// The class or the monitor that the next step of a thread needs and another one may hold.
fn needed(program: &Program, frames: &Frames) -> Trigger {
    if let Some(frame) = frames.innermost() {
        return trigger_of(program, frame);
    }
    let Some(level) = frames.highest() else {
        return Trigger::Nothing;
    };
    if level.initialization.pending.is_some() {
        return Trigger::Nothing;
    }
    match level.initialization.left.first() {
        Some(parent) => Trigger::Class(parent),
        None => Trigger::Nothing,
    }
}

/// The line of what a thread waits for, if another one is in its way.
fn waiting_text(
    alloc: Global,
    program: &Program,
    shared: &Shared,
    frames: &Frames,
) -> Result<String, AllocError> {
    let thread = frames.thread;
    let needed = needed(program, frames);
    let Some(other) = holder(needed, thread, shared) else {
        return Ok(String::new(alloc));
    };
    let needed = needed_text(alloc, program, shared, needed)?;
    format!(in alloc; "thread {thread} waits for {needed}, which thread {other} has\n")
}

/// The lines of the stacks of all threads that have not returned, thread by thread. Of one that has ended otherwise it
/// is the stack before its last step.
///
/// # Errors
/// `AllocError` where memory is refused.
pub fn stack_lines(
    alloc: Global,
    program: &Program,
    stacks: &ThreadStacks,
) -> Result<String, AllocError> {
    let mut text = String::new(alloc);
    let threads = stacks.world.threads();
    for place in 0..threads.len() {
        match &threads[place] {
            Thread::Going(frames) => {
                text.push_str(&waiting_text(alloc, program, stacks.world.shared(), frames)?)?;
                text.push_str(&stack_text(alloc, program, frames)?)?;
            }
            Thread::Ended(End::Returned) => {}
            Thread::Ended(_) => {
                if let Some(Some(frames)) = stacks.before.get(place) {
                    text.push_str(&stack_text(alloc, program, frames)?)?;
                }
            }
        }
    }
    Ok(text)
}

/// The innermost place of each thread that has ended by a fault, or by an exception that nothing caught, before its
/// last step: a line for each, with what is left out there.
///
/// # Errors
/// `AllocError` where memory is refused.
pub fn end_lines(
    alloc: Global,
    program: &Program,
    stacks: &ThreadStacks,
) -> Result<String, AllocError> {
    let mut text = String::new(alloc);
    let shared = stacks.world.shared();
    let threads = stacks.world.threads();
    for place in 0..threads.len() {
        match &threads[place] {
            Thread::Going(_) | Thread::Ended(End::Returned) => {}
            Thread::Ended(_) => {
                if let Some(Some(frames)) = stacks.before.get(place) {
                    text.push_str(&first_text(alloc, program, shared, frames)?)?;
                }
            }
        }
    }
    Ok(text)
}
