//! Where a class's initializer stands once it has cost so much.

ghost use Rattle.std.specs.Prelude.{IsSome};

use built_in::class_id::ClassId;
use bytecode::Instruction;
use machine::effects::effect;
use machine::entering::{blank_classes, initializer_frame};
use machine::kinds::Effect;
use object_graph::Image;
use program::Program;
use program::class::Implementation;
use std::alloc::{AllocError, Global};
use use_graph::mark::Evidence;
use vm_state::frame::{Activity, Frame, FrameList, Segment};
use vm_state::heap::Heap;
use vm_state::initialization::{Frames, Initialization, Level, LevelList, Levels, ParentsLeft};
use vm_state::output::Output;
use vm_state::shared::Shared;
use vm_state::value::Maker;

/// Puts a copy of the region of a class in place, where an image has one.
pub(crate) fn put_region(
    alloc: Global,
    image: &Image,
    class: u32,
    shared: &mut Shared,
) -> Result<(), AllocError> {
    if let Some(region) = image.region(class) {
        let fields = region.fields.copy(alloc)?;
        let objects = region.objects.copy(alloc)?;
        shared.initialize(alloc, class, fields, objects)?;
    }
    Ok(())
}

/// What threads share where they start from an image, and one of them has begun to initialize a class.
fn begun(alloc: Global, image: &Image, class: u32) -> Result<Shared, AllocError> {
    let program = image.program();
    let mut shared = Shared::new(blank_classes(alloc, program)?, Heap::new(alloc));
    for other in 0..program.given_count() {
        put_region(alloc, image, other, &mut shared)?;
    }
    let statics = program.statics(class);
    shared.keep(alloc, class, statics.len())?;
    shared.begin(class, 0, statics);
    Ok(shared)
}

/// The stack of a thread in which the initializer of a class begins.
pub(crate) fn stack_on(alloc: Global, class: u32, innermost: Frame) -> Result<Frames, AllocError> {
    let left = ParentsLeft::of(alloc, &[])?;
    let highest = Level {
        initialization: Initialization {
            class,
            left,
            begun: true,
            pending: None,
        },
        under: FrameList::none(alloc),
    };
    Ok(Frames {
        thread: 0,
        segment: Some(Segment {
            innermost,
            callers: FrameList::none(alloc),
        }),
        levels: Some(Levels {
            highest,
            outer: LevelList::none(alloc),
        }),
    })
}

/// Where the next instruction of a frame stands.
fn place_of(program: &Program, frame: &Frame) -> Option<Evidence> {
    let Activity::Method { class, index } = frame.activity else {
        return None;
    };
    let Some(Implementation::Code(code)) = program.implementation(class, index) else {
        return None;
    };
    let item = code.body.instructions().get(frame.place as usize)?;
    Some(Evidence {
        class,
        index,
        pc: item.pc,
    })
}

/// How many elements the next instruction of a frame makes, where it is one that makes arrays.
fn elements_wanted(program: &Program, frame: &Frame) -> u64 {
    let Activity::Method { class, index } = frame.activity else {
        return 0;
    };
    match program.instruction(class, index, frame.place) {
        Some(Instruction::NewArray(_) | Instruction::NewReferenceArray(_)) => {
            match frame.cells.top_int() {
                Ok(count) => u64::from(count.max(0).cast_unsigned()),
                Err(_) => 0,
            }
        }
        _ => 0,
    }
}

/// How many elements a class made with its objects from a place on.
fn elements_from(shared: &Shared, class: u32, place: usize) -> u64 {
    let Some(objects) = shared.pool(Maker::Class(class)) else {
        return 0;
    };
    let mut elements = 0u64;
    for later in place..objects.len() {
        if let Some(held) = objects.at(later) {
            if let ClassId::Array(_) = held.1.class.id() {
                elements = elements.saturating_add(held.1.slots.len() as u64);
            }
        }
    }
    elements
}

/// One instruction of the initializer of a class, and what it costs; nothing where the initializer is stopped at it.
pub(crate) fn pay(
    alloc: Global,
    program: &Program,
    class: u32,
    frames: &mut Frames,
    shared: &mut Shared,
) -> Result<Option<u64>, AllocError>
    requires { IsSome frames.old.segment }
{
    let count = match shared.pool(Maker::Class(class)) {
        Some(objects) => objects.len(),
        None => 0,
    };
    let mut printed = Output::new(alloc);
    match effect(alloc, program, frames, shared, &mut printed)? {
        Effect::Next => Ok(Some(elements_from(shared, class, count).saturating_add(1))),
        _ => Ok(None),
    }
}

/// Where the first instruction stands that the initializer of a class can't pay with so much, or at which it is
/// stopped. Each costs 1 at least.
fn run_within(
    alloc: Global,
    program: &Program,
    class: u32,
    budget: u64,
    frames: &mut Frames,
    shared: &mut Shared,
) -> Result<Option<Evidence>, AllocError> {
    let mut left = budget;
    for _ in 0..budget.saturating_add(1) {
        let Some(segment) = &frames.segment else {
            return Ok(None);
        };
        let place = place_of(program, &segment.innermost);
        if left <= elements_wanted(program, &segment.innermost) {
            return Ok(place);
        }
        match pay(alloc, program, class, frames, shared)? {
            Some(cost) if cost <= left => left = left.saturating_sub(cost),
            _ => return Ok(place),
        }
    }
    Ok(None)
}

/// Where the first instruction stands that the initializer of a class can't pay with so much, from the start of an
/// image, or at which it is stopped; nothing where it comes to its end. It is run as threads run it.
///
/// # Errors
/// Where memory runs out.
pub fn stop_within(
    alloc: Global,
    image: &Image,
    class: u32,
    budget: u64,
) -> Result<Option<Evidence>, AllocError> {
    let program = image.program();
    let Some(frame) = initializer_frame(alloc, program, class)? else {
        return Ok(None);
    };
    let mut shared = begun(alloc, image, class)?;
    let mut frames = stack_on(alloc, class, frame)?;
    run_within(alloc, program, class, budget, &mut frames, &mut shared)
}
