//! What the initializers of the classes of an image cost, as threads run them: guesses, at which the search for what
//! they cost at build time begins.

use crate::stops::{pay, put_region, stack_on};
use machine::entering::{blank_classes, initializer_frame};
use object_graph::Image;
use program::Program;
use std::alloc::{AllocError, Global};
use vm_state::frame::Frame;
use vm_state::heap::Heap;
use vm_state::initialization::Frames;
use vm_state::shared::Shared;

/// How many instructions of one initializer are counted at most.
const MOST: u32 = 100_000;

/// What an initializer costs, as far as it is counted.
fn count_run(
    alloc: Global,
    program: &Program,
    class: u32,
    frames: &mut Frames,
    shared: &mut Shared,
) -> Result<u64, AllocError> {
    let mut count = 0u64;
    for _ in 0..MOST {
        let Some(_) = &frames.segment else {
            return Ok(count);
        };
        match pay(alloc, program, class, frames, shared)? {
            Some(cost) => count = count.saturating_add(cost),
            None => return Ok(count),
        }
    }
    Ok(count)
}

/// The same of the initializer of a class that begins with this frame, while the region of the class is taken out.
fn count_from(
    alloc: Global,
    program: &Program,
    class: u32,
    frame: Frame,
    shared: &mut Shared,
) -> Result<u64, AllocError> {
    let (fields, objects) = shared.take(alloc, class);
    let statics = program.statics(class);
    shared.keep(alloc, class, statics.len())?;
    shared.begin(class, 0, statics);
    let mut frames = stack_on(alloc, class, frame)?;
    let count = count_run(alloc, program, class, &mut frames, shared)?;
    let _left = shared.take(alloc, class);
    shared.initialize(alloc, class, fields, objects)?;
    Ok(count)
}

/// What the initializer of a class costs, as far as it is counted, if the class has a region and an initializer.
fn count_of(
    alloc: Global,
    image: &Image,
    class: u32,
    shared: &mut Shared,
) -> Result<u64, AllocError> {
    if image.region(class).is_none() {
        return Ok(0);
    }
    match initializer_frame(alloc, image.program(), class)? {
        Some(frame) => count_from(alloc, image.program(), class, frame, shared),
        None => Ok(0),
    }
}

/// What threads share that start from an image.
fn shared_of(alloc: Global, image: &Image) -> Result<Shared, AllocError> {
    let mut shared = Shared::new(blank_classes(alloc, image.program())?, Heap::new(alloc));
    for class in 0..image.program().given_count() {
        put_region(alloc, image, class, &mut shared)?;
    }
    Ok(shared)
}

/// By class, what its initializer costs, as far as it is counted; 0 where it has no region.
pub(crate) fn counts(alloc: Global, image: &Image) -> Result<Vec<u64>, AllocError> {
    let mut shared = shared_of(alloc, image)?;
    let mut counts = Vec::new(alloc);
    for class in 0..image.program().given_count() {
        let count = count_of(alloc, image, class, &mut shared)?;
        counts.push(count)?;
    }
    Ok(counts)
}

/// The count of a class.
pub(crate) fn count_at(counts: &[u64], class: u32) -> u64 {
    match counts.get(class as usize) {
        Some(count) => *count,
        None => 0,
    }
}
