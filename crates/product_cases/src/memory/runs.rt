//! Calls that run a thread.

use super::page::Page;
use super::programs::start_of;
use classfile::ClassName;
use cli::entries_of;
use init_engine::starting::lazy_shared;
use init_engine::{Output, Turn, World, turns};
use machine::{Effect, Frames, Shared, effect};
use program::Program;
use std::alloc::{AllocError, Global};
use std::io::Write;
use vm_state::classes::Fields;
use vm_state::heap::Pool;

/// No run here takes as many steps.
const MANY: u64 = 10_000;

/// Makes a call twice over the same things lent.
pub fn call<W: Write>(page: &mut Page<'_, W>, name: &str, program: &Program) {
    let Ok(entries) = entries_of(page.alloc, "Main,Work,Main") else {
        return page.give_up();
    };
    make(page, name, program, &entries);
    make(page, name, program, &entries);
}

fn make<W: Write>(page: &mut Page<'_, W>, name: &str, program: &Program, entries: &[ClassName]) {
    match name {
        "World::lazy" => start_at(page, program, entries),
        "step" => step_main(page, program),
        "effect" => effect_plain(page, program),
        "turns" | "seen" => turn_main(page, name, program),
        _ => page.give_up(),
    }
}

fn start_at<W: Write>(page: &mut Page<'_, W>, program: &Program, entries: &[ClassName]) {
    page.ask("World::lazy");
    match World::lazy(page.alloc, program, entries) {
        Ok(world) => page.value(world.thread_count() as usize),
        Err(fault) => page.line(&fault),
    }
}

/// Steps of a thread. Where memory is refused, the world and how many steps it has taken are as before that one: those
/// that are left lead to the same.
fn step_main<W: Write>(page: &mut Page<'_, W>, program: &Program) {
    match start_of(page.alloc, program, "Main") {
        Some(mut world) => step_from(page, program, &mut world),
        None => page.give_up(),
    }
}

fn step_from<W: Write>(page: &mut Page<'_, W>, program: &Program, world: &mut World) {
    let mut count = 0u64;
    page.ask("step");
    match step_on(page.alloc, program, world, &mut count) {
        Ok(()) => page.value(0),
        Err(_) => page.memory(),
    }
    if step_on(page.alloc, program, world, &mut count).is_err() {
        page.give_up();
    }
    page.line(&count);
    page.world(world);
}

/// Steps of the first thread up to the turn in which it has none. They are counted.
fn step_on(
    alloc: Global,
    program: &Program,
    world: &mut World,
    count: &mut u64,
) -> Result<(), AllocError> {
    for _ in *count..MANY {
        if world.thread_count() == 0 {
            return Ok(());
        }
        match world.step(alloc, program, 0)? {
            Turn::Moved => *count = count.saturating_add(1),
            _ => return Ok(()),
        }
    }
    Ok(())
}

/// The turns of two threads, or what is seen after them.
fn turn_main<W: Write>(page: &mut Page<'_, W>, name: &str, program: &Program) {
    let Some(world) = start_of(page.alloc, program, "Main,Work") else {
        return page.give_up();
    };
    if name == "turns" {
        page.ask("turns");
    }
    match turns(page.alloc, program, world, MANY) {
        Ok((_, schedule)) if name == "turns" => page.value(schedule.len()),
        Ok((world, _)) => see_world(page, world),
        Err(_) => page.memory(),
    }
}

fn see_world<W: Write>(page: &mut Page<'_, W>, world: World) {
    page.ask("seen");
    match world.into_seen(page.alloc) {
        Ok(seen) => page.value(seen.printed.count()),
        Err(_) => page.memory(),
    }
}

/// What threads share where each class is initialized, and its static fields are as they begin.
fn initialized(alloc: Global, program: &Program) -> Result<Shared, AllocError> {
    let Ok(mut shared) = lazy_shared(alloc, program, 1) else {
        return Err(AllocError);
    };
    for class in 0..program.given_count() {
        let Ok(()) = shared.initialize(alloc, class, Fields::new(alloc), Pool::new(alloc)) else {
            return Err(AllocError);
        };
    }
    Ok(shared)
}

/// The frames of a thread of `Plain` at its `main`.
fn frames_at_main(alloc: Global, program: &Program) -> Option<Frames> {
    match start_of(alloc, program, "Plain") {
        Some(mut world) => frames_from(alloc, program, &mut world),
        None => None,
    }
}

fn frames_from(alloc: Global, program: &Program, world: &mut World) -> Option<Frames> {
    for _ in 0..MANY {
        if world.thread_count() == 0 {
            return None;
        }
        let Ok(frames) = world.frames(alloc, 0) else {
            return None;
        };
        if frames.segment.is_some() && frames.levels.is_none() {
            return Some(frames);
        }
        if world.step(alloc, program, 0).is_err() {
            return None;
        }
    }
    None
}

/// Instructions of a thread. Where memory is refused, all is as before that one: those that are left print the same.
fn effect_plain<W: Write>(page: &mut Page<'_, W>, program: &Program) {
    match frames_at_main(page.alloc, program) {
        Some(mut frames) => effect_from(page, program, &mut frames),
        None => page.give_up(),
    }
}

fn effect_from<W: Write>(page: &mut Page<'_, W>, program: &Program, frames: &mut Frames) {
    let Ok(mut shared) = initialized(page.alloc, program) else {
        return page.give_up();
    };
    let mut printed = Output::new(page.alloc);
    effect_on(page, program, frames, &mut shared, &mut printed);
    page.seen(&[], &printed);
}

fn effect_on<W: Write>(
    page: &mut Page<'_, W>,
    program: &Program,
    frames: &mut Frames,
    shared: &mut Shared,
    printed: &mut Output,
) {
    page.ask("effect");
    match effects(page.alloc, program, frames, shared, printed) {
        Ok(()) => page.value(0),
        Err(_) => page.memory(),
    }
    if effects(page.alloc, program, frames, shared, printed).is_err() {
        page.give_up();
    }
}

/// Instructions of a thread, up to one that ends it or that it can't do.
fn effects(
    alloc: Global,
    program: &Program,
    frames: &mut Frames,
    shared: &mut Shared,
    printed: &mut Output,
) -> Result<(), AllocError> {
    for _ in 0..MANY {
        if frames.segment.is_none() {
            return Ok(());
        }
        match effect(alloc, program, frames, shared, printed)? {
            Effect::Next | Effect::Raise | Effect::Print(_) => {}
            _ => return Ok(()),
        }
    }
    Ok(())
}
