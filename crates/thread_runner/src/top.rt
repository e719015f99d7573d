//! Frames in the place of a thread's innermost one.

ghost use Rattle.std.specs.Prelude.{◌≡◌, ◌<◌, ◌+◌, ◌∷◌, ◌++◌, true, false, List, Some, IfOk, OnErr, length};
ghost use Rattle.std.specs.Prelude.{[], reverse, drop, slice_get, MatchOption};
ghost use Rattle.vm_state.specs.declared.frame.Frame.{Frame as Held};
ghost use Rattle.vm_state.specs.declared.initialization.Level.{Level};
ghost use Rattle.vm_state.specs.Segments.{frames_of};
ghost use Rattle.semantics.specs.Steps.{Going};
ghost use Rattle.machine.specs.Effects.{going};
ghost use Rattle.machine.specs.Linked.{program_of};
ghost use Rattle.init_engine.specs.Stacks.{front_of, with_thread};
ghost use Rattle.init_engine.specs.Turns.{IsTurn, Prints, world_of};
ghost use Rattle.thread_runner.specs.Fronts.{with_top};

use init_engine::{Turn, World};
use program::Program;
use std::alloc::{AllocError, Global};
use std::mem;
use vm_state::frame::{Frame, FrameList, Segment};
use vm_state::initialization::Frames;

/// The frame that others took the place of, and how many of them are callers.
#[derive(Drop)]
pub(crate) struct Under {
    innermost: Frame,
    above: u64,
}

/// Takes the `count` innermost callers away.
fn drop_callers(callers: &mut FrameList, count: u64)
    ensures { callers.new ≡ drop count callers.old }
{
    for dropped in 0..count {
        let _ = callers.pop();
    }
}

/// Puts a frame on, as it is, and answers whether there was memory; else nothing has changed.
fn put_caller(callers: &mut FrameList, frame: Frame) -> bool
    ensures yes { result ≡ true → callers.new ≡ frame ∷ callers.old }
    ensures no { result ≡ false → callers.new ≡ callers.old }
{
    match callers.push_caller(frame, 0) {
        Ok(()) => true,
        Err(_) => false,
    }
}

/// Frames in the other order, the outermost first.
///
/// # Errors
/// `AllocError` where memory is refused.
fn reversed(alloc: Global, frames: FrameList) -> Result<FrameList, AllocError>
    ensures { IfOk result (λ r. r ≡ reverse frames) }
{
    let mut left = frames;
    let mut reversed = FrameList::none(alloc);
    'reversing: while let Some(frame) = left.pop() {
        if !put_caller(&mut reversed, frame) {
            return Err(AllocError);
        }
    }
    Ok(reversed)
}

/// Puts one of some frames on, after `count`. It answers how many they are then, or none where memory is refused;
/// nothing has changed then.
fn put_next(callers: &mut FrameList, frame: Frame, count: u64) -> Option<u64>
    ensures { MatchOption result (callers.new ≡ callers.old)
        (λ n. (callers.new ≡ frame ∷ callers.old) × (n ≡ count + 1)) }
{
    if count == u64::MAX {
        return None;
    }
    if put_caller(callers, frame) {
        Some(count + 1)
    } else {
        None
    }
}

/// Puts frames on callers, the first one first. It answers how many they are.
///
/// # Errors
/// `AllocError` where memory is refused; nothing has changed then.
fn put_callers(callers: &mut FrameList, outermost: FrameList) -> Result<u64, AllocError>
    ensures put { IfOk result (λ n. callers.new ≡ reverse outermost ++ callers.old) }
    ensures count { IfOk result (λ n. n ≡ length outermost) }
    ensures err { OnErr result (callers.new ≡ callers.old) }
{
    let mut left = outermost;
    let mut count = 0u64;
    'putting: while let Some(frame) = left.pop() {
        match put_next(callers, frame, count) {
            Some(more) => count = more,
            None => {
                drop_callers(callers, count);
                return Err(AllocError);
            }
        }
    }
    Ok(count)
}

/// Puts frames in the place of the innermost one.
///
/// # Errors
/// `AllocError` where memory is refused; nothing has changed then.
fn put_segment(alloc: Global, segment: &mut Segment, top: Segment) -> Result<Under, AllocError>
    ensures put { IfOk result (λ u. segment.new
        ≡ record { innermost = top.innermost; callers = top.callers ++ segment.old.callers }) }
    ensures under { IfOk result
        (λ u. u ≡ record { innermost = segment.old.innermost; above = length top.callers }) }
    ensures err { OnErr result (segment.new ≡ segment.old) }
{
    let Segment { innermost, callers } = top;
    match reversed(alloc, callers) {
        Ok(outermost) => match put_callers(&mut segment.callers, outermost) {
            Ok(above) => {
                let innermost = mem::replace(&mut segment.innermost, innermost);
                Ok(Under { innermost, above })
            }
            Err(error) => Err(error),
        },
        Err(error) => Err(error),
    }
}

/// Puts frames in the place of a thread's innermost one, where it has one.
///
/// # Errors
/// `AllocError` where memory is refused; nothing has changed then.
fn put_top(alloc: Global, frames: &mut Frames, top: Segment) -> Result<Under, AllocError>
    ensures put { (f : Held) (fs : List Held) (ls : List Level) → going frames.old ≡ Going (f ∷ fs) ls
        → IfOk result (λ u. going frames.new ≡ Going (frames_of top ++ fs) ls) }
    ensures under { (f : Held) (fs : List Held) (ls : List Level) → going frames.old ≡ Going (f ∷ fs) ls
        → IfOk result (λ u. u ≡ record { innermost = f; above = length top.callers }) }
    ensures thread { frames.new.thread ≡ frames.old.thread }
    ensures err { OnErr result (going frames.new ≡ going frames.old) }
{
    let Some(segment) = &mut frames.segment else {
        return Err(AllocError);
    };
    put_segment(alloc, segment, top)
}

/// Puts the frame back that others took the place of.
fn take_segment(segment: &mut Segment, under: Under)
    ensures { segment.new ≡ record { innermost = under.innermost; callers = drop under.above segment.old.callers } }
{
    let Under { innermost, above } = under;
    drop_callers(&mut segment.callers, above);
    segment.innermost = innermost;
}

/// Puts the frame back that others took the place of, where the thread has frames.
fn take_top(frames: &mut Frames, under: Under)
    ensures back { (f : Held) (fs : List Held) (ls : List Level) → going frames.old ≡ Going (f ∷ fs) ls
        → going frames.new ≡ Going (under.innermost ∷ drop under.above fs) ls }
    ensures thread { frames.new.thread ≡ frames.old.thread }
{
    let Some(segment) = &mut frames.segment else {
        return;
    };
    take_segment(segment, under);
}

/// The stack of a thread without frames.
fn no_frames(thread: u32) -> Frames
    ensures going { going result ≡ Going [] [] }
    ensures thread { result.thread ≡ thread }
{
    Frames {
        thread,
        segment: None,
        levels: None,
    }
}

/// Puts frames in the place of the innermost one of a thread.
///
/// # Errors
/// `AllocError` where memory is refused; the world is as it was.
pub(crate) fn put_in(
    alloc: Global,
    world: &mut World,
    thread: u32,
    top: Segment,
) -> Result<Under, AllocError>
    requires thread { thread < length world.old.threads }
    requires front { (f : Held) × (front_of (world_of world.old) thread ≡ Some f) }
    ensures put { (f : Held) (fs : List Held) (ls : List Level)
        → slice_get (world_of world.old).threads thread ≡ Some (Going (f ∷ fs) ls)
        → IfOk result (λ u. world_of world.new
        ≡ with_thread (world_of world.old) thread (Going (frames_of top ++ fs) ls)) }
    ensures under { (f : Held) (fs : List Held) (ls : List Level)
        → slice_get (world_of world.old).threads thread ≡ Some (Going (f ∷ fs) ls)
        → IfOk result (λ u. u ≡ record { innermost = f; above = length top.callers }) }
    ensures err { OnErr result (world_of world.new ≡ world_of world.old) }
    ensures threads { length world.new.threads ≡ length world.old.threads }
    ensures printed { world.new.printed ≡ world.old.printed }
{
    let mut frames = no_frames(thread);
    world.exchange(thread, &mut frames);
    let put = put_top(alloc, &mut frames, top);
    world.exchange(thread, &mut frames);
    put
}

/// Puts the frame of a thread back that others took the place of.
fn take_in(world: &mut World, thread: u32, under: Under)
    requires thread { thread < length world.old.threads }
    ensures back { (f : Held) (fs : List Held) (ls : List Level)
        → slice_get (world_of world.old).threads thread ≡ Some (Going (f ∷ fs) ls) → world_of world.new
        ≡ with_thread (world_of world.old) thread (Going (under.innermost ∷ drop under.above fs) ls) }
    ensures threads { length world.new.threads ≡ length world.old.threads }
{
    let mut frames = no_frames(thread);
    world.exchange(thread, &mut frames);
    take_top(&mut frames, under);
    world.exchange(thread, &mut frames);
}

/// Makes a step of a thread, where there is one, with frames in the place of its innermost one.
///
/// # Errors
/// `AllocError` where memory is refused; the world is as it was.
pub(crate) fn advance_top(
    alloc: Global,
    world: &mut World,
    program: &Program,
    thread: u32,
    top: Segment,
) -> Result<Turn, AllocError>
    requires thread { thread < length world.old.threads }
    requires front { (f : Held) × (front_of (world_of world.old) thread ≡ Some f) }
    ensures far { IfOk result (λ turn. IsTurn (program_of program.now)
        (with_top (world_of world.old) thread (frames_of top)) thread turn (world_of world.new)) }
    ensures threads { length world.new.threads ≡ length world.old.threads }
    ensures prints { IfOk result (λ turn. Prints turn world.old.printed world.new.printed) }
    ensures memory { OnErr result (world_of world.new ≡ world_of world.old) }
{
    match put_in(alloc, world, thread, top) {
        Ok(under) => match world.step(alloc, program, thread) {
            Ok(turn) => Ok(turn),
            Err(error) => {
                take_in(world, thread, under);
                Err(error)
            }
        },
        Err(error) => Err(error),
    }
}
