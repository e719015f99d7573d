//! One thread of a run whose gate is asked.

ghost use Rattle.std.specs.Prelude.{◌≡◌, ◌<◌, length};

use crate::committing::Taken;
use crate::desk::{Next, Session};
use crate::gate::{Gate, ask};
use crate::run_lock::RunLock;
use crate::running::stretch;
use crate::stretch::Stretch;
use program::Program;
use sinks::Sink;
use std::alloc::Global;
use std::sync::Wait;

/// Runs one thread to its end, or to that of the run, stretch by stretch: it takes its frames and the classes that are
/// initialized, asks the gate, makes a stretch outside the lock, tells the gate, and commits.
pub(crate) fn work_by_stretches<O: Session, S: Sink + Drop, G: Gate, R: Wait>(
    rt: &R,
    alloc: Global,
    program: &Program,
    lock: &RunLock<O, S>,
    gate: &G,
    thread: u32,
)
    requires program { program.now ≡ O.program }
    requires thread { thread < length O.start.threads }
{
    let mut job = 0u64;
    let mut taken = lock.enter(rt).take(alloc, program, thread);
    for _ in rt.forever() {
        let Some(Taken { frames, done }) = taken else {
            lock.wake_all();
            return;
        };
        ask(gate, thread, job);
        let made = stretch::<O>(alloc, program, frames, &done);
        gate.done(thread, job);
        let Ok(made) = made else {
            lock.enter(rt).end_for_memory();
            lock.wake_all();
            return;
        };
        let (moves, next) = commit(rt, alloc, program, lock, thread, made);
        if moves {
            job = job.wrapping_add(1);
        }
        taken = next;
    }
}

/// Commits a stretch, and answers whether its thread has moved or leaves, and what it takes along if it goes on. One
/// that waits sleeps until another one has moved or the run is over, and whoever moves wakes those that sleep.
fn commit<O: Session, S: Sink + Drop, R: Wait>(
    rt: &R,
    alloc: Global,
    program: &Program,
    lock: &RunLock<O, S>,
    thread: u32,
    made: Stretch<O>,
) -> (bool, Option<Taken>)
    requires program { program.now ≡ O.program }
    requires thread { thread < length O.start.threads }
{
    let mut guard = lock.enter(rt);
    let taken = match guard.commit_stretch(alloc, program, thread, made) {
        Next::Sleep => {
            let mut guard = lock.sleep(rt, guard);
            return (false, guard.take(alloc, program, thread));
        }
        Next::Leave | Next::End => return (true, None),
        Next::Again => return (false, guard.take(alloc, program, thread)),
        Next::Moved => guard.take(alloc, program, thread),
    };
    lock.wake(guard);
    (true, taken)
}
