//! One thread of a run.

ghost use Rattle.std.specs.Prelude.{◌≡◌, ◌<◌, length};

use crate::committing::Front;
use crate::desk::{Next, Session};
use crate::front::{FrontRun, FrontStretch};
use crate::gate::{Gate, ask};
use crate::known::KnownClasses;
use crate::made::{Made, make};
use crate::pace::Pace;
use crate::run_lock::RunLock;
use crate::stretch_worker::work_by_stretches;
use crate::tools::Tools;
use program::Program;
use sinks::Sink;
use std::alloc::Global;
use std::sync::Wait;
use vm_state::frame::Frame;

/// Runs one thread to its end, or to that of the run: stretch by stretch, or further at once where its gate is open.
pub(crate) fn work<O: Session, S: Sink + Drop, G: Gate, R: Wait>(
    rt: &R,
    alloc: Global,
    program: &Program,
    lock: &RunLock<O, S>,
    gate: &G,
    thread: u32,
)
    requires program { program.now ≡ O.program }
    requires thread { thread < length O.start.threads }
{
    if gate.is_open() {
        work_far(rt, alloc, program, lock, gate, thread)
    } else {
        work_by_stretches(rt, alloc, program, lock, gate, thread)
    }
}

/// Runs one thread whose gate is open.
fn work_far<O: Session, S: Sink + Drop, G: Gate, R: Wait>(
    rt: &R,
    alloc: Global,
    program: &Program,
    lock: &RunLock<O, S>,
    gate: &G,
    thread: u32,
)
    requires program { program.now ≡ O.program }
    requires thread { thread < length O.start.threads }
{
    let mut job = 0u64;
    let mut tools = Tools::<O>::new(alloc);
    let mut known = KnownClasses::none();
    let mut pace = Pace::new();
    let locked = LockedState { lock, thread };
    let mut front = lock.enter(rt).look(alloc, program, thread, known.is_old());
    for _ in rt.forever() {
        let Some(Front { frame, done }) = front else {
            lock.wake_all();
            return;
        };
        pace.look(&frame);
        ask(gate, thread, job);
        known.renew(done, program.given_count());
        let (done, long) = (known.done(), pace.is_long());
        let made = make(alloc, program, &mut tools, thread, frame, done, long);
        gate.done(thread, job);
        let Ok(made) = made else {
            lock.enter(rt).end_for_memory();
            lock.wake_all();
            return;
        };
        let is_run = matches!(made, Made::Run(_, _));
        let wants = Wants {
            most: pace.steps(),
            asks: known.is_old(),
        };
        let (moves, next) = locked.commit(rt, alloc, program, &mut tools, made, wants);
        if moves {
            job = job.wrapping_add(1);
        } else if is_run {
            pace.shorten();
        }
        if next.is_some() && pace.is_over(lock.are_asking()) {
            lock.let_in(rt);
        }
        front = next;
    }
}

/// What a thread wants of a commit.
#[derive(Clone, Copy)]
struct Wants {
    /// How many steps it goes on for at most, under the lock.
    most: u64,
    /// Whether it asks for the classes that are initialized.
    asks: bool,
}

/// The lock of a run, and one of its threads.
#[derive(Drop)]
struct LockedState<'a, O: Session, S: Sink> {
    lock: &'a RunLock<O, S>,
    thread: u32,
}

impl<'a, O: Session, S: Sink + Drop> LockedState<'a, O, S> {
    /// Commits what a thread made, and answers whether it has moved or leaves, and what it takes along if it goes on.
    fn commit<R: Wait>(
        &self,
        rt: &R,
        alloc: Global,
        program: &Program,
        tools: &mut Tools<O>,
        made: Made<O>,
        wants: Wants,
    ) -> (bool, Option<Front>)
        requires program { program.now ≡ O.program }
        requires thread { self.now.thread < length O.start.threads }
    {
        match made {
            Made::Stretch(stretch) => {
                self.commit_stretch(rt, alloc, program, tools, stretch, wants)
            }
            Made::Run(run, end) => self.commit_run(rt, alloc, program, run, end),
        }
    }

    /// Commits a stretch, if there is one: the lock is taken once for that and for what the thread takes along. One
    /// that waits sleeps until another one has moved or the run is over, and whoever moves wakes those that sleep.
    fn commit_stretch<R: Wait>(
        &self,
        rt: &R,
        alloc: Global,
        program: &Program,
        tools: &mut Tools<O>,
        made: Option<FrontStretch<O>>,
        wants: Wants,
    ) -> (bool, Option<Front>)
        requires program { program.now ≡ O.program }
        requires thread { self.now.thread < length O.start.threads }
    {
        let thread = self.thread;
        let mut guard = self.lock.enter(rt);
        let Wants { most, asks } = wants;
        let front = match guard.commit(alloc, program, tools, thread, made, most) {
            Next::Sleep => {
                let mut guard = self.lock.sleep(rt, guard);
                return (false, guard.look(alloc, program, thread, asks));
            }
            Next::Leave | Next::End => return (true, None),
            Next::Again => return (false, guard.look(alloc, program, thread, asks)),
            Next::Moved => guard.look(alloc, program, thread, asks),
        };
        self.lock.wake(guard);
        (true, front)
    }

    /// Commits a run. The thread takes along the copy that it made of the frame where it ended. Nobody waits for local
    /// instructions, so none is woken.
    fn commit_run<R: Wait>(
        &self,
        rt: &R,
        alloc: Global,
        program: &Program,
        run: FrontRun<O>,
        end: Frame,
    ) -> (bool, Option<Front>)
        requires { self.now.thread < length O.start.threads }
    {
        let mut guard = self.lock.enter(rt);
        match guard.commit_run(alloc, self.thread, run) {
            Next::Moved => {
                let frame = Some(end);
                (true, Some(Front { frame, done: None }))
            }
            Next::Again => (false, guard.look(alloc, program, self.thread, false)),
            Next::Sleep | Next::Leave | Next::End => (true, None),
        }
    }
}
