//! The lock of a run, who asks for it, and where threads sleep.

ghost use Rattle.std.specs.Prelude.{IfErr};
ghost use Rattle.thread_runner.specs.Answers.{HavePrintsGoneOut};

use crate::desk::{Desk, Session};
use crate::run_state::RunState;
use sinks::Sink;
use std::sync::atomic::{AtomicU64, Ordering};
use std::sync::{Condvar, Mutex, MutexGuard, Wait};

/// The state of a run under its lock. Whoever takes the lock says before that it asks for it, and wakes those who let
/// another one in.
#[derive(Drop)]
pub(crate) struct RunLock<O: Session, S: Sink> {
    state: Mutex<RunState<O, S>>,
    /// Where threads sleep until another one has moved.
    moved: Condvar,
    /// Where those sleep who let another one in, until it has the lock.
    entered: Condvar,
    /// How many threads ask for the lock, or wake up and will. Under the lock each of them is one that will have it.
    asking: AtomicU64,
}

impl<O: Session, S: Sink + Drop> RunLock<O, S> {
    /// Before the threads are started.
    pub(crate) fn new(desk: Desk<O, S>) -> RunLock<O, S> {
        RunLock {
            state: Mutex::new(RunState::new(desk)),
            moved: Condvar::new(),
            entered: Condvar::new(),
            asking: AtomicU64::new(0),
        }
    }

    /// Whether others ask for the lock.
    pub(crate) fn are_asking(&self) -> bool {
        self.asking.load(Ordering::SeqCst) > 0
    }

    /// Takes the lock.
    pub(crate) fn enter<'a, R: Wait>(&'a self, rt: &R) -> MutexGuard<'a, RunState<O, S>> {
        self.asking.fetch_add(1, Ordering::SeqCst);
        let guard = self.state.lock(rt);
        self.asking.fetch_sub(1, Ordering::SeqCst);
        self.entered_by(guard)
    }

    /// Notes that a thread has the lock now, and wakes those that let it in.
    fn entered_by<'a>(
        &self,
        guard: MutexGuard<'a, RunState<O, S>>,
    ) -> MutexGuard<'a, RunState<O, S>> {
        let mut guard = guard;
        let waking = guard.waits.enter();
        if waking > 0 {
            self.asking.fetch_add(waking, Ordering::SeqCst);
            self.entered.notify_all();
        }
        guard
    }

    /// Lets one thread in, if others ask for the lock, and sleeps until it has it. It has it, since whoever asks will,
    /// and counts this one as asking then.
    pub(crate) fn let_in<R: Wait>(&self, rt: &R) {
        let mut guard = self.enter(rt);
        if !self.are_asking() {
            return;
        }
        let entries = guard.waits.begin_let_in();
        let guard = self
            .entered
            .wait_while(rt, guard, |state| state.waits.is_last_entry(entries));
        self.asking.fetch_sub(1, Ordering::SeqCst);
        let _guard = self.entered_by(guard);
    }

    /// Sleeps until another thread has moved or the run is over.
    pub(crate) fn sleep<'a, R: Wait>(
        &self,
        rt: &R,
        guard: MutexGuard<'a, RunState<O, S>>,
    ) -> MutexGuard<'a, RunState<O, S>> {
        let mut guard = guard;
        let moves = guard.waits.begin_sleep();
        let mut guard = self
            .moved
            .wait_while(rt, guard, |state| state.is_same(moves));
        if guard.waits.end_sleep() {
            self.asking.fetch_sub(1, Ordering::SeqCst);
        }
        self.entered_by(guard)
    }

    /// Lets go of the lock after a commit that moved a thread, and wakes those that sleep, if there are any that do not
    /// wake up already: to wake nobody is a call of the system, too.
    pub(crate) fn wake(&self, guard: MutexGuard<'_, RunState<O, S>>) {
        let mut guard = guard;
        let more = guard.waits.wake();
        self.asking.fetch_add(more, Ordering::SeqCst);
        drop(guard);
        if more > 0 {
            self.moved.notify_all();
        }
    }

    /// Wakes those that sleep, since the run is over.
    pub(crate) fn wake_all(&self) {
        self.moved.notify_all();
    }

    /// Once the threads were joined: the desk, and whether memory was refused.
    ///
    /// # Errors
    /// The sink, where memory was refused in the midst of steps.
    pub(crate) fn into_desk(self) -> Result<(Desk<O, S>, bool), S>
        ensures { IfErr result (λ s. HavePrintsGoneOut O.program O.start O.before (S.got s)) }
    {
        let RunLock {
            state,
            moved: _,
            entered: _,
            asking: _,
        } = self;
        state.into_inner().into_desk()
    }
}
