//! What a thread of a run takes from the desk, and what it commits there.

ghost use Rattle.std.specs.Prelude.{◌≡◌, ◌<◌, false, length};

use crate::advance::Commit;
use crate::desk::{Desk, Next, Session};
use crate::done_set::DoneSet;
use crate::front::{FrontRun, FrontStretch};
use crate::monitors::owns_of_locals;
use crate::pace::sum_of;
use crate::stretch::Stretch;
use program::Program;
use sinks::Sink;
use std::alloc::{AllocError, Global};
use vm_state::frame::Frame;
use vm_state::initialization::Frames;

/// What a thread takes along from under the lock: its innermost frame, if there is one, and the classes that are
/// initialized, if it asked for them.
#[derive(Drop)]
pub(crate) struct Front {
    pub frame: Option<Frame>,
    pub done: Option<DoneSet>,
}

/// What a thread whose gate is asked takes along: its frames, and the classes that are initialized.
#[derive(Drop)]
pub(crate) struct Taken {
    pub frames: Frames,
    pub done: DoneSet,
}

impl<O: Session, S: Sink> Desk<O, S> {
    /// The frames of a thread, and the classes that are initialized.
    pub(crate) fn take(
        &self,
        alloc: Global,
        program: &Program,
        thread: u32,
    ) -> Result<Taken, AllocError>
        requires { thread < length O.start.threads }
    {
        match self.book.frames(alloc, thread) {
            Ok(frames) => match self.book.done(alloc, program) {
                Ok(done) => Ok(Taken { frames, done }),
                Err(error) => Err(error),
            },
            Err(error) => Err(error),
        }
    }

    /// A commit of a stretch, and what it printed into the sink.
    pub(crate) fn commit_stretch(
        &mut self,
        alloc: Global,
        program: &Program,
        thread: u32,
        made: Stretch<O>,
    ) -> Result<Next, AllocError>
        requires program { program.now ≡ O.program }
        requires thread { thread < length O.start.threads }
    {
        if self.failed {
            return Ok(Next::End);
        }
        match self.book.commit(alloc, program, thread, made) {
            Ok(answer) => Ok(self.follow(program, answer, false)),
            Err(error) => Err(error),
        }
    }

    /// The classes that are initialized, if they are asked for.
    fn done(
        &self,
        alloc: Global,
        program: &Program,
        asks: bool,
    ) -> Result<Option<DoneSet>, AllocError> {
        if !asks {
            return Ok(None);
        }
        match self.book.done(alloc, program) {
            Ok(done) => Ok(Some(done)),
            Err(error) => Err(error),
        }
    }

    /// The innermost frame of a thread, and the classes that are initialized, if they are asked for.
    pub(crate) fn front(
        &self,
        alloc: Global,
        program: &Program,
        thread: u32,
        asks: bool,
    ) -> Result<Front, AllocError>
        requires { thread < length O.start.threads }
    {
        match self.book.front(alloc, thread) {
            Ok(frame) => match self.done(alloc, program, asks) {
                Ok(done) => Ok(Front { frame, done }),
                Err(error) => Err(error),
            },
            Err(error) => Err(error),
        }
    }

    /// A sum of the local variables of a thread's innermost frame, by which to see whether they stand.
    pub(crate) fn sum_of_locals(&self, thread: u32) -> u64
        requires { thread < length O.start.threads }
    {
        match self.book.world().innermost(thread) {
            Some(frame) => sum_of(frame),
            None => 0,
        }
    }

    /// Whether a thread is in a monitor, as far as its innermost frame tells.
    pub(crate) fn is_in_monitor(&self, thread: u32) -> bool
        requires { thread < length O.start.threads }
    {
        let world = self.book.world();
        match world.innermost(thread) {
            Some(frame) => owns_of_locals(world.shared(), thread, frame),
            None => false,
        }
    }

    /// A commit on a front, and what it printed into the sink.
    pub(crate) fn commit(
        &mut self,
        alloc: Global,
        program: &Program,
        thread: u32,
        made: Option<FrontStretch<O>>,
    ) -> Result<Next, AllocError>
        requires program { program.now ≡ O.program }
        requires thread { thread < length O.start.threads }
    {
        if self.failed {
            return Ok(Next::End);
        }
        match self.book.commit_front(alloc, program, thread, made) {
            Ok(answer) => Ok(self.follow(program, answer, true)),
            Err(error) => Err(error),
        }
    }

    /// A commit of a run of unshared instructions alone: nothing was printed, and no other thread waits for it. Where
    /// the run is too long for what is left up to the limit, its thread begins anew.
    pub(crate) fn commit_run(
        &mut self,
        alloc: Global,
        thread: u32,
        run: FrontRun<O>,
    ) -> Result<Next, AllocError>
        requires { thread < length O.start.threads }
    {
        match self.book.commit_run(alloc, thread, run) {
            Ok(Commit::Moved) => Ok(Next::Moved),
            Ok(Commit::Full) if self.book.is_full() => Ok(Next::End),
            Ok(_) => Ok(Next::Again),
            Err(error) => Err(error),
        }
    }

    /// What a thread does after a commit. Where `open` says that nobody asks the gates of threads, the last one goes on
    /// alone.
    fn follow(&mut self, program: &Program, answer: Commit, open: bool) -> Next
        requires { self.old.failed ≡ false }
    {
        match answer {
            Commit::Full => Next::End,
            Commit::Stale => Next::Again,
            Commit::Moved => {
                if self.send() && !self.is_left_to_last(open) {
                    Next::Moved
                } else {
                    Next::End
                }
            }
            Commit::Waiting => {
                if self.book.world().stuck(program) {
                    Next::End
                } else {
                    Next::Sleep
                }
            }
            Commit::Ended => {
                if self.book.world().stuck(program) || self.is_left_to_last(open) {
                    Next::End
                } else {
                    Next::Leave
                }
            }
        }
    }
}
