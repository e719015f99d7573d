//! How a run of threads stands, and what its threads do under its lock.

ghost use Rattle.std.specs.Prelude.{◌≡◌, ◌≢◌, ◌<◌, None, IfErr, length};
ghost use Rattle.thread_runner.specs.Answers.{HavePrintsGoneOut};

use crate::committing::{Front, Taken};
use crate::desk::{Desk, Next, Session};
use crate::front::{FrontRun, FrontStretch};
use crate::stretch::Stretch;
use crate::tools::Tools;
use crate::waits::Waits;
use program::Program;
use sinks::Sink;
use std::alloc::{AllocError, Global};
use std::marker::{Model, PhantomData};

/// The sink of a run of which memory was refused in the midst of steps.
#[derive(Drop)]
pub(crate) struct LostSink<O: Session, S: Sink> {
    sink: S,
    of: PhantomData<O>,
}

impl<O: Session, S: Sink> Model for LostSink<O, S> {
    ghost use Rattle.thread_runner.specs.Answers.{HavePrintsGoneOut};

    ghost Value = { Unit {0} };

    ghost view = { λ l. tt };

    // It has got the first prints of some run.
    ghost invariant = { λ l. HavePrintsGoneOut O.program O.start O.before (S.got l.sink) };
}

impl<O: Session, S: Sink> LostSink<O, S> {
    fn new(sink: S) -> LostSink<O, S>
        requires { HavePrintsGoneOut O.program O.start O.before (S.got sink) }
    {
        LostSink {
            sink,
            of: PhantomData,
        }
    }

    fn into_sink(self) -> S
        ensures { HavePrintsGoneOut O.program O.start O.before (S.got result) }
    {
        let LostSink { sink, of: _ } = self;
        sink
    }
}

/// What lies under the lock of a run.
#[derive(Drop)]
pub(crate) struct RunState<O: Session, S: Sink> {
    /// None where memory was refused in the midst of steps.
    desk: Option<Desk<O, S>>,
    /// Its sink then.
    lost: Option<LostSink<O, S>>,
    /// Who waits for other threads.
    pub(crate) waits: Waits,
    over: bool,
    memory: bool,
    ghost there: { desk ≡ None → lost ≢ None },
}

impl<O: Session, S: Sink + Drop> RunState<O, S> {
    /// Before the threads are started.
    pub(crate) fn new(desk: Desk<O, S>) -> RunState<O, S> {
        RunState {
            desk: Some(desk),
            lost: None,
            waits: Waits::none(),
            over: false,
            memory: false,
        }
    }

    /// Whether the run goes on and no commit has moved a thread since there were `moves` such commits.
    pub(crate) fn is_same(&self, moves: u64) -> bool {
        !self.over && self.waits.is_last_move(moves)
    }

    /// Ends the run.
    pub(crate) fn end(&mut self) {
        self.over = true;
    }

    /// Ends the run for want of memory.
    pub(crate) fn end_for_memory(&mut self) {
        self.memory = true;
        self.over = true;
    }

    /// The innermost frame of a thread, and the classes that are initialized, if it asks for them, while the run goes
    /// on.
    pub(crate) fn look(
        &mut self,
        alloc: Global,
        program: &Program,
        thread: u32,
        asks: bool,
    ) -> Option<Front>
        requires { thread < length O.start.threads }
    {
        if self.over {
            return None;
        }
        let Some(desk) = &self.desk else {
            return None;
        };
        match desk.front(alloc, program, thread, asks) {
            Ok(front) => Some(front),
            Err(_) => {
                self.end_for_memory();
                None
            }
        }
    }

    /// The frames of a thread, and the classes that are initialized, while the run goes on.
    pub(crate) fn take(&mut self, alloc: Global, program: &Program, thread: u32) -> Option<Taken>
        requires { thread < length O.start.threads }
    {
        if self.over {
            return None;
        }
        let Some(desk) = &self.desk else {
            return None;
        };
        match desk.take(alloc, program, thread) {
            Ok(taken) => Some(taken),
            Err(_) => {
                self.end_for_memory();
                None
            }
        }
    }

    /// A commit of a stretch.
    pub(crate) fn commit_stretch(
        &mut self,
        alloc: Global,
        program: &Program,
        thread: u32,
        made: Stretch<O>,
    ) -> Next
        requires program { program.now ≡ O.program }
        requires thread { thread < length O.start.threads }
    {
        if self.over {
            return Next::Leave;
        }
        let Some(desk) = &mut self.desk else {
            return Next::Leave;
        };
        let answer = desk.commit_stretch(alloc, program, thread, made);
        self.follow(answer)
    }

    /// A commit on a front, if there is one. The thread then goes on for at most `most` steps.
    pub(crate) fn commit(
        &mut self,
        alloc: Global,
        program: &Program,
        tools: &mut Tools<O>,
        thread: u32,
        made: Option<FrontStretch<O>>,
        most: u64,
    ) -> Next
        requires program { program.now ≡ O.program }
        requires thread { thread < length O.start.threads }
    {
        if self.over {
            return Next::Leave;
        }
        let Some(desk) = &mut self.desk else {
            return Next::Leave;
        };
        let answer = desk.commit(alloc, program, thread, made);
        let next = self.follow(answer);
        if matches!(next, Next::Moved) {
            self.go_on(alloc, program, tools, thread, most);
        }
        next
    }

    /// A commit of a run of unshared instructions alone.
    pub(crate) fn commit_run(&mut self, alloc: Global, thread: u32, run: FrontRun<O>) -> Next
        requires { thread < length O.start.threads }
    {
        if self.over {
            return Next::Leave;
        }
        let Some(desk) = &mut self.desk else {
            return Next::Leave;
        };
        let answer = desk.commit_run(alloc, thread, run);
        self.follow(answer)
    }

    /// How the run stands after a commit, and what its thread does next.
    fn follow(&mut self, answer: Result<Next, AllocError>) -> Next {
        match answer {
            Ok(Next::Moved) => {
                self.waits.move_on();
                Next::Moved
            }
            Ok(Next::End) => {
                self.end();
                Next::End
            }
            Ok(next) => next,
            Err(_) => {
                self.end_for_memory();
                Next::End
            }
        }
    }

    /// A thread goes on in the world itself, in a course of at most `most` steps.
    fn go_on(
        &mut self,
        alloc: Global,
        program: &Program,
        tools: &mut Tools<O>,
        thread: u32,
        most: u64,
    )
        requires program { program.now ≡ O.program }
        requires thread { thread < length O.start.threads }
    {
        let Some(desk) = self.desk.take() else {
            return;
        };
        match tools.run_course(alloc, program, desk, thread, most) {
            Ok(desk) => {
                self.over = desk.failed;
                self.desk = Some(desk);
            }
            Err(sink) => {
                self.lost = Some(LostSink::new(sink));
                self.end_for_memory();
            }
        }
    }

    /// Once the threads were joined: the desk, and whether memory was refused.
    ///
    /// # Errors
    /// The sink, where memory was refused in the midst of steps.
    pub(crate) fn into_desk(self) -> Result<(Desk<O, S>, bool), S>
        ensures { IfErr result (λ s. HavePrintsGoneOut O.program O.start O.before (S.got s)) }
    {
        let RunState {
            desk,
            lost,
            waits: _,
            over: _,
            memory,
        } = self;
        match desk {
            Some(desk) => Ok((desk, memory)),
            None => match lost {
                Some(lost) => Err(lost.into_sink()),
                None => unreachable!(),
            },
        }
    }
}
