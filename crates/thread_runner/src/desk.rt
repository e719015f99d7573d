//! The desk of a run of threads: its book, and the sink.

ghost use Rattle.std.specs.Prelude.{◌≡◌, ◌≢◌, ◌<◌, ◌≤◌, ◌++◌, ℕ, List, Some, None, true, false, IfSome, IfOk};
ghost use Rattle.std.specs.Prelude.{length, take};
ghost use Rattle.std.proofs.Props.{props};
ghost use Rattle.machine.specs.Linked.{program_of};
ghost use Rattle.semantics.specs.Worlds.{seen};
ghost use Rattle.init_engine.specs.Observations.{IsObservation};
ghost use Rattle.init_engine.specs.Rests.{IsRest};
ghost use Rattle.init_engine.specs.declared.stuck.Rest.TheVariants.{Going};
ghost use Rattle.init_engine.specs.Turns.{world_of};
ghost use Rattle.thread_runner.specs.Answers.{IsAnswer, IsFault};
ghost use Rattle.thread_runner.specs.Kept.{printed_text, steps_of};
ghost use Rattle.thread_runner.specs.steps.Verdicts.{IsVerdict};

use crate::answer::{Ended, RunFault};
use crate::book::Book;
use crate::origin::Origin;
use init_engine::Rest;
use journal::Journal;
use program::Program;
use sinks::{Sink, SinkFault};
use std::alloc::{AllocError, Global};
use std::marker::Brand;

/// What the sink of a run had got before, how often it had failed, and the limit of steps. Each call of a run picks
/// them.
pub trait Session: Origin {
    ghost use Rattle.std.specs.Prelude.{ℕ, List, Option};

    ghost before: { Option (List ℕ) };

    ghost failed: { ℕ };

    ghost limit: { ℕ };
}

impl Session for Brand {
    ghost use Rattle.std.specs.Prelude.{None};

    ghost before = { None };

    ghost failed = { 0 };

    ghost limit = { 0 };
}

/// What a thread does next.
#[derive(Clone, Copy)]
pub(crate) enum Next {
    /// It goes on: it has moved.
    Moved,
    /// It begins anew: its stretch did not count.
    Again,
    /// It waits until another thread has moved.
    Sleep,
    /// It ends.
    Leave,
    /// It ends, and the run with it.
    End,
}

/// The book, and the sink that got the first bytes of what was printed.
#[derive(Drop)]
pub(crate) struct Desk<O: Session, S: Sink> {
    pub(crate) book: Book<O>,
    pub(crate) sink: S,
    pub(crate) failed: bool,
    ghost sent: { (bs : List ℕ) → O.before ≡ Some bs
        → S.got sink ≡ Some (bs ++ take book.sent (printed_text book)) } by { Prim.hlevel props },
    ghost part: { failed ≡ false → book.part ≡ 0 },
    ghost threads: { length book.past.world.threads ≡ length O.start.threads },
    ghost limit_is: { book.past.limit ≡ O.limit },
    ghost well: { failed ≡ false → S.failures sink ≡ O.failed },
    ghost fault: { failed ≡ true → S.failures sink ≢ O.failed },
}

impl<O: Session, S: Sink> Desk<O, S> {
    /// Before the first step.
    pub(crate) fn new(book: Book<O>, sink: S) -> Desk<O, S>
        requires world { world_of book.past.world ≡ O.start }
        requires limit { book.past.limit ≡ O.limit }
        requires sent { book.sent ≡ 0 }
        requires part { book.part ≡ 0 }
        requires before { S.got sink ≡ O.before }
        requires failed { S.failures sink ≡ O.failed }
    {
        Desk {
            book,
            sink,
            failed: false,
        }
    }

    /// Sends what was printed, and answers whether it went out.
    pub(crate) fn send(&mut self) -> bool
        requires { self.old.failed ≡ false }
        ensures book { self.new.book.past ≡ self.old.book.past }
        ensures all { result ≡ true → self.new.book.sent ≡ length (printed_text self.new.book) }
        ensures well { result ≡ true → self.new.failed ≡ false }
        ensures failed { result ≡ false → self.new.failed ≡ true }
    {
        match self.book.send(&mut self.sink) {
            Ok(()) => true,
            Err(SinkFault) => {
                self.failed = true;
                false
            }
        }
    }

    /// Why a run whose threads were joined has failed, if it has. Else all that was printed has gone out.
    fn fault(&mut self, memory: bool, started: bool) -> Option<RunFault>
        ensures past { self.new.book.past ≡ self.old.book.past }
        ensures fault { IfSome result (λ f. IsFault O.program O.start O.limit f O.before (S.got self.new.sink) O.failed
            (S.failures self.new.sink)) }
        ensures all { result ≡ None → self.new.book.sent ≡ length (printed_text self.new.book) }
        ensures well { result ≡ None → self.new.failed ≡ false }
    {
        let _world = self.book.world();
        if self.failed {
            return Some(RunFault::Device(self.book.sent()));
        }
        if memory {
            return Some(RunFault::Memory);
        }
        if !started {
            return Some(RunFault::Spawn);
        }
        if !self.send() {
            return Some(RunFault::Device(self.book.sent()));
        }
        None
    }

    /// The answer of a run whose threads were joined, and its sink.
    ///
    /// # Errors
    /// The desk, where the run goes on.
    pub(crate) fn judge(
        self,
        alloc: Global,
        program: &Program,
        memory: bool,
        started: bool,
    ) -> Result<(Result<Ended, RunFault>, S), Desk<O, S>>
        requires { program.now ≡ O.program }
        ensures { IfOk result (λ a. IsAnswer O.program O.start O.limit a.0 O.before (S.got a.1) O.failed
            (S.failures a.1)) }
    {
        let mut desk = self;
        if let Some(fault) = desk.fault(memory, started) {
            return Ok((Err(fault), desk.into_sink()));
        }
        let _world = desk.book.world();
        let Some(rest) = rest_of(program, &desk.book) else {
            return Err(desk);
        };
        let Desk {
            book,
            sink,
            failed: _,
        } = desk;
        Ok((verdict_of(alloc, book, rest), sink))
    }

    /// The sink.
    pub(crate) fn into_sink(self) -> S
        ensures { result ≡ self.sink }
    {
        let Desk {
            book: _,
            sink,
            failed: _,
        } = self;
        sink
    }
}

/// How the world of a book stands, where the run is over.
fn rest_of<O: Origin>(program: &Program, book: &Book<O>) -> Option<Rest>
    ensures rest { IfSome result (IsRest (program_of program.now) (world_of book.now.past.world)) }
    ensures full { result ≡ Some Going → book.now.past.limit ≤ steps_of book.now.past }
{
    match book.world().rest(program) {
        Rest::Going => {
            if book.is_full() {
                Some(Rest::Going)
            } else {
                None
            }
        }
        rest => Some(rest),
    }
}

/// The journal of a book, and what is seen of its world. Both are handed over.
fn end_of<O: Origin>(alloc: Global, book: Book<O>) -> Result<Ended, AllocError>
    ensures journal { IfOk result (λ e. e.journal ≡ book.past.journal) }
    ensures seen { IfOk result (λ e. IsObservation e.seen (seen (world_of book.past.world))) }
{
    let (world, runs) = book.into_parts();
    let journal = Journal::of(runs);
    match world.into_seen(alloc) {
        Ok(seen) => Ok(Ended { journal, seen }),
        Err(error) => Err(error),
    }
}

/// The answer of a run by its book alone, where it is over and its world stands so.
fn verdict_of<O: Origin>(alloc: Global, book: Book<O>, rest: Rest) -> Result<Ended, RunFault>
    requires rest { IsRest (program_of O.program) (world_of book.past.world) rest }
    requires full { rest ≡ Going → book.past.limit ≤ steps_of book.past }
    ensures { IsVerdict O.program O.start book.past.limit (world_of book.past.world) result }
{
    let _world = book.world();
    let Ok(ended) = end_of(alloc, book) else {
        return Err(RunFault::Memory);
    };
    match rest {
        Rest::Ended => Ok(ended),
        Rest::Stuck => Err(RunFault::Stuck(ended)),
        Rest::Going => Err(RunFault::Limit(ended)),
    }
}
