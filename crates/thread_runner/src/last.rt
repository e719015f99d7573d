//! The last thread of a run: once all others have ended it goes on alone, on the caller's thread.

ghost use Rattle.std.specs.Prelude.{◌≡◌, ◌+◌, ◌<◌, ◌^◌, ◌++◌, IfErr, IfOk, IfSome, OnOk, length, replicate};
ghost use Rattle.machine.specs.Linked.{program_of};
ghost use Rattle.method_lowering.specs.steps.StepTables.{KeepsSteps};
ghost use Rattle.init_engine.specs.Schedules.{schedule_of, AreRuns};
ghost use Rattle.init_engine.specs.Turnings.{RunsAhead};
ghost use Rattle.thread_runner.specs.Answers.{HavePrintsGoneOut};

use crate::advance::add_some;
use crate::desk::{Desk, Session};
use crate::tools::Tools;
use init_engine::World;
use method_lowering::step_table::StepTable;
use program::Program;
use sinks::Sink;
use std::alloc::{AllocError, Global};

/// How far a thread goes on in the world itself before what it printed goes out.
#[derive(Clone, Copy)]
pub(crate) struct Slice {
    /// As long as there were fewer steps.
    pub(crate) steps: u64,
    /// As long as they printed fewer bytes.
    pub(crate) bytes: u64,
}

/// Runs one thread on in a world for a slice, as long as it has a step, and writes the steps into a journal. It answers
/// how many there were.
///
/// # Errors
/// `AllocError` where memory is refused; the thread may have lost its frames then.
pub(crate) fn run_in(
    alloc: Global,
    program: &Program,
    world: &mut World,
    journal: &mut Vec<(u32, u64)>,
    table: &mut StepTable,
    thread: u32,
    slice: Slice,
) -> Result<u64, AllocError>
    requires thread { thread < length world.old.threads }
    requires keeps { KeepsSteps program.now table.old }
    requires runs { AreRuns journal.old.items }
    requires fits { length (schedule_of journal.old.items) + slice.steps < 2 ^ 64 }
    ensures keeps { OnOk result (KeepsSteps program.now table.new) }
    ensures ahead { IfOk result
        (λ made. RunsAhead (program_of program.now) thread slice.steps slice.bytes made world.old world.new) }
    ensures runs { OnOk result (AreRuns journal.new.items) }
    ensures schedule { IfOk result (λ made. schedule_of journal.new.items
        ≡ schedule_of journal.old.items ++ replicate made thread) }
    ensures threads { length world.new.threads ≡ length world.old.threads }
{
    journal.reserve(1)?;
    let made = world.run_alone(alloc, program, table, thread, slice.steps, slice.bytes)?;
    add_some(journal, thread, made);
    Ok(made)
}

/// The only thread of a world that has not ended, if there is one alone.
fn last_going(world: &World) -> Option<u32>
    ensures { IfSome result (λ t. t < length world.now.threads) }
{
    let mut last = None;
    for thread in 0..world.thread_count() {
        if world.goes(thread) {
            if last.is_some() {
                return None;
            }
            last = Some(thread);
        }
    }
    last
}

impl<O: Session, S: Sink> Desk<O, S> {
    /// Whether one thread alone is left that has not ended, where nobody asks the gates of threads.
    pub(crate) fn is_left_to_last(&self, open: bool) -> bool {
        open && last_going(self.book.world()).is_some()
    }

    /// Once the threads were joined: where one alone is left, and may, it goes on, and what it prints into the sink.
    ///
    /// # Errors
    /// The sink, where memory is refused.
    pub(crate) fn go_on_alone(
        self,
        alloc: Global,
        program: &Program,
        may: bool,
    ) -> Result<Desk<O, S>, S>
        requires { program.now ≡ O.program }
        ensures { IfErr result (λ s. HavePrintsGoneOut O.program O.start O.before (S.got s)) }
    {
        if !may {
            return Ok(self);
        }
        match last_going(self.book.world()) {
            Some(thread) => self.run_last(alloc, program, thread),
            None => Ok(self),
        }
    }

    /// Runs one thread to its end, to the limit, or as far as the sink takes what is printed.
    ///
    /// # Errors
    /// The sink, where memory is refused.
    fn run_last(self, alloc: Global, program: &Program, thread: u32) -> Result<Desk<O, S>, S>
        requires program { program.now ≡ O.program }
        requires thread { thread < length O.start.threads }
        ensures { IfErr result (λ s. HavePrintsGoneOut O.program O.start O.before (S.got s)) }
    {
        let mut desk = self;
        let mut tools = Tools::<O>::new(alloc);
        let mut left = desk.book.room();
        'slices: while left > 0 {
            match tools.run_slice(alloc, program, desk, thread, left) {
                Ok((next, made)) => {
                    desk = next;
                    if made == 0 {
                        return Ok(desk);
                    }
                    left -= made;
                }
                Err(sink) => return Err(sink),
            }
        }
        Ok(desk)
    }
}
