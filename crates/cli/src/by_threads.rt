//! Runs of images by threads.

ghost use Rattle.std.specs.Prelude.{◌≡◌, ℕ, List, Option, false};
ghost use Rattle.semantics.specs.Worlds.{World as FirstWorld};
ghost use Rattle.program.specs.Tables.{Tables};
ghost use Rattle.init_engine.specs.Turns.{world_of};
ghost use Rattle.thread_runner.specs.Answers.{IsAnswer};
ghost use Rattle.cli.specs.Journaled.{IsOutcome, limit_by_threads};
ghost use Rattle.cli.specs.Status.{run_status};

use crate::{CommandFault, Status, status_of};
use init_engine::{Ending, Rest, World};
use journal::Journal;
use program::Program;
use sinks::Out;
use std::alloc::Global;
use std::io::Write;
use std::sync::Wait;
use std::thread::Threads;
use thread_runner::{Ended, Open, run_threads};

/// What is left to tell of a run whose text went out, and its journal.
#[derive(Drop)]
pub(crate) struct Journaled {
    pub threads: Vec<Ending>,
    pub status: Status,
    pub journal: Journal,
}

/// The greatest limit of a run by threads.
const GREATEST_LIMIT: u64 = 1 << 62;

/// Runs a world by threads, for at most `limit` steps and 1,023 more, and sends what it prints while it runs. Answers
/// the sink back.
///
/// # Errors
/// `Device` where the sink failed, `Memory` and `Spawn` where memory or a thread was refused.
pub(crate) fn run_by_threads<R: Threads + Wait + Sync, W: Write + Send + Drop>(
    rt: &R,
    alloc: Global,
    program: &Program,
    world: World,
    limit: u64,
    out: W,
) -> (Result<Journaled, CommandFault>, W)
    ensures { IsOutcome false limit program.now (world_of world) (W.contents out) (W.contents result.1) result.0 }
{
    let most = limit.min(GREATEST_LIMIT);
    let (answer, sink) = run_threads(rt, alloc, program, world, &Open, Out::new(out), most);
    let mut out = sink.into_inner();
    let outcome = flushed(outcome_of(answer), &mut out);
    (outcome, out)
}

/// What threads answered, as a command tells it.
fn outcome_of(answer: Result<Ended, thread_runner::RunFault>) -> Result<Journaled, CommandFault>
    ensures { (P : Tables) (first : FirstWorld) (limit : ℕ) (before after : Option (List ℕ)) (failed failures : ℕ)
        → IsAnswer P first (limit_by_threads limit) answer before after failed failures
        → IsOutcome false limit P first before after result }
{
    match answer {
        Ok(ended) => Ok(ran(ended, Rest::Ended)),
        Err(thread_runner::RunFault::Limit(ended)) => Ok(ran(ended, Rest::Going)),
        Err(thread_runner::RunFault::Stuck(ended)) => Ok(ran(ended, Rest::Stuck)),
        Err(thread_runner::RunFault::Memory) => Err(CommandFault::Memory),
        Err(thread_runner::RunFault::Spawn) => Err(CommandFault::Spawn),
        Err(thread_runner::RunFault::Device(_)) => Err(CommandFault::Device),
    }
}

fn ran(ended: Ended, rest: Rest) -> Journaled
    ensures journal { result.journal ≡ ended.journal }
    ensures threads { result.threads ≡ ended.seen.threads }
    ensures status { result.status ≡ run_status ended.seen.threads.items rest }
{
    let Ended { journal, seen } = ended;
    let status = status_of(seen.threads.as_slice(), rest);
    Journaled {
        threads: seen.threads,
        status,
        journal,
    }
}

/// Flushes a sink after a run whose text went out.
fn flushed<W: Write>(
    outcome: Result<Journaled, CommandFault>,
    out: &mut W,
) -> Result<Journaled, CommandFault>
    ensures { (limit : ℕ) (P : Tables) (first : FirstWorld) (before : Option (List ℕ))
        → IsOutcome false limit P first before (W.contents out.old) outcome
        → IsOutcome false limit P first before (W.contents out.new) result }
{
    match outcome {
        Ok(ran) => match out.flush() {
            Ok(()) => Ok(ran),
            Err(_) => Err(CommandFault::Device),
        },
        Err(refusal) => Err(refusal),
    }
}
