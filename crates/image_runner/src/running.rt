//! Runs of images by threads.

ghost use Rattle.std.specs.Prelude.{◌≡◌, ◌≢◌, ◌↔◌, ◌⊎◌, ◌<◌, ◌≤◌, ◌^◌, ℕ, List, Option, Err, length};
ghost use Rattle.semantics.specs.Worlds.{World as FirstWorld};
ghost use Rattle.object_graph.specs.Images.{ImageTables};
ghost use Rattle.init_engine.specs.declared.fault.EntryFault.TheVariants.{Count};
ghost use Rattle.image_reader.specs.Starts.{IsImageStart};
ghost use Rattle.thread_runner.specs.Answers.{IsAnswer as IsAnswerFrom};
ghost use Rattle.image_runner.specs.Runs.{IsAnswer};
ghost use Rattle.image_runner.specs.declared.fault.RunFault.TheVariants.{Entry};

use crate::fault::RunFault;
use classfile::ClassName;
use image_reader::world;
use init_engine::EntryFault;
use object_graph::Image;
use sinks::Sink;
use std::alloc::Global;
use std::sync::Wait;
use std::thread::Threads;
use thread_runner::{Ended, Gate};

/// Runs an image: a thread for each entry, its class's `main`, up to a limit of steps. What is printed goes into the
/// sink, which is given back. The image stays: its regions are copied.
///
/// # Errors
/// `Entry` exactly where `image_reader::world` refuses the entries; `Limit` and `Stuck` with what the run came to;
/// `Device` where the sink failed; `Memory` and `Spawn` where memory or a thread was refused.
pub fn run_threads<S: Sink + Send + Drop, G: Gate, R: Threads + Wait + Sync>(
    rt: &R,
    alloc: Global,
    image: &Image,
    entries: &[ClassName],
    gate: &G,
    sink: S,
    limit: u64,
) -> (Result<Ended, RunFault>, S)
    requires { limit ≤ 2 ^ 62 }
    ensures answer { IsAnswer image.now entries.now limit result.0 (S.got sink) (S.got result.1) (S.failures sink)
        (S.failures result.1) }
    // A wrong number of entries is told just where there is one, whatever memory does.
    ensures count { (result.0 ≡ Err (Entry Count)) ↔ ((length entries.now ≡ 0) ⊎ (64 < length entries.now)) }
{
    match world(alloc, image, entries) {
        Ok(world) => {
            let program = image.program();
            let (answer, sink) = thread_runner::run_threads(
                rt, alloc, program, world, gate, sink, limit,
            );
            (of_threads(answer), sink)
        }
        Err(EntryFault::Memory) => (Err(RunFault::Memory), sink),
        Err(fault) => (Err(RunFault::Entry(fault)), sink),
    }
}

/// What threads answered from a start of an image.
fn of_threads(answer: Result<Ended, thread_runner::RunFault>) -> Result<Ended, RunFault>
    ensures answer { (I : ImageTables) (names : List (List ℕ)) (first : FirstWorld) (limit : ℕ)
        (before after : Option (List ℕ)) (failed failures : ℕ) → IsImageStart I names first
        → IsAnswerFrom I.program first limit answer before after failed failures
        → IsAnswer I names limit result before after failed failures }
    ensures count { result ≢ Err (Entry Count) }
{
    match answer {
        Ok(ended) => Ok(ended),
        Err(thread_runner::RunFault::Memory) => Err(RunFault::Memory),
        Err(thread_runner::RunFault::Spawn) => Err(RunFault::Spawn),
        Err(thread_runner::RunFault::Device(sent)) => Err(RunFault::Device(sent)),
        Err(thread_runner::RunFault::Limit(ended)) => Err(RunFault::Limit(ended)),
        Err(thread_runner::RunFault::Stuck(ended)) => Err(RunFault::Stuck(ended)),
    }
}
