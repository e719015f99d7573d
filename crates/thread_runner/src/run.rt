//! Runs of several threads.

ghost use Rattle.std.specs.Prelude.{◌≡◌, ◌<◌, ◌≤◌, ◌^◌, length};
ghost use Rattle.init_engine.specs.Turns.{world_of};
ghost use Rattle.thread_runner.specs.Answers.{IsAnswer};

use crate::answer::{Ended, RunFault};
use crate::book::Book;
use crate::desk::{Desk, Session};
use crate::gate::Gate;
use crate::run_lock::RunLock;
use crate::worker::work;
use init_engine::World;
use program::Program;
use sinks::Sink;
use std::alloc::Global;
use std::marker::Brand;
use std::sync::Wait;
use std::thread;
use std::thread::Threads;

/// Runs `count` threads to their end, and answers whether all could be started. One alone, where nobody asks its gate,
/// is left to the caller.
fn run_all<O: Session + Send + Sync, S: Sink + Send + Drop, G: Gate, R: Threads + Wait + Sync>(
    rt: &R,
    alloc: Global,
    program: &Program,
    lock: &RunLock<O, S>,
    gate: &G,
    count: u32,
) -> bool
    requires program { program.now ≡ O.program }
    requires threads { count ≤ length O.start.threads }
{
    if count == 1 && gate.is_open() {
        return true;
    }
    thread::scope(
        thread::scope_env(),
        rt,
        |scope|
            requires { (program.now ≡ O.program) × (count ≤ length O.start.threads) }
        {
            for number in 0..count {
                let one = scope.spawn(
                    move ||
                        requires { (program.now ≡ O.program) × (number < length O.start.threads) }
                    { work(rt, alloc, program, lock, gate, number) },
                );
                if one.is_err() {
                    lock.enter(rt).end();
                    lock.wake_all();
                    return false;
                }
            }
            true
        },
    )
}

/// Runs the threads of a session until it has an answer.
fn run_session<O: Session + Send + Sync, S: Sink + Send + Drop, G: Gate, R: Threads + Wait + Sync>(
    rt: &R,
    alloc: Global,
    program: &Program,
    world: World,
    gate: &G,
    sink: S,
    limit: u64,
) -> (Result<Ended, RunFault>, S)
    requires program { program.now ≡ O.program }
    requires start { world_of world ≡ O.start }
    requires limit { limit ≤ 2 ^ 62 }
    requires limit_is { limit ≡ O.limit }
    requires before { S.got sink ≡ O.before }
    requires failed { S.failures sink ≡ O.failed }
    ensures { IsAnswer O.program O.start O.limit result.0 O.before (S.got result.1) O.failed (S.failures result.1) }
{
    let count = world.thread_count();
    let open = gate.is_open();
    let mut desk = Desk::<O, S>::new(Book::new(alloc, world, limit), sink);
    for _ in rt.forever() {
        let lock = RunLock::new(desk);
        let started = run_all(rt, alloc, program, &lock, gate, count);
        let (left, memory) = match lock.into_desk() {
            Ok(left) => left,
            Err(sink) => return (Err(RunFault::Memory), sink),
        };
        desk = match left.go_on_alone(alloc, program, open && started && !memory) {
            Ok(desk) => desk,
            Err(sink) => return (Err(RunFault::Memory), sink),
        };
        desk = match desk.judge(alloc, program, memory, started) {
            Ok(answered) => return answered,
            Err(going) => going,
        };
    }
    unreachable!()
}

/// Runs each thread of a world in a thread of its own, up to a limit of steps. What is printed goes into the sink,
/// which is given back. Where there is one thread, or one alone is left, and nobody asks the gate, it runs on the
/// caller's.
///
/// # Errors
/// `Limit` and `Stuck` with what the run came to; `Device` where the sink failed; `Memory` and `Spawn` where memory or
/// a thread was refused.
pub fn run_threads<S: Sink + Send + Drop, G: Gate, R: Threads + Wait + Sync>(
    rt: &R,
    alloc: Global,
    program: &Program,
    world: World,
    gate: &G,
    sink: S,
    limit: u64,
) -> (Result<Ended, RunFault>, S)
    requires { limit ≤ 2 ^ 62 }
    ensures { IsAnswer program.now (world_of world) limit result.0 (S.got sink) (S.got result.1) (S.failures sink)
        (S.failures result.1) }
{
    run_session::<Brand, S, G, R>(rt, alloc, program, world, gate, sink, limit)
}
