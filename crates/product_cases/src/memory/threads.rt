//! Calls that run threads of the system, and calls on journals.

use super::page::Page;
use super::programs::start_of;
use crate::streams::OneByOne;
use journal::{Journal, JournalFault};
use program::Program;
use sinks::Out;
use std::io::Write;
use std::sync::Wait;
use std::thread::Threads;
use thread_runner::replay::{ReplayFault, replay};
use thread_runner::{Ended, Gate, Open, RunFault, run_threads};

/// What three threads of `Work` print: all the same.
const PRINTED: &[u8] = b"7\n7\n7\n7\n7\n7\n7\n";

/// A journal of two threads of `Work`.
const JOURNAL: &[u8] = b"0 20\n1 1\n0 4\n1 7\n";

/// No run here takes as many steps.
const MANY: u64 = 100_000;

/// Always ready, and asked.
#[derive(Drop)]
struct Asked;

impl Gate for Asked {
    fn ready(&self, _who: u32, _job: u64, _turn: u32) -> bool {
        true
    }

    fn done(&self, _who: u32, _job: u64) {}
}

/// Makes a call twice over the same things lent.
pub fn call<R: Threads + Wait + Sync, W: Write>(
    rt: &R,
    page: &mut Page<'_, W>,
    name: &str,
    program: &Program,
) {
    let Ok(journal) = Journal::parse(page.alloc, JOURNAL) else {
        return page.give_up();
    };
    make(rt, page, name, program, &journal);
    make(rt, page, name, program, &journal);
}

fn make<R: Threads + Wait + Sync, W: Write>(
    rt: &R,
    page: &mut Page<'_, W>,
    name: &str,
    program: &Program,
    journal: &Journal,
) {
    match name {
        "run_threads" => run_work(rt, page, program, &Open, PRINTED.len()),
        "run_threads_at_a_gate" => run_work(rt, page, program, &Asked, PRINTED.len()),
        "run_threads_into_sinks_that_fail" => run_into_all(rt, page, program),
        "replay" => replay_journal(page, program, journal),
        "Journal::parse" => parse_text(page),
        "Journal::text" => write_text(page, journal),
        _ => page.give_up(),
    }
}

/// Runs three threads into a sink that takes so many bytes, and fails then.
fn run_work<R: Threads + Wait + Sync, G: Gate, W: Write>(
    rt: &R,
    page: &mut Page<'_, W>,
    program: &Program,
    gate: &G,
    room: usize,
) {
    let Some(world) = start_of(page.alloc, program, "Work,Work,Work") else {
        return page.give_up();
    };
    let out = Out::new(OneByOne::failing(PRINTED, room));
    page.ask("run_threads");
    let (answer, out) = run_threads(rt, page.alloc, program, world, gate, out, MANY);
    tell_answer(page, &answer, &out.into_inner())
}

/// Runs into sinks that fail after so many bytes, for each number below that of all.
fn run_into_all<R: Threads + Wait + Sync, W: Write>(
    rt: &R,
    page: &mut Page<'_, W>,
    program: &Program,
) {
    for room in 0..PRINTED.len() {
        run_work(rt, page, program, &Open, room);
    }
}

/// Tells what a run answered; of one that was refused something, only where a beginning of its text went out.
fn tell_answer<W: Write>(
    page: &mut Page<'_, W>,
    answer: &Result<Ended, RunFault>,
    stream: &OneByOne<'_>,
) {
    match answer {
        Ok(ended) if stream.is_full() => page.line(&steps_in(ended.journal.runs())),
        Err(RunFault::Memory) if stream.is_same => page.memory(),
        Err(RunFault::Spawn) if stream.is_same => page.line(&"Spawn"),
        Err(RunFault::Device(sent)) if stream.is_full() && stream.has(*sent) => {
            page.line(&"Device")
        }
        _ => page.line(&"another fault, or another text"),
    }
}

/// How many steps a journal has.
fn steps_in(runs: &[(u32, u64)]) -> u64 {
    let mut sum = 0u64;
    for run in runs {
        sum = sum.saturating_add(run.1);
    }
    sum
}

fn replay_journal<W: Write>(page: &mut Page<'_, W>, program: &Program, journal: &Journal) {
    let Some(start) = start_of(page.alloc, program, "Work,Work") else {
        return page.give_up();
    };
    page.ask("replay");
    match replay(page.alloc, program, start, journal) {
        Ok(seen) => page.value(seen.printed.count()),
        Err(ReplayFault::Memory) => page.memory(),
        Err(_) => page.line(&"another fault"),
    }
}

fn parse_text<W: Write>(page: &mut Page<'_, W>) {
    page.ask("Journal::parse");
    match Journal::parse(page.alloc, JOURNAL) {
        Ok(journal) => page.value(journal.runs().len()),
        Err(JournalFault::Memory) => page.memory(),
        Err(_) => page.line(&"another fault"),
    }
}

fn write_text<W: Write>(page: &mut Page<'_, W>, journal: &Journal) {
    page.ask("Journal::text");
    match journal.text(page.alloc) {
        Ok(text) if text.as_slice() == JOURNAL => page.value(text.len()),
        Ok(_) => page.line(&"another text"),
        Err(_) => page.memory(),
    }
}
