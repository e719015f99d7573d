//! Runs of threads at gates.

use crate::answer::Answer;
use crate::threads::gates::{Tape, ThreadGate};
use crate::threads::plan::{MOST_STEPS, ThreadPlan, number_in, rule_of};
use crate::threads::shown::RunShown;
use crate::threads::starts::start;
use init_engine::{Seen, World};
use journal::Journal;
use program::Program;
use std::alloc::{AllocError, Global};
use std::sync::Wait;
use std::thread::Threads;
use thread_runner::replay::{ReplayFault, replay};
use thread_runner::run_threads;

/// Asked is a run (`plan.rt`). Answered is what its words ask for (`shown.rt`), then `met` where threads waited for one
/// another and all came, and then of the replay of its journal, where it is asked for, how often the threads print, and
/// `same` where they print what the sink got.
pub fn ask<R: Threads + Wait + Sync>(rt: &R, answer: &mut Answer, program: &Program, about: &str) {
    let plan = ThreadPlan::of(about);
    match start(answer.alloc, program, plan.entries, plan.initialized) {
        Ok(Some(world)) => run_from(rt, answer, program, world, &plan),
        Ok(None) => answer.word("no start"),
        Err(_) => answer.refuse(),
    }
}

fn run_from<R: Threads + Wait + Sync>(
    rt: &R,
    answer: &mut Answer,
    program: &Program,
    world: World,
    plan: &ThreadPlan<'_>,
) {
    let gate = ThreadGate::new(rt, rule_of(plan.settings), world.thread_count());
    match performed(rt, answer.alloc, program, world, plan, &gate) {
        Ok(shown) => add_shown(answer, program, plan, &gate, &shown),
        Err(_) => answer.refuse(),
    }
}

/// The run of a plan at a gate.
fn performed<R: Threads + Wait + Sync>(
    rt: &R,
    alloc: Global,
    program: &Program,
    world: World,
    plan: &ThreadPlan<'_>,
    gate: &ThreadGate<'_, R>,
) -> Result<RunShown, AllocError> {
    let tape = Tape::new(alloc, number_in(plan.settings, "room=", 1_000), gate);
    let limit = number_in(plan.settings, "limit=", MOST_STEPS).min(MOST_STEPS);
    let (answer, tape) = run_threads(rt, alloc, program, world, gate, tape, limit);
    RunShown::of(alloc, answer, tape.got)
}

/// What the words of a plan ask for, whether threads met, and what the replay comes to.
fn add_shown<R: Wait>(
    answer: &mut Answer,
    program: &Program,
    plan: &ThreadPlan<'_>,
    gate: &ThreadGate<'_, R>,
    shown: &RunShown,
) {
    for word in plan.words.split_whitespace() {
        shown.add_word(answer, word);
    }
    gate.add_meeting(answer);
    if plan.settings.contains("again") {
        add_replay(answer, program, plan, shown)
    }
}

/// Adds what the replay of a run's journal comes to.
fn add_replay(answer: &mut Answer, program: &Program, plan: &ThreadPlan<'_>, shown: &RunShown) {
    let Ok(journal) = Journal::parse(answer.alloc, &shown.journal) else {
        return answer.word(" no journal");
    };
    match start(answer.alloc, program, plan.entries, plan.initialized) {
        Ok(Some(world)) => {
            let replayed = replay(answer.alloc, program, world, &journal);
            add_seen(answer, replayed, &shown.got)
        }
        Ok(None) => answer.word(" no start"),
        Err(_) => answer.refuse(),
    }
}

fn add_seen(answer: &mut Answer, replayed: Result<Seen, ReplayFault>, got: &[u8]) {
    answer.word(" ");
    match replayed {
        Ok(seen) => {
            answer.show(&seen.printed.count());
            answer.word(if seen.printed.text_from(0) == got {
                " same"
            } else {
                " another text"
            })
        }
        Err(fault) => answer.debug(&fault),
    }
}
