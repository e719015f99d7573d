//! Classes that workers settle, or the caller alone, and what becomes of them.

ghost use Rattle.std.specs.Prelude.{IfOk};
ghost use Rattle.wave_scheduler.specs.Outcomes.{AreJudged};

use crate::answer::Answer;
use crate::threads::plan::halves;
use crate::threads::worker_gates::{WorkerGate, WorkerRule};
use initializer_analysis::forced::Forced;
use initializer_analysis::judge;
use initializer_analysis::verdict::{Verdict, Verdicts};
use program::Program;
use std::alloc::{AllocError, Global};
use std::sync::Wait;
use std::thread::Threads;
use vm_state::value::Value;
use wave_scheduler::outcome::{Settled, WaveFault};
use wave_scheduler::{settle_all, settle_all_here};

/// Within this budget each initializer of the cases ends.
const BUDGET: u64 = 1_000;

/// Asked is `here`, for the caller alone, or a number of workers, whose gate is asked. After it may stand `meet`, for a
/// gate in which they meet, or `refuse`, for one that refuses memory to each, and then the gate's counts are told.
///
/// Answered is a word for each class, its wave and the number that its first static field holds, or `none` where it is
/// refused. Where none is settled it is why.
pub fn ask<R: Threads + Wait + Sync>(rt: &R, answer: &mut Answer, program: &Program, about: &str) {
    if about == "here" {
        return settle_here(answer, program);
    }
    let (workers, word) = halves(about, " ");
    let workers = workers.parse::<u32>().unwrap_or(0);
    let gate = WorkerGate::new(rt, rule_of(word), workers);
    settle_by(rt, answer, program, workers, &gate);
    if !word.is_empty() {
        gate.add_counts(answer)
    }
}

fn rule_of(word: &str) -> WorkerRule {
    match word {
        "meet" => WorkerRule::Meet,
        "refuse" => WorkerRule::Refuse,
        _ => WorkerRule::Nothing,
    }
}

/// The verdicts on a program, nothing being forced.
fn verdicts_of(alloc: Global, program: &Program) -> Result<Verdicts, AllocError>
    ensures { IfOk result (λ verdicts. AreJudged program.now verdicts) }
{
    judge(alloc, program, &Forced::none(alloc))
}

fn settle_by<R: Threads + Wait + Sync>(
    rt: &R,
    answer: &mut Answer,
    program: &Program,
    workers: u32,
    gate: &WorkerGate<'_, R>,
) {
    let alloc = answer.alloc;
    match verdicts_of(alloc, program) {
        Ok(verdicts) => add_settled(
            answer,
            settle_all(rt, alloc, program, verdicts, BUDGET, workers, gate),
        ),
        Err(_) => answer.refuse(),
    }
}

fn settle_here(answer: &mut Answer, program: &Program) {
    let alloc = answer.alloc;
    match verdicts_of(alloc, program) {
        Ok(verdicts) => add_settled(answer, settle_all_here(alloc, program, verdicts, BUDGET)),
        Err(_) => answer.refuse(),
    }
}

fn add_settled(answer: &mut Answer, settled: Result<Settled, WaveFault>) {
    match settled {
        Ok(settled) => add_words(answer, &settled),
        Err(fault) => answer.show(&fault),
    }
}

fn add_words(answer: &mut Answer, settled: &Settled) {
    let count = u32::try_from(settled.verdicts.as_slice().len()).unwrap_or(0);
    for class in 0..count {
        answer.separate(" ");
        add_word(answer, settled, class);
    }
}

fn add_word(answer: &mut Answer, settled: &Settled, class: u32) {
    match (settled.verdicts.of_class(class), number_of(settled, class)) {
        (Some(Verdict::Wave(wave)), Some(number)) => {
            answer.show(&wave);
            answer.word(":");
            answer.show(&number)
        }
        _ => answer.word("none"),
    }
}

/// The number that the first static field of a class holds, if it is accepted.
fn number_of(settled: &Settled, class: u32) -> Option<i32> {
    let fields = &settled.regions.get(class)?.fields;
    match fields.get(0) {
        Value::Int(number) => Some(number),
        _ => None,
    }
}
