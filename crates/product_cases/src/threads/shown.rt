//! What runs of threads show.

use crate::answer::{Answer, text_of};
use init_engine::Ending;
use std::alloc::{AllocError, Global};
use thread_runner::{Ended, RunFault};

/// What a run of threads shows.
#[derive(Drop)]
pub struct RunShown {
    /// `ended`, `limit` or `stuck`; `device` where its sink failed; `memory` or `spawn`.
    end: &'static str,
    /// How many bytes went out before the sink failed.
    sent: u128,
    /// The text of its journal.
    pub journal: Vec<u8>,
    /// How many steps that has.
    steps: u64,
    threads: usize,
    /// How many of them have not ended.
    going: usize,
    /// What its sink got.
    pub got: Vec<u8>,
    /// Whether that is all that was printed.
    is_whole: bool,
}

impl RunShown {
    /// What an answer shows, and what the sink got.
    pub fn of(
        alloc: Global,
        answer: Result<Ended, RunFault>,
        got: Vec<u8>,
    ) -> Result<RunShown, AllocError> {
        match answer {
            Ok(ended) => of_ended(alloc, "ended", ended, got),
            Err(RunFault::Limit(ended)) => of_ended(alloc, "limit", ended, got),
            Err(RunFault::Stuck(ended)) => of_ended(alloc, "stuck", ended, got),
            Err(RunFault::Device(sent)) => Ok(without_journal(alloc, "device", sent, got)),
            Err(RunFault::Memory) => Ok(without_journal(alloc, "memory", 0, got)),
            Err(RunFault::Spawn) => Ok(without_journal(alloc, "spawn", 0, got)),
        }
    }

    /// Adds what a word asks for, after a space where it is not the first.
    pub fn add_word(&self, answer: &mut Answer, word: &str) {
        answer.separate(" ");
        match word {
            "end" => answer.word(self.end),
            "over" => answer.word(over(self.end)),
            "got" => answer.word(text_or_nothing(&self.got)),
            "journal" => answer.word(text_or_nothing(&self.journal)),
            "whole" => answer.word(if self.is_whole { "whole" } else { "cut" }),
            _ => answer.show(&self.number(word)),
        }
    }

    fn number(&self, word: &str) -> u128 {
        match word {
            "sent" => self.sent,
            "steps" => u128::from(self.steps),
            // How many times 1,024 steps.
            "rounds" => u128::from(self.steps / 1_024),
            "threads" => self.threads as u128,
            "going" => self.going as u128,
            "length" => self.got.len() as u128,
            _ => 0,
        }
    }
}

/// `over` for an end that depends on the schedule.
fn over(end: &'static str) -> &'static str {
    match end {
        "ended" => "over",
        "stuck" => "over",
        _ => end,
    }
}

fn text_or_nothing(bytes: &[u8]) -> &str {
    if bytes.is_empty() {
        return "nothing";
    }
    text_of(bytes)
}

fn without_journal(alloc: Global, end: &'static str, sent: u128, got: Vec<u8>) -> RunShown {
    RunShown {
        end,
        sent,
        journal: Vec::new(alloc),
        steps: 0,
        threads: 0,
        going: 0,
        got,
        is_whole: false,
    }
}

fn of_ended(
    alloc: Global,
    end: &'static str,
    ended: Ended,
    got: Vec<u8>,
) -> Result<RunShown, AllocError> {
    let Ok(journal) = ended.journal.text(alloc) else {
        return Err(AllocError);
    };
    let is_whole = ended.seen.printed.text_from(0) == got.as_slice();
    Ok(RunShown {
        end,
        sent: 0,
        journal,
        steps: steps_in(ended.journal.runs()),
        threads: ended.seen.threads.len(),
        going: going_in(&ended.seen.threads),
        got,
        is_whole,
    })
}

/// How many steps a journal has.
fn steps_in(runs: &[(u32, u64)]) -> u64 {
    let mut sum = 0u64;
    for run in runs {
        sum = sum.wrapping_add(run.1);
    }
    sum
}

fn going_in(endings: &[Ending]) -> usize {
    let mut count = 0usize;
    for ending in endings {
        if matches!(ending, Ending::Going) {
            count = count.wrapping_add(1);
        }
    }
    count
}
