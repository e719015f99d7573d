//! Gates of workers.

use crate::answer::Answer;
use crate::threads::meeting::Meeting;
use evaluator::outcome::Outcome;
use evaluator::settling::settle;
use program::Program;
use region_shape::regions::Regions;
use std::alloc::{AllocError, Global};
use std::sync::Wait;
use std::sync::atomic::{AtomicU64, Ordering};
use wave_scheduler::Gate;

/// What a gate does to workers.
#[derive(Clone, Copy)]
pub enum WorkerRule {
    Nothing,
    /// The first calls of `settle`, one for each worker, wait until all of them are inside.
    Meet,
    /// Memory is refused to each.
    Refuse,
}

/// A gate of so many workers, which is ready when it is asked for the second time.
#[derive(Drop)]
pub struct WorkerGate<'a, R: Wait> {
    meeting: Meeting<'a, R>,
    rule: WorkerRule,
    workers: u32,
    asked: AtomicU64,
    by_workers: AtomicU64,
    by_caller: AtomicU64,
}

impl<'a, R: Wait> WorkerGate<'a, R> {
    pub fn new(rt: &'a R, rule: WorkerRule, workers: u32) -> WorkerGate<'a, R> {
        WorkerGate {
            meeting: Meeting::new(rt),
            rule,
            workers,
            asked: AtomicU64::new(0),
            by_workers: AtomicU64::new(0),
            by_caller: AtomicU64::new(0),
        }
    }

    /// Adds how often it was asked, and how many classes workers and the caller settled; and whether all workers were
    /// inside, where they wait.
    pub fn add_counts(&self, answer: &mut Answer) {
        add_count(answer, &self.asked, " asked");
        add_count(answer, &self.by_workers, " by workers");
        add_count(answer, &self.by_caller, " by the caller");
        if let WorkerRule::Meet = self.rule {
            self.meeting.add_to(answer, u64::from(self.workers))
        }
    }
}

fn add_count(answer: &mut Answer, count: &AtomicU64, what: &str) {
    answer.word(" ");
    answer.show(&count.load(Ordering::SeqCst));
    answer.word(what)
}

impl<'a, R: Wait + Sync> Gate for WorkerGate<'a, R> {
    fn ready(&self, _who: u32, _job: u32, turn: u32) -> bool {
        self.asked.fetch_add(1, Ordering::SeqCst);
        turn > 0
    }

    fn settle(
        &self,
        alloc: Global,
        program: &Program,
        regions: &Regions,
        class: u32,
        budget: u64,
    ) -> Result<Outcome, AllocError> {
        match self.rule {
            WorkerRule::Nothing => {}
            WorkerRule::Meet => self.meeting.meet(u64::from(self.workers)),
            WorkerRule::Refuse => return Err(AllocError),
        }
        settle(alloc, program, regions, class, budget)
    }

    fn done(&self, who: u32, _job: u32) {
        let count = if who < self.workers {
            &self.by_workers
        } else {
            &self.by_caller
        };
        count.fetch_add(1, Ordering::SeqCst);
    }
}
