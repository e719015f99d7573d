//! Gates where the threads of a run wait for one another, and sinks that wait there, too.

ghost use Rattle.std.specs.Prelude.{Some};

use crate::answer::Answer;
use crate::threads::meeting::Meeting;
use std::alloc::Global;
use std::sync::Wait;
use thread_runner::{Gate, Sink, SinkFault};

/// Where threads wait.
#[derive(Clone, Copy)]
pub enum Place {
    Nowhere,
    /// Before a stretch of theirs, until all are there.
    Before,
    /// After it, while it is not yet committed.
    After,
    /// Thread 1 begins once thread 0 asks at its second stretch, and that stretch is made while the sink is in a call.
    Across,
}

/// Where threads wait at a gate, and what it says of itself.
#[derive(Clone, Copy)]
pub struct GateRule {
    pub place: Place,
    /// The number of the stretch, of each thread.
    pub job: u64,
    /// Whether it says that it is open. Threads of which several go on ask it nevertheless.
    pub is_open: bool,
}

/// A gate of so many threads.
#[derive(Drop)]
pub struct ThreadGate<'a, R: Wait> {
    meeting: Meeting<'a, R>,
    rule: GateRule,
    threads: u64,
}

impl<'a, R: Wait> ThreadGate<'a, R> {
    pub fn new(rt: &'a R, rule: GateRule, threads: u32) -> ThreadGate<'a, R> {
        ThreadGate {
            meeting: Meeting::new(rt),
            rule,
            threads: u64::from(threads),
        }
    }

    /// Adds whether all for whom others wait were there, and no wait took too long.
    pub fn add_meeting(&self, answer: &mut Answer) {
        match self.rule.place {
            Place::Nowhere => {}
            Place::Before => self.meeting.add_to(answer, self.threads),
            Place::After => self.meeting.add_to(answer, self.threads),
            Place::Across => self.meeting.add_to(answer, 3),
        }
    }

    fn begin_across(&self, who: u32, job: u64) {
        if who == 0 && job == 1 {
            self.meeting.reach(1);
            self.meeting.wait(2);
        }
        if who == 1 && job == 0 {
            self.meeting.wait(1);
        }
    }

    /// The sink is in its first call.
    fn enter_sink(&self) {
        if matches!(self.rule.place, Place::Across) {
            self.meeting.reach(2);
            self.meeting.wait(3);
        }
    }
}

impl<'a, R: Wait + Sync> Gate for ThreadGate<'a, R> {
    fn ready(&self, who: u32, job: u64, _turn: u32) -> bool {
        if matches!(self.rule.place, Place::Before) && job == self.rule.job {
            self.meeting.meet(self.threads);
        }
        if matches!(self.rule.place, Place::Across) {
            self.begin_across(who, job);
        }
        true
    }

    fn done(&self, who: u32, job: u64) {
        if matches!(self.rule.place, Place::After) && job == self.rule.job {
            self.meeting.meet(self.threads);
        }
        if matches!(self.rule.place, Place::Across) && who == 0 && job == 1 {
            self.meeting.reach(3);
        }
    }

    fn is_open(&self) -> bool {
        self.rule.is_open
    }
}

/// A sink in memory, which takes a byte a call, and fails once it has got so many.
#[derive(Drop)]
pub struct Tape<'a, R: Wait> {
    pub got: Vec<u8>,
    room: u64,
    failures: u64,
    gate: &'a ThreadGate<'a, R>,
}

impl<'a, R: Wait> Tape<'a, R> {
    /// An empty one.
    pub fn new(alloc: Global, room: u64, gate: &'a ThreadGate<'a, R>) -> Tape<'a, R> {
        Tape {
            got: Vec::new(alloc),
            room,
            failures: 0,
            gate,
        }
    }
}

impl<'a, R: Wait> Sink for Tape<'a, R> {
    ghost got = { λ t. Some t.got.items };

    ghost failures = { λ t. t.failures };

    fn put(&mut self, bytes: &[u8]) -> Result<usize, SinkFault> {
        let Some(first) = bytes.first() else {
            return Ok(0);
        };
        if self.got.is_empty() {
            self.gate.enter_sink();
        }
        if self.got.len() as u64 >= self.room || self.got.push(*first).is_err() {
            self.failures = self.failures.wrapping_add(1);
            return Err(SinkFault);
        }
        Ok(1)
    }
}
