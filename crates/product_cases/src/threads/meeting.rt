//! Waits that end.

use crate::answer::Answer;
use std::sync::Wait;
use std::sync::atomic::{AtomicU64, Ordering};
use std::thread::Parker;
use std::time::Duration;

/// How often a wait sleeps for a millisecond at most.
const SLEEPS: u32 = 10_000;

/// Where threads wait until a count is high enough. They sleep by a parker, which needs no clock.
#[derive(Drop)]
pub struct Meeting<'a, R: Wait> {
    rt: &'a R,
    count: AtomicU64,
    late: AtomicU64,
}

impl<'a, R: Wait> Meeting<'a, R> {
    pub fn new(rt: &'a R) -> Meeting<'a, R> {
        Meeting {
            rt,
            count: AtomicU64::new(0),
            late: AtomicU64::new(0),
        }
    }

    fn count(&self) -> u64 {
        self.count.load(Ordering::SeqCst)
    }

    fn late(&self) -> u64 {
        self.late.load(Ordering::SeqCst)
    }

    /// Adds ` met` where the count is high enough and no wait took too long, or else both.
    pub fn add_to(&self, answer: &mut Answer, need: u64) {
        let (count, late) = (self.count(), self.late());
        if count >= need && late == 0 {
            return answer.word(" met");
        }
        answer.word(" ");
        answer.show(&count);
        answer.word(" of ");
        answer.show(&need);
        answer.word(", ");
        answer.show(&late);
        answer.word(" late")
    }

    /// Counts the caller. The first so many wait until all of them are there.
    pub fn meet(&self, need: u64) {
        if self.count.fetch_add(1, Ordering::SeqCst) < need {
            self.wait(need);
        }
    }

    /// Makes the count no lower than this.
    pub fn reach(&self, stage: u64) {
        if self.count() < stage {
            self.count.store(stage, Ordering::SeqCst);
        }
    }

    /// Waits for a count, and no longer once a wait took too long.
    pub fn wait(&self, need: u64) {
        let parker = Parker::new();
        for _ in 0..SLEEPS {
            if self.count() >= need || self.late() > 0 {
                return;
            }
            parker.park_timeout(self.rt, Duration::from_millis(1));
        }
        self.late.fetch_add(1, Ordering::SeqCst);
    }
}
