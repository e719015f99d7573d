//! The gate that threads ask before and after each stretch.

/// Asked by each thread before and after each stretch, outside the lock. `who` is the thread, and `job` the number of
/// its commits so far that answered `Moved`.
pub trait Gate: Sync {
    /// Whether a thread may begin its stretch, where it was asked `turn` times before.
    fn ready(&self, who: u32, job: u64, turn: u32) -> bool;

    /// The stretch is made, and not yet committed.
    fn done(&self, who: u32, job: u64);

    /// Whether it is always ready and nothing waits to be told: then threads may do more at once than a stretch, and
    /// the last one of a run does not ask.
    fn is_open(&self) -> bool {
        false
    }
}

/// Always ready.
#[derive(Clone, Copy)]
pub struct Open;

impl Gate for Open {
    fn ready(&self, _who: u32, _job: u64, _turn: u32) -> bool {
        true
    }

    fn done(&self, _who: u32, _job: u64) {}

    fn is_open(&self) -> bool {
        true
    }
}

/// How often a gate is asked at most.
const MOST_ASKS: u32 = 1_000_000;

/// Asks until the gate is ready.
pub(crate) fn ask<G: Gate>(gate: &G, who: u32, job: u64) {
    for turn in 0..MOST_ASKS {
        if gate.ready(who, job, turn) {
            return;
        }
    }
}
