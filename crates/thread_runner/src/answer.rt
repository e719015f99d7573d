//! The answer of a run of threads.

use init_engine::Seen;
use journal::Journal;

/// A journal, and what is seen of the world that it leads to.
#[derive(Drop)]
pub struct Ended {
    pub journal: Journal,
    pub seen: Seen,
}

/// Why a run of threads did not end by itself.
#[derive(Drop)]
pub enum RunFault {
    Memory,
    /// A thread could not be started.
    Spawn,
    /// The sink failed, after this many bytes of what was printed.
    Device(u128),
    /// The journal has as many steps as it may, and a thread still has a step.
    Limit(Ended),
    /// No thread has a step, and one has not ended.
    Stuck(Ended),
}
