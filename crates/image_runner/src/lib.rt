//! Runs of images by threads, and replays of their journals, from an image and the names of its entries.
#![tactic(auto)]

mod fault;
mod replaying;
mod running;

pub use fault::{ReplayFault, RunFault};
pub use replaying::replay;
pub use running::run_threads;
pub use thread_runner::{Ended, Gate, Open};
