//! Threads that run together: local instructions outside the lock, a book of one history, and its replay.
#![tactic(auto)]

mod advance;
mod answer;
mod asked;
mod book;
mod committing;
mod desk;
pub mod done_set;
mod front;
mod gate;
mod known;
mod landing;
mod last;
pub mod laws;
mod made;
mod monitors;
mod opcodes;
pub mod origin;
mod pace;
pub mod replay;
mod run;
mod run_lock;
mod run_state;
pub mod running;
mod sending;
pub mod stretch;
mod stretch_worker;
mod tools;
mod top;
mod unshared;
mod unshared_step;
mod waits;
mod worker;

pub use advance::Commit;
pub use answer::{Ended, RunFault};
pub use book::Book;
pub use front::FrontStretch;
pub use gate::{Gate, Open};
pub use journal::Journal;
pub use run::run_threads;
pub use sinks::{Out, Sink, SinkFault};
