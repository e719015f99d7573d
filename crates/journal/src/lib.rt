//! Journals: schedules by their runs, and their texts.
#![tactic(auto)]

mod fault;
mod first_steps;
mod journal_text;
pub mod laws;
mod line;
mod number;
pub mod runs;

pub use fault::JournalFault;
pub use journal_text::Journal;
