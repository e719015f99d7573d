//! Where the threads of a run stand, read from another run over its own schedule.
#![tactic(auto)]

mod left_out;
mod lines;
mod places;
mod replaying;
mod variables;

pub use lines::{end_lines, stack_lines};
pub use replaying::{ThreadStacks, stacks};
pub use variables::variable_lines;
