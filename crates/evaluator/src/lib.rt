//! A class's class initialization method at build time, alone and within a budget.
#![tactic(auto)]

mod build;
mod course_runner;
pub mod laws;
pub mod outcome;
pub mod settling;
mod step;
