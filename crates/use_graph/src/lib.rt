//! What the initialization of a class may run and need, before it runs.
#![tactic(auto)]

pub mod body;
mod call_graph;
pub mod callee;
pub mod class_uses;
mod code;
mod deeds;
pub mod feature;
pub mod laws;
mod left_out;
pub mod mark;
pub mod numbers;
mod search;
pub mod whole_program;

pub use search::{start_of, uses};
pub use whole_program::UseGraph;
