//! Whether the initialization of a class may run before the program does.
#![tactic(auto)]

mod cycles;
mod dependence;
mod flagged_heights;
pub mod forced;
mod judging;
mod labels;
pub mod laws;
mod marking;
mod reached_labels;
mod reasons;
mod refused_classes;
mod refused_uses;
pub mod verdict;
mod vertex_tables;
mod waves;

pub use dependence::{class_vertex, dependence_graph};
pub use judging::judge;
pub use refused_uses::first_refused;
