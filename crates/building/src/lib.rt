//! Images of programs.
#![tactic(auto)]

mod asking;
mod build;
pub mod laws;
mod settling;

pub use build::{BuildFault, BuildOptions, Built, build_program, build_program_here};
