//! Which classes are initialized at build time.
#![tactic(auto)]

mod crew;
mod finding;
mod gate;
pub mod laws;
mod lent;
pub mod outcome;
mod plan;
mod refused;
mod results;
mod settling;
mod starting;
mod tainted;
mod wave;
mod wave_classes;
mod waves;

pub use gate::{Gate, Open};
pub use settling::{can_work, settle_all, settle_all_here};
