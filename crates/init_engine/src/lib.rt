//! The initialization procedure (JVMS 5.5): worlds of threads, their steps, and turns.
#![tactic(auto)]

pub mod fault;
mod procedure;
mod rounds;
pub mod schedule;
mod stacks;
pub mod starting;
mod stuck;
mod turning;
pub mod world;

pub use fault::EntryFault;
pub use stuck::Rest;
pub use turning::{Turning, turns};
pub use vm_state::ends::Ending;
pub use vm_state::output::Output;
pub use world::{Seen, Turn, World};
