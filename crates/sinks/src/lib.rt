//! What takes bytes: a trait with contracts, and sinks over writers.
#![tactic(auto)]

mod sending;
mod sink;

pub use sending::{WriteFault, put_all, send};
pub use sink::{Out, Sink, SinkFault};
