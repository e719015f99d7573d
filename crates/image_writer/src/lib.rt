//! Writes images: their text goes out to a sink.
#![tactic(auto)]

mod files;
mod fitting;
mod numbers;
mod objects;
mod sizes;
mod text;
mod values;
mod writing;

pub use sinks::{Out, Sink, SinkFault, WriteFault};
pub use sizes::region_sizes;
pub use text::image_text;
pub use writing::write;
