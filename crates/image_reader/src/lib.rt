//! Reads images, and starts runs from them.
#![tactic(auto)]

pub mod laws;
mod reading;
mod start;

pub use image_parser::ImageFault;
pub use reading::{read, read_by_several};
pub use start::{into_world, world};
