//! The format of images: what a text says of a linked program, and of what its classes that are initialized hold.
#![tactic(auto)]

pub mod elements;
pub mod names;
pub mod version;
