//! Reads images.
#![tactic(auto)]

mod fault;
mod files;
mod flags;
mod halves;
mod header;
mod image;
mod image_fault;
mod kept_objects;
mod names;
mod numbers;
mod objects;
mod regions;
mod tag;
mod unknown;
mod values;

pub use image::{Parsed, image_or_fault, parse, parse_by_several};
pub use image_fault::ImageFault;
