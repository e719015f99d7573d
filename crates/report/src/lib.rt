//! Reports of builds: a line for each class, in the order of the names, with its wave and the count of its objects, or
//! the reason for which it is initialized at run time.
#![tactic(auto)]

mod lines;
mod rendering;
mod words;

pub use lines::verdict_text;
pub use rendering::render;
pub use words::{class_text, reason_text};
