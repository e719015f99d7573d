//! What an image holds, as text: its version and digest, a line for each class, and its largest classes.
#![tactic(auto)]

mod digest;
mod head;
mod inspecting;
mod largest;
mod lines;

pub use inspecting::inspection;
