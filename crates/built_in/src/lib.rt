//! Classes as values, objects and links name them; and what the machine has of itself: its built-in classes and their
//! methods.
#![tactic(auto)]

pub mod class_id;
pub mod method;
