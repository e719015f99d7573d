//! Images: a program, and the regions of classes that are initialized before it runs.
#![tactic(auto)]

mod counting;
mod cutting;
mod idle;
mod image;
pub mod laws;
mod listing;
mod name_set;
mod pools;
mod reach;

pub use counting::static_count;
pub use idle::first_idle;
pub use image::{Image, gather};
pub use listing::reachable;
pub use name_set::{NameSet, ObjectName};
