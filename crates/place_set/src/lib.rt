//! Sets of places in rows.
#![tactic(auto)]

mod set;

pub use set::{Place, PlaceSet};
