//! Directed graphs of numbered vertices: what a vertex reaches, an order in which successors come first, and cycles.
#![tactic(auto)]

mod arrangement;
mod components;
mod cycle;
mod descent;
mod graph;
mod numbering;
mod reverse;
mod search;
mod visited;

pub use arrangement::{Arrangement, arrange};
pub use components::{Components, components_of};
pub use descent::order;
pub use graph::Graph;
pub use reverse::reversed;
pub use search::{reach, reach_all, visit};
pub use visited::Visited;
