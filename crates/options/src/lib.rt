//! Which classes the options `--initialize-at-build-time` and `--initialize-at-run-time` are about.
//!
//! [`parse`] reads a list of patterns of classes. [`force`] answers the classes that a list of the latter forces to be
//! initialized at run time, and [`demand`] those that one of the former demands at build time.
#![tactic(auto)]

mod chains;
mod checking;
mod covering;
mod demanded;
mod demanding;
mod fault;
mod flags;
mod forcing;
mod matching;
mod names;
mod patterns;
mod sorted_names;

pub use checking::check;
pub use demanded::Demand;
pub use demanding::demand;
pub use fault::{Cause, OptionFault};
pub use forcing::force;
pub use patterns::{Patterns, parse};
