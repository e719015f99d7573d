//! The command line.
//!
//! [`line`] parses the arguments after the program's name into a [`Request`], or else a [`WordsFault`].
#![tactic(auto)]

mod arguments;
mod commands;
mod fault;
mod matched;
mod parsed;
mod request;
mod texts;

pub use fault::WordsFault;
pub use matched::line;
pub use request::{
    Audit, Build, Building, Explain, Inspect, Lazy, Renew, Replay, Report, Request, Run,
};
