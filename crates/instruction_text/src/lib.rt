//! Instructions of class files as text for a reader, with where they stand: each on a line of its own, in words that
//! `javap` has too.
//!
//! These functions are total: they print something of every method and every pc.
#![tactic(auto)]

mod constants;
mod mnemonic;
mod places;

pub use places::{instruction_text, method_text, place_text};
