//! What a Java virtual machine holds while it runs: values, objects, operand stacks, local variables,
//! frames, initializations, and what all threads share.
#![tactic(auto)]

pub mod cells;
pub mod classes;
mod elements;
pub mod ends;
pub mod frame;
pub mod heap;
pub mod initialization;
mod items;
pub mod kept;
pub mod object;
pub mod output;
mod owners;
pub mod packing;
mod places;
pub mod row;
pub mod shared;
pub mod spares;
pub mod text;
pub mod value;
pub mod variable;
