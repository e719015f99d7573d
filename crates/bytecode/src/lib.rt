//! Instructions from the bytes of a method's code (JVMS SE 8, 4.9.1, 6.5).
#![tactic(auto)]

mod body;
mod decoded;
mod fixed;
mod form;
mod instruction;
mod numbers;
mod operand;
mod placed;
mod places;
mod reading;
mod sweep;
mod switch;
mod table;
mod uniqueness;
mod wide;

pub use body::{Body, decode};
pub use instruction::Instruction;
pub use operand::{
    Comparison, Conversion, ElementKind, Equality, IntOperator, LongOperator, PrimitiveKind,
    StackOperation,
};
pub use placed::Placed;
pub use switch::{Case, LookupSwitch, TableSwitch};
pub use uniqueness::{bad_by_causes, one_body, one_instruction};
