//! Instructions that touch their own frame alone (JVMS SE 8, 2.11, 6.5): its local variables, its operand stack and the
//! place of its next instruction.
#![tactic(auto)]

pub mod arithmetic;
pub mod control_transfer;
pub mod execute;
pub mod laws;
pub mod load_store;
pub mod numeric;
pub mod operand_kind;
pub mod stack_management;
pub mod switch_targets;
pub mod trap;
