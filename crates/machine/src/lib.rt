//! One instruction of a thread of a linked program.
#![tactic(auto)]

mod abrupt;
pub mod array_elements;
pub mod array_operation;
pub mod array_references;
pub mod array_types;
mod arrays;
mod call_execution;
pub mod call_operation;
pub mod calling;
pub mod effects;
pub mod entering;
pub mod execute;
pub mod failing;
mod handlers;
pub mod instance_calls;
mod instance_fields;
pub mod kinds;
pub mod laws;
mod members;
pub mod monitors;
pub mod moving;
mod object_execution;
pub mod object_operation;
pub mod objects;
mod printing;
mod pushing;
mod raising;
pub mod references;
pub mod resolved;
pub mod returning;
pub mod sharing;
mod starting;
mod statics;
pub mod store;
pub mod stored_kind;
mod unwinding;
pub mod waiting;

pub use effects::effect;
pub use kinds::Effect;
pub use vm_state::heap::Heap;
pub use vm_state::initialization::Frames;
pub use vm_state::object::Object;
pub use vm_state::row::{LentObject, Row};
pub use vm_state::shared::Shared;
pub use vm_state::value::{Maker, Value};
