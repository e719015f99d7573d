//! Whether a thread is in a monitor.

use machine::references::name_of;
use vm_state::frame::Frame;
use vm_state::object::Monitor;
use vm_state::shared::Shared;
use vm_state::value::Value;

/// How many local variables are looked at.
const LOCALS: u16 = 16;

/// Whether a thread owns the monitor of what a value refers to.
fn owns(shared: &Shared, thread: u32, value: Value) -> bool {
    let Some(name) = name_of(value) else {
        return false;
    };
    match shared.monitor(name) {
        Monitor::Owned {
            thread: owner,
            depth: _,
        } => owner == thread,
        Monitor::Free => false,
    }
}

/// Whether a thread owns the monitor of what one of the first local variables of its frame refers to: compilers keep
/// the object of a synchronized block in one.
pub(crate) fn owns_of_locals(shared: &Shared, thread: u32, frame: &Frame) -> bool {
    for at in 0..LOCALS {
        if let Ok(value) = frame.cells.value_at(at) {
            if owns(shared, thread, value) {
                return true;
            }
        }
    }
    false
}
