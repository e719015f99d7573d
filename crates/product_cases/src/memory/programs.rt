//! The programs and worlds that class files make; none where the data are wrong.

use crate::hex::classes_of;
use cli::entries_of;
use init_engine::World;
use program::{Program, link};
use std::alloc::Global;

/// The program of files that are class files.
pub fn linked(alloc: Global, files: &[Vec<u8>]) -> Option<Program> {
    let Ok(classes) = classes_of(alloc, files) else {
        return None;
    };
    match link(alloc, classes) {
        Ok(program) => Some(program),
        Err(_) => None,
    }
}

/// The lazy start of these entries, apart by commas.
pub fn start_of(alloc: Global, program: &Program, entries: &str) -> Option<World> {
    let Ok(entries) = entries_of(alloc, entries) else {
        return None;
    };
    match World::lazy(alloc, program, &entries) {
        Ok(world) => Some(world),
        Err(_) => None,
    }
}
