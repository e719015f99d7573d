//! Starts of threads where some classes are initialized, whose static fields no initializer sets.

ghost use Rattle.std.specs.Prelude.{◌≤◌, length};

use super::entries::entries_of;
use classfile::ClassName;
use init_engine::World;
use init_engine::starting::{entry_classes, lazy_shared};
use program::Program;
use std::alloc::{AllocError, Global};
use vm_state::classes::Fields;
use vm_state::heap::Pool;
use vm_state::shared::Shared;

/// The start of these entries, where they and the classes that are initialized are there.
pub fn start(
    alloc: Global,
    program: &Program,
    entries: &str,
    initialized: &str,
) -> Result<Option<World>, AllocError> {
    let Ok(names) = entries_of(alloc, entries) else {
        return Err(AllocError);
    };
    match entry_classes(alloc, program, &names) {
        Ok(classes) => start_over(alloc, program, &classes, initialized),
        Err(_) => Ok(None),
    }
}

fn start_over(
    alloc: Global,
    program: &Program,
    classes: &[u32],
    initialized: &str,
) -> Result<Option<World>, AllocError>
    requires { length classes.now ≤ 64 }
{
    let Ok(mut shared) = lazy_shared(alloc, program, classes.len()) else {
        return Err(AllocError);
    };
    match initialize_all(alloc, program, &mut shared, initialized) {
        Ok(true) => {}
        Ok(false) => return Ok(None),
        Err(error) => return Err(error),
    }
    match World::start(alloc, shared, classes) {
        Ok(world) => Ok(Some(world)),
        Err(error) => Err(error),
    }
}

/// Initializes classes. Answers whether they are there.
fn initialize_all(
    alloc: Global,
    program: &Program,
    shared: &mut Shared,
    list: &str,
) -> Result<bool, AllocError> {
    match entries_of(alloc, list) {
        Ok(names) => initialize_named(alloc, program, shared, &names),
        Err(error) => Err(error),
    }
}

fn initialize_named(
    alloc: Global,
    program: &Program,
    shared: &mut Shared,
    names: &[ClassName],
) -> Result<bool, AllocError> {
    for name in names {
        let class = match program.number_of(alloc, name) {
            Ok(Some(class)) => class,
            Ok(None) => return Ok(false),
            Err(error) => return Err(error),
        };
        if initialize(alloc, shared, class).is_err() {
            return Err(AllocError);
        }
    }
    Ok(true)
}

fn initialize(alloc: Global, shared: &mut Shared, class: u32) -> Result<(), AllocError> {
    shared.initialize(alloc, class, Fields::new(alloc), Pool::new(alloc))
}
