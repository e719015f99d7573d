//! Objects that no static field reaches: which class holds one.

ghost use Rattle.std.specs.Prelude.{◌≡◌, ◌↔◌, ℕ, ◌<◌, length, IfOk, MatchOption};
ghost use Rattle.std.specs.Bool.{Decides};
ghost use Rattle.std.specs.List.{Contains};
ghost use Rattle.region_shape.specs.Regions.{environment_of};
ghost use Rattle.place_set.specs.declared.set.Place.{Place as Found};
ghost use Rattle.object_graph.specs.Idle.{AreReachedOf, IsFirstIdle};
ghost use Rattle.object_graph.specs.steps.Places.{AreFound, IsReachedAt};

use crate::pools::count_in;
use crate::reach::reached;
use place_set::PlaceSet;
use program::Program;
use region_shape::regions::Regions;
use std::alloc::{AllocError, Global};

/// Whether the first so many places of a class are among these.
fn are_found(found: &PlaceSet, class: u32, count: usize) -> bool
    ensures { Decides result (AreFound found.now class count) }
{
    for index in 0..count {
        if !found.has(class, index as u64) {
            return false;
        }
    }
    true
}

/// The least class of a program with an object whose place is not among these, the places of those that are reached.
fn first_unfound(program: &Program, regions: &Regions, found: &PlaceSet) -> Option<u32>
    requires { (x : Found) → Contains found.now x ↔ IsReachedAt program.now regions.now x }
    ensures { MatchOption result
        ((c : ℕ) → c < length program.now.classes → AreReachedOf program.now (environment_of regions.now) c)
        (IsFirstIdle program.now (environment_of regions.now)) }
{
    for class in 0..program.given_count() {
        if !are_found(found, class, count_in(regions, class)) {
            return Some(class);
        }
    }
    None
}

/// The least class of a program whose region holds an object that no static field reaches.
///
/// # Errors
/// Where memory runs out.
pub fn first_idle(
    alloc: Global,
    program: &Program,
    regions: &Regions,
) -> Result<Option<u32>, AllocError>
    ensures { IfOk result (λ first. MatchOption first
        ((c : ℕ) → c < length program.now.classes → AreReachedOf program.now (environment_of regions.now) c)
        (IsFirstIdle program.now (environment_of regions.now))) }
{
    let found = reached(alloc, program, regions)?;
    Ok(first_unfound(program, regions, &found))
}
