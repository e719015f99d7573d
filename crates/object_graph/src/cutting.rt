//! Leaves objects out of regions.

ghost use Rattle.std.specs.Prelude.{◌≡◌, ◌≢◌, ◌++◌, ℕ, ◌<◌, ◌≤◌, IfOk, OnOk};
ghost use Rattle.vm_state.specs.declared.object.Object.{Object};
ghost use Rattle.region_shape.specs.Regions.{region_in};
ghost use Rattle.object_graph.specs.steps.Kept.{only_if, kept_from, kept_pool, kept_region};

use place_set::PlaceSet;
use region_shape::regions::{Region, Regions};
use std::alloc::{AllocError, Global};
use vm_state::heap::Pool;
use vm_state::object::Object;

/// Adds an object with its number, if it is wanted.
fn push_if(
    wanted: bool,
    held: (u64, Object),
    objects: &mut Vec<(u64, Object)>,
) -> Result<(), AllocError>
    ensures { OnOk result (objects.new.items ≡ objects.old.items ++ only_if wanted held) }
{
    if wanted {
        objects.push(held)?;
    }
    Ok(())
}

/// The objects of a class whose places are found.
fn found_objects(
    alloc: Global,
    found: &PlaceSet,
    class: u32,
    objects: Vec<(u64, Object)>,
) -> Result<Vec<(u64, Object)>, AllocError>
    ensures { IfOk result (λ kept. kept.items ≡ kept_from found.now class 0 objects.items) }
{
    let _count = objects.len();
    let mut kept = Vec::new(alloc);
    let mut index = 0u64;
    for held in objects {
        push_if(found.has(class, index), held, &mut kept)?;
        index += 1;
    }
    Ok(kept)
}

/// The pool of a class with those objects alone whose places are found.
fn found_pool(alloc: Global, found: &PlaceSet, class: u32, pool: Pool) -> Result<Pool, AllocError>
    ensures { IfOk result (λ kept. kept ≡ kept_pool found.now class pool) }
{
    let (count, objects) = pool.into_parts(alloc)?;
    match found_objects(alloc, found, class, objects) {
        Ok(kept) => Pool::of_objects(alloc, count, kept),
        Err(error) => Err(error),
    }
}

/// Leaves out the objects of a class whose places are not found.
fn cut_class(
    alloc: Global,
    found: &PlaceSet,
    class: u32,
    regions: &mut Regions,
) -> Result<(), AllocError>
    ensures cut { OnOk result (region_in regions.new class
        ≡ kept_region found.now class (region_in regions.old class)) }
    ensures other { OnOk result ((c : ℕ) → c ≢ class → region_in regions.new c ≡ region_in regions.old c) }
{
    match regions.take(class) {
        Some(region) => {
            let Region { fields, objects } = region;
            let objects = found_pool(alloc, found, class, objects)?;
            regions.set(class, Region { fields, objects });
            Ok(())
        }
        None => Ok(()),
    }
}

/// Leaves out the objects of the first so many classes whose places are not found.
pub(crate) fn cut_classes(
    alloc: Global,
    found: &PlaceSet,
    count: u32,
    regions: &mut Regions,
) -> Result<(), AllocError>
    ensures cut { OnOk result ((c : ℕ) → c < count
        → region_in regions.new c ≡ kept_region found.now c (region_in regions.old c)) }
    ensures other { OnOk result ((c : ℕ) → count ≤ c → region_in regions.new c ≡ region_in regions.old c) }
{
    for class in 0..count {
        cut_class(alloc, found, class, regions)?;
    }
    Ok(())
}
