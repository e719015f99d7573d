//! The objects of an image, by their names.

ghost use Rattle.std.specs.Prelude.{◌≡◌, ◌↔◌, ◌++◌, [], IfOk, OnOk};
ghost use Rattle.std.specs.List.{Contains};
ghost use Rattle.region_shape.specs.Regions.{environment_of};
ghost use Rattle.object_graph.specs.declared.name_set.ObjectName.{ObjectName as Name};
ghost use Rattle.object_graph.specs.Names.{AreDistinct};
ghost use Rattle.object_graph.specs.Reached.{IsReached};
ghost use Rattle.object_graph.specs.steps.Listed.{names_of, names_below};
ghost use Rattle.object_graph.specs.steps.Places.{pool_in, Ascends};

use crate::image::Image;
use crate::name_set::{NameSet, ObjectName};
use crate::pools::{count_in, object_at};
use place_set::Place;
use region_shape::regions::Regions;
use std::alloc::{AllocError, Global};

/// Adds the names of the objects of a class.
fn add_names(regions: &Regions, class: u32, names: &mut Vec<ObjectName>) -> Result<(), AllocError>
    ensures all { OnOk result (names.new.items
        ≡ names.old.items ++ names_of class (pool_in regions.now class).objects) }
    ensures ascending { Ascends (pool_in regions.now class) }
{
    for index in 0..count_in(regions, class) {
        let place = Place {
            row: class,
            index: index as u64,
        };
        if let Some(held) = object_at(regions, place) {
            names.push(ObjectName {
                class,
                number: held.0,
            })?;
        }
    }
    Ok(())
}

/// Adds the names of the objects of the first so many classes, where there are none yet.
fn add_all_names(
    regions: &Regions,
    count: u32,
    names: &mut Vec<ObjectName>,
) -> Result<(), AllocError>
    requires { names.old.items ≡ [] }
    ensures listed { OnOk result (names.new.items ≡ names_below regions.now count) }
    ensures distinct { OnOk result (AreDistinct names.new.items) }
{
    for class in 0..count {
        add_names(regions, class, names)?;
    }
    Ok(())
}

/// The objects that some static field of an image reaches: those that it holds.
///
/// # Errors
/// Where memory runs out.
pub fn reachable(alloc: Global, image: &Image) -> Result<NameSet, AllocError>
    ensures reached { IfOk result (λ found. (x : Name)
        → Contains found x ↔ IsReached image.now.program (environment_of image.now.regions) x) }
    ensures distinct { IfOk result AreDistinct }
{
    let _fits = image.region(0);
    let mut names = Vec::new(alloc);
    match add_all_names(image.regions(), image.program().given_count(), &mut names) {
        Ok(()) => Ok(NameSet::of_distinct(names)),
        Err(error) => Err(error),
    }
}
