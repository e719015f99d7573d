//! Which objects of regions some static field reaches.

ghost use Rattle.std.specs.Prelude.{◌≡◌, ◌↔◌, ℕ, [], IfOk, OnOk};
ghost use Rattle.std.specs.List.{Contains};
ghost use Rattle.vm_state.specs.Statics.{field_in};
ghost use Rattle.place_set.specs.declared.set.Place.{Place as Found};
ghost use Rattle.place_set.specs.steps.Adds.{Adds};
ghost use Rattle.object_graph.specs.steps.Places.{pool_in, Ascends, IsPlaceOf, HoldPlace, IsInFields, IsInStaticsOf};
ghost use Rattle.object_graph.specs.steps.Places.{HoldsPlace, IsReachedAt};

use crate::counting::static_count;
use crate::pools::{object_at, place_named};
use place_set::{Place, PlaceSet};
use program::Program;
use region_shape::regions::Regions;
use std::alloc::{AllocError, Global};
use vm_state::classes::Fields;
use vm_state::object::Slots;
use vm_state::value::Value;

/// Adds the place of the object that a value refers to.
fn visit_value(
    alloc: Global,
    regions: &Regions,
    value: Value,
    found: &mut PlaceSet,
) -> Result<(), AllocError>
    ensures { OnOk result (Adds found.old (IsPlaceOf regions.now value) found.new) }
{
    match place_named(regions, value) {
        Some(place) => found.add(alloc, place),
        None => Ok(()),
    }
}

/// Adds the places of the objects that slots hold. Numbers are passed over at once.
fn visit_slots(
    alloc: Global,
    regions: &Regions,
    slots: &Slots,
    found: &mut PlaceSet,
) -> Result<(), AllocError>
    ensures { OnOk result (Adds found.old (HoldPlace regions.now slots.now) found.new) }
{
    if slots.are_numbers() {
        return Ok(());
    }
    visit_values(alloc, regions, slots, found)
}

/// Adds the places of the objects that the values in slots refer to.
fn visit_values(
    alloc: Global,
    regions: &Regions,
    slots: &Slots,
    found: &mut PlaceSet,
) -> Result<(), AllocError>
    ensures { OnOk result (Adds found.old (HoldPlace regions.now slots.now) found.new) }
{
    for slot in 0..slots.len() {
        if let Some(value) = slots.get(slot) {
            visit_value(alloc, regions, value, found)?;
        }
    }
    Ok(())
}

/// Adds the places of the objects that the first so many static fields of a class hold.
fn visit_fields(
    alloc: Global,
    regions: &Regions,
    fields: &Fields,
    count: u32,
    found: &mut PlaceSet,
) -> Result<(), AllocError>
    ensures { OnOk result (Adds found.old (IsInFields regions.now (field_in fields.now) count) found.new) }
{
    for field in 0..count {
        visit_value(alloc, regions, fields.get(field), found)?;
    }
    Ok(())
}

/// Adds the places of the objects that the static fields of a class hold, if it is initialized.
fn visit_statics_of(
    alloc: Global,
    program: &Program,
    regions: &Regions,
    class: u32,
    found: &mut PlaceSet,
) -> Result<(), AllocError>
    ensures { OnOk result (Adds found.old (IsInStaticsOf program.now regions.now class) found.new) }
{
    match regions.get(class) {
        Some(region) => {
            let count = static_count(program, class);
            visit_fields(alloc, regions, &region.fields, count, found)
        }
        None => Ok(()),
    }
}

/// Adds the places of the objects that static fields hold.
fn visit_statics(
    alloc: Global,
    program: &Program,
    regions: &Regions,
    found: &mut PlaceSet,
) -> Result<(), AllocError>
    ensures { OnOk result (Adds found.old (λ x. (c : ℕ) × IsInStaticsOf program.now regions.now c x) found.new) }
{
    for class in 0..program.given_count() {
        visit_statics_of(alloc, program, regions, class, found)?;
    }
    Ok(())
}

/// Adds the places of the objects that the object of a place holds.
fn visit_object(
    alloc: Global,
    regions: &Regions,
    place: Place,
    found: &mut PlaceSet,
) -> Result<(), AllocError>
    ensures added { OnOk result (Adds found.old (HoldsPlace regions.now place) found.new) }
    ensures ascending { Ascends (pool_in regions.now place.row) }
{
    match object_at(regions, place) {
        Some(held) => visit_slots(alloc, regions, &held.1.slots, found),
        None => Ok(()),
    }
}

/// Adds the places of all objects that some static field reaches, where there are none yet.
fn search(
    alloc: Global,
    program: &Program,
    regions: &Regions,
    found: &mut PlaceSet,
) -> Result<(), AllocError>
    requires { found.old ≡ [] }
    ensures { OnOk result ((x : Found) → Contains found.new x ↔ IsReachedAt program.now regions.now x) }
{
    visit_statics(alloc, program, regions, found)?;
    let mut next = 0;
    while next < found.len() {
        let place = found.at(next);
        visit_object(alloc, regions, place, found)?;
        next += 1;
    }
    Ok(())
}

/// The places of the objects that some static field reaches. It looks at each static field once, and at each slot of
/// each object that is reached.
pub(crate) fn reached(
    alloc: Global,
    program: &Program,
    regions: &Regions,
) -> Result<PlaceSet, AllocError>
    ensures { IfOk result (λ found. (x : Found) → Contains found x ↔ IsReachedAt program.now regions.now x) }
{
    let mut found = PlaceSet::new(alloc);
    match search(alloc, program, regions, &mut found) {
        Ok(()) => Ok(found),
        Err(error) => Err(error),
    }
}
