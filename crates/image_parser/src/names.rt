//! Whether regions name objects alone that there are.

ghost use Rattle.std.specs.Prelude.{◌≡◌, length, MatchOption};
ghost use Rattle.std.specs.Bool.{Decides};
ghost use Rattle.vm_state.specs.Pools.{pool_by};
ghost use Rattle.vm_state.specs.Statics.{field_in};
ghost use Rattle.image_parser.specs.reading.Named.{AllBelow, ClassNames, FieldsName, IsFirstNameless, KeptNames};
ghost use Rattle.image_parser.specs.reading.Named.{NamesThere, PoolNames, RegionNames, SlotNames, SlotsName, is_there};

use object_graph::static_count;
use program::Program;
use region_shape::regions::{Region, Regions};
use vm_state::classes::Fields;
use vm_state::heap::Pool;
use vm_state::object::Slots;
use vm_state::value::Value;

/// Whether there is an object of a class and a number.
fn has_object(regions: &Regions, class: u32, number: u64) -> bool
    ensures { result ≡ is_there regions.now class number }
{
    match regions.get(class) {
        Some(region) => region.objects.object(number).is_some(),
        None => false,
    }
}

/// Whether the object that a value names is there.
fn names_there(regions: &Regions, value: Value) -> bool
    ensures { Decides result (NamesThere regions.now value) }
{
    match value {
        Value::OfClass(class, number) => has_object(regions, class, number),
        _ => true,
    }
}

/// Whether the object that the value in a slot names is there.
fn slot_names(regions: &Regions, slots: &Slots, slot: usize) -> bool
    ensures { Decides result (SlotNames regions.now slots.now slot) }
{
    match slots.get(slot) {
        Some(value) => names_there(regions, value),
        None => true,
    }
}

/// Whether the objects that the values in slots name are there.
fn values_name(regions: &Regions, slots: &Slots) -> bool
    ensures { Decides result (SlotsName regions.now slots.now) }
{
    for slot in 0..slots.len() {
        if !slot_names(regions, slots, slot) {
            return false;
        }
    }
    true
}

/// Whether the objects that slots name are there. Slots of numbers alone are passed over at once.
fn slots_name(regions: &Regions, slots: &Slots) -> bool
    ensures { Decides result (SlotsName regions.now slots.now) }
{
    if slots.are_numbers() {
        return true;
    }
    values_name(regions, slots)
}

/// Whether those are that the object at a place of a pool names.
fn kept_names(regions: &Regions, pool: &Pool, place: usize) -> bool
    ensures { Decides result (KeptNames regions.now pool.now place) }
{
    match pool.at(place) {
        Some((_, kept)) => slots_name(regions, &kept.slots),
        None => true,
    }
}

/// Whether those are that the objects of a pool name.
fn pool_names(regions: &Regions, pool: &Pool) -> bool
    ensures { Decides result (PoolNames regions.now (pool_by pool.now)) }
{
    for place in 0..pool.len() {
        if !kept_names(regions, pool, place) {
            return false;
        }
    }
    true
}

/// Whether those are that the first so many static fields name.
fn fields_name(regions: &Regions, fields: &Fields, count: u32) -> bool
    ensures { Decides result (FieldsName regions.now (field_in fields.now) count) }
{
    for field in 0..count {
        if !names_there(regions, fields.get(field)) {
            return false;
        }
    }
    true
}

/// Whether a region of a class with so many static fields names objects alone that there are.
fn region_names(regions: &Regions, region: &Region, count: u32) -> bool
    ensures { Decides result (RegionNames regions.now region.now count) }
{
    fields_name(regions, &region.fields, count) && pool_names(regions, &region.objects)
}

/// Whether the region of a class, if it has one, names objects alone that there are.
fn class_names(program: &Program, regions: &Regions, class: u32) -> bool
    ensures { Decides result (ClassNames program.now regions.now class) }
{
    match regions.get(class) {
        Some(region) => region_names(regions, region, static_count(program, class)),
        None => true,
    }
}

/// The least class whose region names an object that there is not.
pub(crate) fn nameless(program: &Program, regions: &Regions) -> Option<u32>
    ensures { MatchOption result (AllBelow (ClassNames program.now regions.now) (length program.now.classes))
        (IsFirstNameless program.now regions.now) }
{
    for class in 0..program.given_count() {
        if !class_names(program, regions, class) {
            return Some(class);
        }
    }
    None
}
