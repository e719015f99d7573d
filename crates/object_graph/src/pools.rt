//! The pools of regions, and the places of objects in them.

ghost use Rattle.std.specs.Prelude.{◌≡◌, ◌↔◌, None, length, slice_get, option_map, IfNone, IfSome, IsSome, MatchOption};
ghost use Rattle.place_set.specs.declared.set.Place.{Place as Found};
ghost use Rattle.vm_state.specs.declared.value.Value.TheVariants.{OfClass};
ghost use Rattle.vm_state.specs.Objects.{numbered_kept, object_in};
ghost use Rattle.vm_state.specs.steps.Objects.{object_at_place};
ghost use Rattle.object_graph.specs.steps.Places.{pool_in, Ascends, IsPlaceOf};

use place_set::Place;
use region_shape::regions::Regions;
use vm_state::kept::Kept;
use vm_state::value::Value;

/// How many objects the region of a class holds; none where it has no region.
pub(crate) fn count_in(regions: &Regions, class: u32) -> usize
    ensures all { result ≡ length (pool_in regions.now class).objects }
    ensures ascending { Ascends (pool_in regions.now class) }
{
    match regions.get(class) {
        Some(region) => region.objects.len(),
        None => 0,
    }
}

/// The object of a place with its number, if there is one.
pub(crate) fn object_at(regions: &Regions, place: Place) -> Option<(u64, &Kept)>
    ensures value { option_map (λ o. (o.0, o.1.now)) result
        ≡ option_map numbered_kept (slice_get (pool_in regions.now place.row).objects place.index) }
    ensures ascending { Ascends (pool_in regions.now place.row) }
{
    let _count = count_in(regions, place.row);
    match regions.get(place.row) {
        Some(region) => region.objects.at(place.index as usize),
        None => None,
    }
}

/// The index of the object of a number in the pool of a class, if it is held.
fn index_in(regions: &Regions, class: u32, number: u64) -> Option<usize>
    ensures held { IfSome result (λ index. IsSome (object_at_place (pool_in regions.now class).objects index number)) }
    ensures none { IfNone result (object_in (pool_in regions.now class).objects number ≡ None) }
{
    match regions.get(class) {
        Some(region) => region.objects.place(number),
        None => None,
    }
}

/// The place of the object of a class and a number, if it is held.
fn place_in(regions: &Regions, class: u32, number: u64) -> Option<Place>
    ensures { MatchOption result ((x : Found) → IsPlaceOf regions.now (OfClass class number) x → ⊥)
        (λ place. (x : Found) → IsPlaceOf regions.now (OfClass class number) x ↔ (x ≡ place)) }
{
    let _count = count_in(regions, class);
    match index_in(regions, class, number) {
        Some(index) => Some(Place {
            row: class,
            index: index as u64,
        }),
        None => None,
    }
}

/// The place of the object that a value refers to, if it is held.
pub(crate) fn place_named(regions: &Regions, value: Value) -> Option<Place>
    ensures { MatchOption result ((x : Found) → IsPlaceOf regions.now value x → ⊥)
        (λ place. (x : Found) → IsPlaceOf regions.now value x ↔ (x ≡ place)) }
{
    match value {
        Value::OfClass(class, number) => place_in(regions, class, number),
        _ => None,
    }
}
