//! The places of a pool's objects: those of the `plain` first are their numbers, the numbers of the others stand in a
//! list.

ghost use Rattle.std.specs.Prelude.{◌≡◌, ℕ, ◌<◌, ◌≤◌, ◌^◌, ◌+◌, length, get_or, slice_get, option_copied};
ghost use Rattle.std.specs.List.Sorted.{IsNonDecreasingBy};
ghost use Rattle.vm_state.specs.steps.Objects.{numbers_of};

use crate::kept::Kept;

/// The number at a place: of the first `plain` it is the place, of the others it stands in a list.
#[inline(always)]
pub(crate) fn number_at(plain: usize, later: &[u64], place: usize) -> Option<u64>
    ensures { result ≡ slice_get (numbers_of plain later.now) place }
{
    if place < plain {
        Some(place as u64)
    } else {
        later_number(later, place - plain)
    }
}

/// A number that stands in a list.
fn later_number(later: &[u64], place: usize) -> Option<u64>
    ensures { result ≡ slice_get later.now place }
{
    match later.get(place) {
        Some(number) => Some(*number),
        None => None,
    }
}

/// The object at a place.
#[inline(always)]
pub(crate) fn kept_at(kept: &[Kept], place: usize) -> Option<&Kept>
    ensures { option_copied result ≡ slice_get kept.now place }
{
    kept.get(place)
}

/// The first place of a number that is not below this one.
#[inline(always)]
pub(crate) fn place_of(plain: usize, later: &[u64], number: u64) -> usize
    requires rising { IsNonDecreasingBy (λ (n : ℕ). n) later.now }
    requires fits { plain + length later.now < 2 ^ 64 }
    ensures before { (i : ℕ) (d : ℕ) → i < result → get_or (numbers_of plain later.now) i d < number }
    ensures after { (d : ℕ) → result < plain + length later.now
        → number ≤ get_or (numbers_of plain later.now) result d }
{
    if number < plain as u64 {
        number as usize
    } else {
        plain + place_in(later, number)
    }
}

/// The first place of a number that is not below this one.
#[inline(never)]
fn place_in(numbers: &[u64], number: u64) -> usize
    requires { IsNonDecreasingBy (λ (n : ℕ). n) numbers.now }
    ensures bound { result ≤ length numbers.now }
    ensures before { (i : ℕ) (d : ℕ) → i < result → get_or numbers.now i d < number }
    ensures after { (d : ℕ) → result < length numbers.now → number ≤ get_or numbers.now result d }
{
    numbers.partition_point(|held| *held < number)
}
