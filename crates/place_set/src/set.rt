//! Sets of places in rows, in the order in which they were found.

ghost use Rattle.std.specs.Prelude.{◌≡◌, ◌↔◌, ℕ, ◌<◌, [], length, slice_get, slice_index_or, false, Some, IsTrue, OnOk};
ghost use Rattle.std.specs.List.{Contains};
ghost use Rattle.place_set.specs.declared.set.Place.{Place as Found};
ghost use Rattle.place_set.specs.Distinct.{AreDistinct};
ghost use Rattle.place_set.specs.steps.Adds.{Adds};
ghost use Rattle.place_set.specs.steps.Flags.{rows_of, is_flagged, flags_in, HasRoom, Sets};

use std::alloc::{AllocError, Global};
use std::marker::Model;

/// A place: a row, and the index of an item there.
#[derive(Clone, Copy, Debug)]
pub struct Place {
    pub row: u32,
    pub index: u64,
}

/// Places, each once. They take memory by the greatest index of each row.
#[derive(Drop)]
pub struct PlaceSet {
    /// By row and index: whether the place is a member.
    flags: Vec<Vec<bool>>,
    places: Vec<Place>,
}

impl Model for PlaceSet {
    ghost use Rattle.std.specs.Prelude.{List};
    ghost use Rattle.place_set.specs.declared.set.Place.{Place};
    ghost use Rattle.place_set.specs.steps.Flags.{AreFlags};

    ghost Value = { List Place };

    ghost view = { λ s. s.places.items };

    ghost invariant = { λ s. AreFlags s.flags.items s.places.items };
}

impl PlaceSet {
    /// No place.
    pub fn new(alloc: Global) -> PlaceSet
        ensures { result ≡ [] }
    {
        PlaceSet {
            flags: Vec::new(alloc),
            places: Vec::new(alloc),
        }
    }

    /// Whether it has the place of a row and an index.
    pub fn has(&self, row: u32, index: u64) -> bool
        ensures { IsTrue result ↔ Contains self.now (record { row = row; index = index }) }
    {
        is_flagged(&self.flags, Place { row, index })
    }

    /// How many places it has.
    pub fn len(&self) -> usize
        ensures value { result ≡ length self.now }
        ensures distinct { AreDistinct self.now }
    {
        self.places.len()
    }

    /// The places, in the order in which they were found.
    pub fn places(&self) -> &[Place]
        ensures { result.now ≡ self.now }
    {
        self.places.as_slice()
    }

    /// The one that was found after `index` others.
    pub fn at(&self, index: usize) -> Place
        requires { index < length self.now }
        ensures { slice_get self.now index ≡ Some result }
    {
        self.places[index]
    }

    /// Adds a place, if it is new.
    ///
    /// # Errors
    /// Where memory runs out.
    pub fn add(&mut self, alloc: Global, place: Place) -> Result<(), AllocError>
        ensures { OnOk result (Adds self.old (λ x. x ≡ place) self.new) }
    {
        if is_flagged(&self.flags, place) {
            return Ok(());
        }
        keep_room(alloc, &mut self.flags, place)?;
        self.places.push(place)?;
        set_flag(&mut self.flags, place);
        Ok(())
    }
}

/// The flags of a row; none where no room was kept for them.
fn flags_of(flags: &[Vec<bool>], row: usize) -> &[bool]
    ensures { result.now ≡ slice_index_or (rows_of flags.now) row [] }
{
    match flags.get(row) {
        Some(row) => row.as_slice(),
        None => &[],
    }
}

/// Whether a place is flagged.
fn is_flagged(flags: &[Vec<bool>], place: Place) -> bool
    ensures { result ≡ is_flagged (rows_of flags.now) place }
{
    flag_in(flags_of(flags, place.row as usize), place.index as usize)
}

/// The flag of an index; none past the end.
fn flag_in(row: &[bool], index: usize) -> bool
    ensures { result ≡ flags_in row.now index }
{
    match row.get(index) {
        Some(flag) => *flag,
        None => false,
    }
}

/// Keeps room for the flags of a row; nothing more is flagged.
fn keep_flags(alloc: Global, flags: &mut Vec<Vec<bool>>, row: u32) -> Result<(), AllocError>
    ensures same { (x : Found) → is_flagged (rows_of flags.new.items) x ≡ is_flagged (rows_of flags.old.items) x }
    ensures ok { OnOk result (row < length flags.new.items) }
{
    while flags.len() <= row as usize {
        flags.push(Vec::new(alloc))?;
    }
    Ok(())
}

/// Keeps room for the flag of an index; nothing more is flagged.
fn keep_index(row: &mut Vec<bool>, index: u64) -> Result<(), AllocError>
    ensures same { (n : ℕ) → flags_in row.new.items n ≡ flags_in row.old.items n }
    ensures ok { OnOk result (index < length row.new.items) }
{
    let Some(count) = (index as usize).checked_add(1) else {
        return Err(AllocError);
    };
    if row.len() < count {
        row.resize(count, false)?;
    }
    Ok(())
}

/// Keeps room for the flag of a place; nothing more is flagged.
fn keep_room(alloc: Global, flags: &mut Vec<Vec<bool>>, place: Place) -> Result<(), AllocError>
    ensures same { (x : Found) → is_flagged (rows_of flags.new.items) x ≡ is_flagged (rows_of flags.old.items) x }
    ensures ok { OnOk result (HasRoom (rows_of flags.new.items) place) }
{
    keep_flags(alloc, flags, place.row)?;
    let row = &mut flags[place.row as usize];
    keep_index(row, place.index)
}

/// Flags a place that has room.
fn set_flag(flags: &mut Vec<Vec<bool>>, place: Place)
    requires { HasRoom (rows_of flags.old.items) place }
    ensures { Sets (rows_of flags.old.items) place (rows_of flags.new.items) }
{
    let row = &mut flags[place.row as usize];
    row[place.index as usize] = true;
}
