//! The objects of one maker, lent.

ghost use Rattle.std.specs.Prelude.{◌≡◌, [], length, slice_get};
ghost use Rattle.std.specs.Iterator.{YieldsFirst, item_count};

use crate::heap::Pool;
use crate::object::{Monitor, Slots};
use built_in::class_id::ClassId;
use std::marker::Model;

/// An object, lent. A contract sees the object itself.
#[derive(Drop)]
pub struct LentObject<'a> {
    class: ClassId,
    slots: &'a Slots,
    monitor: Monitor,
}

impl<'a> Model for LentObject<'a> {
    ghost use Rattle.vm_state.specs.declared.object.Object.{Object};

    ghost Value = { Object };

    ghost view = { λ s. record { class = s.class; slots = s.slots.now; monitor = s.monitor } };
}

impl<'a> LentObject<'a> {
    /// The object of this class with these slots and this monitor.
    pub(crate) fn of(class: ClassId, slots: &'a Slots, monitor: Monitor) -> LentObject<'a>
        ensures { result ≡ record { class = class; slots = slots.now; monitor = monitor } }
    {
        LentObject {
            class,
            slots,
            monitor,
        }
    }

    /// Its class, or its array type.
    pub fn class(&self) -> ClassId
        ensures { result ≡ self.now.class }
    {
        self.class
    }

    /// Its instance fields, or its elements, in order.
    pub fn slots(&self) -> &'a Slots
        ensures { result.now ≡ self.now.slots }
    {
        self.slots
    }

    /// Its monitor.
    pub fn monitor(&self) -> Monitor
        ensures { result ≡ self.now.monitor }
    {
        self.monitor
    }
}

/// The objects of one maker, lent. A contract sees the list of them, each with its number.
#[derive(Drop)]
pub struct Row<'a> {
    pool: Option<&'a Pool>,
}

impl<'a> Model for Row<'a> {
    ghost use Rattle.std.specs.Prelude.{List, ℕ, option_copied};
    ghost use Rattle.vm_state.specs.declared.object.Object.{Object};
    ghost use Rattle.vm_state.specs.Pools.{all_held};

    ghost Value = { List (ℕ × Object) };

    ghost view = { λ s. all_held (option_copied s.pool) };
}

impl<'a> Row<'a> {
    /// The objects of this pool.
    pub(crate) fn of(pool: &'a Pool) -> Row<'a>
        ensures { result ≡ pool.now.objects }
    {
        Row { pool: Some(pool) }
    }

    /// No object.
    pub(crate) fn none() -> Row<'a>
        ensures { result ≡ [] }
    {
        Row { pool: None }
    }

    /// How many there are.
    pub fn len(&self) -> usize
        ensures { result ≡ length self.now }
    {
        match self.pool {
            Some(pool) => pool.len(),
            None => 0,
        }
    }

    /// The object at a place, with its number, if there is one.
    pub fn get(&self, place: usize) -> Option<(u64, LentObject<'a>)>
        ensures { result ≡ slice_get self.now place }
    {
        match self.pool {
            Some(pool) => pool.lent(place),
            None => None,
        }
    }

    /// The objects one by one, in the order of their numbers.
    pub fn iter(&self) -> RowObjects<'a>
        ensures { result ≡ self.now }
    {
        RowObjects {
            row: Row { pool: self.pool },
            place: 0,
        }
    }
}

/// The objects of a row that are still to come.
#[derive(Drop)]
pub struct RowObjects<'a> {
    row: Row<'a>,
    place: usize,
}

impl<'a> Model for RowObjects<'a> {
    ghost use Rattle.std.specs.Prelude.{List, ℕ, drop};
    ghost use Rattle.vm_state.specs.declared.object.Object.{Object};

    ghost Value = { List (ℕ × Object) };

    ghost view = { λ s. drop s.place s.row };
}

impl<'a> Iterator for RowObjects<'a> {
    type Item = (u64, LentObject<'a>);

    ghost next_gives = { YieldsFirst (λ s. s) };

    ghost remaining = { item_count (λ s. s) };

    fn next(&mut self) -> Option<(u64, LentObject<'a>)> {
        if self.place >= self.row.len() {
            return None;
        }
        match self.row.get(self.place) {
            Some(item) => {
                self.place += 1;
                Some(item)
            }
            None => None,
        }
    }
}
