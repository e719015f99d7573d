//! The results of a wave's classes, moved back by the workers that ran them.

ghost use Rattle.std.specs.Prelude.{◌≡◌, IfSome};
ghost use Rattle.machine.specs.Linked.{program_of};
ghost use Rattle.region_shape.specs.Regions.{environment_of};
ghost use Rattle.evaluator.specs.Outcomes.{IsOutcome};

use crate::lent::Lent;
use evaluator::outcome::Outcome;
use std::alloc::{AllocError, Global};
use std::marker::{Model, PhantomData};

/// The outcome of a class, with what its wave was lent. Contracts see the class and its outcome.
#[derive(Drop)]
pub(crate) struct Done<W: Lent> {
    /// Where the class stands among those of its wave.
    place: usize,
    class: u32,
    outcome: Outcome,
    of: PhantomData<W>,
}

impl<W: Lent> Model for Done<W> {
    ghost use Rattle.std.specs.Prelude.{ℕ};
    ghost use Rattle.machine.specs.Linked.{program_of};
    ghost use Rattle.region_shape.specs.Regions.{environment_of};
    ghost use Rattle.evaluator.specs.Outcomes.{IsOutcome};
    ghost use Rattle.evaluator.specs.declared.outcome.Outcome.{Outcome as Held};

    ghost Value = { ℕ × Held };

    ghost view = { λ d. (d.class, d.outcome) };

    ghost invariant = { λ d. IsOutcome (program_of W.program) (environment_of W.regions) d.class W.budget d.outcome };
}

impl<W: Lent> Done<W> {
    /// This became of the class at a place.
    pub(crate) fn new(place: usize, class: u32, outcome: Outcome) -> Done<W>
        requires { IsOutcome (program_of W.program) (environment_of W.regions) class W.budget outcome }
    {
        Done {
            place,
            class,
            outcome,
            of: PhantomData,
        }
    }

    /// The outcome, if it is that of this class.
    pub(crate) fn outcome_of(self, class: u32) -> Option<Outcome>
        ensures { IfSome result (λ outcome. IsOutcome (program_of W.program) (environment_of W.regions) class W.budget
            outcome) }
    {
        if self.class == class {
            Some(self.outcome)
        } else {
            None
        }
    }
}

/// The results that were moved back, at the places among the classes of a wave.
#[derive(Drop)]
pub(crate) struct Results<W: Lent> {
    slots: Vec<Option<Done<W>>>,
    next: usize,
}

impl<W: Lent> Results<W> {
    /// Without places.
    pub(crate) fn none(alloc: Global) -> Results<W> {
        Results {
            slots: Vec::new(alloc),
            next: 0,
        }
    }

    /// A number of places, all empty.
    pub(crate) fn of_places(alloc: Global, count: usize) -> Result<Results<W>, AllocError> {
        let mut slots = Vec::with_capacity(alloc, count)?;
        for _ in 0..count {
            slots.push(None)?;
        }
        Ok(Results { slots, next: 0 })
    }

    /// Puts a result at its place. A second one for a place is dropped, and one of no place.
    pub(crate) fn put(&mut self, done: Done<W>) {
        let place = done.place;
        if place < self.slots.len() && self.slots[place].is_none() {
            self.slots[place] = Some(done);
        }
    }

    /// Puts what a worker moved back at its places.
    pub(crate) fn put_all(&mut self, dones: Vec<Done<W>>) {
        for done in dones {
            self.put(done);
        }
    }

    /// The result at the next place, if there is one.
    pub(crate) fn take_next(&mut self) -> Option<Done<W>> {
        let place = self.next;
        if place >= self.slots.len() {
            return None;
        }
        self.next = place + 1;
        self.slots[place].take()
    }
}
