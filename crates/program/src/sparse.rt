//! Lists of which most entries hold nothing.

ghost use Rattle.std.specs.Prelude.{◌≡◌, ◌+◌, ◌<◌, ◌++◌, ◌∷◌, [], length, IfOk, OnOk, slice_get};
ghost use Rattle.program.specs.steps.Sparse.{entries, ArePlaces};

use std::alloc::{AllocError, Global};

/// The place of an entry that holds nothing. No list here has so many items.
const NOTHING: u16 = u16::MAX;

/// A list whose entries hold an item or nothing: two bytes for each, and the items.
#[derive(Drop)]
pub(crate) struct Sparse<T> {
    /// By entry: the place of its item among the items.
    pub(crate) places: Vec<u16>,
    pub(crate) items: Vec<T>,
}

impl<T: Drop> Sparse<T> {
    /// No entries, with room for `count`.
    pub(crate) fn with_capacity(alloc: Global, count: usize) -> Result<Self, AllocError>
        ensures places { IfOk result (λ s. s.places.items ≡ []) }
        ensures items { IfOk result (λ s. s.items.items ≡ []) }
    {
        Ok(Sparse {
            places: Vec::with_capacity(alloc, count)?,
            items: Vec::new(alloc),
        })
    }

    /// Adds an entry. Where memory is refused all stays as it was.
    #[tactic(auto, using(crate::proofs::SparseLemmas::nothing_entries))]
    pub(crate) fn add(&mut self, entry: Option<T>) -> Result<(), AllocError>
        requires places { ArePlaces self.old.places.items self.old.items.items }
        requires few { length self.old.places.items < 65535 }
        ensures places { ArePlaces self.new.places.items self.new.items.items }
        ensures count { OnOk result (length self.new.places.items ≡ length self.old.places.items + 1) }
        ensures entries { OnOk result (entries self.new.places.items self.new.items.items
            ≡ entries self.old.places.items self.old.items.items ++ entry ∷ []) }
    {
        let Some(item) = entry else {
            self.places.push(NOTHING)?;
            return Ok(());
        };
        let place = self.items.as_slice().len() as u16;
        self.places.reserve(1)?;
        self.items.push(item)?;
        self.places.push_reserved(place);
        Ok(())
    }

    /// The place of the item that the entry at an index holds: that of no item where it holds nothing.
    pub(crate) fn place(&self, index: u16) -> Option<u16>
        ensures { result ≡ slice_get self.now.places.items index }
    {
        self.places.get(usize::from(index)).copied()
    }
}
