//! What number a text may have.

ghost use Rattle.std.specs.Prelude.{◌<◌};

use std::alloc::{AllocError, Global};

/// How many slots there are.
const SLOTS: usize = 1_024;

/// By slot: the number of the text that was noted last. Most texts of class files stand in many of them, so most often
/// it is the number that is sought.
#[derive(Drop)]
pub(crate) struct Guesses {
    latest: Vec<usize>,
}

impl Guesses {
    /// Never a number.
    pub(crate) fn none(alloc: Global) -> Self {
        Guesses {
            latest: Vec::new(alloc),
        }
    }

    /// Nothing is noted yet.
    ///
    /// # Errors
    /// Where memory runs out.
    pub(crate) fn new(alloc: Global) -> Result<Self, AllocError> {
        let latest = vec![in alloc; 0; SLOTS]?;
        Ok(Guesses { latest })
    }

    /// The number that a text may have.
    pub(crate) fn guess(&self, text: &[u8]) -> Option<usize> {
        self.latest.get(slot_of(text)).copied()
    }

    /// Notes the number of a text.
    pub(crate) fn note(&mut self, text: &[u8], number: usize) {
        if let Some(latest) = self.latest.get_mut(slot_of(text)) {
            *latest = number;
        }
    }
}

/// The slot of a text, by its length, its first byte and its last two: many texts of one class differ in these alone.
fn slot_of(text: &[u8]) -> usize
    ensures { result < 1024 }
{
    let first = text.first().copied().unwrap_or(0);
    let last = text.last().copied().unwrap_or(0);
    let before = byte_before_last(text);
    let length = (text.len() % 256) as u8;
    let ends = u16::from(first) * 61 + u16::from(before) * 113 + u16::from(last) * 17;
    usize::from((ends + u16::from(length) * 31) % 1_024)
}

/// The last byte but one, or 0.
fn byte_before_last(text: &[u8]) -> u8 {
    match text {
        [.., before, _] => *before,
        _ => 0,
    }
}
