//! Streams that fail.

use std::io::{self, ErrorKind, Write};

/// A stream that takes one byte a call, so many of them, and then fails, or answers 0. It holds them against those that
/// are wanted.
#[derive(Drop)]
pub struct OneByOne<'a> {
    pub wanted: &'a [u8],
    pub taken: usize,
    pub room: usize,
    pub stalls: bool,
    pub is_same: bool,
}

impl<'a> OneByOne<'a> {
    /// One that fails in the end.
    pub fn failing(wanted: &'a [u8], room: usize) -> OneByOne<'a> {
        OneByOne {
            wanted,
            taken: 0,
            room,
            stalls: false,
            is_same: true,
        }
    }

    /// Whether it got just the first so many bytes of what is wanted.
    pub fn has(&self, count: u128) -> bool {
        self.is_same && self.taken as u128 == count
    }

    /// Whether it got as many of them as it takes.
    pub fn is_full(&self) -> bool {
        self.has(self.room as u128)
    }
}

impl<'a> Write for OneByOne<'a> {
    fn write(&mut self, bytes: &[u8]) -> io::Result<usize> {
        let Some(first) = bytes.first() else {
            return Ok(0);
        };
        if self.room <= self.taken {
            if self.stalls {
                return Ok(0);
            }
            return Err(io::Error::from(ErrorKind::BrokenPipe));
        }
        self.is_same = self.is_same && is_at(self.wanted, self.taken, *first);
        self.taken += 1;
        Ok(1)
    }

    fn flush(&mut self) -> io::Result<()> {
        Ok(())
    }
}

/// Whether a byte stands at a place.
fn is_at(bytes: &[u8], place: usize, byte: u8) -> bool {
    match bytes.get(place) {
        Some(found) => *found == byte,
        None => false,
    }
}
