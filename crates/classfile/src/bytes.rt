//! Runs of bytes that are kept as they stand in the file.

ghost use Rattle.std.specs.Prelude.{◌≡◌, List, ℕ, IfOk};

use std::alloc::{AllocError, Global};
use std::marker::Model;

/// The longest run of bytes that stands in place, and needs no allocation.
const SHORT: usize = 24;

/// Bytes, seen as their list. Up to 24 of them need no allocation.
#[derive(Drop)]
pub struct Bytes {
    kept: Kept,
}

/// Where bytes are.
#[derive(Drop)]
enum Kept {
    /// In place: the first `length` of these.
    Short { length: u8, bytes: [u8; SHORT] },
    /// On the heap.
    Long { bytes: Vec<u8> },
}

impl Model for Bytes {
    ghost use Rattle.std.specs.Prelude.{List, ℕ};
    ghost use Rattle.classfile.specs.reading.Kept.{kept_bytes, IsWithin};

    ghost Value = { List ℕ };

    ghost view = { λ b. kept_bytes b.kept };

    ghost invariant = { λ b. IsWithin b.kept };
}

impl Bytes {
    /// A copy of bytes.
    ///
    /// # Errors
    /// Where memory runs out.
    pub(crate) fn copy_of(alloc: Global, bytes: &[u8]) -> Result<Self, AllocError>
        ensures { IfOk result (λ b. b ≡ bytes.now) }
    {
        let length = bytes.len();
        if length <= SHORT {
            let mut short = [0; SHORT];
            short[..length].copy_from_slice(bytes);
            let kept = Kept::Short {
                length: length as u8,
                bytes: short,
            };
            return Ok(Bytes { kept });
        }
        let kept = Kept::Long {
            bytes: Vec::from_slice(alloc, bytes)?,
        };
        Ok(Bytes { kept })
    }

    /// The bytes as a slice.
    pub fn as_slice(&self) -> &[u8]
        ensures { result.now ≡ self.now }
    {
        match &self.kept {
            Kept::Short { length, bytes } => &bytes[..usize::from(*length)],
            Kept::Long { bytes } => bytes.as_slice(),
        }
    }
}
