//! The bytes of a method's code.

ghost use Rattle.std.specs.Prelude.{◌≡◌, ◌<◌, ◌^◌, length, IfOk};

use crate::bytes::Bytes;
use std::alloc::{AllocError, Global};
use std::marker::Model;

/// The bytes of a method's code, fewer than 65,536 of them (JVMS 4.7.3), seen as their list.
#[derive(Drop)]
pub struct CodeBytes {
    bytes: Bytes,
}

impl Model for CodeBytes {
    ghost use Rattle.std.specs.Prelude.{List, ℕ, ◌<◌, ◌^◌, length};

    ghost Value = { List ℕ };

    ghost view = { λ b. b.bytes };

    ghost invariant = { λ b. length b.bytes < 2 ^ 16 };
}

impl CodeBytes {
    pub(crate) fn copy_of(alloc: Global, bytes: &[u8]) -> Result<Self, AllocError>
        requires { length bytes.now < 2 ^ 16 }
        ensures { IfOk result (λ b. b ≡ bytes.now) }
    {
        Ok(CodeBytes {
            bytes: Bytes::copy_of(alloc, bytes)?,
        })
    }

    /// The bytes as a slice.
    pub fn as_slice(&self) -> &[u8]
        ensures is { result.now ≡ self.now }
        ensures short { length self.now < 2 ^ 16 }
    {
        self.bytes.as_slice()
    }
}
