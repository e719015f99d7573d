//! The bits of one name and descriptor among those of a window of declarations.

ghost use Rattle.std.specs.Prelude.{◌≡◌, ◌↔◌, ◌⊎◌, ◌<◌, ◌≤◌, ℕ, length};
ghost use Rattle.hierarchy.specs.steps.DeclarationBits.{Has, HasKey, IsCoded, IsMask};

use crate::bits::{BITS, with_bit};
use crate::declarations::Declaration;
use crate::member_key::MemberKey;

/// The bits of a name and descriptor.
#[derive(Clone, Copy)]
pub(crate) struct Mask {
    pub(crate) key: MemberKey,
    pub(crate) same: u64,
    /// The bits of superinterface methods with code.
    pub(crate) coded: u64,
}

impl Mask {
    /// The mask of a name and descriptor in the window that begins at a place.
    pub(crate) fn of_key(declared: &[Declaration], start: usize, key: MemberKey) -> Mask
        requires { start ≤ length declared.now }
        ensures key { result.key ≡ key }
        ensures mask { IsMask declared.now start result }
    {
        let mut mask = Mask {
            key,
            same: 0,
            coded: 0,
        };
        for bit in 0..BITS {
            if let Some(declaration) = declared.get(start + bit) {
                mask = mask.and(bit, *declaration);
            }
        }
        mask
    }

    /// The mask of another name and descriptor, which is mostly the same one.
    pub(crate) fn changed_to(self, declared: &[Declaration], start: usize, key: MemberKey) -> Mask
        requires start { start ≤ length declared.now }
        requires mask { IsMask declared.now start self }
        ensures key { result.key ≡ key }
        ensures mask { IsMask declared.now start result }
    {
        if self.key.is(key) {
            self
        } else {
            Mask::of_key(declared, start, key)
        }
    }

    /// The mask with one more declaration.
    fn and(self, bit: usize, declaration: Declaration) -> Mask
        requires { bit < 64 }
        ensures key { result.key ≡ self.key }
        ensures same { (n : ℕ) → Has result.same n
            ↔ (Has self.same n ⊎ ((n ≡ bit) × HasKey self.key declaration)) }
        ensures coded { (n : ℕ) → Has result.coded n
            ↔ (Has self.coded n ⊎ ((n ≡ bit) × IsCoded self.key declaration)) }
    {
        if !declaration.key.is(self.key) {
            return self;
        }
        Mask {
            key: self.key,
            same: with_bit(self.same, bit),
            coded: if declaration.coded {
                with_bit(self.coded, bit)
            } else {
                self.coded
            },
        }
    }
}
