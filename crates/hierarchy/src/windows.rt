//! What classes have of their own in a window of declarations.

ghost use Rattle.std.specs.Prelude.{◌≡◌, ◌↔◌, ◌<◌, ◌≤◌, ◌+◌, ℕ, length};
ghost use Rattle.hierarchy.specs.steps.DeclarationBits.{Has, own_of};
ghost use Rattle.hierarchy.specs.steps.Windows.{NotesFirst, Notes};

use crate::bits::{BITS, Own, with_bit};
use crate::declarations::Declaration;
use crate::masks::Mask;
use crate::member_key::MemberKey;

/// Notes of each class which of the declarations are its own, and which have a name and descriptor that it declares.
pub(crate) fn note(declared: &[Declaration], start: usize, own: &mut [Own])
    requires { start ≤ length declared.now }
    ensures len { length own.new ≡ length own.old }
    ensures noted { NotesFirst declared.now start (length declared.now) own.new }
{
    clear(own);
    let mut mask = Mask::of_key(declared, start, MemberKey::EMPTY);
    for place in 0..declared.len() {
        let declaration = declared[place];
        mask = mask.changed_to(declared, start, declaration.key);
        let here = bit_of(place, start);
        note_class(own, declaration.member.class, here, mask.same);
    }
}

/// Takes all bits away.
fn clear(own: &mut [Own])
    ensures len { length own.new ≡ length own.old }
    ensures here { (c n : ℕ) → ¬ Has (own_of own.new c).here n }
    ensures same { (c n : ℕ) → ¬ Has (own_of own.new c).same n }
{
    for class in 0..own.len() {
        own[class] = Own { here: 0, same: 0 };
    }
}

/// The bit of a place, if it is one of the window.
fn bit_of(place: usize, start: usize) -> u64
    ensures { (n : ℕ) → n < 64 → Has result n ↔ (place ≡ start + n) }
{
    match place.checked_sub(start) {
        Some(bit) => { if bit < BITS { with_bit(0, bit) } else { 0 } }
        None => 0,
    }
}

/// Adds bits to those of a class.
fn note_class(own: &mut [Own], class: u32, here: u64, same: u64)
    ensures len { length own.new ≡ length own.old }
    ensures notes { Notes own.old own.new class here same }
{
    if (class as usize) < own.len() {
        let before = own[class as usize];
        own[class as usize] = Own {
            here: before.here | here,
            same: before.same | same,
        };
    }
}
