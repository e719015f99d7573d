//! Numbers from the bytes of a method's code, high byte first.

ghost use Rattle.std.specs.Prelude.{◌≡◌, [], ◌∷◌, FitsSigned, ◌+◌, ◌≤◌, ◌++◌, length};
ghost use Rattle.std.specs.Int.{w8, w16, w32};
ghost use Rattle.bytecode.specs.Numbers.{s1, u2, s2, s4};

use byteorder::{BigEndian, ByteOrder};

#[tactic(auto, unfolding(crate::specs::Numbers::s1), using(crate::proofs::NumbersLemmas::s1_back))]
pub(crate) fn s1(byte: u8) -> i32
    ensures text { s1 result ≡ byte ∷ [] }
    ensures fits { FitsSigned w8 result }
{
    i32::from(i8::from_be_bytes([byte]))
}

#[tactic(auto, unfolding(crate::specs::Numbers::u2), using(crate::proofs::NumbersLemmas::u2_back))]
pub(crate) fn u2(high: u8, low: u8) -> u16
    ensures { u2 result ≡ high ∷ low ∷ [] }
{
    BigEndian::read_u16(&[high, low])
}

#[tactic(auto, unfolding(crate::specs::Numbers::s2), using(crate::proofs::NumbersLemmas::s2_back))]
pub(crate) fn s2(high: u8, low: u8) -> i32
    ensures text { s2 result ≡ high ∷ low ∷ [] }
    ensures fits { FitsSigned w16 result }
{
    i32::from(BigEndian::read_i16(&[high, low]))
}

#[tactic(auto, unfolding(crate::specs::Numbers::s4), using(crate::proofs::NumbersLemmas::s4_back))]
pub(crate) fn s4(a: u8, b: u8, c: u8, d: u8) -> i32
    ensures text { s4 result ≡ a ∷ b ∷ c ∷ d ∷ [] }
    ensures fits { FitsSigned w32 result }
{
    BigEndian::read_i32(&[a, b, c, d])
}

/// The number at the front of bytes, and what follows it.
#[tactic(auto, using(crate::proofs::NumbersLemmas::four_then))]
pub(crate) fn s4_at(bytes: &[u8]) -> (i32, &[u8])
    requires { 4 ≤ length bytes.now }
    ensures text { bytes.now ≡ s4 result.0 ++ result.1.now }
    ensures fits { FitsSigned w32 result.0 }
    ensures left { length result.1.now + 4 ≡ length bytes.now }
{
    let (front, rest) = bytes.split_at(4);
    (s4(front[0], front[1], front[2], front[3]), rest)
}
