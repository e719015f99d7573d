//! Inputs for readers: random ones, and good ones that are cut or changed.

use crate::answer::Answer;

/// A generator of random numbers, the same in each run: a linear congruential one.
#[derive(Clone, Copy)]
pub struct Random {
    state: u64,
}

impl Random {
    pub fn new() -> Random {
        Random { state: 1 }
    }

    /// The next number, of 31 bits.
    fn next(&mut self) -> u64 {
        self.state = self
            .state
            .wrapping_mul(6_364_136_223_846_793_005)
            .wrapping_add(1_442_695_040_888_963_407);
        self.state >> 33
    }

    /// A number up to this one.
    pub fn up_to(&mut self, most: usize) -> usize {
        let number = self.next().checked_rem((most as u64).saturating_add(1));
        number.unwrap_or(0) as usize
    }

    /// Adds up to so many bytes, each one of these letters; of any value where there are none.
    pub fn add_bytes(
        &mut self,
        answer: &mut Answer,
        bytes: &mut Vec<u8>,
        most: usize,
        letters: &[u8],
    ) {
        for _ in 0..self.up_to(most) {
            if bytes.push(letter_of(letters, self.next())).is_err() {
                answer.refuse()
            }
        }
    }
}

/// The letter of a number, or its lowest byte where there are no letters.
fn letter_of(letters: &[u8], number: u64) -> u8 {
    let place = number.checked_rem(letters.len() as u64).unwrap_or(0);
    match letters.get(place as usize) {
        Some(letter) => *letter,
        None => u8::try_from(number & 0xFF).unwrap_or(0),
    }
}

/// How a good input is spoilt.
#[derive(Clone, Copy)]
pub enum Spoiling {
    /// Only its first bytes are left, as many as a number says.
    Cut,
    /// At the place of a number these bits are turned.
    Turned(u8),
}

/// A good input, spoilt at a number below its length.
pub fn spoilt(answer: &mut Answer, good: &[u8], spoiling: Spoiling, number: usize) -> Vec<u8> {
    match spoiling {
        Spoiling::Cut => answer.copied(good.get(..number).unwrap_or(good)),
        Spoiling::Turned(bits) => {
            let mut bytes = answer.copied(good);
            if let Some(byte) = bytes.get_mut(number) {
                *byte ^= bits;
            }
            bytes
        }
    }
}
