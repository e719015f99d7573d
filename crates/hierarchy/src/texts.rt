//! Texts by number.

ghost use Rattle.std.specs.Prelude.{◌+◌, ◌++◌, ◌∷◌, ◌≡◌, [], Some, IfOk, OnErr, OnOk, MatchOption, length, option_map};
ghost use Rattle.std.specs.Prelude.{slice_get};
ghost use Rattle.std.specs.List.{Contains};
ghost use Rattle.hierarchy.specs.Texts.{AreDistinct};
ghost use Rattle.hierarchy.specs.steps.GrowingTexts.{KeepsNumbers};
ghost use Rattle.hierarchy.specs.steps.HeldTexts.{texts_of};
ghost use Rattle.hierarchy.specs.steps.TextNumbers.{FindTexts};

use crate::text_state::TextState;
use std::alloc::{AllocError, Global};
use std::collections::HashMap;
use std::marker::Model;

/// Texts in the order in which they came, each once. A text's number is its place.
#[derive(Drop)]
pub struct Texts {
    texts: Vec<Vec<u8>>,
    /// By text: its number.
    numbers: HashMap<Vec<u8>, usize, TextState>,
}

impl Model for Texts {
    ghost use Rattle.std.specs.Prelude.{List, ℕ};
    ghost use Rattle.hierarchy.specs.steps.HeldTexts.{texts_of};
    ghost use Rattle.hierarchy.specs.steps.TextNumbers.{FindTexts};

    ghost Value = { List (List ℕ) };

    ghost view = { λ s. texts_of s.texts.items };

    ghost invariant = { λ s. FindTexts (texts_of s.texts.items) s.numbers };
}

impl Texts {
    /// No texts. They are hashed by a state.
    pub fn new(alloc: Global, state: TextState) -> Self
        ensures { result ≡ [] }
    {
        Texts {
            texts: Vec::new(alloc),
            numbers: HashMap::with_hasher(alloc, state),
        }
    }

    /// The number of a text, if it has one.
    pub fn number(&self, text: &[u8]) -> Option<usize>
        ensures number { MatchOption result (¬ Contains self.now text.now) (λ n. slice_get self.now n ≡ Some text.now) }
        ensures distinct { AreDistinct self.now }
    {
        self.numbers.get(text).copied()
    }

    /// The text of a number.
    pub fn text(&self, number: usize) -> Option<&[u8]>
        ensures { option_map (λ t. t.now) result ≡ slice_get self.now number }
    {
        let text = self.texts.get(number)?;
        Some(text.as_slice())
    }

    /// The number of a text, which gets one if it had none.
    ///
    /// # Errors
    /// Where memory runs out; the texts stay as they were.
    pub fn add(&mut self, alloc: Global, text: &[u8]) -> Result<usize, AllocError>
        ensures number { IfOk result (λ n. slice_get self.new n ≡ Some text.now) }
        ensures keeps { KeepsNumbers self.old self.new }
        ensures distinct { OnOk result (AreDistinct self.new) }
        // A new text comes last.
        ensures same { Contains self.old text.now → OnOk result (self.new ≡ self.old) }
        ensures last { ¬ Contains self.old text.now → OnOk result (self.new ≡ self.old ++ text.now ∷ []) }
        ensures err { OnErr result (self.new ≡ self.old) }
    {
        match self.number(text) {
            Some(number) => Ok(number),
            None => self.push(alloc, text),
        }
    }

    /// Hashes the texts by another state.
    ///
    /// # Errors
    /// Where memory runs out; they are hashed as before.
    pub fn rehash(&mut self, alloc: Global, state: TextState) -> Result<(), AllocError>
        ensures { self.new ≡ self.old }
    {
        self.numbers = numbers_of(alloc, self.texts.as_slice(), state)?;
        Ok(())
    }

    /// The number of a new text.
    fn push(&mut self, alloc: Global, text: &[u8]) -> Result<usize, AllocError>
        requires { ¬ Contains self.old text.now }
        ensures number { IfOk result (λ n. slice_get self.new n ≡ Some text.now) }
        ensures keeps { KeepsNumbers self.old self.new }
        ensures distinct { OnOk result (AreDistinct self.new) }
        ensures last { OnOk result (self.new ≡ self.old ++ text.now ∷ []) }
        ensures err { OnErr result (self.new ≡ self.old) }
    {
        let number = self.texts.len();
        let key = Vec::from_slice(alloc, text)?;
        let copy = Vec::from_slice(alloc, text)?;
        self.texts.push(copy)?;
        match self.numbers.insert(key, number) {
            Ok(_) => Ok(number),
            Err(_) => {
                self.texts.pop();
                Err(AllocError)
            }
        }
    }
}

/// By text: its place.
fn numbers_of(
    alloc: Global,
    texts: &[Vec<u8>],
    state: TextState,
) -> Result<HashMap<Vec<u8>, usize, TextState>, AllocError>
    requires { AreDistinct (texts_of texts.now) }
    ensures { IfOk result (FindTexts (texts_of texts.now)) }
{
    let mut numbers = HashMap::with_hasher(alloc, state);
    for (number, text) in texts.iter().enumerate() {
        let key = Vec::from_slice(alloc, text.as_slice())?;
        numbers.insert(key, number)?;
    }
    Ok(numbers)
}
