//! Texts that get numbers while classes are linked.

ghost use Rattle.std.specs.Prelude.{◌+◌, ◌++◌, ◌∷◌, ◌≡◌, [], Some, IfOk, IfSome, OnErr, OnOk, MatchOption, option_map};
ghost use Rattle.std.specs.Prelude.{slice_get};
ghost use Rattle.std.specs.List.{Contains};
ghost use Rattle.hierarchy.specs.Texts.{AreDistinct};
ghost use Rattle.hierarchy.specs.steps.BuiltInTexts.{built_in_texts};
ghost use Rattle.hierarchy.specs.steps.GrowingTexts.{KeepsNumbers};

use crate::built_in_texts::built_in_texts;
use crate::guesses::Guesses;
use crate::numbered_texts::NumberedTexts;
use crate::text_state::{TextState, has_few};
use indexmap::IndexSet;
use loading::given::GivenClass;
use std::alloc::{AllocError, Global};
use std::marker::Model;

/// How often texts are sought by a state that is known to all: whoever makes them meet costs little.
const KNOWN: usize = 4_096;

/// Texts in the order in which they came, each once. A text's number is its place.
#[derive(Drop)]
pub(crate) struct Interner {
    texts: IndexSet<Vec<u8>, TextState>,
    guesses: Guesses,
    /// How often texts may be sought yet by a state that is known to all, where it is.
    left: Option<usize>,
}

impl Model for Interner {
    ghost use Rattle.std.specs.Prelude.{List, ℕ};
    ghost use Rattle.hierarchy.specs.steps.HeldTexts.{texts_of};

    ghost Value = { List (List ℕ) };

    ghost view = { λ s. texts_of s.texts.keys };
}

impl Interner {
    /// The empty text, at number 0, and what built-in methods are called. Texts are hashed by a state that is known to
    /// all.
    ///
    /// # Errors
    /// Where memory runs out.
    pub(crate) fn new(alloc: Global) -> Result<Self, AllocError>
        ensures first { IfOk result (λ texts. slice_get texts 0 ≡ Some []) }
        ensures built_in { IfOk result (KeepsNumbers built_in_texts) }
        ensures distinct { IfOk result AreDistinct }
    {
        let guesses = Guesses::new(alloc)?;
        let mut interner = Interner {
            texts: IndexSet::with_hasher(alloc, TextState::known()),
            guesses,
            left: Some(KNOWN),
        };
        interner.push_built_in(alloc)?;
        Ok(interner)
    }

    /// Gives what built-in methods are called the first numbers.
    fn push_built_in(&mut self, alloc: Global) -> Result<(), AllocError>
        requires { self.old ≡ [] }
        ensures texts { OnOk result (self.new ≡ built_in_texts) }
        ensures distinct { OnOk result (AreDistinct self.new) }
    {
        let texts = built_in_texts();
        for text in texts {
            self.push(alloc, text.as_bytes())?;
        }
        let _distinct = self.count();
        Ok(())
    }

    /// The number of a text, if it has one.
    fn number(&self, text: &[u8]) -> Option<usize>
        ensures number { MatchOption result (¬ Contains self.now text.now) (λ n. slice_get self.now n ≡ Some text.now) }
        ensures distinct { AreDistinct self.now }
    {
        let _distinct = self.texts.len();
        self.texts.get_index_of(text)
    }

    /// The text of a number.
    fn text(&self, number: usize) -> Option<&[u8]>
        ensures { option_map (λ t. t.now) result ≡ slice_get self.now number }
    {
        let text = self.texts.get_index(number)?;
        Some(text.as_slice())
    }

    /// The number of a text, which gets one if it had none.
    ///
    /// # Errors
    /// Where memory runs out; the texts stay as they were.
    pub(crate) fn add(&mut self, alloc: Global, text: &[u8]) -> Result<usize, AllocError>
        ensures number { IfOk result (λ n. slice_get self.new n ≡ Some text.now) }
        ensures keeps { KeepsNumbers self.old self.new }
        ensures distinct { OnOk result (AreDistinct self.new) }
        // A new text comes last.
        ensures same { Contains self.old text.now → OnOk result (self.new ≡ self.old) }
        ensures last { ¬ Contains self.old text.now → OnOk result (self.new ≡ self.old ++ text.now ∷ []) }
        ensures err { OnErr result (self.new ≡ self.old) }
    {
        let _distinct = self.count();
        match self.guess(text) {
            Some(number) => Ok(number),
            None => self.seek(alloc, text),
        }
    }

    /// The number of a text, if it is the one that is guessed.
    pub(crate) fn guess(&self, text: &[u8]) -> Option<usize>
        ensures { IfSome result (λ n. slice_get self.now n ≡ Some text.now) }
    {
        let number = self.guesses.guess(text)?;
        let guessed = self.text(number)?;
        if guessed == text { Some(number) } else { None }
    }

    /// How many texts there are. No two are the same.
    fn count(&self) -> usize
        ensures { AreDistinct self.now }
    {
        self.texts.len()
    }

    /// The texts.
    pub(crate) fn all(&self) -> &[Vec<u8>] {
        self.texts.as_slice()
    }

    /// Whether to seek `more` texts may cost much, if somebody made them meet.
    pub(crate) fn is_at_risk(&self, more: usize) -> bool {
        match self.left {
            Some(left) => more > left,
            None => false,
        }
    }

    /// Hashes the texts by the digest of them all and of those of classes to come, unless they are hashed by one.
    ///
    /// # Errors
    /// Where memory runs out; they are hashed as before.
    pub(crate) fn hash_by_all(
        &mut self,
        alloc: Global,
        coming: &[GivenClass],
    ) -> Result<(), AllocError>
        ensures { self.new ≡ self.old }
    {
        if self.left.is_none() {
            return Ok(());
        }
        let state = TextState::of_all(self, coming);
        self.rehash(alloc, state)
    }

    /// What texts that come after those of all classes may be hashed by: unless the classes are few, what nobody can
    /// choose.
    pub(crate) fn later_state(&self, classes: &[GivenClass]) -> TextState {
        if self.left.is_none() || has_few(classes) {
            return *self.texts.hasher();
        }
        TextState::of_all(self, &[])
    }

    /// The texts by their numbers, once all have one.
    ///
    /// # Errors
    /// Where memory runs out.
    pub(crate) fn into_texts(self, alloc: Global) -> Result<NumberedTexts, AllocError>
        ensures { IfOk result (λ texts. texts ≡ self) }
    {
        let Interner {
            texts,
            guesses: _,
            left: _,
        } = self;
        let texts = Vec::from_iter(alloc, texts)?;
        Ok(NumberedTexts { texts })
    }

    /// Hashes the texts by another state.
    fn rehash(&mut self, alloc: Global, state: TextState) -> Result<(), AllocError>
        ensures { self.new ≡ self.old }
    {
        let _distinct = self.texts.len();
        let mut texts = IndexSet::with_hasher(alloc, state);
        texts.append(&mut self.texts)?;
        self.texts = texts;
        self.left = None;
        Ok(())
    }

    /// The number of a text that was not guessed, which gets one if it had none. It is guessed next.
    fn seek(&mut self, alloc: Global, text: &[u8]) -> Result<usize, AllocError>
        ensures number { IfOk result (λ n. slice_get self.new n ≡ Some text.now) }
        ensures keeps { KeepsNumbers self.old self.new }
        ensures distinct { OnOk result (AreDistinct self.new) }
        ensures same { Contains self.old text.now → OnOk result (self.new ≡ self.old) }
        ensures last { ¬ Contains self.old text.now → OnOk result (self.new ≡ self.old ++ text.now ∷ []) }
        ensures err { OnErr result (self.new ≡ self.old) }
    {
        if let Some(left) = self.left {
            self.left = Some(left.saturating_sub(1));
        }
        let number = match self.number(text) {
            Some(number) => number,
            None => self.push(alloc, text)?,
        };
        self.guesses.note(text, number);
        Ok(number)
    }

    /// The number of a new text.
    fn push(&mut self, alloc: Global, text: &[u8]) -> Result<usize, AllocError>
        requires { ¬ Contains self.old text.now }
        ensures number { IfOk result (λ n. slice_get self.new n ≡ Some text.now) }
        ensures keeps { KeepsNumbers self.old self.new }
        ensures distinct { OnOk result (AreDistinct self.new) }
        ensures last { OnOk result (self.new ≡ self.old ++ text.now ∷ []) }
        ensures err { OnErr result (self.new ≡ self.old) }
    {
        let copy = Vec::from_slice(alloc, text)?;
        let (number, _) = self.texts.insert_full(copy)?;
        Ok(number)
    }
}
