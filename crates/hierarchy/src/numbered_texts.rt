//! Texts by their numbers.

ghost use Rattle.std.specs.Prelude.{◌≡◌, option_map, slice_get};

use std::marker::Model;

/// What the constants of class files spell, each text at its number.
#[derive(Drop)]
pub(crate) struct NumberedTexts {
    pub(crate) texts: Vec<Vec<u8>>,
}

impl Model for NumberedTexts {
    ghost use Rattle.std.specs.Prelude.{List, ℕ};
    ghost use Rattle.hierarchy.specs.steps.HeldTexts.{texts_of};

    ghost Value = { List (List ℕ) };

    ghost view = { λ s. texts_of s.texts.items };
}

impl NumberedTexts {
    /// The text of a number.
    pub(crate) fn text(&self, number: usize) -> Option<&[u8]>
        ensures { option_map (λ t. t.now) result ≡ slice_get self.now number }
    {
        let text = self.texts.get(number)?;
        Some(text.as_slice())
    }
}
