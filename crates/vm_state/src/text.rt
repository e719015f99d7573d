//! What a program prints.

ghost use Rattle.std.specs.Prelude.{◌≡◌, ◌++◌, ◌∷◌, [], codes, IfOk};
ghost use Rattle.std.specs.Fmt.{signed_decimal};
ghost use Rattle.std.specs.String.{string_bytes};
ghost use Rattle.vm_state.specs.Texts.{boolean_text};

use std::alloc::{AllocError, Global};
use std::marker::Model;

/// A text as its bytes in UTF-8.
#[derive(Drop)]
pub struct Text {
    bytes: Vec<u8>,
}

impl Model for Text {
    ghost use Rattle.std.specs.Prelude.{List, ℕ};

    ghost Value = { List ℕ };

    ghost view = { λ s. s.bytes.items };
}

impl Text {
    /// A string's bytes.
    pub fn of_string(string: String) -> Text
        ensures { result ≡ string_bytes string }
    {
        Text {
            bytes: string.into_bytes(),
        }
    }

    /// An int in decimal.
    ///
    /// # Errors
    /// `AllocError` where memory is refused.
    pub fn of_int(alloc: Global, number: i32) -> Result<Text, AllocError>
        ensures { IfOk result (λ t. t ≡ signed_decimal number) }
    {
        Ok(Text::of_string(number.to_string(alloc)?))
    }

    /// A long in decimal.
    ///
    /// # Errors
    /// `AllocError` where memory is refused.
    pub fn of_long(alloc: Global, number: i64) -> Result<Text, AllocError>
        ensures { IfOk result (λ t. t ≡ signed_decimal number) }
    {
        Ok(Text::of_string(number.to_string(alloc)?))
    }

    /// `true` or `false`.
    ///
    /// # Errors
    /// `AllocError` where memory is refused.
    pub fn of_boolean(alloc: Global, value: bool) -> Result<Text, AllocError>
        ensures { IfOk result (λ t. t ≡ boolean_text value) }
    {
        let word = if value { "true" } else { "false" };
        Ok(Text::of_string(String::from_str(alloc, word)?))
    }

    /// The text and the end of the line (byte 0A).
    ///
    /// # Errors
    /// `AllocError` where memory is refused.
    pub fn with_line_end(self) -> Result<Text, AllocError>
        ensures { IfOk result (λ t. t ≡ self ++ 10 ∷ []) }
    {
        let mut bytes = self.bytes;
        bytes.push(b'\n')?;
        Ok(Text { bytes })
    }

    /// `null`.
    ///
    /// # Errors
    /// `AllocError` where memory is refused.
    pub fn of_null(alloc: Global) -> Result<Text, AllocError>
        ensures { IfOk result (λ t. t ≡ codes "null") }
    {
        Ok(Text::of_string(String::from_str(alloc, "null")?))
    }

    /// The end of a line alone (byte 0A).
    ///
    /// # Errors
    /// `AllocError` where memory is refused.
    pub fn line_end(alloc: Global) -> Result<Text, AllocError>
        ensures { IfOk result (λ t. t ≡ 10 ∷ []) }
    {
        Ok(Text::of_string(String::from_str(alloc, "\n")?))
    }

    /// Its bytes.
    pub fn as_bytes(&self) -> &[u8]
        ensures { result.now ≡ self.now }
    {
        self.bytes.as_slice()
    }
}
