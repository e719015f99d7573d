//! Answers to questions, as they are written.

use std::alloc::{AllocError, Global};
use std::fmt::{Debug, Display};
use std::str::from_utf8;

/// Bytes as the text that they are, or `no text`.
pub fn text_of(bytes: &[u8]) -> &str {
    from_utf8(bytes).unwrap_or("no text")
}

/// The text of an answer. It notes by itself where memory is refused: who writes goes on, and who takes the text is
/// told.
#[derive(Drop)]
pub struct Answer {
    pub alloc: Global,
    text: String,
    is_refused: bool,
}

impl Answer {
    pub fn new(alloc: Global) -> Answer {
        Answer {
            alloc,
            text: String::new(alloc),
            is_refused: false,
        }
    }

    /// What is written, unless memory was refused.
    pub fn finish(self) -> Result<String, AllocError> {
        if self.is_refused {
            return Err(AllocError);
        }
        Ok(self.text)
    }

    /// What is written so far.
    pub fn as_str(&self) -> &str {
        self.text.as_str()
    }

    /// Notes that memory was refused.
    pub fn refuse(&mut self) {
        self.is_refused = true;
    }

    /// Notes whether memory was refused.
    pub fn note(&mut self, done: Result<(), AllocError>) {
        self.is_refused = self.is_refused || done.is_err();
    }

    /// A copy of bytes; of none, where memory is refused.
    pub fn copied(&mut self, bytes: &[u8]) -> Vec<u8> {
        match Vec::from_slice(self.alloc, bytes) {
            Ok(copy) => copy,
            Err(_) => {
                self.refuse();
                Vec::new(self.alloc)
            }
        }
    }

    pub fn word(&mut self, word: &str) {
        let written = self.text.push_str(word);
        self.note(written);
    }

    /// Adds a text that was to be made.
    pub fn made(&mut self, text: Result<String, AllocError>) {
        match text {
            Ok(text) => self.word(&text),
            Err(_) => self.refuse(),
        }
    }

    /// Adds a text between brackets, after a space.
    pub fn bracketed(&mut self, text: &str) {
        let written = write!(self.text, " [{text}]");
        self.note(written);
    }

    /// Adds what is shown of a value, between parentheses.
    pub fn parenthesized<T: Display>(&mut self, value: &T) {
        let written = write!(self.text, "({value})");
        self.note(written);
    }

    /// Adds what a programmer sees of a value, between parentheses.
    pub fn parenthesized_debug<T: Debug>(&mut self, value: &T) {
        let written = write!(self.text, "({value:?})");
        self.note(written);
    }

    /// Adds what a programmer sees of two values, between parentheses.
    pub fn pair<T: Debug, U: Debug>(&mut self, first: &T, second: &U) {
        let written = write!(self.text, "({first:?}, {second:?})");
        self.note(written);
    }

    /// Adds two hexadecimal digits a byte.
    pub fn hexadecimal(&mut self, bytes: &[u8]) {
        for byte in bytes {
            let written = write!(self.text, "{byte:02X}");
            self.note(written);
        }
    }

    pub fn show<T: Display>(&mut self, value: &T) {
        let written = write!(self.text, "{value}");
        self.note(written);
    }

    pub fn debug<T: Debug>(&mut self, value: &T) {
        let written = write!(self.text, "{value:?}");
        self.note(written);
    }

    /// Adds what stands between one thing and the next, where something is written.
    pub fn separate(&mut self, between: &str) {
        if !self.text.is_empty() {
            self.word(between);
        }
    }

    /// Adds `nothing` where nothing is written.
    pub fn or_nothing(&mut self) {
        if self.text.is_empty() {
            self.word("nothing");
        }
    }
}
