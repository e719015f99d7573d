//! What threads print, in one row of bytes.

ghost use Rattle.std.specs.Prelude.{◌≡◌, ◌<◌, ◌≤◌, ◌++◌, ◌∷◌, [], length, drop, option_map, slice_get, IfOk, OnOk};
ghost use Rattle.std.specs.Prelude.{OnErr};
ghost use Rattle.vm_state.specs.Output.{text_of};
ghost use Rattle.vm_state.specs.steps.Output.{between, prints_in, start_of, Cover};

use std::alloc::{AllocError, Global};
use std::marker::Model;

/// All that threads printed, in order. Beside its text a print takes 12 bytes.
#[derive(Drop)]
pub struct Output {
    /// The texts, with nothing between them.
    bytes: Vec<u8>,
    /// For each print where its text ends.
    ends: Vec<usize>,
    /// For each print the number of its thread.
    threads: Vec<u32>,
}

impl Model for Output {
    ghost use Rattle.std.specs.Prelude.{List, length};
    ghost use Rattle.vm_state.specs.Output.{Print};
    ghost use Rattle.vm_state.specs.steps.Output.{prints_in, Cover};

    ghost Value = { List Print };

    ghost view = { λ o. prints_in o.bytes.items 0 o.ends.items o.threads.items };

    ghost invariant = { λ o. Cover 0 o.ends.items o.threads.items (length o.bytes.items) };
}

/// Where the print of a number begins.
#[inline(always)]
fn start_of(ends: &[usize], number: usize) -> usize
    requires { number ≤ length ends.now }
    ensures { result ≡ start_of 0 ends.now number }
{
    if number == 0 { 0 } else { ends[number - 1] }
}

/// The bytes from one place up to another.
#[inline(always)]
fn between(bytes: &[u8], from: usize, to: usize) -> &[u8]
    requires order { from ≤ to }
    requires within { to ≤ length bytes.now }
    ensures { result.now ≡ between bytes.now from to }
{
    &bytes[from..to]
}

/// A print by its number: the thread, and the text.
fn print_at<'a>(
    bytes: &'a [u8],
    ends: &[usize],
    threads: &[u32],
    number: usize,
) -> Option<(u32, &'a [u8])>
    requires { Cover 0 ends.now threads.now (length bytes.now) }
    ensures { option_map (λ p. record { thread = p.0; text = p.1.now }) result
        ≡ slice_get (prints_in bytes.now 0 ends.now threads.now) number }
{
    if number < ends.len() {
        Some((
            threads[number],
            between(bytes, start_of(ends, number), ends[number]),
        ))
    } else {
        None
    }
}

impl Output {
    /// Nothing was printed.
    pub fn new(alloc: Global) -> Output
        ensures { result ≡ [] }
    {
        Output {
            bytes: Vec::new(alloc),
            ends: Vec::new(alloc),
            threads: Vec::new(alloc),
        }
    }

    /// A copy of all that was printed.
    ///
    /// # Errors
    /// `AllocError` where memory is refused.
    pub fn copy(&self, alloc: Global) -> Result<Output, AllocError>
        ensures { IfOk result (λ o. o ≡ self.now) }
    {
        let bytes = Vec::from_slice(alloc, self.bytes.as_slice())?;
        let ends = Vec::from_slice(alloc, self.ends.as_slice())?;
        let threads = Vec::from_slice(alloc, self.threads.as_slice())?;
        Ok(Output {
            bytes,
            ends,
            threads,
        })
    }

    /// A thread prints a text.
    ///
    /// # Errors
    /// `AllocError` where memory is refused: then nothing has changed.
    pub fn add(&mut self, thread: u32, text: &[u8]) -> Result<(), AllocError>
        ensures ok { OnOk result (self.new ≡ self.old ++ record { thread = thread; text = text.now } ∷ []) }
        ensures err { OnErr result (self.new ≡ self.old) }
    {
        self.ends.reserve(1)?;
        self.threads.reserve(1)?;
        self.bytes.extend_from_slice(text)?;
        self.ends.push_reserved(self.bytes.as_slice().len());
        self.threads.push_reserved(thread);
        Ok(())
    }

    /// How many prints there were.
    #[inline(always)]
    pub fn count(&self) -> usize
        ensures { result ≡ length self.now }
    {
        self.ends.as_slice().len()
    }

    /// A print by its number: the thread, and the text.
    pub fn print(&self, number: usize) -> Option<(u32, &[u8])>
        ensures { option_map (λ p. record { thread = p.0; text = p.1.now }) result ≡ slice_get self.now number }
    {
        print_at(
            self.bytes.as_slice(),
            self.ends.as_slice(),
            self.threads.as_slice(),
            number,
        )
    }

    /// The text of all prints from the one of a number on.
    #[inline(always)]
    pub fn text_from(&self, number: usize) -> &[u8]
        requires { number ≤ length self.now }
        ensures { result.now ≡ text_of (drop number self.now) }
    {
        let start = start_of(self.ends.as_slice(), number);
        let bytes = self.bytes.as_slice();
        between(bytes, start, bytes.len())
    }
}
