//! What takes bytes.

ghost use Rattle.std.specs.Prelude.{◌≡◌, ◌≢◌, ◌≤◌, ◌<◌, length, take, IfOk, OnErr};
ghost use Rattle.std.specs.Io.KnownBytes.{Appends, Keeps};

use std::io::Write;

/// The device failed.
#[derive(Clone, Copy)]
pub struct SinkFault;

/// What takes bytes. Contracts see all that it got, where its type says so, and a number that changes with each
/// failure.
pub trait Sink {
    ghost use Rattle.std.specs.Prelude.{ℕ, List, Option};

    ghost got: { Self → Option (List ℕ) };

    ghost failures: { Self → ℕ };

    /// Takes the first of these bytes, and answers how many. None are taken of a list that is not empty where it
    /// failed. An empty list counts as no failure.
    ///
    /// # Errors
    /// `SinkFault` where it failed; nothing was taken then.
    fn put(&mut self, bytes: &[u8]) -> Result<usize, SinkFault>
        ensures count { IfOk result (λ n. n ≤ length bytes.now) }
        ensures got { IfOk result (λ n. Appends (got self.old) (got self.new) (take n bytes.now)) }
        ensures nothing { OnErr result (Keeps (got self.old) (got self.new)) }
        ensures failed { OnErr result (failures self.new ≢ failures self.old) }
        ensures stalled { IfOk result (λ n. n ≡ 0 → 0 < length bytes.now → failures self.new ≢ failures self.old) }
        ensures well { IfOk result (λ n. 0 < n → failures self.new ≡ failures self.old) }
        ensures empty { length bytes.now ≡ 0 → failures self.new ≡ failures self.old };
}

/// A sink over a writer. It retries nothing.
#[derive(Drop)]
pub struct Out<W: Write> {
    to: W,
    faults: u64,
}

impl<W: Write> Out<W> {
    /// A sink over this writer.
    pub fn new(to: W) -> Out<W>
        ensures { result.to ≡ to }
    {
        Out { to, faults: 0 }
    }

    /// The writer.
    pub fn into_inner(self) -> W
        ensures { result ≡ self.to }
    {
        self.to
    }
}

impl<W: Write> Sink for Out<W> {
    ghost got = { λ o. W.contents o.to };

    ghost failures = { λ o. o.faults };

    fn put(&mut self, bytes: &[u8]) -> Result<usize, SinkFault> {
        if bytes.is_empty() {
            return Ok(0);
        }
        match self.to.write(bytes) {
            Ok(0) => {
                self.faults = self.faults.wrapping_add(1);
                Ok(0)
            }
            Ok(n) => Ok(n),
            Err(_) => {
                self.faults = self.faults.wrapping_add(1);
                Err(SinkFault)
            }
        }
    }
}
