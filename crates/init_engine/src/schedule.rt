//! Schedules as they are recorded.

ghost use Rattle.std.specs.Prelude.{◌≡◌, ◌+◌, ◌<◌, ◌^◌, ◌∷◌, [], ◌++◌, length, replicate, OnOk, IfOk};
ghost use Rattle.init_engine.specs.Schedules.{schedule_of, AreRuns};

use std::alloc::{AllocError, Global};
use std::marker::Model;

/// A schedule by its runs: a thread, and how many steps it made in a row. Neighbours are of different threads.
#[derive(Drop)]
pub struct Schedule {
    runs: Vec<(u32, u64)>,
    last: Option<(u32, u64)>,
}

impl Model for Schedule {
    ghost use Rattle.std.specs.Prelude.{◌≡◌, List, [], ℕ, ◌++◌, None};
    ghost use Rattle.std.specs.Option.{option_to_list};
    ghost use Rattle.init_engine.specs.Schedules.{AreRuns};

    ghost Value = { List (ℕ × ℕ) };

    ghost view = { λ s. s.runs.items ++ option_to_list s.last };

    ghost invariant = { λ s. AreRuns (s.runs.items ++ option_to_list s.last) × (s.last ≡ None → s.runs.items ≡ []) };
}

impl Schedule {
    /// No steps.
    pub fn new(alloc: Global) -> Schedule
        ensures { result ≡ [] }
    {
        Schedule {
            runs: Vec::new(alloc),
            last: None,
        }
    }

    /// Adds steps of a thread, one at least.
    ///
    /// # Errors
    /// `AllocError` where memory is refused; of the schedule nothing is promised then.
    #[inline(always)]
    pub fn add(&mut self, thread: u32, count: u64) -> Result<(), AllocError>
        requires some { 0 < count }
        requires room { length (schedule_of self.old) + count < 2 ^ 64 }
        ensures { OnOk result (schedule_of self.new ≡ schedule_of self.old ++ replicate count thread) }
    {
        match self.last {
            Some((last, steps)) => {
                if last == thread {
                    self.last = Some((thread, steps + count));
                    return Ok(());
                }
                self.runs.push((last, steps))?;
                self.last = Some((thread, count));
                Ok(())
            }
            None => {
                self.last = Some((thread, count));
                Ok(())
            }
        }
    }

    /// The runs, in order.
    ///
    /// # Errors
    /// `AllocError` where memory is refused.
    pub fn into_runs(self) -> Result<Vec<(u32, u64)>, AllocError>
        ensures same { IfOk result (λ v. v.items ≡ self) }
        ensures runs { IfOk result (λ v. AreRuns v.items) }
    {
        let mut runs = self.runs;
        if let Some(run) = self.last {
            runs.push(run)?;
        }
        Ok(runs)
    }
}
