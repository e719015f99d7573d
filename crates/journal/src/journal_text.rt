//! Journals and their texts.

ghost use Rattle.std.specs.Prelude.{◌≡◌, ◌⊎◌, ◌+◌, ◌<◌, ◌^◌, ◌++◌, ℕ, [], IfOk, IfErr, OnOk, take};
ghost use Rattle.init_engine.specs.Schedules.{schedule_of, AreRuns};
ghost use Rattle.journal.specs.Journals.{IsJournalOf, JournalFails, IsRun, last_in_row, line_of, lines_of};
ghost use Rattle.journal.specs.steps.Adding.{IsAdded};
ghost use Rattle.journal.specs.declared.fault.JournalFault.TheVariants.{Memory, Text};

use crate::fault::JournalFault;
use crate::first_steps::add_first;
use crate::line::first_line;
use crate::runs::add_steps;
use std::alloc::{AllocError, Global};
use std::marker::Model;

/// A schedule by its runs: a thread, and how many steps it made in a row. Neighbours are of different threads.
#[derive(Drop)]
pub struct Journal {
    runs: Vec<(u32, u64)>,
}

impl Model for Journal {
    ghost use Rattle.std.specs.Prelude.{List, ℕ};
    ghost use Rattle.init_engine.specs.Schedules.{AreRuns};

    ghost Value = { List (ℕ × ℕ) };

    ghost view = { λ j. j.runs.items };

    ghost invariant = { λ j. AreRuns j.runs.items };
}

/// Adds the run of a line, where the steps fit.
fn add_line(runs: &mut Vec<(u32, u64)>, run: (u32, u64), line: usize) -> Result<(), JournalFault>
    requires some { IsRun run }
    requires runs { AreRuns runs.old.items }
    ensures ok { OnOk result (IsAdded runs.old.items run runs.new.items) }
    ensures err { IfErr result (λ fault. (fault ≡ Memory)
        ⊎ ((fault ≡ Text line) × ¬ (last_in_row run.0 runs.old.items + run.1 < 2 ^ 64))) }
{
    runs.reserve(1)?;
    if add_steps(runs, run.0, run.1) {
        Ok(())
    } else {
        Err(JournalFault::Text(line))
    }
}

/// Adds the runs of a text's lines.
fn read_lines(text: &[u8], runs: &mut Vec<(u32, u64)>) -> Result<(), JournalFault>
    requires { runs.old.items ≡ [] }
    ensures ok { OnOk result (IsJournalOf text.now runs.new.items) }
    ensures runs { OnOk result (AreRuns runs.new.items) }
    ensures err { IfErr result (λ fault. (fault ≡ Memory) ⊎ JournalFails text.now fault) }
{
    let mut rest = text;
    let mut line = 1;
    while rest.len() > 0 {
        let Some((first, tail)) = first_line(rest) else {
            return Err(JournalFault::Text(line));
        };
        match add_line(runs, first, line) {
            Ok(()) => {}
            Err(fault) => return Err(fault),
        }
        rest = tail;
        line += 1;
    }
    Ok(())
}

impl Journal {
    /// The journal of these runs.
    pub fn of(runs: Vec<(u32, u64)>) -> Journal
        requires { AreRuns runs.items }
        ensures { result ≡ runs.items }
    {
        Journal { runs }
    }

    /// The runs, in order.
    pub fn runs(&self) -> &[(u32, u64)]
        ensures is { result.now ≡ self.now }
        ensures runs { AreRuns result.now }
    {
        self.runs.as_slice()
    }

    /// The journal of a text.
    ///
    /// # Errors
    /// `Text` with the first line at fault; `Memory` where memory is refused.
    pub fn parse(alloc: Global, text: &[u8]) -> Result<Journal, JournalFault>
        ensures ok { IfOk result (λ j. IsJournalOf text.now j) }
        ensures runs { IfOk result (λ j. AreRuns j) }
        ensures err { IfErr result (λ fault. (fault ≡ Memory) ⊎ JournalFails text.now fault) }
    {
        let mut runs = Vec::new(alloc);
        match read_lines(text, &mut runs) {
            Ok(()) => Ok(Journal { runs }),
            Err(fault) => Err(fault),
        }
    }

    /// The journal of the first steps of its schedule, at most so many.
    ///
    /// # Errors
    /// `AllocError` where memory is refused.
    pub fn first(&self, alloc: Global, steps: u64) -> Result<Journal, AllocError>
        ensures schedule { IfOk result (λ j. schedule_of j ≡ take steps (schedule_of self.now)) }
        ensures runs { IfOk result (λ j. AreRuns j) }
    {
        let mut runs = Vec::new(alloc);
        match add_first(self.runs.as_slice(), steps, &mut runs) {
            Ok(()) => Ok(Journal { runs }),
            Err(error) => Err(error),
        }
    }

    /// Its text.
    ///
    /// # Errors
    /// `AllocError` where memory is refused.
    pub fn text(&self, alloc: Global) -> Result<Vec<u8>, AllocError>
        ensures text { IfOk result (λ v. v.items ≡ lines_of self.now) }
        ensures runs { AreRuns self.now }
    {
        let mut text = Vec::new(alloc);
        match add_lines(alloc, self.runs.as_slice(), &mut text) {
            Ok(()) => Ok(text),
            Err(error) => Err(error),
        }
    }
}

/// Writes the lines of runs, where nothing is written yet.
fn add_lines(alloc: Global, runs: &[(u32, u64)], text: &mut Vec<u8>) -> Result<(), AllocError>
    requires { text.old.items ≡ [] }
    ensures { OnOk result (text.new.items ≡ lines_of runs.now) }
{
    for place in 0..runs.len() {
        add_text(alloc, runs[place], text)?;
    }
    Ok(())
}

/// Adds the line of a run.
fn add_text(alloc: Global, run: (u32, u64), text: &mut Vec<u8>) -> Result<(), AllocError>
    ensures { OnOk result (text.new.items ≡ text.old.items ++ line_of run) }
{
    let thread = run.0.to_string(alloc)?;
    let steps = run.1.to_string(alloc)?;
    text.extend_from_slice(thread.as_bytes())?;
    text.push(b' ')?;
    text.extend_from_slice(steps.as_bytes())?;
    text.push(b'\n')?;
    Ok(())
}
