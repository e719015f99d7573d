//! Classes that are known to be initialized.

ghost use Rattle.std.specs.Prelude.{◌≡◌, ◌<◌, ◌≤◌, ℕ, [], true, length, IfOk};
ghost use Rattle.thread_runner.specs.Unshared.{is_done};

use std::alloc::{AllocError, Global};
use std::marker::Model;

/// A set of given classes, by number.
#[derive(Drop)]
pub struct DoneSet {
    flags: Option<Vec<bool>>,
}

impl Model for DoneSet {
    ghost use Rattle.std.specs.Prelude.{Bool, List, ◌≤◌, length};
    ghost use Rattle.thread_runner.specs.Unshared.{flags_in};

    ghost Value = { List Bool };

    ghost view = { λ s. flags_in s.flags };

    ghost invariant = { λ s. length (flags_in s.flags) ≤ 65535 };
}

impl DoneSet {
    /// No class. It takes no memory.
    pub fn none() -> DoneSet
        ensures { result ≡ [] }
    {
        DoneSet { flags: None }
    }

    /// The classes that are flagged.
    pub(crate) fn of_flags(flags: Vec<bool>) -> DoneSet
        requires { length flags.items ≤ 65535 }
        ensures { result ≡ flags.items }
    {
        DoneSet { flags: Some(flags) }
    }

    /// A copy of the set.
    ///
    /// # Errors
    /// `AllocError` where memory is refused.
    pub(crate) fn copy(&self, alloc: Global) -> Result<DoneSet, AllocError>
        ensures { IfOk result (λ s. s ≡ self.now) }
    {
        match &self.flags {
            Some(flags) => match Vec::from_slice(alloc, flags.as_slice()) {
                Ok(flags) => Ok(DoneSet { flags: Some(flags) }),
                Err(error) => Err(error),
            },
            None => Ok(DoneSet::none()),
        }
    }

    /// How many classes it tells of: those beyond are none.
    pub(crate) fn len(&self) -> u32
        ensures { (c : ℕ) → is_done self.now c ≡ true → c < result }
    {
        match &self.flags {
            Some(flags) => flags.len() as u32,
            None => 0,
        }
    }

    /// Whether a class is a member.
    pub fn has(&self, class: u32) -> bool
        ensures { result ≡ is_done self.now class }
    {
        match &self.flags {
            Some(flags) => match flags.get(class as usize) {
                Some(flag) => *flag,
                None => false,
            },
            None => false,
        }
    }
}
