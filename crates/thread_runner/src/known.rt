//! The classes that a thread knows to be initialized.

use crate::done_set::DoneSet;

/// After how many commits a set of classes is asked for anew, if few are given: who knows too few only commits earlier.
const COMMITS: u32 = 16;

/// For each so many given classes it is one commit more.
const SHARE: u32 = 64;

/// Classes that a thread knows to be initialized, and for how many commits it does with them.
#[derive(Drop)]
pub(crate) struct KnownClasses {
    done: DoneSet,
    left: u32,
}

impl KnownClasses {
    /// None, until they are asked for.
    pub(crate) fn none() -> KnownClasses {
        KnownClasses {
            done: DoneSet::none(),
            left: 0,
        }
    }

    /// Whether to ask for them anew.
    pub(crate) fn is_old(&self) -> bool {
        self.left == 0
    }

    /// Takes those that were asked for, if they were, of all given classes; else there was one commit more.
    pub(crate) fn renew(&mut self, asked: Option<DoneSet>, given: u32) {
        match asked {
            Some(done) => {
                self.done = done;
                self.left = COMMITS + given / SHARE;
            }
            None => self.left = self.left.saturating_sub(1),
        }
    }

    /// The classes.
    pub(crate) fn done(&self) -> &DoneSet {
        &self.done
    }
}
