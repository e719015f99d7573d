//! Why a text is no journal.

ghost use Rattle.std.specs.Prelude.{◌≡◌};
ghost use Rattle.journal.specs.declared.fault.JournalFault.TheVariants.{Memory};

use std::alloc::AllocError;

/// Why a text is no journal. Lines count from 1.
#[derive(Debug, Drop)]
pub enum JournalFault {
    Memory,
    /// The first line at fault.
    Text(usize),
}

impl From<AllocError> for JournalFault {
    ghost from_gives = { λ _ e. e ≡ Memory };

    fn from(_error: AllocError) -> JournalFault {
        JournalFault::Memory
    }
}
