//! Why a list of entries can't be run.

ghost use Rattle.std.specs.Prelude.{◌≡◌};
ghost use Rattle.init_engine.specs.declared.fault.EntryFault.TheVariants.{Memory};

use std::alloc::{AllocError, AllocFailed};
use thiserror::Error;

/// Why a list of entries can't be run. Entries count from 0.
#[derive(Debug, Drop, Error)]
pub enum EntryFault {
    #[error("Memory")]
    Memory,
    /// There is no given class of this name.
    #[error("Unknown {entry}")]
    Unknown { entry: usize },
    /// The class declares no static `main` of `([Ljava/lang/String;)V` itself.
    #[error("NoMain {entry}")]
    NoMain { entry: usize },
    /// There is no entry, or there are too many.
    #[error("Count")]
    Count,
}

impl From<AllocError> for EntryFault {
    ghost from_gives = { λ _ e. e ≡ Memory };

    fn from(_error: AllocError) -> EntryFault {
        EntryFault::Memory
    }
}

impl<T: Drop> From<AllocFailed<T>> for EntryFault {
    ghost from_gives = { λ _ e. e ≡ Memory };

    fn from(_error: AllocFailed<T>) -> EntryFault {
        EntryFault::Memory
    }
}
