//! The outcomes of classes in the end.

use initializer_analysis::verdict::Verdicts;
use region_shape::regions::Regions;
use std::alloc::AllocError;
use thiserror::Error;

/// The last verdicts on all given classes, after their initializers were run, and the regions of those that are
/// accepted.
#[derive(Drop)]
pub struct Settled {
    pub verdicts: Verdicts,
    pub regions: Regions,
}

/// Why classes were not settled.
#[derive(Debug, Drop, Error)]
pub enum WaveFault {
    #[error("Memory")]
    Memory,
    /// No worker was asked for, or more than 64.
    #[error("Workers")]
    Workers,
}

impl From<AllocError> for WaveFault {
    fn from(_error: AllocError) -> WaveFault {
        WaveFault::Memory
    }
}
