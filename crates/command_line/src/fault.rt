//! What command-line arguments give in place of a request.

use thiserror::Error;

/// What command-line arguments give in place of a request. Its text is what is to be printed, with its last newline.
#[derive(Debug, Drop, Error)]
pub enum WordsFault {
    /// An allocation failed.
    #[error("Memory")]
    Memory,
    /// The help that was asked for.
    #[error("{0}")]
    Help(String),
    /// What is wrong with the arguments.
    #[error("{0}")]
    Wrong(String),
}
