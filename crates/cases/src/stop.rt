//! Why a case ends before its last line.

use std::alloc::{AllocError, AllocFailed, Global};
use std::io;

/// Why a case ends before its last line.
#[derive(Drop)]
pub enum Stop {
    /// The program has no memory, or can't reach one of its own files.
    Broken,
    /// What was wanted and what was found, or which line says nothing.
    Failed(String),
}

impl From<AllocError> for Stop {
    fn from(_error: AllocError) -> Stop {
        Stop::Broken
    }
}

impl<T: Drop> From<AllocFailed<T>> for Stop {
    fn from(_error: AllocFailed<T>) -> Stop {
        Stop::Broken
    }
}

impl From<io::Error> for Stop {
    fn from(_error: io::Error) -> Stop {
        Stop::Broken
    }
}

/// Stops with these words.
pub fn failed<T: Drop>(alloc: Global, words: &str) -> Result<T, Stop> {
    Err(Stop::Failed(String::from_str(alloc, words)?))
}

/// Stops at a line of which this can't be read.
pub fn unread<T: Drop>(alloc: Global, what: &str) -> Result<T, Stop> {
    Err(Stop::Failed(format!(in alloc; "can't read {what}")?))
}
