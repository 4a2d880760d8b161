//! Why there is no request.
ghost use Rattle.std.specs.Prelude.{◌≡◌};
ghost use Rattle.hd_words.specs.declared.error.WordsError.TheVariants.{NoMemory};

use std::alloc::{AllocError, AllocFailed};

/// Why the words of a command line are no request.
#[derive(Debug, Drop)]
pub enum WordsError {
    /// Help or the version was asked for: this text is for standard output.
    Shown(String),
    /// The words are faulty: this text is for standard error.
    Fault(String),
    /// Memory ran out; the words are not to blame.
    NoMemory,
}

impl From<AllocError> for WordsError {
    ghost from_gives = { λ _ error. error ≡ NoMemory };

    fn from(_error: AllocError) -> WordsError {
        WordsError::NoMemory
    }
}

impl<T: Drop> From<AllocFailed<T>> for WordsError {
    ghost from_gives = { λ _ error. error ≡ NoMemory };

    fn from(_error: AllocFailed<T>) -> WordsError {
        WordsError::NoMemory
    }
}
