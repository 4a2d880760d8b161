//! Why a search can't be made again from entries.
ghost use Rattle.std.specs.Prelude.{◌≡◌, Some};
ghost use Rattle.hd_certify.specs.Error.{text_of};
ghost use Rattle.hd_certify.specs.declared.error.RecoverError.TheVariants.{NoMemory};

use std::alloc::AllocError;
use std::fmt;
use thiserror::Error;

/// Why a search can't be made again from entries.
#[derive(Clone, Copy, Debug, PartialEq, Eq, Error)]
pub enum RecoverError {
    /// There are more entries than there may be.
    Full,
    /// The entry at this place of the file is not the root in first place, and no successor of an
    /// earlier entry, or an entry before it is the same.
    Damaged(u64),
    /// Memory ran out.
    NoMemory,
}

impl fmt::Display for RecoverError {
    ghost output = { λ error. Some (text_of error) };

    fn fmt<W: fmt::Write>(&self, f: &mut fmt::Formatter<W>) -> fmt::Result {
        match self {
            RecoverError::Full => write!(f, "31 Full"),
            RecoverError::Damaged(at) => write!(f, "34 Damaged({at})"),
            RecoverError::NoMemory => write!(f, "NoMemory"),
        }
    }
}

impl From<AllocError> for RecoverError {
    ghost from_gives = { λ _ error. error ≡ NoMemory };

    fn from(_error: AllocError) -> RecoverError {
        RecoverError::NoMemory
    }
}
