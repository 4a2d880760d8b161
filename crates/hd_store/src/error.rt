//! Why a call on a store failed.
ghost use Rattle.std.specs.Prelude.{◌≡◌, Some};
ghost use Rattle.hd_store.specs.Error.{text_of};
ghost use Rattle.hd_store.specs.declared.error.StoreError.TheVariants.{NoMemory};

use std::alloc::{AllocError, AllocFailed};
use std::fmt;
use thiserror::Error;

/// The greatest count of failures. Where a store has counted so many, each further call on it
/// fails.
pub const MOST_FAILURES: u64 = 0xffff_ffff_ffff_ffff;

/// Why a call on a store failed.
#[derive(Clone, Copy, Debug, PartialEq, Eq, Error)]
pub enum StoreError {
    /// Memory ran out before the device was asked for anything; nothing was changed.
    NoMemory,
    /// The device failed, and the failure was counted.
    Failed,
}

impl fmt::Display for StoreError {
    ghost output = { λ error. Some (text_of error) };

    fn fmt<W: fmt::Write>(&self, f: &mut fmt::Formatter<W>) -> fmt::Result {
        match self {
            StoreError::NoMemory => write!(f, "NoMemory"),
            StoreError::Failed => write!(f, "35 Device"),
        }
    }
}

impl From<AllocError> for StoreError {
    ghost from_gives = { λ _ error. error ≡ NoMemory };

    fn from(_error: AllocError) -> StoreError {
        StoreError::NoMemory
    }
}

impl<T: Drop> From<AllocFailed<T>> for StoreError {
    ghost from_gives = { λ _ error. error ≡ NoMemory };

    fn from(_error: AllocFailed<T>) -> StoreError {
        StoreError::NoMemory
    }
}
