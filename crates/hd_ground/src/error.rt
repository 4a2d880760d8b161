//! Why a lifted task has no task to search.
ghost use Rattle.std.specs.Prelude.{◌≡◌, Some};
ghost use Rattle.hd_ground.specs.Error.{text_of};
ghost use Rattle.hd_ground.specs.declared.error.GroundError.TheVariants.{NoMemory};

use std::alloc::{AllocError, AllocFailed};
use std::fmt;
use thiserror::Error;

/// Why a lifted task has no task to search.
#[derive(Debug, PartialEq, Eq, Drop, Error)]
pub enum GroundError {
    /// There are more kept instances, atoms, fluents or amounts than a task may have.
    TooMany,
    /// A fluent, in its ground form, that an action or the goal reads or changes, and that has no
    /// first value.
    Undefined(String),
    /// An action, in its ground form, that costs the same in each state, and less than 0.
    NegativeCost(String),
    /// Memory ran out.
    NoMemory,
}

impl fmt::Display for GroundError {
    ghost output = { λ error. Some (text_of error) };

    fn fmt<W: fmt::Write>(&self, f: &mut fmt::Formatter<W>) -> fmt::Result {
        match self {
            GroundError::TooMany => write!(f, "17 TooMany"),
            GroundError::Undefined(fluent) => write!(f, "15 Undefined({fluent})"),
            GroundError::NegativeCost(action) => write!(f, "16 NegativeCost({action})"),
            GroundError::NoMemory => write!(f, "NoMemory"),
        }
    }
}

impl From<AllocError> for GroundError {
    ghost from_gives = { λ _ error. error ≡ NoMemory };

    fn from(_error: AllocError) -> GroundError {
        GroundError::NoMemory
    }
}

impl<T: Drop> From<AllocFailed<T>> for GroundError {
    ghost from_gives = { λ _ error. error ≡ NoMemory };

    fn from(_error: AllocFailed<T>) -> GroundError {
        GroundError::NoMemory
    }
}
