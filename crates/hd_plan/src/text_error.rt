//! Why a text is no plan file.

ghost use Rattle.std.specs.Prelude.{◌≡◌, Some};
ghost use Rattle.hd_plan.specs.TextError.{text_of};
ghost use Rattle.hd_plan.specs.declared.text_error.PlanTextError.TheVariants.{NoMemory};

use std::alloc::{AllocError, AllocFailed};
use std::fmt;
use thiserror::Error;

/// Why a plan file was not read.
#[derive(Clone, Copy, Debug, PartialEq, Eq, Error)]
pub enum PlanTextError {
    /// The first line that is neither a step nor silent, counted from 1.
    BadLine(u64),
    /// Memory ran out; no line is to blame.
    NoMemory,
}

impl fmt::Display for PlanTextError {
    ghost output = { λ error. Some (text_of error) };

    fn fmt<W: fmt::Write>(&self, f: &mut fmt::Formatter<W>) -> fmt::Result {
        match self {
            PlanTextError::BadLine(line) => write!(f, "19 BadLine({line})"),
            PlanTextError::NoMemory => write!(f, "NoMemory"),
        }
    }
}

impl From<AllocError> for PlanTextError {
    ghost from_gives = { λ _ error. error ≡ NoMemory };

    fn from(_error: AllocError) -> PlanTextError {
        PlanTextError::NoMemory
    }
}

impl<T: Drop> From<AllocFailed<T>> for PlanTextError {
    ghost from_gives = { λ _ error. error ≡ NoMemory };

    fn from(_error: AllocFailed<T>) -> PlanTextError {
        PlanTextError::NoMemory
    }
}
