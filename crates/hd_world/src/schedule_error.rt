//! Why a text is no schedule.

ghost use Rattle.std.specs.Prelude.{◌≡◌, Some};
ghost use Rattle.hd_world.specs.ScheduleError.{text_of};
ghost use Rattle.hd_world.specs.declared.schedule_error.ScheduleError.TheVariants.{NoMemory};

use std::alloc::{AllocError, AllocFailed};
use std::fmt;
use thiserror::Error;

/// Why a schedule was not read.
#[derive(Clone, Copy, Debug, PartialEq, Eq, Error)]
pub enum ScheduleError {
    /// The first line that is neither a move nor silent, counted from 1.
    BadLine(u64),
    /// Memory ran out; no line is to blame.
    NoMemory,
}

impl fmt::Display for ScheduleError {
    ghost output = { λ error. Some (text_of error) };

    fn fmt<W: fmt::Write>(&self, f: &mut fmt::Formatter<W>) -> fmt::Result {
        match self {
            ScheduleError::BadLine(line) => write!(f, "19 BadLine({line})"),
            ScheduleError::NoMemory => write!(f, "NoMemory"),
        }
    }
}

impl From<AllocError> for ScheduleError {
    ghost from_gives = { λ _ error. error ≡ NoMemory };

    fn from(_error: AllocError) -> ScheduleError {
        ScheduleError::NoMemory
    }
}

impl<T: Drop> From<AllocFailed<T>> for ScheduleError {
    ghost from_gives = { λ _ error. error ≡ NoMemory };

    fn from(_error: AllocFailed<T>) -> ScheduleError {
        ScheduleError::NoMemory
    }
}
