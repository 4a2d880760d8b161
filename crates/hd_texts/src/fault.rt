//! Why two texts have no task.
ghost use Rattle.std.specs.Prelude.{◌≡◌, Some};
ghost use Rattle.hd_texts.specs.Fault.{text_of, read_in, checked_in, grounded_in};

use hd_check::{CheckError, Source};
use hd_forms::ReadError;
use hd_ground::GroundError;
use std::fmt;
use thiserror::Error;

/// Why two texts have no task.
#[derive(Debug, PartialEq, Eq, Drop, Error)]
pub enum TaskFault {
    /// A text could not be read.
    Read(Source, ReadError),
    /// A text was read, and a name, a type or the metric is at fault in it.
    Check(Source, hd_check::CheckFault),
    /// No fault stands in the texts, and what they say has no task to search.
    Ground(GroundError),
    /// Memory ran out; the texts are not to blame.
    NoMemory,
}

impl fmt::Display for TaskFault {
    ghost output = { λ fault. Some (text_of fault) };

    fn fmt<W: fmt::Write>(&self, f: &mut fmt::Formatter<W>) -> fmt::Result {
        match self {
            TaskFault::Read(source, error) => write!(f, "{source}{error}"),
            TaskFault::Check(source, fault) => write!(f, "{source}{fault}"),
            TaskFault::Ground(error) => write!(f, "{error}"),
            TaskFault::NoMemory => write!(f, "NoMemory"),
        }
    }
}

/// Returns a reader's error in a text.
pub fn read_in(source: Source, error: ReadError) -> TaskFault
    ensures { result ≡ read_in source error }
{
    match error {
        ReadError::NoMemory => TaskFault::NoMemory,
        ReadError::Lex(_)
        | ReadError::Unbalanced(_)
        | ReadError::Unexpected(_)
        | ReadError::Unsupported(_, _)
        | ReadError::TooDeep(_) => TaskFault::Read(source, error),
    }
}

/// Returns what a check reports.
pub fn checked_in(error: CheckError) -> TaskFault
    ensures { result ≡ checked_in error }
{
    match error {
        CheckError::In(source, fault) => TaskFault::Check(source, fault),
        CheckError::NoMemory => TaskFault::NoMemory,
    }
}

/// Returns why a lifted task has no task to search.
pub fn grounded_in(error: GroundError) -> TaskFault
    ensures { result ≡ grounded_in error }
{
    match error {
        GroundError::NoMemory => TaskFault::NoMemory,
        GroundError::TooMany | GroundError::Undefined(_) | GroundError::NegativeCost(_) => {
            TaskFault::Ground(error)
        }
    }
}
