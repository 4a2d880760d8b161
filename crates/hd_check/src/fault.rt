//! What may be wrong with a domain and a problem that were read, and why they are not accepted.
ghost use Rattle.std.specs.Prelude.{◌≡◌, Some};
ghost use Rattle.hd_check.specs.Fault.{text_of, error_text, source_text, of_names, error_in};
ghost use Rattle.hd_check.specs.declared.fault.CheckError.TheVariants as errors;
ghost use Rattle.hd_check.specs.declared.fault.CheckStop.TheVariants as stops;

use hd_base::Name;
use hd_metric::BadMetric;
use hd_names::{NameFault, NameStop};
use std::alloc::{AllocError, AllocFailed};
use std::fmt;
use thiserror::Error;

/// Which text a fault is in.
#[derive(Clone, Copy, Debug, PartialEq, Eq)]
pub enum Source {
    /// The domain's text.
    Domain,
    /// The problem's text.
    Problem,
}

/// A fault of a text, with the place of its first byte there, counted from 0.
#[derive(Debug, PartialEq, Eq, Drop)]
pub enum CheckFault {
    /// A name that is not declared or is declared twice, or a type on a cycle.
    OfName(NameFault),
    /// A predicate or a function with more or fewer arguments than it has parameters.
    WrongArity(Name, usize),
    /// An argument whose type is not the parameter's and no subtype of it. A variable's name has
    /// its `?`.
    WrongType(Name, usize),
    /// A wrong use of the metric's function.
    OfMetric(BadMetric),
    /// The problem belongs to a domain of another name.
    DomainMismatch(usize),
    /// A first value out of the range.
    InitOutOfRange(usize),
}

/// Why a part could not be checked to its end.
#[derive(Debug, PartialEq, Eq, Drop)]
pub enum CheckStop {
    /// The first fault.
    At(CheckFault),
    /// Memory ran out.
    NoMemory,
}

/// Why a domain and a problem are not accepted.
#[derive(Debug, PartialEq, Eq, Drop, Error)]
pub enum CheckError {
    /// A text is at fault.
    In(Source, CheckFault),
    /// Memory ran out; the texts are not to blame.
    NoMemory,
}

impl fmt::Display for Source {
    ghost output = { λ source. Some (source_text source) };

    fn fmt<W: fmt::Write>(&self, f: &mut fmt::Formatter<W>) -> fmt::Result {
        match self {
            Source::Domain => write!(f, "domain: "),
            Source::Problem => write!(f, "problem: "),
        }
    }
}

impl fmt::Display for CheckFault {
    ghost output = { λ fault. Some (text_of fault) };

    fn fmt<W: fmt::Write>(&self, f: &mut fmt::Formatter<W>) -> fmt::Result {
        match self {
            CheckFault::OfName(fault) => write!(f, "{fault}"),
            CheckFault::WrongArity(name, at) => write!(f, "10 WrongArity({name}, {at})"),
            CheckFault::WrongType(name, at) => write!(f, "11 WrongType({name}, {at})"),
            CheckFault::OfMetric(fault) => write!(f, "{fault}"),
            CheckFault::DomainMismatch(at) => write!(f, "14 DomainMismatch({at})"),
            CheckFault::InitOutOfRange(at) => write!(f, "18 InitOutOfRange({at})"),
        }
    }
}

impl fmt::Display for CheckError {
    ghost output = { λ error. Some (error_text error) };

    fn fmt<W: fmt::Write>(&self, f: &mut fmt::Formatter<W>) -> fmt::Result {
        match self {
            CheckError::In(source, fault) => write!(f, "{source}{fault}"),
            CheckError::NoMemory => write!(f, "NoMemory"),
        }
    }
}

impl From<NameStop> for CheckStop {
    ghost from_gives = { λ told stop. stop ≡ of_names told };

    fn from(told: NameStop) -> CheckStop {
        match told {
            NameStop::At(fault) => CheckStop::At(CheckFault::OfName(fault)),
            NameStop::NoMemory => CheckStop::NoMemory,
        }
    }
}

impl From<AllocError> for CheckStop {
    ghost from_gives = { λ _ stop. stop ≡ stops.NoMemory };

    fn from(_error: AllocError) -> CheckStop {
        CheckStop::NoMemory
    }
}

impl<T: Drop> From<AllocFailed<T>> for CheckStop {
    ghost from_gives = { λ _ stop. stop ≡ stops.NoMemory };

    fn from(_error: AllocFailed<T>) -> CheckStop {
        CheckStop::NoMemory
    }
}

impl From<AllocError> for CheckError {
    ghost from_gives = { λ _ error. error ≡ errors.NoMemory };

    fn from(_error: AllocError) -> CheckError {
        CheckError::NoMemory
    }
}

impl<T: Drop> From<AllocFailed<T>> for CheckError {
    ghost from_gives = { λ _ error. error ≡ errors.NoMemory };

    fn from(_error: AllocFailed<T>) -> CheckError {
        CheckError::NoMemory
    }
}

/// Returns what stopped the check of this text.
pub fn error_in(source: Source, stop: CheckStop) -> CheckError
    ensures { result ≡ error_in source stop }
{
    match stop {
        CheckStop::At(fault) => CheckError::In(source, fault),
        CheckStop::NoMemory => CheckError::NoMemory,
    }
}
