//! What may be wrong with the names of a domain and a problem that were read.
ghost use Rattle.std.specs.Prelude.{◌≡◌, Some};
ghost use Rattle.hd_names.specs.Fault.{text_of};
ghost use Rattle.hd_names.specs.declared.fault.NameStop.TheVariants as stops;

use hd_base::Name;
use std::alloc::{AllocError, AllocFailed};
use std::fmt;

/// A fault of a name, with the place of its first byte in its text, counted from 0. A variable's
/// name has its `?`.
#[derive(Debug, PartialEq, Eq, Drop)]
pub enum NameFault {
    /// A name that is used and not declared.
    UnknownName(Name, usize),
    /// A name that is declared twice, `object` as a listed type, or a fluent that is given two
    /// values.
    Duplicate(Name, usize),
    /// A type that is its own supertype, directly or by others.
    TypeCycle(Name, usize),
}

/// Why names could not be told to their end.
#[derive(Debug, PartialEq, Eq, Drop)]
pub enum NameStop {
    /// The first fault.
    At(NameFault),
    /// Memory ran out.
    NoMemory,
}

impl fmt::Display for NameFault {
    ghost output = { λ fault. Some (text_of fault) };

    fn fmt<W: fmt::Write>(&self, f: &mut fmt::Formatter<W>) -> fmt::Result {
        match self {
            NameFault::UnknownName(name, at) => write!(f, "8 UnknownName({name}, {at})"),
            NameFault::Duplicate(name, at) => write!(f, "9 Duplicate({name}, {at})"),
            NameFault::TypeCycle(name, at) => write!(f, "12 TypeCycle({name}, {at})"),
        }
    }
}

impl From<AllocError> for NameStop {
    ghost from_gives = { λ _ stop. stop ≡ stops.NoMemory };

    fn from(_error: AllocError) -> NameStop {
        NameStop::NoMemory
    }
}

impl<T: Drop> From<AllocFailed<T>> for NameStop {
    ghost from_gives = { λ _ stop. stop ≡ stops.NoMemory };

    fn from(_error: AllocFailed<T>) -> NameStop {
        NameStop::NoMemory
    }
}
