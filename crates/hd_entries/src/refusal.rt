//! Why a batch or an entry is refused.
ghost use Rattle.std.specs.Prelude.{◌≡◌, Some};
ghost use Rattle.hd_entries.specs.Refusal.{text_of};
ghost use Rattle.hd_entries.specs.declared.refusal.Refusal.TheVariants.{NoMemory};

use std::alloc::{AllocError, AllocFailed};
use std::fmt;
use thiserror::Error;

/// Why a batch or an entry is refused.
#[derive(Clone, Copy, Debug, PartialEq, Eq, Error)]
pub enum Refusal {
    /// A successor is not the root, and its parent was no entry before the batch.
    UnknownParent,
    /// A successor's action is not applicable at its parent.
    NotAKid,
    /// A successor is settled already, by the entries or by an earlier outcome of the batch.
    SettledBefore,
    /// An outcome's state or cost is not what applying the action gives.
    StateDiffers,
    /// What a duplicate names has not its state at no greater cost.
    NotDominated,
    /// A successor's cost and estimate do not reach the bound.
    BelowBound,
    /// The entries would be more than there may be.
    Full,
    /// Lack of memory.
    NoMemory,
}

impl fmt::Display for Refusal {
    ghost output = { λ r. Some (text_of r) };

    fn fmt<W: fmt::Write>(&self, f: &mut fmt::Formatter<W>) -> fmt::Result {
        match self {
            Refusal::UnknownParent => write!(f, "24 UnknownParent"),
            Refusal::NotAKid => write!(f, "25 NotAKid"),
            Refusal::SettledBefore => write!(f, "26 SettledBefore"),
            Refusal::StateDiffers => write!(f, "27 StateDiffers"),
            Refusal::NotDominated => write!(f, "28 NotDominated"),
            Refusal::BelowBound => write!(f, "29 BelowBound"),
            Refusal::Full => write!(f, "31 Full"),
            Refusal::NoMemory => write!(f, "NoMemory"),
        }
    }
}

impl From<AllocError> for Refusal {
    ghost from_gives = { λ _ r. r ≡ NoMemory };

    fn from(_: AllocError) -> Refusal {
        Refusal::NoMemory
    }
}

impl<T: Drop> From<AllocFailed<T>> for Refusal {
    ghost from_gives = { λ _ r. r ≡ NoMemory };

    fn from(_: AllocFailed<T>) -> Refusal {
        Refusal::NoMemory
    }
}
