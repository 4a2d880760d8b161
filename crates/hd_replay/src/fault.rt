//! Why a schedule is not played to its end.
ghost use Rattle.std.specs.Prelude.{◌≡◌, Some};
ghost use Rattle.hd_replay.specs.Faults.{text_of, replay_fault_of_journal, of_recovery};
ghost use Rattle.hd_replay.specs.declared.fault.ReplayFault.TheVariants.{NoMemory};

use hd_journal::JournalError;
use hd_recovery::RecoverError;
use std::alloc::AllocError;
use std::fmt;
use thiserror::Error;

/// Why a schedule is not played to its end.
#[derive(Clone, Copy, Debug, PartialEq, Eq, Error)]
pub enum ReplayFault {
    /// A search can't go on from the journal's entries.
    Recovery(RecoverError),
    /// The journal refuses the disk or a group, or its device failed.
    Journal(JournalError),
    /// The entries would be more than the journal may have.
    Full,
    /// Memory ran out.
    NoMemory,
}

impl fmt::Display for ReplayFault {
    ghost output = { λ fault. Some (text_of fault) };

    fn fmt<W: fmt::Write>(&self, f: &mut fmt::Formatter<W>) -> fmt::Result {
        match self {
            ReplayFault::Recovery(fault) => write!(f, "{fault}"),
            ReplayFault::Journal(fault) => write!(f, "{fault}"),
            ReplayFault::Full => write!(f, "31 Full"),
            ReplayFault::NoMemory => write!(f, "NoMemory"),
        }
    }
}

impl From<AllocError> for ReplayFault {
    ghost from_gives = { λ _ fault. fault ≡ NoMemory };

    fn from(_error: AllocError) -> ReplayFault {
        ReplayFault::NoMemory
    }
}

/// Returns what is reported of a journal's error.
pub(crate) fn told_of_journal(error: JournalError) -> ReplayFault
    ensures { result ≡ replay_fault_of_journal error }
{
    match error {
        JournalError::NoMemory => ReplayFault::NoMemory,
        error => ReplayFault::Journal(error),
    }
}

/// Returns what is reported where a search can't go on.
pub(crate) fn told_of_recovery(fault: RecoverError) -> ReplayFault
    ensures { result ≡ of_recovery fault }
{
    match fault {
        RecoverError::NoMemory => ReplayFault::NoMemory,
        RecoverError::Full => ReplayFault::Full,
        RecoverError::Damaged(at) => ReplayFault::Recovery(RecoverError::Damaged(at)),
    }
}
