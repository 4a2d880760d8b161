//! Why a search ends without an answer.
ghost use Rattle.std.specs.Prelude.{◌≡◌, Some};
ghost use Rattle.hd_threads.specs.Faults.{text_of, of_journal};
ghost use Rattle.hd_threads.specs.declared.fault.RunFault.TheVariants.{NoMemory};

use hd_journal::JournalError;
use std::alloc::AllocError;
use std::fmt;
use thiserror::Error;

/// Why a search ends without an answer.
#[derive(Clone, Copy, Debug, PartialEq, Eq, Error)]
pub enum RunFault {
    /// The entries would be more than the journal may have.
    Full,
    /// The journal's entry at this place of the file is not the root in first place, and no
    /// successor of an earlier entry, or an entry before it is the same.
    Damaged(u64),
    /// The device failed, and counted the failure.
    Device,
    /// The device failed in an earlier call; the file is to be opened again.
    Failed,
    /// What is written down does not fit together: a batch is refused for what it says, or
    /// successors are left that nothing settles.
    NotOut,
    /// Memory ran out.
    NoMemory,
}

impl fmt::Display for RunFault {
    ghost output = { λ fault. Some (text_of fault) };

    fn fmt<W: fmt::Write>(&self, f: &mut fmt::Formatter<W>) -> fmt::Result {
        match self {
            RunFault::Full => write!(f, "31 Full"),
            RunFault::Damaged(at) => write!(f, "34 Damaged({at})"),
            RunFault::Device => write!(f, "35 Device"),
            RunFault::Failed => write!(f, "36 Failed"),
            RunFault::NotOut => write!(f, "38 NotOut"),
            RunFault::NoMemory => write!(f, "NoMemory"),
        }
    }
}

impl From<AllocError> for RunFault {
    ghost from_gives = { λ _ fault. fault ≡ NoMemory };

    fn from(_error: AllocError) -> RunFault {
        RunFault::NoMemory
    }
}

/// Returns what is reported of a journal's error.
pub(crate) fn of_journal(error: JournalError) -> RunFault
    ensures { result ≡ of_journal error }
{
    match error {
        JournalError::Damaged(at) => RunFault::Damaged(at),
        JournalError::Device => RunFault::Device,
        JournalError::Failed => RunFault::Failed,
        JournalError::NoMemory => RunFault::NoMemory,
        JournalError::NotAJournal
        | JournalError::OtherTask
        | JournalError::JournalExists
        | JournalError::NotOut => RunFault::NotOut,
    }
}
