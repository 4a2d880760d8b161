//! Why a search by threads ends without an answer.
ghost use Rattle.std.specs.Prelude.{◌≡◌, ℕ, List, Some};
ghost use Rattle.hd_task.specs.declared.task.Task.{Task};
ghost use Rattle.hd_image.specs.declared.entry.Entry.{Entry};
ghost use Rattle.hd_certify.specs.Error.{IsRecoverRefusal};
ghost use Rattle.hd_threads.specs.declared.fault.RunFault.TheVariants as faults;
ghost use Rattle.hd_search.specs.Fault.{text_of, first_of, IsFaulty};
ghost use Rattle.hd_search.specs.declared.fault.ThreadsFault.TheVariants.{Run};

use hd_recovery::RecoverError;
use hd_threads::RunFault;
use std::alloc::AllocError;
use std::fmt;
use thiserror::Error;

/// Why a search by threads ends without an answer.
#[derive(Clone, Copy, Debug, PartialEq, Eq, Error)]
pub enum ThreadsFault {
    /// A fault of the entries, of the committer or of a worker.
    Run(RunFault),
    /// The system starts no thread.
    NoThread,
}

impl fmt::Display for ThreadsFault {
    ghost output = { λ fault. Some (text_of fault) };

    fn fmt<W: fmt::Write>(&self, f: &mut fmt::Formatter<W>) -> fmt::Result {
        match self {
            ThreadsFault::Run(fault) => write!(f, "{fault}"),
            ThreadsFault::NoThread => write!(f, "NoThread"),
        }
    }
}

impl From<AllocError> for ThreadsFault {
    ghost from_gives = { λ _ fault. fault ≡ Run faults.NoMemory };

    fn from(_error: AllocError) -> ThreadsFault {
        ThreadsFault::Run(RunFault::NoMemory)
    }
}

/// Returns what is reported of why no search goes on from entries.
pub(crate) fn of_recovery(fault: RecoverError) -> RunFault
    ensures { (t : Task) (most : ℕ) (entries : List Entry) → IsRecoverRefusal t most entries fault
        → IsFaulty t most entries result }
{
    match fault {
        RecoverError::Full => RunFault::Full,
        RecoverError::Damaged(at) => RunFault::Damaged(at),
        RecoverError::NoMemory => RunFault::NoMemory,
    }
}

/// Returns what is reported first, of how the committer ended and of how the workers' threads did:
/// the committer's fault.
pub(crate) fn first_of(
    committer: Result<(), RunFault>,
    threads: Result<(), ThreadsFault>,
) -> Result<(), ThreadsFault>
    ensures { result ≡ first_of committer threads }
{
    match committer {
        Ok(()) => threads,
        Err(fault) => Err(ThreadsFault::Run(fault)),
    }
}
