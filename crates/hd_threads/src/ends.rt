//! How the threads of workers have ended.
ghost use Rattle.std.specs.Prelude.{◌≡◌, None, Some};
ghost use Rattle.hd_threads.specs.Ends.{first_fault};

use crate::fault::RunFault;
use crate::shared::Halted;
use std::marker::Model;

/// How the thread of a worker has ended: it saw that the search is over, or it ended by a fault,
/// and then it has halted the book.
///
/// There is one of each thread: only [`crate::work`] makes one.
#[derive(Debug, Drop)]
pub struct WorkerEnd {
    id: usize,
    fault: Option<(RunFault, Halted)>,
}

impl Model for WorkerEnd {
    ghost use Rattle.std.specs.Prelude.{option_map};
    ghost use Rattle.hd_threads.specs.Ends.{EndView};

    ghost Value = { EndView };

    ghost view = { λ e. record { id = e.id; fault = option_map (λ f. f.0) e.fault } };
}

impl WorkerEnd {
    /// Returns the end of a worker that saw that the search is over.
    pub(crate) fn by_none(id: usize) -> WorkerEnd
        ensures { result ≡ record { id = id; fault = None } }
    {
        WorkerEnd { id, fault: None }
    }

    /// Returns the end of a worker by a fault, where it has halted the book.
    pub(crate) fn by(id: usize, fault: RunFault, halted: Halted) -> WorkerEnd
        ensures { result ≡ record { id = id; fault = Some fault } }
    {
        WorkerEnd {
            id,
            fault: Some((fault, halted)),
        }
    }

    /// Returns the worker's number.
    pub fn id(&self) -> usize
        ensures { result ≡ self.now.id }
    {
        self.id
    }

    /// Returns the fault, if the worker has ended by one.
    pub fn fault(&self) -> Option<RunFault>
        ensures { result ≡ self.now.fault }
    {
        match &self.fault {
            Some((fault, _)) => Some(*fault),
            None => None,
        }
    }
}

/// Returns the first fault of ends, in their order, if there is one.
pub fn first_fault(ends: &[WorkerEnd]) -> Option<RunFault>
    ensures { result ≡ first_fault ends.now }
{
    let mut rest = ends;
    while let [end, after @ ..] = rest {
        if let Some(fault) = end.fault() {
            return Some(fault);
        }
        rest = after;
    }
    None
}
