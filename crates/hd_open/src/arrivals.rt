//! Arrivals of nodes that have the same total.
ghost use Rattle.std.specs.Prelude.{◌≡◌, ◌++◌, [], ◌∷◌, drop, slice_get, OnOk, OnErr};

use hd_base::NoMemory;
use std::alloc::Global;
use std::collections::VecDeque;
use std::marker::Model;

/// Arrivals in order, which contracts see as the list of them.
#[derive(Drop)]
pub(crate) struct Arrivals {
    queue: VecDeque<u32>,
}

impl Model for Arrivals {
    ghost use Rattle.std.specs.Prelude.{ℕ, List};

    ghost Value = { List ℕ };

    ghost view = { λ a. a.queue.items };
}

impl Arrivals {
    /// Returns no arrivals.
    pub(crate) fn none(alloc: Global) -> Arrivals
        ensures { result ≡ [] }
    {
        Arrivals {
            queue: VecDeque::new(alloc),
        }
    }

    /// Adds one arrival more, after the others.
    ///
    /// # Errors
    /// - `NoMemory`: there is no room for it.
    pub(crate) fn push(&mut self, arrival: u32) -> Result<(), NoMemory>
        ensures ok { OnOk result (self.new ≡ self.old ++ arrival ∷ []) }
        ensures err { OnErr result (self.new ≡ self.old) }
    {
        self.queue.push_back(arrival)?;
        Ok(())
    }

    /// Returns the first one.
    pub(crate) fn first(&self) -> Option<usize>
        ensures { result ≡ slice_get self.now 0 }
    {
        match self.queue.front() {
            Some(arrival) => Some(*arrival as usize),
            None => None,
        }
    }

    /// Drops the first one.
    pub(crate) fn drop_first(&mut self)
        ensures { self.new ≡ drop 1 self.old }
    {
        let _first = self.queue.pop_front();
    }
}
