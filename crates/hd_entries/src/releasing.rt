//! What a batch releases.
ghost use Rattle.std.specs.Prelude.{◌≡◌, ◌+◌, ◌<◌, ◌^◌, length};
ghost use Rattle.std.specs.List.{AllByRecursion};
ghost use Rattle.hd_entries.specs.Settling.{IsOutcomeOfTask};
ghost use Rattle.hd_entries.specs.Holding.{released_by};

use crate::settling::kids_of;
use hd_base::Sequence;
use hd_node::{Batch, Outcome};
use hd_task::Task;
use std::marker::Model;

/// What a committed batch releases: the successors of its expansions, in order.
///
/// They stay in the batch's outcomes until a worker makes parcels of them. So a commit moves
/// nothing, asks for no memory for them, and gives none back while the book is locked.
#[derive(Debug, Drop)]
pub struct Parcels<'t> {
    task: &'t Task,
    /// The number of the first entry among the outcomes.
    first: u64,
    outcomes: Sequence<Outcome<'t>>,
}

impl<'t> Model for Parcels<'t> {
    ghost use Rattle.std.specs.Coded.{codes};
    ghost use Rattle.hd_task.specs.contracts.task.Task as tasks;
    ghost use Rattle.hd_entries.specs.Holding.{released_by};
    ghost use Rattle.hd_entries.specs.Releasing.{ParcelsView, CanRelease};

    ghost Value = { ParcelsView };

    ghost coded = { Prim.hlevel (codes, tasks.the_row.coded) };

    ghost view = { λ p. record { task = p.task.now; kids = released_by p.first p.outcomes } };

    ghost invariant = { λ p. CanRelease p.task.now p.first p.outcomes };
}

impl<'t> Parcels<'t> {
    /// Returns what a batch of the task releases, whose first entry has the number `first`. It does
    /// not allocate.
    pub fn of(task: &'t Task, first: u64, batch: Batch<'t>) -> Parcels<'t>
        requires of_task { AllByRecursion (IsOutcomeOfTask task.now) batch.outcomes }
        requires numbered { first + length batch.outcomes < 2 ^ 64 }
        ensures { result
            ≡ record { task = task.now; kids = released_by first batch.entry.outcomes } }
    {
        let Batch { outcomes, .. } = batch;
        Parcels {
            task,
            first,
            outcomes,
        }
    }

    /// Returns how many successors there are.
    pub fn len(&self) -> usize
        ensures { result ≡ length self.now.kids }
    {
        kids_of(self.outcomes.as_slice())
    }

    /// Returns the number of the first entry, and the outcomes.
    pub fn into_outcomes(self) -> (u64, Vec<Outcome<'t>>)
        ensures kids { released_by result.0 result.1.items ≡ self.entry.kids }
        ensures of_task { AllByRecursion (IsOutcomeOfTask self.entry.task) result.1.items }
        ensures numbered { result.0 + length result.1.items < 2 ^ 64 }
    {
        let Parcels {
            first,
            outcomes,
            ..
        } = self;
        (first, outcomes.into_vec())
    }
}
