//! Expanded plans.
ghost use Rattle.std.specs.Prelude.{◌≡◌, Some};
ghost use Rattle.hd_task.specs.Plans.{node};
ghost use Rattle.hd_entries.specs.Settling.{dominates, same_state};
ghost use Rattle.hd_entries.specs.Holding.{node_at};

use crate::hashed_row::HashedRow;
use hd_tables::{Draft, Row};
use hd_task::Kid;
use std::alloc::Global;

/// An expanded plan: the successor that names it, and where it leads.
#[derive(Debug, Drop)]
pub(crate) struct ExpandedPlan<'e> {
    pub(crate) kid: Kid,
    pub(crate) state: HashedRow<'e>,
    pub(crate) cost: u64,
}

/// What is held of an entry beside its state.
#[derive(Debug, Drop)]
pub(crate) struct Label {
    pub(crate) kid: Kid,
    /// The state's hash.
    pub(crate) hash: u64,
    pub(crate) cost: u64,
}

/// Where a successor leads, and what its plan costs. It is written over from one successor to the
/// next.
#[derive(Debug, Drop)]
pub(crate) struct DraftNode {
    pub(crate) state: Draft,
    pub(crate) cost: u64,
}

impl DraftNode {
    /// Returns a place that leads nowhere yet. It does not allocate.
    pub(crate) fn empty(alloc: Global) -> DraftNode
        ensures { result.cost ≡ 0 }
    {
        DraftNode {
            state: Draft::empty(alloc),
            cost: 0,
        }
    }
}

/// The bound, and the least-numbered entry at it.
#[derive(Clone, Copy, Debug)]
pub(crate) struct Best {
    pub(crate) cost: u64,
    pub(crate) entry: usize,
}

/// Reports whether a state and one that was reached are equal.
fn are_states_equal(one: &Row<'_>, other: &Draft) -> bool
    ensures { result ≡ same_state one.now other.now }
{
    one.is_draft(other)
}

impl<'e> ExpandedPlan<'e> {
    /// Reports whether it has a place's state at no greater cost.
    pub(crate) fn is_no_dearer(&self, reached: &DraftNode) -> bool
        ensures { result ≡ dominates (Some (node_at self.now))
            (Some (node reached.now.state reached.now.cost)) }
    {
        are_states_equal(self.state.row(), &reached.state) && self.cost <= reached.cost
    }
}
