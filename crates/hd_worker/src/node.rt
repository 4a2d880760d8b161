//! Open nodes.
ghost use Rattle.std.specs.Prelude.{◌≡◌};
ghost use Rattle.hd_hmax.specs.Value.{estimated};
ghost use Rattle.hd_turns.specs.Totals.{total_of};
ghost use Rattle.hd_worker.specs.Nodes.{kid_of};

use crate::total::Total;
use hd_hmax::EstimateValue;
use hd_open::Waits;
use hd_task::Kid;

/// A parcel that waits to be expanded, with its estimate. Its state stands in the closed list, and
/// is not kept here too.
#[derive(Debug, Drop)]
pub(crate) struct WaitingNode {
    /// The successor, in two parts, so that it takes no more room than these.
    pub(crate) parent: u64,
    pub(crate) cost: u64,
    /// Its cost plus its estimate; none where the estimate is infinite.
    pub(crate) total: Total,
    pub(crate) action: u32,
    /// The place of its state in the closed list.
    pub(crate) state: u32,
}

impl WaitingNode {
    /// Returns the successor that names the plan.
    pub(crate) fn kid(&self) -> Kid
        ensures { result ≡ kid_of self.now }
    {
        Kid {
            parent: self.parent,
            action: self.action,
        }
    }
}

impl Waits for WaitingNode {
    ghost total = { λ n. n.total };

    fn total(&self) -> Option<u128> {
        self.total.get()
    }
}

/// Returns a cost plus an estimate; none where the estimate is infinite.
pub(crate) fn total_of(cost: u64, value: EstimateValue) -> Option<u128>
    ensures { result ≡ total_of cost (estimated value) }
{
    match value {
        EstimateValue::Cost(estimate) => Some(estimate.saturating_add(u128::from(cost))),
        EstimateValue::Dead => None,
    }
}
