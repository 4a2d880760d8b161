//! Outcomes, and batches of them.
ghost use Rattle.std.specs.Prelude.{◌≡◌, ◌≤◌, length};
ghost use Rattle.hd_node.specs.declared.batch.TheConstants.{MAX_OUTCOMES};
ghost use Rattle.hd_node.specs.Outcome.{kid_of};

use crate::Expansion;
use hd_base::Sequence;
use hd_hmax::Estimate;
use hd_task::Kid;

/// The greatest number of outcomes in a batch.
pub const MAX_OUTCOMES: usize = 1024;

/// What has a successor's state at no greater cost.
#[derive(Clone, Copy, Debug, PartialEq, Eq, Hash)]
pub enum By {
    /// The entry of this number.
    Entry(u64),
    /// The outcome at this place of the same batch, from 0, which is an expansion.
    Here(usize),
}

/// How a successor is settled.
#[derive(Debug, Drop)]
pub enum Outcome<'t> {
    /// It is expanded.
    Expanded(Expansion<'t>),
    /// An expansion has its state at no greater cost.
    Duplicate(Kid, By),
    /// Its cost and its estimate reach the bound, or its estimate is infinite.
    Bounded(Kid, Estimate<'t>),
}

impl<'t> Outcome<'t> {
    /// Returns the successor that it settles.
    pub fn kid(&self) -> Kid
        ensures { result ≡ kid_of self.now }
    {
        match self {
            Outcome::Expanded(expansion) => expansion.kid(),
            Outcome::Duplicate(kid, _) => *kid,
            Outcome::Bounded(kid, _) => *kid,
        }
    }
}

/// Outcomes that are committed together: from 1 to [`MAX_OUTCOMES`].
#[derive(Debug, Drop)]
pub struct Batch<'t> {
    pub outcomes: Sequence<Outcome<'t>>,
    // There is one at least.
    ghost some: { 1 ≤ length outcomes },
    // There are `MAX_OUTCOMES` at most.
    ghost few: { length outcomes ≤ MAX_OUTCOMES },
}

impl<'t> Batch<'t> {
    /// Returns the batch of these outcomes, in their order.
    pub fn of(outcomes: Vec<Outcome<'t>>) -> Batch<'t>
        requires some { 1 ≤ length outcomes.items }
        requires few { length outcomes.items ≤ MAX_OUTCOMES }
        ensures { result.outcomes ≡ outcomes.entry.items }
    {
        Batch {
            outcomes: Sequence::from_vec(outcomes),
        }
    }
}
