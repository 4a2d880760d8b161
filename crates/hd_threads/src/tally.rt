//! What became of the nodes that a worker has settled.
ghost use Rattle.std.specs.Prelude.{◌≡◌, ◌+◌, ◌≤◌, length};
ghost use Rattle.hd_node.specs.declared.batch.TheConstants.{MAX_OUTCOMES};
ghost use Rattle.hd_threads.specs.Tally.{tally_of, one_more, settled_in};

use hd_hmax::EstimateValue;
use hd_node::Outcome;

/// How many nodes became what.
#[derive(Clone, Copy, Debug, PartialEq, Eq, Drop)]
pub struct Tally {
    /// They are expanded: each is an entry.
    pub expanded: u64,
    /// An expansion has their state at no greater cost.
    pub duplicates: u64,
    /// Their cost and their estimate reach the bound.
    pub pruned: u64,
    /// Their estimate is infinite.
    pub dead: u64,
}

/// What a worker did in a search.
#[derive(Clone, Copy, Debug, PartialEq, Eq, Drop)]
pub struct Work {
    /// What became of the nodes of its batches that the book has taken.
    pub tally: Tally,
    /// How many of its expansions were of a state that had one already, which cost more.
    pub reopened: u64,
    /// How many states it has estimated, as far as their estimates have 64 bits.
    pub evaluated: u64,
}

impl Tally {
    /// Returns the tally of no nodes.
    pub fn none() -> Tally
        ensures { result ≡ record { expanded = 0; duplicates = 0; pruned = 0; dead = 0 } }
    {
        Tally {
            expanded: 0,
            duplicates: 0,
            pruned: 0,
            dead: 0,
        }
    }

    /// Returns the tally of both, as far as 64 bits go.
    pub fn plus(self, other: Tally) -> Tally {
        Tally {
            expanded: self.expanded.saturating_add(other.expanded),
            duplicates: self.duplicates.saturating_add(other.duplicates),
            pruned: self.pruned.saturating_add(other.pruned),
            dead: self.dead.saturating_add(other.dead),
        }
    }
}

/// Returns a tally with one outcome more.
fn with_one(tally: Tally, outcome: &Outcome) -> Tally
    requires { settled_in tally + 1 ≤ MAX_OUTCOMES }
    ensures one { result ≡ one_more tally outcome.now }
    ensures settled { settled_in result ≡ settled_in tally + 1 }
{
    let mut tally = tally;
    match outcome {
        Outcome::Expanded(_) => tally.expanded += 1,
        Outcome::Duplicate(_, _) => tally.duplicates += 1,
        Outcome::Bounded(_, estimate) => match estimate.value() {
            EstimateValue::Cost(_) => tally.pruned += 1,
            EstimateValue::Dead => tally.dead += 1,
        },
    }
    tally
}

/// Returns what became of the nodes of outcomes. Each is counted, and once.
pub fn tally_of(outcomes: &[Outcome]) -> Tally
    requires few { length outcomes.now ≤ MAX_OUTCOMES }
    ensures tally { result ≡ tally_of outcomes.now }
    ensures settled { settled_in result ≡ length outcomes.now }
{
    let mut tally = Tally::none();
    for outcome in outcomes {
        tally = with_one(tally, outcome);
    }
    tally
}
