//! What is reported of entries.
use hd_base::Sequence;
use hd_task::{Departure, Plan};

/// A value, and how often it is there.
#[derive(Clone, Copy, Debug, PartialEq, Eq)]
pub struct ValueCount {
    pub value: u64,
    pub count: u64,
}

/// What entries tell of a search that goes on, or has ended.
#[derive(Debug, Drop)]
pub struct Survey {
    /// The least cost of an entry that meets the goal.
    pub bound: Option<u64>,
    /// The plan of the bound.
    pub plan: Option<Plan>,
    /// How many plans are generated.
    pub posted: u64,
    /// How many of them need not be expanded any more: they are entries, or the entries spare them.
    pub settled: u64,
    /// The least cost plus estimate of the others, if there are any.
    pub least: Option<u128>,
    /// The first departure from the range.
    pub departure: Option<Departure>,
    /// How many entries there are of each depth.
    pub depths: Sequence<ValueCount>,
    /// How many entries there are of each cost.
    pub costs: Sequence<ValueCount>,
    /// How many entries there are of each cost plus estimate. Entries whose estimate is infinite,
    /// or reaches 2^64 with their cost, are in no row.
    pub totals: Sequence<ValueCount>,
}
