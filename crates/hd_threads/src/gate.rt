//! What threads tell of a search while it runs.
use crate::tally::Work;
use hd_book::Counts;
use hd_task::Plan;
use std::sync::Wait;

/// How far a search has come, as its committer sees it.
#[derive(Clone, Copy, Debug, PartialEq, Eq, Drop)]
pub struct Standing {
    /// Its entries and its successors. Those that are posted and not settled are open.
    pub counts: Counts,
    /// The cost of the best plan that was found, if one was.
    pub bound: Option<u64>,
}

/// What the threads of a search call, outside every lock.
///
/// A search has a gate that does nothing ([`OpenGate`]), or one that reports a user how the search
/// stands; a test has one of its own, which may wait.
pub trait Gate {
    /// Hears that worker `worker` is about to settle its `nth` node, counted from 1.
    fn before<R: Wait>(&self, rt: &R, worker: usize, nth: u64);

    /// Hears that worker `worker` has settled its `nth` node, or had no room for it.
    fn after<R: Wait>(&self, rt: &R, worker: usize, nth: u64);

    /// Reports whether the worker of this number is to report how it stands; it is asked once a
    /// turn.
    fn asks_worker(&self, _worker: usize) -> bool {
        false
    }

    /// Hears the least cost plus estimate of worker `_worker`'s open nodes. It is `None` if each
    /// estimate is infinite, or nothing is open.
    fn hear_worker(&self, _worker: usize, _least: Option<u128>) {}

    /// Reports whether the committer is to report how the search stands; it is asked before each of
    /// its rounds.
    fn asks_committer(&self) -> bool {
        false
    }

    /// Hears how the search stands.
    fn hear_committer(&self, _standing: Standing) {}

    /// Reports whether the committer is to report the plan of a bound, which is its cost; it is
    /// asked before each of its rounds, if there is a bound.
    fn asks_plan(&self, _bound: u64) -> bool {
        false
    }

    /// Hears a plan of this cost, which no plan that was found so far falls below.
    fn hear_plan(&self, _plan: Plan, _cost: u64) {}

    /// Reports whether a worker is to report at its end what it did.
    fn asks_work(&self) -> bool {
        false
    }

    /// Hears what worker `_worker` did, at its end.
    fn hear_work(&self, _worker: usize, _work: Work) {}

    /// Hears that `_done` of `_all` journal entries are made again, before the search goes on.
    fn hear_rebuilding(&self, _done: u64, _all: u64) {}
}

/// A gate that does nothing.
#[derive(Clone, Copy, Debug, Drop)]
pub struct OpenGate;

impl Gate for OpenGate {
    fn before<R: Wait>(&self, _rt: &R, _worker: usize, _nth: u64) {}

    fn after<R: Wait>(&self, _rt: &R, _worker: usize, _nth: u64) {}
}
