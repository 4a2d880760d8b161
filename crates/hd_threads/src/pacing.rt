//! How workers keep pace with one another, and with the journal.
//!
//! Whoever has open nodes of a greater cost plus estimate than another worker would settle nodes
//! that a search on one thread never meets. So it settles none of them while the other goes on. The
//! same holds of nodes whose batches are not acknowledged yet: what they lead to has no less cost
//! plus estimate than they have, and maybe less than what is open. Nothing rests on this but how
//! many nodes a search expands.
use hd_base::NoMemory;
use hd_book::MAX_TICKETS;
use std::alloc::Global;
use std::sync::atomic::{AtomicU64, Ordering};

/// What stands for no open node.
const NOTHING: u64 = u64::MAX;

/// The part of the least total by which a node's total may exceed it: one of so many. It lets tasks
/// of finely graded costs keep all workers busy.
const SLACK: u64 = 64;

/// How many turns in a row a worker is held back by others, at most, while the least total stays.
const MOST_HELD: u32 = 256;

/// How many turns in a row a worker is held back by its own batches, at most, while the least total
/// of these stays. In memory they are acknowledged before; a file takes longer, and the worker then
/// goes on.
const MOST_HELD_BY_BATCHES: u32 = 40;

/// The least cost plus estimate of each worker's open nodes, as it told last.
#[derive(Debug, Drop)]
pub struct Pace {
    leasts: Vec<AtomicU64>,
}

impl Pace {
    /// Returns the pace of `workers` workers, none of which has an open node.
    ///
    /// # Errors
    /// - `NoMemory`: there is no room for a word for each.
    pub fn new(alloc: Global, workers: usize) -> Result<Pace, NoMemory> {
        let mut leasts = Vec::with_capacity(alloc, workers)?;
        for _worker in 0..workers {
            leasts.push(AtomicU64::new(NOTHING))?;
        }
        Ok(Pace { leasts })
    }

    /// Notes the least total of a worker's open nodes.
    fn tell(&self, worker: usize, least: u64) {
        if let Some(word) = self.leasts.get(worker) {
            word.store(least, Ordering::Relaxed);
        }
    }

    /// Returns the least total that another worker than this one told last.
    fn least_beside(&self, worker: usize) -> u64 {
        let mut least = NOTHING;
        for (other, word) in self.leasts.iter().enumerate() {
            if other != worker {
                least = least.min(word.load(Ordering::Relaxed));
            }
        }
        least
    }
}

/// The least totals of what a worker settled and what is not released yet: of its outcomes without
/// a ticket, and of each batch with a ticket, the oldest first.
#[derive(Clone, Copy, Debug, Drop)]
pub(crate) struct Ahead {
    outcomes: u64,
    batches: [u64; MAX_TICKETS],
    count: usize,
}

impl Ahead {
    /// Returns no outcomes and no batches.
    pub(crate) fn new() -> Ahead {
        Ahead {
            outcomes: NOTHING,
            batches: [NOTHING; MAX_TICKETS],
            count: 0,
        }
    }

    /// Notes that a node is settled whose total is no less than `least`.
    pub(crate) fn settled(&mut self, least: u64) {
        self.outcomes = self.outcomes.min(least);
    }

    /// Notes that a batch has a ticket; it leads to something if `leads` says so. If outcomes are
    /// `left`, they keep the least total.
    pub(crate) fn batched(&mut self, leads: bool, left: bool) {
        let least = if leads { self.outcomes } else { NOTHING };
        if let Some(batch) = self.batches.get_mut(self.count) {
            *batch = least;
            self.count += 1;
        }
        if !left {
            self.outcomes = NOTHING;
        }
    }

    /// Notes that what the oldest batch leads to is released.
    pub(crate) fn released(&mut self) {
        let [_, second, third, fourth] = self.batches;
        self.batches = [second, third, fourth, NOTHING];
        self.count = self.count.saturating_sub(1);
    }

    /// Returns the least total of all.
    fn least(&self) -> u64 {
        let [first, second, third, fourth] = self.batches;
        let batches = first.min(second).min(third).min(fourth);
        self.outcomes.min(batches)
    }
}

/// For how long a worker was held back, while a least total stayed.
#[derive(Clone, Copy, Debug, Drop)]
struct Patience {
    /// The least total, when it was held back last.
    seen: u64,
    /// How many turns in a row it was held back while that stayed.
    held: u32,
}

impl Patience {
    /// Returns the patience of a worker that was never held back.
    fn new() -> Patience {
        Patience {
            seen: NOTHING,
            held: 0,
        }
    }

    /// Counts a turn, in which `settles` says whether the worker's best open node is near the least
    /// total `least`. Returns whether it was held back for more than `most` turns, while that
    /// stayed.
    fn ends(&mut self, settles: bool, least: u64, most: u32) -> bool {
        if settles {
            self.held = 0;
        } else if least != self.seen {
            self.seen = least;
            self.held = 1;
        } else {
            self.held = self.held.saturating_add(1);
        }
        self.held > most
    }

    /// Begins to count again.
    fn begin(&mut self) {
        self.held = 0;
    }
}

/// Up to which total a worker settles nodes, and for how long it was held back.
#[derive(Clone, Copy, Debug, Drop)]
pub(crate) struct Stride {
    /// The least total of its open nodes when the turn began.
    own: u64,
    /// It settles no node of a greater total, if there is a limit.
    most: Option<u64>,
    /// It settles no node in this turn: its batches may lead to better ones.
    rests: bool,
    others: Patience,
    batches: Patience,
}

/// Returns the greatest total that is near the least one.
fn most_near(least: u64) -> u64 {
    least.saturating_add(least / SLACK)
}

impl Stride {
    /// Returns the stride of a worker that was never held back.
    pub(crate) fn new() -> Stride {
        Stride {
            own: NOTHING,
            most: None,
            rests: false,
            others: Patience::new(),
            batches: Patience::new(),
        }
    }

    /// Reports whether the worker settles no node in this turn, so that its batches come before.
    pub(crate) fn rests(&self) -> bool {
        self.rests
    }

    /// Reports whether there is a total up to which the worker settles nodes.
    pub(crate) fn has_limit(&self) -> bool {
        self.most.is_some()
    }

    /// Reports whether a worker settles a node of this total now.
    pub(crate) fn reaches(&self, total: u128) -> bool {
        match self.most {
            Some(most) => total <= most as u128,
            None => true,
        }
    }

    /// Returns the least total of the worker's open nodes when the turn began.
    pub(crate) fn own(&self) -> u64 {
        self.own
    }

    /// Tells the least total of a worker's open nodes, and notes which nodes it settles in this
    /// turn, by what others have open and what its own batches lead to.
    pub(crate) fn keep(&mut self, pace: &Pace, worker: usize, least: Option<u128>, ahead: &Ahead) {
        self.own = match least {
            Some(total) => u64::try_from(total).unwrap_or(NOTHING),
            None => NOTHING,
        };
        pace.tell(worker, self.own);
        self.keep_with(pace.least_beside(worker));
        self.rest_for(ahead.least());
    }

    /// Notes up to which total the worker settles nodes, where `others` is the least total of the
    /// other workers: no limit if these have no open nodes, or it was held back for long.
    fn keep_with(&mut self, others: u64) {
        let least = self.own.min(others);
        let most = most_near(least);
        let is_over = self.others.ends(self.own <= most, least, MOST_HELD);
        let is_free = others == NOTHING || is_over;
        self.most = if is_free { None } else { Some(most) };
        if is_free {
            self.others.begin();
        }
    }

    /// Notes whether the worker settles no node in this turn, where `ahead` is the least total of
    /// what its batches lead to. Once it was held back for long, it goes on until that changes.
    fn rest_for(&mut self, ahead: u64) {
        let is_near = self.own == NOTHING || self.own <= most_near(ahead);
        let is_over = self.batches.ends(is_near, ahead, MOST_HELD_BY_BATCHES);
        self.rests = !is_near && !is_over;
    }
}
