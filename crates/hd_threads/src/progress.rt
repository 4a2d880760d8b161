//! What a worker's thread holds from turn to turn.
ghost use Rattle.std.specs.Prelude.{◌≡◌, ◌<◌, ◌≤◌, true, false, [], ◌∷◌, ◌++◌, IfOk, IfSome, IfNone};
ghost use Rattle.std.specs.VecDeque.{deque_len, deque_capacity};
ghost use Rattle.hd_book.specs.declared.ticket.TheConstants.{MAX_TICKETS};
ghost use Rattle.hd_threads.specs.declared.progress.TheConstants.{MOST_UNCOMMITTED, MOST_BYTES};
ghost use Rattle.hd_desk.specs.Passes.{IsOutside};
ghost use Rattle.hd_threads.specs.Outside.{IsOutsideAgain};

use crate::SharedBook;
use crate::halting::give_up;
use crate::pacing::{Ahead, Pace, Stride};
use crate::tally::Tally;
use crate::working::Held;
use hd_base::NoMemory;
use hd_book::MAX_TICKETS;
use hd_desk::{Lock, Pass};
use hd_node::MAX_OUTCOMES;
use std::alloc::Global;
use std::collections::VecDeque;
use std::sync::Wait;
use std::sync::ledger::Ledger;

/// How many outcomes of a worker are left uncommitted before it waits for the lock, or settles no
/// further node where it holds as many tickets as it may: two batches.
const MOST_UNCOMMITTED: usize = 2 * MAX_OUTCOMES;

/// How many bytes the states of what uncommitted outcomes lead to take, before the worker settles
/// no further node and commits: 16 MB.
const MOST_BYTES: usize = 16 * 1024 * 1024;

/// What a worker's thread holds from turn to turn: its tickets, the oldest first, how many of its
/// outcomes are not committed and how much they hold, how many nodes it has settled, what became of
/// those that are committed, whether it had something to do, and whether what came to it is
/// estimated.
///
/// It must be ended: it can't be let go.
#[must_use]
#[derive(Debug)]
pub struct Progress {
    held: VecDeque<Held>,
    uncommitted: usize,
    /// About how many bytes the states take that those outcomes lead to.
    bytes: usize,
    settled: u64,
    /// What became of the nodes of the batches that the book has taken.
    tally: Tally,
    /// How many expansions reopened a state, up to the last of these batches.
    reopened: u64,
    /// The last turn found nothing to do.
    idle: bool,
    /// The last turn did not estimate all that came to the worker.
    opening: bool,
    /// Up to which total it settles nodes.
    stride: Stride,
    /// The least totals of what it settled and what is not released yet.
    ahead: Ahead,
    ghost few: { deque_len held ≤ MAX_TICKETS },
    ghost room: { MAX_TICKETS ≤ deque_capacity held },
}

impl Progress {
    /// Returns the progress of a worker which has not begun, with room for its tickets.
    ///
    /// # Errors
    /// - `NoMemory`: there is no room for them.
    pub fn begin(alloc: Global) -> Result<Progress, NoMemory>
        ensures { IfOk result (λ p. p.held.items ≡ []) }
    {
        let held = VecDeque::with_capacity(alloc, MAX_TICKETS)?;
        Ok(Progress {
            held,
            uncommitted: 0,
            bytes: 0,
            settled: 0,
            tally: Tally::none(),
            reopened: 0,
            idle: false,
            opening: false,
            stride: Stride::new(),
            ahead: Ahead::new(),
        })
    }

    /// Reports whether the oldest ticket is worth a wait for the lock: the worker settles no node
    /// before it is redeemed, or had nothing else to do.
    pub(crate) fn waits(&self) -> bool
        ensures idle { self.now.idle ≡ true → result ≡ true }
        ensures full { deque_len self.now.held ≡ MAX_TICKETS
            → MOST_UNCOMMITTED ≤ self.now.uncommitted → result ≡ true }
        ensures much { deque_len self.now.held ≡ MAX_TICKETS
            → MOST_BYTES < self.now.bytes → result ≡ true }
    {
        self.idle || self.is_full()
    }

    /// Notes by `any` whether the worker did something beside its tickets in this turn.
    pub(crate) fn note(&mut self, any: bool)
        ensures { self.new.held ≡ self.old.held }
    {
        self.idle = !any;
    }

    /// Notes by `all` whether everything that came to the worker is estimated.
    pub(crate) fn note_opened(&mut self, all: bool)
        ensures { self.new.held ≡ self.old.held }
    {
        self.opening = !all;
    }

    /// Returns up to which total the worker settles nodes in this turn.
    pub(crate) fn stride(&self) -> Stride {
        self.stride
    }

    /// Tells the other workers the least total of the worker's open nodes, and finds its stride.
    pub(crate) fn keep_pace(&mut self, pace: &Pace, worker: usize, least: Option<u128>)
        ensures { self.new.held ≡ self.old.held }
    {
        self.stride.keep(pace, worker, least, &self.ahead);
    }

    /// Reports whether the worker is to look now whether the search is over: its last turn did
    /// nothing, or not all that came to it is estimated.
    pub(crate) fn asks_if_over(&self, busy: bool) -> bool {
        !busy || self.opening
    }

    /// Reports whether the worker did something beside its tickets in its last turn.
    pub(crate) fn worked(&self) -> bool
        ensures { self.now.idle ≡ false → result ≡ true }
    {
        !self.idle
    }

    /// Reports whether a batch is to be committed: there is room for its ticket, and there are so
    /// many outcomes, or some that hold much, or some and no node is open.
    pub(crate) fn is_due(&self, open: bool, together: usize) -> bool
        ensures { result ≡ true → deque_len self.now.held < MAX_TICKETS }
    {
        let enough = self.uncommitted >= together || !open || self.holds_much();
        self.held.len() < MAX_TICKETS && self.uncommitted > 0 && enough
    }

    /// Reports whether the worker is to wait for its tickets before it settles a further node: it
    /// holds as many as it may, and outcomes enough are uncommitted, or they hold much.
    pub(crate) fn is_full(&self) -> bool
        ensures tickets { result ≡ true → deque_len self.now.held ≡ MAX_TICKETS }
        ensures many { result ≡ true → self.now.bytes ≤ MOST_BYTES
            → MOST_UNCOMMITTED ≤ self.now.uncommitted }
        ensures full { deque_len self.now.held ≡ MAX_TICKETS
            → MOST_UNCOMMITTED ≤ self.now.uncommitted → result ≡ true }
        ensures much { deque_len self.now.held ≡ MAX_TICKETS
            → MOST_BYTES < self.now.bytes → result ≡ true }
    {
        self.held.len() == MAX_TICKETS && self.has_many()
    }

    /// Reports whether so many outcomes are uncommitted, or hold so much, that a batch is worth a
    /// wait for the lock.
    pub(crate) fn has_many(&self) -> bool
        ensures many { result ≡ true → self.now.bytes ≤ MOST_BYTES
            → MOST_UNCOMMITTED ≤ self.now.uncommitted }
        ensures few { result ≡ false → self.now.uncommitted < MOST_UNCOMMITTED }
        ensures little { result ≡ false → self.now.bytes ≤ MOST_BYTES }
    {
        self.uncommitted >= MOST_UNCOMMITTED || self.holds_much()
    }

    /// Reports whether uncommitted outcomes hold so much that they are to be committed before a
    /// further node is settled.
    pub(crate) fn holds_much(&self) -> bool
        ensures much { result ≡ true → MOST_BYTES < self.now.bytes }
        ensures little { result ≡ false → self.now.bytes ≤ MOST_BYTES }
    {
        self.bytes > MOST_BYTES
    }

    /// Reports whether the worker settles no further node now: it is first to wait for its tickets,
    /// or to commit what it has.
    pub(crate) fn settles_no_more(&self) -> bool
        ensures full { deque_len self.now.held ≡ MAX_TICKETS
            → MOST_UNCOMMITTED ≤ self.now.uncommitted → result ≡ true }
        ensures much { MOST_BYTES < self.now.bytes → result ≡ true }
    {
        self.is_full() || self.holds_much()
    }

    /// Counts one more node that became an outcome, and returns its number, from 1.
    pub(crate) fn count(&mut self) -> u64
        ensures { self.new.held ≡ self.old.held }
    {
        self.uncommitted = self.uncommitted.saturating_add(1);
        self.settled = self.settled.saturating_add(1);
        self.ahead.settled(self.stride.own());
        self.settled
    }

    /// Counts `bytes` more: those of the states that the last outcome leads to.
    pub(crate) fn hold_bytes(&mut self, bytes: usize)
        ensures { self.new.held ≡ self.old.held }
    {
        self.bytes = self.bytes.saturating_add(bytes);
    }

    /// Subtracts the outcomes of the next batch, which was made. If some are left behind it, what
    /// they hold is not counted any more.
    pub(crate) fn batched(&mut self)
        ensures { self.new.held ≡ self.old.held }
    {
        self.uncommitted = self.uncommitted.saturating_sub(MAX_OUTCOMES);
        self.bytes = 0;
    }

    /// Reports whether the worker holds tickets.
    pub(crate) fn holds_tickets(&self) -> bool {
        !self.held.is_empty()
    }

    /// Returns what became of the nodes that are committed, and how many expansions reopened a
    /// state up to then.
    pub(crate) fn committed(&self) -> (Tally, u64) {
        (self.tally, self.reopened)
    }

    /// Notes that so many expansions have reopened a state up to the last batch that was taken.
    pub(crate) fn note_reopened(&mut self, reopened: u64)
        ensures { self.new.held ≡ self.old.held }
    {
        self.reopened = reopened;
    }

    /// Appends `ticket` as the youngest, and counts the nodes of its batch.
    pub(crate) fn hold(&mut self, ticket: Held)
        requires { deque_len self.old.held < MAX_TICKETS }
        ensures { self.new.held.items ≡ self.old.held.items ++ ticket ∷ [] }
    {
        self.ahead.batched(ticket.kids > 0, self.uncommitted > 0);
        self.tally = self.tally.plus(ticket.tally);
        self.held.push_back_reserved(ticket);
    }

    /// Returns the oldest ticket, which leaves.
    pub(crate) fn oldest(&mut self) -> Option<Held>
        ensures ticket { IfSome result (λ h. self.old.held.items ≡ h ∷ self.new.held.items) }
        ensures room { IfSome result (λ _. deque_len self.new.held < MAX_TICKETS) }
        ensures none { IfNone result (self.new.held.items ≡ self.old.held.items) }
    {
        self.held.pop_front()
    }

    /// Notes that what the oldest ticket releases is released.
    pub(crate) fn released(&mut self)
        ensures { self.new.held ≡ self.old.held }
    {
        self.ahead.released();
    }

    /// Puts `ticket` back as the oldest.
    pub(crate) fn keep(&mut self, ticket: Held)
        requires { deque_len self.old.held < MAX_TICKETS }
        ensures { self.new.held.items ≡ ticket ∷ self.old.held.items }
    {
        self.held.push_front_reserved(ticket);
    }
}

/// Ends what a worker's thread holds: each ticket is given up, with which the book is halted.
pub(crate) fn end<'t, L: Ledger, A: Ledger, R: Wait>(
    rt: &R,
    lock: &Lock<SharedBook<'t, L, A>>,
    pass: &mut Pass<SharedBook<'t, L, A>>,
    progress: Progress,
)
    requires { IsOutside lock.now.place pass.old }
    ensures pass { IsOutsideAgain lock.now.place pass.old pass.new }
{
    let Progress {
        mut held,
        uncommitted: _,
        bytes: _,
        settled: _,
        tally: _,
        reopened: _,
        idle: _,
        opening: _,
        stride: _,
        ahead: _,
    } = progress;
    while let Some(oldest) = held.pop_front() {
        let Held {
            ticket,
            kids: _,
            tally: _,
        } = oldest;
        give_up(rt, lock, pass, ticket);
    }
    held.destroy_empty();
}
