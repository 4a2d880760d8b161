//! The worker.
ghost use Rattle.std.specs.Prelude.{◌≡◌, ◌<◌, ◌≤◌, ◌++◌, ◌∷◌, [], true, Some, slice_get, IfErr, IfSome, IfNone, OnOk, OnErr, length};
ghost use Rattle.hd_task.specs.Plans.{IsStateOf};
ghost use Rattle.hd_zobrist.specs.declared.owners.TheConstants.{MAX_WORKERS};
ghost use Rattle.hd_entries.specs.Holding.{parcel_of};
ghost use Rattle.hd_turns.specs.Worker.{empty_worker};
ghost use Rattle.hd_turns.specs.Calls.{with_parcel, after_releasing, after_sending, after_return, after_seeing, after_closing};

use crate::deque::push_front_reserved;
use crate::frontier::Frontier;
use crate::releasing::{WorkerNumber, place_all};
use hd_base::NoMemory;
use hd_entries::Parcels;
use hd_node::{Hashed, Outcome, Parcel};
use hd_task::Task;
use std::alloc::Global;
use std::collections::VecDeque;
use std::marker::Model;

/// A worker of a search, which owns the states that its number is the owner of.
///
/// None of its calls takes a lock or waits.
#[derive(Drop)]
pub struct Worker<'t> {
    pub(crate) alloc: Global,
    pub(crate) task: &'t Task,
    pub(crate) id: usize,
    pub(crate) workers: usize,
    pub(crate) frontier: Frontier<'t>,
    /// Of each outcome of the batch that was given last, as long as that is not numbered: how many
    /// expansions stand before it.
    pub(crate) given: Vec<u64>,
    pub(crate) outcomes: Vec<Outcome<'t>>,
    pub(crate) outbox: VecDeque<Parcel<'t>>,
    /// The bound that was seen last.
    pub(crate) seen: Option<u64>,
    /// The parcel that left the outbox last may come back.
    pub(crate) lent: bool,
}

impl<'t> Model for Worker<'t> {
    ghost use Rattle.std.specs.Prelude.{map};
    ghost use Rattle.hd_entries.specs.Holding.{parcel_of};
    ghost use Rattle.hd_turns.specs.Worker.{WorkerView};
    ghost use Rattle.hd_task.specs.contracts.task.Task as tasks;
    ghost use Rattle.hd_node.specs.contracts.batch.Outcome as outcome_rows;
    ghost use Rattle.std.specs.Coded.{codes};
    ghost use denote.Signature.{static_lft};

    ghost Value = { WorkerView };

    ghost coded = { Prim.hlevel (
      codes,
      tasks.the_row.coded,
      (outcome_rows.the_row static_lft).coded,
    ) };

    ghost use Rattle.std.specs.VecDeque.{deque_len, deque_capacity};
    ghost use Rattle.hd_worker.specs.Kept.{IsWorker};

    ghost view = { λ w. record {
      task = w.task.now;
      id = w.id;
      workers = w.workers;
      waiting = w.frontier.waiting;
      closed = w.frontier.closed;
      given = w.given.items;
      outcomes = w.outcomes.items;
      outbox = map parcel_of w.outbox.items;
      seen = w.seen;
      room = w.frontier.room;
      lent = w.lent;
    } };

    ghost invariant = { λ w. IsWorker w.task.now w.id w.workers w.frontier w.given.items
        w.outcomes.items w.outbox.items (deque_len w.outbox) (deque_capacity w.outbox) w.lent };
}

impl<'t> Worker<'t> {
    /// Returns the worker of this number, of so many, with nothing open and nothing closed.
    pub fn new(alloc: Global, task: &'t Task, id: usize, workers: usize) -> Worker<'t>
        requires within { id < workers }
        requires few { workers ≤ MAX_WORKERS }
        ensures { result ≡ empty_worker task.now id workers }
    {
        Worker {
            alloc,
            task,
            id,
            workers,
            frontier: Frontier::empty(alloc, task),
            given: Vec::new(alloc),
            outcomes: Vec::new(alloc),
            outbox: VecDeque::new(alloc),
            seen: None,
            lent: false,
        }
    }

    /// Adds `parcel` as the last open node.
    ///
    /// # Errors
    /// - The parcel, if there is no room for it; the worker is as it was.
    pub fn take(&mut self, parcel: Parcel<'t>) -> Result<(), (Parcel<'t>, NoMemory)>
        requires of_task { parcel.task ≡ self.old.task }
        ensures ok { OnOk result (self.new ≡ with_parcel (parcel_of parcel.entry) self.old) }
        ensures back { IfErr result (λ e. e.0 ≡ parcel.entry) }
        ensures err { OnErr result (self.new ≡ self.old) }
    {
        self.frontier.take(parcel)
    }

    /// Opens the `parcels` whose states this worker owns, and puts the others into the outbox. A
    /// batch has released them. It does not allocate: the calls of `next_batch` made the room.
    pub fn released(&mut self, parcels: Parcels<'t>)
        requires room { length parcels.kids ≤ self.old.room }
        requires of_task { parcels.task ≡ self.old.task }
        ensures { self.new ≡ after_releasing parcels.entry.kids self.old }
    {
        let who = WorkerNumber {
            id: self.id,
            workers: self.workers,
        };
        place_all(&mut self.frontier, &mut self.outbox, who, parcels);
    }

    /// Returns the first parcel of the outbox, if there is one. It does not allocate, and leaves
    /// room for the parcel to come back.
    pub fn next_out(&mut self) -> Option<Parcel<'t>>
        ensures sent { IfSome result (λ p. slice_get self.old.outbox 0 ≡ Some (parcel_of p)) }
        ensures of_task { IfSome result (λ p. p.task ≡ self.old.task) }
        ensures rest { IfSome result (λ _. self.new ≡ after_sending self.old) }
        ensures none { IfNone result (self.old.outbox ≡ []) }
        ensures same { IfNone result (self.new ≡ self.old) }
    {
        let parcel = self.outbox.pop_front()?;
        self.lent = true;
        Some(parcel)
    }

    /// Puts `parcel`, which left the outbox last, back as its first. It does not allocate.
    pub fn put_back(&mut self, parcel: Parcel<'t>)
        requires lent { self.old.lent ≡ true }
        requires of_task { parcel.task ≡ self.old.task }
        ensures { self.new ≡ after_return (parcel_of parcel.entry) self.old }
    {
        self.lent = false;
        push_front_reserved(&mut self.outbox, parcel);
    }

    /// Sets the bound that the worker sees from now on.
    pub fn see(&mut self, bound: Option<u64>)
        ensures { self.new ≡ after_seeing bound self.old }
    {
        self.seen = bound;
    }

    /// Returns how many states the worker has estimated, as far as their estimates have 64 bits.
    pub fn estimated(&self) -> u64 {
        self.frontier.estimated()
    }

    /// Returns how many expansions were of a state that had one already, which cost more: those of
    /// entries that were closed, and those that the worker has made.
    pub fn reopened(&self) -> u64 {
        self.frontier.reopened()
    }

    /// Adds entry `entry` of the book to the closed list, after the others.
    ///
    /// # Errors
    /// - `NoMemory`: there is no room for it; the worker is as it was.
    pub fn close(&mut self, entry: u64, state: &Hashed, cost: u64) -> Result<(), NoMemory>
        requires of_task { IsStateOf self.old.task state.now }
        ensures ok { OnOk result (self.new ≡ after_closing entry state.now cost self.old) }
        ensures err { OnErr result (self.new ≡ self.old) }
    {
        self.frontier.close(entry, state, cost)
    }
}
