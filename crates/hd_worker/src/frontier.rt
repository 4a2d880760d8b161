//! Open nodes and the closed list.
ghost use Rattle.std.specs.Prelude.{◌≡◌, ◌+◌, ◌-◌, ◌<◌, ◌≤◌, ◌^◌, ℕ, [], length, nat_lt, slice_index, IfOk, IfErr, IfSome, IfNone, OnOk, OnErr};
ghost use Rattle.hd_task.specs.Plans.{IsStateOf};
ghost use Rattle.hd_entries.specs.Holding.{parcel_of};
ghost use Rattle.hd_open.specs.Totals.{IsBest};
ghost use Rattle.hd_worker.specs.Least.{IsLeastTotal};
ghost use Rattle.hd_worker.specs.Lookup.{IsLookupOf};
ghost use Rattle.hd_turns.specs.Totals.{total_at};
ghost use Rattle.hd_worker.specs.Frontier.{empty_frontier, arrived, received, with_room, closed_too, all_numbered, SettlesAt, SettlesBest};

use crate::arriving::{open_all, open_some};
use crate::deque::{push_beside, push_reserved, reserve_more};
use crate::judging::settle_taken;
use crate::lookup::Lookup;
use crate::node::WaitingNode;
use hd_base::NoMemory;
use hd_closed::ClosedList;
use hd_hmax::Hmax;
use hd_node::{By, Hashed, Outcome, Parcel};
use hd_open::{OpenList, Waits};
use hd_pack::{Packed, SpareBlocks};
use hd_task::Task;
use std::alloc::Global;
use std::collections::VecDeque;
use std::marker::Model;

/// How many blocks of states are kept at most: as many as some batches release.
const KEPT_BLOCKS: usize = 1024;

/// The open nodes and the closed list of a worker.
#[derive(Drop)]
pub(crate) struct Frontier<'t> {
    alloc: Global,
    task: &'t Task,
    known: ClosedList<'t>,
    nodes: OpenList<WaitingNode>,
    /// Blocks of states that are in the closed list now.
    spare: SpareBlocks,
    /// Parcels that came after the open nodes, and are not estimated yet.
    fresh: VecDeque<Parcel<'t>>,
    /// How many parcels may still come without memory.
    room: usize,
}

impl<'t> Model for Frontier<'t> {
    ghost use Rattle.hd_worker.specs.Frontier.{FrontierView};
    ghost use Rattle.hd_task.specs.contracts.task.Task as tasks;
    ghost use Rattle.std.specs.Coded.{codes};

    ghost Value = { FrontierView };

    ghost coded = { Prim.hlevel (codes, tasks.the_row.coded) };

    ghost use Rattle.std.specs.VecDeque.{deque_len, deque_capacity};
    ghost use Rattle.hd_worker.specs.Nodes.{waiting_by, IsFrontier};

    ghost view = { λ f. record {
      task = f.task.now;
      waiting = waiting_by f.known.states f.nodes.nodes f.fresh.items;
      closed = f.known.closed;
      room = f.room;
    } };

    ghost invariant = { λ f. IsFrontier f.task.now f.known f.nodes.nodes f.fresh.items
        (deque_len f.fresh) (deque_capacity f.fresh) f.room };
}

impl<'t> Frontier<'t> {
    /// Returns no nodes and no expansions.
    pub(crate) fn empty(alloc: Global, task: &'t Task) -> Frontier<'t>
        ensures { result ≡ empty_frontier task.now }
    {
        Frontier {
            alloc,
            task,
            known: ClosedList::empty(alloc, task),
            nodes: OpenList::empty(alloc),
            spare: SpareBlocks::none(alloc, KEPT_BLOCKS),
            fresh: VecDeque::new(alloc),
            room: 0,
        }
    }

    /// Returns the task.
    pub(crate) fn task(&self) -> &'t Task
        ensures { result.now ≡ self.now.task }
    {
        self.task
    }

    /// Returns how many parcels may still come without memory.
    pub(crate) fn room(&self) -> usize
        ensures { result ≡ self.now.room }
    {
        self.room
    }

    /// Reports whether a node is open.
    pub(crate) fn has_open(&self) -> bool
        ensures { result ≡ nat_lt 0 (length self.now.waiting) }
    {
        self.nodes.len() > 0 || !self.fresh.is_empty()
    }

    /// Adds `parcel` as the last open node.
    ///
    /// # Errors
    /// - The parcel, if there is no room for it.
    pub(crate) fn take(&mut self, parcel: Parcel<'t>) -> Result<(), (Parcel<'t>, NoMemory)>
        requires of_task { parcel.task ≡ self.old.task }
        ensures ok { OnOk result (self.new ≡ arrived (parcel_of parcel.entry) self.old) }
        ensures back { IfErr result (λ e. e.0 ≡ parcel.entry) }
        ensures err { OnErr result (self.new ≡ self.old) }
    {
        push_beside(&mut self.fresh, self.room, parcel)
    }

    /// Adds `parcel` as the last open node, in room that was kept for it.
    pub(crate) fn receive(&mut self, parcel: Parcel<'t>)
        requires of_task { parcel.task ≡ self.old.task }
        requires room { 0 < self.old.room }
        ensures { self.new ≡ received (parcel_of parcel.entry) self.old }
    {
        self.room -= 1;
        push_reserved(&mut self.fresh, parcel);
    }

    /// Makes room for so many parcels more.
    ///
    /// # Errors
    /// - `NoMemory`: there is none.
    pub(crate) fn reserve(&mut self, more: usize) -> Result<(), NoMemory>
        ensures ok { OnOk result (self.new ≡ with_room (self.old.room + more) self.old) }
        ensures err { OnErr result (self.new ≡ self.old) }
    {
        reserve_more(&mut self.fresh, self.room, more)?;
        // So that it is known that the sum fits.
        let _capacity = self.fresh.capacity();
        self.room += more;
        Ok(())
    }

    /// Keeps the block of a state that is not needed any more. It does not allocate.
    pub(crate) fn keep(&mut self, state: Packed)
        ensures { self.new ≡ self.old }
    {
        self.spare.keep(state);
    }

    /// Does without room for so many parcels.
    pub(crate) fn give_up(&mut self, less: usize)
        requires { less ≤ self.old.room }
        ensures { self.new ≡ with_room (self.old.room - less) self.old }
    {
        self.room -= less;
    }

    /// Estimates parcels that came after the open nodes, so many of them at most: whether all that
    /// are open are estimated now.
    ///
    /// # Errors
    /// - `NoMemory`: there is no room for the estimates.
    pub(crate) fn open_some(
        &mut self,
        estimates: &mut Hmax<'t>,
        most: usize,
    ) -> Result<bool, NoMemory>
        requires { estimates.old.task ≡ self.old.task }
        ensures same { self.new ≡ self.old }
        ensures estimates { estimates.new.task ≡ estimates.old.task }
    {
        open_some(
            &mut self.spare,
            &mut self.known,
            &mut self.nodes,
            &mut self.fresh,
            self.room,
            estimates,
            most,
        )
    }

    /// Returns the place of the open node of the least cost plus estimate, the earliest of equal
    /// ones; none where nothing is open.
    ///
    /// # Errors
    /// - `NoMemory`: there is no room for the estimates.
    pub(crate) fn best(&mut self, estimates: &mut Hmax<'t>) -> Result<Option<usize>, NoMemory>
        requires { estimates.old.task ≡ self.old.task }
        ensures same { self.new ≡ self.old }
        ensures estimates { estimates.new.task ≡ estimates.old.task }
        ensures best { IfOk result (λ r. IfSome r
            (IsBest (total_at self.old.task) self.old.waiting)) }
        ensures none { IfOk result (λ r. IfNone r (self.old.waiting ≡ [])) }
    {
        open_all(
            &mut self.spare,
            &mut self.known,
            &mut self.nodes,
            &mut self.fresh,
            self.room,
            estimates,
        )?;
        Ok(self.nodes.best())
    }

    /// Returns the least cost plus estimate of the open nodes; none where each estimate is
    /// infinite, or nothing is open.
    ///
    /// # Errors
    /// - `NoMemory`: there is no room for the estimates.
    pub(crate) fn least(&mut self, estimates: &mut Hmax<'t>) -> Result<Option<u128>, NoMemory>
        requires { estimates.old.task ≡ self.old.task }
        ensures same { self.new ≡ self.old }
        ensures estimates { estimates.new.task ≡ estimates.old.task }
        ensures least { IfOk result (IsLeastTotal (total_at self.old.task) self.old.waiting) }
    {
        open_all(
            &mut self.spare,
            &mut self.known,
            &mut self.nodes,
            &mut self.fresh,
            self.room,
            estimates,
        )?;
        let Some(place) = self.nodes.best() else {
            return Ok(None);
        };
        let Some(node) = self.nodes.get(place) else {
            return Ok(None);
        };
        Ok(node.total())
    }

    /// Settles the open node at a place, if there is one. Its expansion is named by the place that
    /// its outcome has.
    ///
    /// # Errors
    /// - `NoMemory`: there is no room for it; the node is open again.
    pub(crate) fn settle_at(
        &mut self,
        lookup: &mut Lookup<'t>,
        seen: Option<u64>,
        place: usize,
        pick: usize,
    ) -> Result<Option<Outcome<'t>>, NoMemory>
        requires { IsLookupOf self.old.task lookup.old }
        ensures lookup { IsLookupOf self.old.task lookup.new }
        ensures settles { IfOk result (λ o.
            SettlesAt self.old.task seen place pick self.old o self.new) }
        ensures err { OnErr result (self.new ≡ self.old) }
    {
        open_all(
            &mut self.spare,
            &mut self.known,
            &mut self.nodes,
            &mut self.fresh,
            self.room,
            &mut lookup.hmax,
        )?;
        self.known.reserve()?;
        let Some(node) = self.nodes.remove(pick) else {
            return Ok(None);
        };
        let outcome = settle_taken(
            &mut self.spare,
            self.task,
            &mut self.known,
            &mut self.nodes,
            lookup,
            seen,
            place,
            node,
        )?;
        Ok(Some(outcome))
    }

    /// Settles the open node of the least cost plus estimate, the earliest of equal ones, if there
    /// is one.
    ///
    /// # Errors
    /// - `NoMemory`: there is no room for it; the node is open again.
    pub(crate) fn settle_best(
        &mut self,
        lookup: &mut Lookup<'t>,
        seen: Option<u64>,
        place: usize,
    ) -> Result<Option<Outcome<'t>>, NoMemory>
        requires { IsLookupOf self.old.task lookup.old }
        ensures lookup { IsLookupOf self.old.task lookup.new }
        ensures settles { IfOk result (λ o.
            SettlesBest self.old.task seen place self.old o self.new) }
        ensures err { OnErr result (self.new ≡ self.old) }
    {
        open_all(
            &mut self.spare,
            &mut self.known,
            &mut self.nodes,
            &mut self.fresh,
            self.room,
            &mut lookup.hmax,
        )?;
        self.known.reserve()?;
        let Some(node) = self.nodes.take_best() else {
            return Ok(None);
        };
        let outcome = settle_taken(
            &mut self.spare,
            self.task,
            &mut self.known,
            &mut self.nodes,
            lookup,
            seen,
            place,
            node,
        )?;
        Ok(Some(outcome))
    }

    /// Adds entry `entry`, which expands `state` at `cost`, to the closed list.
    ///
    /// # Errors
    /// - `NoMemory`: there is no room for it.
    pub(crate) fn close(&mut self, entry: u64, state: &Hashed, cost: u64) -> Result<(), NoMemory>
        requires { IsStateOf self.old.task state.now }
        ensures ok { OnOk result (self.new ≡ closed_too entry state.now cost self.old) }
        ensures err { OnErr result (self.new ≡ self.old) }
    {
        self.known.reserve()?;
        let place = self.known.place_of(self.alloc, state)?;
        self.known.close(place, By::Entry(entry), cost);
        Ok(())
    }

    /// Returns how many states have an estimate that is kept.
    pub(crate) fn estimated(&self) -> u64 {
        self.known.estimated()
    }

    /// Returns how many expansions were of a state that had one already, which cost more.
    pub(crate) fn reopened(&self) -> u64 {
        self.known.reopened()
    }

    /// Renames all expansions, once the batch that was given last is numbered from `first` on.
    pub(crate) fn number(&mut self, first: u64, given: &[u64])
        requires { (k : ℕ) → first + slice_index given.now k < 2 ^ 64 }
        ensures { self.new ≡ all_numbered first given.now self.old }
    {
        self.known.number(first, given);
    }
}
