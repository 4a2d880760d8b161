//! The open list.
ghost use Rattle.std.specs.Prelude.{◌≡◌, ◌++◌, [], ◌∷◌, None, length, slice_get, option_copied, IfSome, IfNone, IfErr, OnOk, OnErr};
ghost use Rattle.std.specs.List.{insert, remove};
ghost use Rattle.hd_open.specs.Totals.{IsBest};
ghost use Rattle.hd_open.specs.Open.{TakesBest, TakesAt, IsGapOf};

use crate::compacting::make_room;
use crate::counts::NodeCounts;
use crate::queue::OpenQueue;
use crate::slots::{
    Gap, Hint, append, arrival_by, best_arrival, cover, place_of, put_into, take_from,
};
use crate::waits::Waits;
use hd_base::NoMemory;
use std::alloc::Global;
use std::marker::Model;

/// Nodes that wait to be expanded, in the order in which they came.
#[derive(Drop)]
pub struct OpenList<T: Waits> {
    slots: Vec<Option<T>>,
    counts: NodeCounts,
    queue: OpenQueue,
    gap: Option<Gap>,
    /// The place that was told last, with its arrival, if nothing has happened since.
    hint: Option<Hint>,
}

impl<T: Waits> Model for OpenList<T> {
    ghost use Rattle.hd_open.specs.Open.{Open, open_code};

    ghost Value = { Open T };

    ghost coded = { open_code T.code };

    ghost use Rattle.hd_open.specs.Kept.{open_view, IsOpenListKept};

    ghost view = { λ o. open_view o.slots.items o.gap };

    ghost invariant = { λ o. IsOpenListKept T.total o.slots.items o.gap o.hint o.queue o.counts };
}

impl<T: Waits> OpenList<T> {
    /// Returns no nodes.
    pub fn empty(alloc: Global) -> OpenList<T>
        ensures nodes { result.nodes ≡ [] }
        ensures gap { result.gap ≡ None }
    {
        OpenList {
            slots: Vec::new(alloc),
            counts: NodeCounts::empty(alloc),
            queue: OpenQueue::empty(alloc),
            gap: None,
            hint: None,
        }
    }

    /// Returns how many nodes there are.
    pub fn len(&self) -> usize
        ensures { result ≡ length self.now.nodes }
    {
        self.counts.all
    }

    /// Adds `node` after the others.
    ///
    /// # Errors
    /// - The node, if there is no room for it; no other node has come or gone.
    pub fn push(&mut self, node: T) -> Result<(), (T, NoMemory)>
        ensures nodes { OnOk result (self.new.nodes ≡ self.old.nodes ++ node ∷ []) }
        ensures back { IfErr result (λ r. r.0 ≡ node) }
        ensures err { OnErr result (self.new.nodes ≡ self.old.nodes) }
        ensures gap { self.new.gap ≡ None }
    {
        self.gap = None;
        self.hint = None;
        if let Err(error) = make_room(&mut self.slots, &mut self.counts, &mut self.queue) {
            return Err((node, error));
        }
        let arrival = self.slots.len();
        let total = node.total();
        if let Err(error) = cover(self.slots.as_slice(), &mut self.counts) {
            return Err((node, error));
        }
        if let Err(error) = self.queue.add(total, arrival) {
            return Err((node, error));
        }
        append(&mut self.slots, &mut self.counts, node);
        Ok(())
    }

    /// Returns the place of the best node: that of the least total, the earliest of equal ones.
    /// Nodes without a total come last.
    pub fn best(&mut self) -> Option<usize>
        ensures best { IfSome result (λ k. IsBest T.total self.old.nodes k) }
        ensures none { IfNone result (self.old.nodes ≡ []) }
        ensures nodes { self.new.nodes ≡ self.old.nodes }
        ensures gap { self.new.gap ≡ None }
    {
        self.gap = None;
        let arrival = best_arrival(self.slots.as_slice(), &self.counts, &mut self.queue)?;
        let place = place_of(self.slots.as_slice(), &self.counts, arrival);
        self.hint = Some(Hint { place, arrival });
        Some(place)
    }

    /// Takes the best node out.
    pub fn take_best(&mut self) -> Option<T>
        ensures taken { IfSome result (λ n. TakesBest T.total self.old n self.new) }
        ensures none { IfNone result (self.old.nodes ≡ []) }
        ensures rest { IfNone result (self.new.nodes ≡ []) }
    {
        self.gap = None;
        self.hint = None;
        let arrival = best_arrival(self.slots.as_slice(), &self.counts, &mut self.queue)?;
        let (node, gap) = take_from(&mut self.slots, &mut self.counts, arrival);
        self.gap = Some(gap);
        Some(node)
    }

    /// Returns the node at a place in the order of arrival.
    pub fn get(&self, place: usize) -> Option<&T>
        ensures { option_copied result ≡ slice_get self.now.nodes place }
    {
        if place >= self.counts.all {
            return None;
        }
        let arrival = arrival_by(self.slots.as_slice(), &self.counts, self.hint, place);
        self.slots[arrival].as_ref()
    }

    /// Takes the node at a place out; nothing happens if there is none.
    pub fn remove(&mut self, place: usize) -> Option<T>
        ensures taken { IfSome result (λ n. TakesAt T.total self.old place n self.new) }
        ensures none { IfNone result (slice_get self.old.nodes place ≡ None) }
        ensures rest { IfNone result (self.new ≡ self.old) }
    {
        if place >= self.counts.all {
            return None;
        }
        let arrival = arrival_by(self.slots.as_slice(), &self.counts, self.hint, place);
        self.hint = None;
        let (node, gap) = take_from(&mut self.slots, &mut self.counts, arrival);
        self.gap = Some(gap);
        Some(node)
    }
}

impl<T: Waits + Drop> OpenList<T> {
    /// Puts a node back where one of the same total was taken out last. It does not allocate.
    pub fn put_back(&mut self, node: T)
        requires { IsGapOf (T.total node) self.old.gap }
        ensures nodes { IfSome self.old.gap (λ g. self.new.nodes
            ≡ insert self.old.nodes g.0 node) }
        ensures gap { self.new.gap ≡ None }
    {
        let Some(gap) = self.gap else {
            unreachable!();
        };
        self.gap = None;
        self.hint = None;
        put_into(&mut self.slots, &mut self.counts, gap.arrival, node);
    }
}
