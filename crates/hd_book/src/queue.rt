//! The batches with entries that are not acknowledged, and the group of them that is out.
ghost use Rattle.std.specs.Prelude.{◌≡◌, ◌+◌, ◌<◌, ◌≤◌, ◌^◌, true, is_some, length, take, take_while, IfSome, OnOk};
ghost use Rattle.hd_book.specs.Queue.{end_of, entries_in_all, group_end, is_out, is_idle, is_due, are_acknowledged, queue_from, with_batch, with_group, group_next, without_group, with_none_out, fits_group};

use std::alloc::{AllocError, Global};
use std::collections::VecDeque;
use std::marker::Model;
use std::ops::Range;

/// How many entries a group has at most.
pub const MAX_GROUP: u64 = 65_536;

/// The batches with entries that are not acknowledged, in the order of their commits.
#[derive(Debug, Drop)]
pub(crate) struct BatchQueue {
    /// How many entries are acknowledged.
    acknowledged: u64,
    /// Where each batch after them ends.
    ends: VecDeque<u64>,
    /// How many of these are in the group that is out; 0 if none is.
    out: usize,
}

impl Model for BatchQueue {
    ghost use Rattle.std.specs.Prelude.{nat_lt};
    ghost use Rattle.std.specs.VecDeque.{deque_len, deque_capacity};
    ghost use Rattle.hd_book.specs.Queue.{Queued, QueueView, IsQueue};

    ghost Value = { Queued };

    ghost view = { λ q. record {
      batches = record { acknowledged = q.acknowledged; ends = q.ends.items; out = q.out };
      room = nat_lt (deque_len q.ends) (deque_capacity q.ends);
    } };

    ghost invariant = { λ q. IsQueue (record {
      acknowledged = q.acknowledged;
      ends = q.ends.items;
      out = q.out;
    }) };
}

/// Returns where the last of the first `count` batches ends, or `from` if `count` is 0.
fn end_among(ends: &VecDeque<u64>, count: usize, from: u64) -> u64
    requires { count ≤ length ends.now.items }
    ensures { result ≡ end_of from (take count ends.now.items) }
{
    if count == 0 {
        return from;
    }
    ends[count - 1]
}

/// Returns how many batches, from the first on, end within a group of the entries from `from` on.
fn fitting_among(ends: &VecDeque<u64>, from: u64) -> usize
    ensures { result ≡ length (take_while (fits_group from) ends.now.items) }
{
    ends.iter()
        .take_while(|end| end.saturating_sub(from) <= MAX_GROUP)
        .count()
}

impl BatchQueue {
    /// Returns the queue in which so many entries are acknowledged, and none wait. It takes no
    /// memory.
    pub(crate) fn new(alloc: Global, acknowledged: u64) -> BatchQueue
        ensures { result.batches ≡ queue_from acknowledged }
    {
        BatchQueue {
            acknowledged,
            ends: VecDeque::new(alloc),
            out: 0,
        }
    }

    /// Returns how many entries are acknowledged.
    pub(crate) fn acknowledged(&self) -> u64
        ensures count { result ≡ self.now.batches.acknowledged }
        ensures few { result ≤ entries_in_all self.now.batches }
    {
        self.acknowledged
    }

    /// Returns how many entries there are in all.
    pub(crate) fn entries(&self) -> u64
        ensures { result ≡ entries_in_all self.now.batches }
    {
        end_among(&self.ends, self.ends.len(), self.acknowledged)
    }

    /// Reports whether nothing waits and no group is out.
    pub(crate) fn is_idle(&self) -> bool
        ensures { result ≡ is_idle self.now.batches }
    {
        self.ends.is_empty()
    }

    /// Reports whether these entries are acknowledged; none always are.
    pub(crate) fn are_acknowledged(&self, first: u64, end: u64) -> bool
        ensures { result ≡ are_acknowledged self.now.batches first end }
    {
        first == end || end <= self.acknowledged
    }

    /// Makes room for one more batch.
    ///
    /// # Errors
    /// - Lack of memory: nothing has changed.
    pub(crate) fn reserve(&mut self) -> Result<(), AllocError>
        ensures batches { self.new.batches ≡ self.old.batches }
        ensures room { OnOk result (self.new.room ≡ true) }
    {
        self.ends.reserve(1)?;
        Ok(())
    }

    /// Adds one more batch of so many entries; there is room for it.
    pub(crate) fn push(&mut self, count: u64)
        requires room { self.old.room ≡ true }
        requires few { count ≤ MAX_GROUP }
        requires fits { entries_in_all self.old.batches + count < 2 ^ 64 }
        ensures { self.new.batches ≡ with_batch count self.old.batches }
    {
        if count == 0 {
            return;
        }
        let end = self.entries() + count;
        self.ends.push_back_reserved(end);
    }

    /// Returns where the group that is out ends.
    fn group_end(&self) -> u64
        ensures { result ≡ group_end self.now.batches }
    {
        end_among(&self.ends, self.out, self.acknowledged)
    }

    /// Puts the next group out and returns it, if there is one and none is out.
    /// It is whole batches from the oldest on, as many as fit together.
    pub(crate) fn take(&mut self) -> Option<Range<u64>>
        ensures group { result ≡ group_next self.old.batches }
        ensures some { IfSome result (λ g. g.start < g.end) }
        ensures few { IfSome result (λ g. g.end ≤ g.start + MAX_GROUP) }
        ensures within { IfSome result (λ g. g.end ≤ entries_in_all self.old.batches) }
        ensures taken { self.new.batches ≡ with_group self.old.batches }
        ensures due { is_some result ≡ is_due self.old.batches }
    {
        let out = self.out;
        if out > 0 {
            return None;
        }
        let count = fitting_among(&self.ends, self.acknowledged);
        if count == 0 {
            return None;
        }
        self.out = count;
        let end = end_among(&self.ends, count, self.acknowledged);
        Some(self.acknowledged..end)
    }

    /// Reports whether the group that is out has these entries.
    pub(crate) fn is_out(&self, first: u64, end: u64) -> bool
        ensures { result ≡ is_out self.now.batches first end }
    {
        let group_end = self.group_end();
        self.out > 0 && first == self.acknowledged && end == group_end
    }

    /// Acknowledges the group that is out.
    pub(crate) fn acknowledge(&mut self)
        ensures { self.new.batches ≡ without_group self.old.batches }
    {
        self.acknowledged = end_among(&self.ends, self.out, self.acknowledged);
        let rest = self.ends.len() - self.out;
        self.ends.rotate_left(self.out);
        self.ends.truncate(rest);
        self.out = 0;
    }

    /// Hands back the group that is out: its batches wait again.
    pub(crate) fn hand_back(&mut self)
        ensures { self.new.batches ≡ with_none_out self.old.batches }
    {
        self.out = 0;
    }
}
