//! Nodes that are moved together where few of the slots hold one, so that slots which nodes have
//! left are used again.
ghost use Rattle.std.specs.Prelude.{◌≡◌, ◌+◌, ◌*◌, ◌<◌, ◌≤◌, ℕ, None, length, min, take, slice_index_or, IfOk, OnOk, vec_len, vec_capacity};
ghost use Rattle.hd_open.specs.Live.{live, packed};
ghost use Rattle.hd_open.specs.Marks.{slot_bit, AreMarks};
ghost use Rattle.hd_open.specs.Counts.{start_of, part_at, AreCounts};
ghost use Rattle.hd_open.specs.Kept.{IsOpenListKept};
ghost use Rattle.hd_open.specs.declared.counts.TheConstants.{GROUP};
ghost use Rattle.hd_open.specs.Queue.{IsQueueOrderly, IsSingle, IsBelow, IsQueued};

use crate::counts::{GROUP, NodeCounts, start_of};
use crate::queue::OpenQueue;
use crate::waits::Waits;
use hd_base::NoMemory;
use std::alloc::Global;

/// Returns the marks of so many slots that all hold a node.
fn full_marks(alloc: Global, count: usize) -> Result<Vec<u64>, NoMemory>
    ensures marked { IfOk result (λ w. (i : ℕ) → i < count → slot_bit w.items i ≡ 1) }
    ensures unmarked { IfOk result (λ w. (i : ℕ) → count ≤ i → slot_bit w.items i ≡ 0) }
    ensures covering { IfOk result (λ w. count ≤ GROUP * length w.items) }
{
    let mut words = Vec::from_elem(alloc, u64::MAX, count / GROUP)?;
    words.push((1 << (count % GROUP)) - 1)?;
    Ok(words)
}

/// Returns the parts that count so many slots which all hold a node.
fn full_parts(alloc: Global, count: usize) -> Result<Vec<usize>, NoMemory>
    ensures parts { IfOk result (λ p. (end : ℕ) → 0 < end → end ≤ length p.items
        → GROUP * start_of end + part_at p.items end ≡ min (GROUP * end) count) }
    ensures covering { IfOk result (λ p. count ≤ GROUP * length p.items) }
{
    let mut parts = Vec::new(alloc);
    let whole = count / GROUP;
    for group in 0..whole {
        let end = group + 1;
        parts.push(GROUP * (end - start_of(end)))?;
    }
    parts.push(count - GROUP * start_of(whole + 1))?;
    Ok(parts)
}

/// Returns what counts the nodes of these slots, once they are moved together.
fn packed_counts<T>(
    slots: &[Option<T>],
    alloc: Global,
    count: usize,
) -> Result<NodeCounts, NoMemory>
    requires { count ≡ length (live slots.now) }
    ensures marked { IfOk result (λ c. AreMarks (packed slots.now) c.marks.items) }
    ensures counted { IfOk result (λ c. AreCounts (packed slots.now) c) }
{
    let marks = full_marks(alloc, count)?;
    let parts = full_parts(alloc, count)?;
    Ok(NodeCounts {
        marks,
        parts,
        all: count,
    })
}

/// Returns a queue of the nodes of these slots, by the arrivals that they have once they are moved
/// together.
fn packed_queue<T: Waits>(slots: &[Option<T>], alloc: Global) -> Result<OpenQueue, NoMemory>
    ensures queued { IfOk result (IsQueued T.total (packed slots.now)) }
    ensures orderly { IfOk result IsQueueOrderly }
    ensures single { IfOk result IsSingle }
    ensures latest { IfOk result (λ q. IsBelow q (length (packed slots.now))) }
{
    let mut queue = OpenQueue::empty(alloc);
    let mut arrival = 0;
    for slot in slots {
        if let Some(node) = slot {
            queue.add(node.total(), arrival)?;
            arrival += 1;
        }
    }
    Ok(queue)
}

/// Moves the nodes to the first slots, in their order, and reports how many they are.
fn gather<T>(slots: &mut Vec<Option<T>>) -> usize
    ensures within { result ≤ length slots.new.items }
    ensures first { take result slots.new.items ≡ packed slots.old.items }
    ensures empty { (i : ℕ) → result ≤ i → slice_index_or slots.new.items i None ≡ None }
{
    let mut to = 0;
    for from in 0..slots.len() {
        if slots[from].is_some() {
            slots.swap(to, from);
            to += 1;
        }
    }
    to
}

/// Leaves so many slots; those after them are empty.
fn cut<T>(slots: &mut Vec<Option<T>>, count: usize)
    requires within { count ≤ length slots.old.items }
    requires empty { (i : ℕ) → count ≤ i → slice_index_or slots.old.items i None ≡ None }
    ensures { slots.new.items ≡ take count slots.old.items }
{
    while slots.len() > count {
        match slots.take_last() {
            None => {}
            Some(_node) => unreachable!(),
        }
    }
}

/// Moves the nodes together, so that no slot between them is empty. Nothing happens if there is
/// no memory for what counts and sorts them there.
#[inline(never)]
fn compact<T: Waits>(slots: &mut Vec<Option<T>>, counts: &mut NodeCounts, queue: &mut OpenQueue)
    requires kept { IsOpenListKept T.total slots.old.items None None queue.old counts.old }
    ensures kept { IsOpenListKept T.total slots.new.items None None queue.new counts.new }
    ensures nodes { live slots.new.items ≡ live slots.old.items }
{
    let Ok(fewer) = packed_counts(slots.as_slice(), queue.alloc, counts.all) else {
        return;
    };
    let Ok(shorter) = packed_queue(slots.as_slice(), queue.alloc) else {
        return;
    };
    let count = gather(slots);
    cut(slots, count);
    *counts = fewer;
    *queue = shorter;
}

/// Makes room for a node: the nodes are moved together where no slot is left and fewer than half of
/// them hold one. That takes as many steps as there are slots, which are at least as many as the
/// buckets, and comes again after half as many pushes or more.
///
/// # Errors
/// - `NoMemory`: there is none for a slot more.
pub(crate) fn make_room<T: Waits>(
    slots: &mut Vec<Option<T>>,
    counts: &mut NodeCounts,
    queue: &mut OpenQueue,
) -> Result<(), NoMemory>
    requires kept { IsOpenListKept T.total slots.old.items None None queue.old counts.old }
    ensures kept { IsOpenListKept T.total slots.new.items None None queue.new counts.new }
    ensures nodes { live slots.new.items ≡ live slots.old.items }
    ensures free { OnOk result (vec_len slots.new < vec_capacity slots.new) }
{
    let count = slots.len();
    if count < slots.capacity() {
        return Ok(());
    }
    if counts.all < count / 2 && queue.small.len() <= count {
        compact(slots, counts, queue);
    }
    slots.reserve(1)?;
    Ok(())
}
