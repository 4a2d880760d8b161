//! Nodes by their arrivals: where they stand among each other, and which is the best one.
ghost use Rattle.std.specs.Prelude.{◌≡◌, ◌+◌, ◌*◌, ◌<◌, ◌≤◌, ◌++◌, [], ◌∷◌, Some, None, length, slice_get, slice_set, IfSome, IfNone, OnOk, vec_len, vec_capacity};
ghost use Rattle.hd_open.specs.Live.{live, nodes_before, HoldsNode, IsBestArrival};
ghost use Rattle.hd_open.specs.Marks.{AreMarks};
ghost use Rattle.hd_open.specs.Counts.{AreCounts};
ghost use Rattle.hd_open.specs.Kept.{IsHintOf};
ghost use Rattle.hd_open.specs.declared.counts.TheConstants.{GROUP};
ghost use Rattle.hd_open.specs.Queue.{IsQueueOrderly, IsSingle, IsBelow, IsQueued};

use crate::counts::{GROUP, NodeCounts, lower_parts, raise_parts, start_of};
use crate::marks::{is_marked, mark, marked_before, unmark};
use crate::queue::OpenQueue;
use crate::waits::Waits;
use hd_base::NoMemory;

/// The arrival of the node at a place.
#[derive(Clone, Copy, Debug, PartialEq, Eq)]
pub(crate) struct Hint {
    pub(crate) place: usize,
    pub(crate) arrival: usize,
}

/// The slot that a node has left last, and the node's total.
#[derive(Clone, Copy, Debug, PartialEq, Eq)]
pub(crate) struct Gap {
    pub(crate) arrival: usize,
    pub(crate) total: Option<u128>,
}

/// Returns the slot of the node that has `more` nodes before it, from slot `from` on.
fn filled_after<T>(slots: &[Option<T>], counts: &NodeCounts, from: usize, more: usize) -> usize
    requires marked { AreMarks slots.now counts.now.marks.items }
    requires within { nodes_before slots.now from + more < length (live slots.now) }
    ensures filled { HoldsNode slots.now result }
    ensures place { nodes_before slots.now result ≡ nodes_before slots.now from + more }
{
    let mut left = more;
    let mut at = from;
    while at < slots.len() {
        if is_marked(counts.marks.as_slice(), at) {
            if left == 0 {
                return at;
            }
            left -= 1;
        }
        at += 1;
    }
    unreachable!()
}

/// Returns how many nodes stand before a group.
fn counted_before<T>(slots: &[Option<T>], counts: &NodeCounts, group: usize) -> usize
    requires counted { AreCounts slots.now counts.now }
    requires within { group ≤ length counts.now.parts.items }
    ensures { result ≡ nodes_before slots.now (GROUP * group) }
{
    // So that it is known that the sums fit.
    let _count = slots.len();
    let mut end = group;
    let mut place = 0;
    while end > 0 {
        place += counts.parts[end - 1];
        end = start_of(end);
    }
    place
}

/// Returns how many nodes stand before an arrival.
pub(crate) fn place_of<T>(slots: &[Option<T>], counts: &NodeCounts, arrival: usize) -> usize
    requires marked { AreMarks slots.now counts.now.marks.items }
    requires counted { AreCounts slots.now counts.now }
    requires within { arrival < length slots.now }
    ensures { result ≡ nodes_before slots.now arrival }
{
    // So that it is known that the sum fits.
    let _count = slots.len();
    let before = counted_before(slots, counts, arrival / GROUP);
    before + marked_before(counts.marks.as_slice(), arrival)
}

/// Returns a power of two, with which the search for a place among so many groups begins.
fn greatest_step(groups: usize) -> usize {
    let mut step = 1usize;
    while step <= groups / 2 {
        step *= 2;
    }
    step
}

/// Returns a group before which there are no more than so many nodes, and how many more are left
/// after it.
fn group_of<T>(slots: &[Option<T>], counts: &NodeCounts, place: usize) -> (usize, usize)
    requires counted { AreCounts slots.now counts.now }
    ensures { nodes_before slots.now (GROUP * result.0) + result.1 ≡ place }
{
    let mut step = greatest_step(counts.parts.len());
    let mut group = 0;
    let mut left = place;
    while step > 0 {
        if step <= counts.parts.len() - group {
            let end = group + step;
            let count = counts.parts[end - 1];
            if start_of(end) == group && count <= left {
                left -= count;
                group = end;
            }
        }
        step /= 2;
    }
    (group, left)
}

/// Returns the arrival of the node at a place.
pub(crate) fn arrival_of<T>(slots: &[Option<T>], counts: &NodeCounts, place: usize) -> usize
    requires marked { AreMarks slots.now counts.now.marks.items }
    requires counted { AreCounts slots.now counts.now }
    requires within { place < length (live slots.now) }
    ensures filled { HoldsNode slots.now result }
    ensures place { nodes_before slots.now result ≡ place }
{
    let (group, left) = group_of(slots, counts, place);
    filled_after(slots, counts, GROUP * group, left)
}

/// Returns the same, where the arrival of the node at one place may be known.
pub(crate) fn arrival_by<T>(
    slots: &[Option<T>],
    counts: &NodeCounts,
    hint: Option<Hint>,
    place: usize,
) -> usize
    requires marked { AreMarks slots.now counts.now.marks.items }
    requires counted { AreCounts slots.now counts.now }
    requires within { place < length (live slots.now) }
    requires hinted { IfSome hint (IsHintOf slots.now) }
    ensures filled { HoldsNode slots.now result }
    ensures place { nodes_before slots.now result ≡ place }
{
    if let Some(known) = hint
        && known.place == place
    {
        return known.arrival;
    }
    arrival_of(slots, counts, place)
}

/// Adds a word to `words`, if the next slot is the first of a group.
///
/// # Errors
/// - `NoMemory`: there is no room for it.
fn cover_words<T>(slots: &[Option<T>], words: &mut Vec<u64>) -> Result<(), NoMemory>
    requires marked { AreMarks slots.now words.old.items }
    ensures marked { AreMarks slots.now words.new.items }
    ensures words { OnOk result (length slots.now < GROUP * length words.new.items) }
{
    if slots.len() / GROUP >= words.len() {
        words.push(0)?;
    }
    Ok(())
}

/// Counts a group more, which has no node, if the next slot is the first of one.
///
/// # Errors
/// - `NoMemory`: there is no room for its count.
pub(crate) fn cover<T>(slots: &[Option<T>], counts: &mut NodeCounts) -> Result<(), NoMemory>
    requires marked { AreMarks slots.now counts.old.marks.items }
    requires counted { AreCounts slots.now counts.old }
    ensures marked { AreMarks slots.now counts.new.marks.items }
    ensures counted { AreCounts slots.now counts.new }
    ensures words { OnOk result (length slots.now < GROUP * length counts.new.marks.items) }
    ensures room { OnOk result (length slots.now < GROUP * length counts.new.parts.items) }
{
    cover_words(slots, &mut counts.marks)?;
    let group = slots.len() / GROUP;
    if group >= counts.parts.len() {
        let before = counted_before(slots, counts, start_of(group + 1));
        counts.parts.push(counts.all - before)?;
    }
    Ok(())
}

/// Returns the arrival of the best node. Entries of the queue whose nodes have left are dropped on
/// the way.
pub(crate) fn best_arrival<T: Waits>(
    slots: &[Option<T>],
    counts: &NodeCounts,
    queue: &mut OpenQueue,
) -> Option<usize>
    requires marked { AreMarks slots.now counts.now.marks.items }
    requires queued { IsQueued T.total slots.now queue.old }
    requires orderly { IsQueueOrderly queue.old }
    requires single { IsSingle queue.old }
    requires latest { IsBelow queue.old (length slots.now) }
    ensures kept { IsQueued T.total slots.now queue.new }
    ensures orderly { IsQueueOrderly queue.new }
    ensures single { IsSingle queue.new }
    ensures latest { IsBelow queue.new (length slots.now) }
    ensures best { IfSome result (λ k. IsBestArrival T.total slots.now k) }
    ensures none { IfNone result (live slots.now ≡ []) }
{
    queue.first(counts.marks.as_slice())
}

/// Puts a node into a slot of its own, after the others. There is room for it.
pub(crate) fn append<T>(slots: &mut Vec<Option<T>>, counts: &mut NodeCounts, node: T)
    requires free { vec_len slots.old < vec_capacity slots.old }
    requires marked { AreMarks slots.old.items counts.old.marks.items }
    requires counted { AreCounts slots.old.items counts.old }
    requires words { length slots.old.items < GROUP * length counts.old.marks.items }
    requires room { length slots.old.items < GROUP * length counts.old.parts.items }
    ensures slots { slots.new.items ≡ slots.old.items ++ Some node ∷ [] }
    ensures marked { AreMarks slots.new.items counts.new.marks.items }
    ensures counted { AreCounts slots.new.items counts.new }
{
    let arrival = slots.len();
    slots.push_reserved(Some(node));
    // So that it is known how many there are at most.
    let _count = slots.len();
    mark(&mut counts.marks, arrival);
    raise_parts(&mut counts.parts, arrival / GROUP);
    counts.all += 1;
}

/// Takes the node out of a slot, which is a gap from then on.
pub(crate) fn take_from<T: Waits>(
    slots: &mut Vec<Option<T>>,
    counts: &mut NodeCounts,
    arrival: usize,
) -> (T, Gap)
    requires within { arrival < length slots.old.items }
    requires marked { AreMarks slots.old.items counts.old.marks.items }
    requires counted { AreCounts slots.old.items counts.old }
    requires filled { HoldsNode slots.old.items arrival }
    ensures node { slice_get slots.old.items arrival ≡ Some (Some result.0) }
    ensures gap { result.1 ≡ record { arrival = arrival; total = T.total result.0 } }
    ensures slots { slots.new.items ≡ slice_set slots.old.items arrival None }
    ensures marked { AreMarks slots.new.items counts.new.marks.items }
    ensures counted { AreCounts slots.new.items counts.new }
{
    unmark(&mut counts.marks, arrival);
    lower_parts(&mut counts.parts, arrival / GROUP);
    counts.all -= 1;
    match slots[arrival].take() {
        Some(node) => {
            let total = node.total();
            (node, Gap { arrival, total })
        }
        None => unreachable!(),
    }
}

/// Puts a node into an empty slot.
pub(crate) fn put_into<T: Drop>(
    slots: &mut Vec<Option<T>>,
    counts: &mut NodeCounts,
    arrival: usize,
    node: T,
)
    requires within { arrival < length slots.old.items }
    requires marked { AreMarks slots.old.items counts.old.marks.items }
    requires counted { AreCounts slots.old.items counts.old }
    requires empty { slice_get slots.old.items arrival ≡ Some None }
    ensures slots { slots.new.items ≡ slice_set slots.old.items arrival (Some node) }
    ensures marked { AreMarks slots.new.items counts.new.marks.items }
    ensures counted { AreCounts slots.new.items counts.new }
{
    // So that it is known how many there are at most.
    let _count = slots.len();
    mark(&mut counts.marks, arrival);
    raise_parts(&mut counts.parts, arrival / GROUP);
    counts.all += 1;
    slots[arrival] = Some(node);
}
