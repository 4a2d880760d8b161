//! Queues with room.
ghost use Rattle.std.specs.Prelude.{◌≡◌, ◌+◌, ◌<◌, ◌≤◌, ◌++◌, [], ◌∷◌, IfErr, OnOk, OnErr};
ghost use Rattle.std.specs.VecDeque.{deque_len, deque_capacity};

use hd_base::NoMemory;
use std::alloc::AllocError;
use std::collections::VecDeque;

/// Makes room for so many items more than one that has room already.
///
/// # Errors
/// - `NoMemory`: there is none; the room is as it was.
pub(crate) fn reserve_more<T>(
    queue: &mut VecDeque<T>,
    room: usize,
    more: usize,
) -> Result<(), NoMemory>
    requires { deque_len queue.old + room ≤ deque_capacity queue.old }
    ensures items { queue.new.items ≡ queue.old.items }
    ensures kept { deque_len queue.new + room ≤ deque_capacity queue.new }
    ensures room { OnOk result (deque_len queue.new + room + more ≤ deque_capacity queue.new) }
{
    match room.checked_add(more) {
        Some(all) => queue.reserve(all),
        None => Err(AllocError),
    }
}

/// An empty queue keeps room for so many items at least.
const KEPT: usize = 256;

/// Gives room of an empty queue back, if it has over four times what is needed: `room`, or [`KEPT`]
/// if that is more. Twice what is needed stays, so that the queue need not grow again at once.
pub(crate) fn give_back<T>(queue: &mut VecDeque<T>, room: usize)
    requires { deque_len queue.old + room ≤ deque_capacity queue.old }
    ensures items { queue.new.items ≡ queue.old.items }
    ensures kept { deque_len queue.new + room ≤ deque_capacity queue.new }
{
    let needed = room.max(KEPT);
    if queue.is_empty() && queue.capacity() / 4 > needed {
        queue.shrink_to(needed.saturating_mul(2));
    }
}

/// Adds one item more, after the others, if there is room for it.
pub(crate) fn push_reserved<T: Drop>(queue: &mut VecDeque<T>, item: T)
    requires { deque_len queue.old < deque_capacity queue.old }
    ensures items { queue.new.items ≡ queue.old.items ++ item ∷ [] }
    ensures len { deque_len queue.new ≡ deque_len queue.old + 1 }
    ensures capacity { deque_capacity queue.new ≡ deque_capacity queue.old }
{
    match queue.push_back(item) {
        Ok(()) => {}
        Err(_) => unreachable!(),
    }
}

/// Adds one item more, before the others, if there is room for it.
pub(crate) fn push_front_reserved<T: Drop>(queue: &mut VecDeque<T>, item: T)
    requires { deque_len queue.old < deque_capacity queue.old }
    ensures items { queue.new.items ≡ item ∷ queue.old.items }
    ensures len { deque_len queue.new ≡ deque_len queue.old + 1 }
    ensures capacity { deque_capacity queue.new ≡ deque_capacity queue.old }
{
    match queue.push_front(item) {
        Ok(()) => {}
        Err(_) => unreachable!(),
    }
}

/// Adds one item more, after the others, which leaves room for so many.
///
/// # Errors
/// - The item, if there is no room for it; the room is as it was.
pub(crate) fn push_beside<T>(
    queue: &mut VecDeque<T>,
    room: usize,
    item: T,
) -> Result<(), (T, NoMemory)>
    requires { deque_len queue.old + room ≤ deque_capacity queue.old }
    ensures items { OnOk result (queue.new.items ≡ queue.old.items ++ item ∷ []) }
    ensures back { IfErr result (λ r. r.0 ≡ item) }
    ensures err { OnErr result (queue.new.items ≡ queue.old.items) }
    ensures kept { deque_len queue.new + room ≤ deque_capacity queue.new }
{
    if let Err(error) = reserve_more(queue, room, 1) {
        return Err((item, error));
    }
    match queue.push_back(item) {
        Ok(()) => Ok(()),
        Err(failed) => Err((failed.value, AllocError)),
    }
}
