//! The successors of an entry, and binary search among them.
ghost use Rattle.std.specs.Prelude.{◌≡◌, ◌≢◌, ℕ, ◌+◌, ◌<◌, ◌≤◌, length, get_or, MatchOption};
ghost use Rattle.hd_tables.specs.Places.{begun};

use crate::Chunks;

/// Returns the place after an entry's successors, where these are the first places of all entries'
/// successors: there the next entry's begin, or there are no more.
pub(crate) fn end_of(firsts: &Chunks<usize>, posted: usize, entry: usize) -> usize
    requires { entry < length firsts.now.items }
    ensures next { entry + 1 < length firsts.now.items
        → result ≡ get_or firsts.now.items (entry + 1) 0 }
    ensures last { length firsts.now.items ≤ entry + 1 → result ≡ posted }
{
    let count = firsts.len();
    let next = entry + 1;
    if next < count {
        *firsts.at(next)
    } else {
        posted
    }
}

/// Returns the place of an action, among those from `low` up to `high`, which rise.
pub(crate) fn place_in(actions: &Chunks<u32>, low: usize, high: usize, action: u32) -> Option<usize>
    requires within { high ≤ length actions.now.items }
    requires rises { (i j : ℕ) → low ≤ i → i < j → j < high
        → get_or actions.now.items i 0 < get_or actions.now.items j 0 }
    ensures { MatchOption result
        ((i : ℕ) → low ≤ i → i < high → get_or actions.now.items i 0 ≢ action)
        (λ k. (low ≤ k) × (k < high) × (get_or actions.now.items k 0 ≡ action)) }
{
    let mut from = low;
    let mut end = high;
    while from < end {
        let middle = from + (end - from) / 2;
        let there = *actions.at(middle);
        if there == action {
            return Some(middle);
        }
        if there < action {
            from = middle + 1;
        } else {
            end = middle;
        }
    }
    None
}

/// Returns how many entries' successors begin at a place or before it.
pub(crate) fn begun_at(firsts: &Chunks<usize>, place: usize) -> usize
    requires rises { (m n : ℕ) → m < n → n < length firsts.now.items
        → get_or firsts.now.items m 0 ≤ get_or firsts.now.items n 0 }
    ensures { result ≡ begun firsts.now.items place }
{
    let mut from = 0;
    let mut end = firsts.len();
    while from < end {
        let middle = from + (end - from) / 2;
        if *firsts.at(middle) <= place {
            from = middle + 1;
        } else {
            end = middle;
        }
    }
    from
}
