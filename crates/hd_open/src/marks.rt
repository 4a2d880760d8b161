//! Which slots hold a node, a bit each.
ghost use Rattle.std.specs.Prelude.{◌≡◌, ◌≢◌, ◌*◌, ◌/◌, ◌%◌, ◌^◌, ◌<◌, ◌↔◌, ℕ, length, slice_index, count_ones, IsTrue};
ghost use Rattle.hd_open.specs.Marks.{slot_bit};
ghost use Rattle.hd_open.specs.declared.counts.TheConstants.{GROUP};

use crate::counts::GROUP;

/// Reports whether a slot is marked.
pub(crate) fn is_marked(words: &[u64], at: usize) -> bool
    ensures { IsTrue result ↔ (slot_bit words.now at ≡ 1) }
{
    match words.get(at / GROUP) {
        Some(word) => (*word >> (at % GROUP)) & 1 == 1,
        None => false,
    }
}

/// Marks a slot.
pub(crate) fn mark(words: &mut Vec<u64>, at: usize)
    requires within { at / GROUP < length words.old.items }
    ensures here { slot_bit words.new.items at ≡ 1 }
    ensures others { (i : ℕ) → i ≢ at → slot_bit words.new.items i ≡ slot_bit words.old.items i }
    ensures len { length words.new.items ≡ length words.old.items }
{
    words[at / GROUP] |= 1 << (at % GROUP);
}

/// Takes the mark of a slot away.
pub(crate) fn unmark(words: &mut Vec<u64>, at: usize)
    requires within { at / GROUP < length words.old.items }
    ensures here { slot_bit words.new.items at ≡ 0 }
    ensures others { (i : ℕ) → i ≢ at → slot_bit words.new.items i ≡ slot_bit words.old.items i }
    ensures len { length words.new.items ≡ length words.old.items }
{
    words[at / GROUP] &= !(1 << (at % GROUP));
}

/// Returns how many slots are marked that come before this one in its group.
pub(crate) fn marked_before(words: &[u64], at: usize) -> usize
    ensures { result ≡ count_ones (slice_index words.now (at / GROUP) % 2 ^ (at % GROUP)) }
{
    match words.get(at / GROUP) {
        Some(word) => (*word & ((1 << (at % GROUP)) - 1)).count_ones() as usize,
        None => 0,
    }
}
