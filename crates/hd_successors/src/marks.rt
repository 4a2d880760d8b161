//! Marks on numbers: a bit each, in words.
ghost use Rattle.std.specs.Prelude.{◌≡◌, ℕ, ◌≤◌, ◌<◌, ◌*◌, ◌/◌, ◌==◌, ◌||◌, false, [], ◌∷◌, IfOk, length, find, nat_le};
ghost use Rattle.std.specs.List.{filter, range_with_len};
ghost use Rattle.hd_task.specs.declared.task.TheConstants.{MAX_ACTIONS};
ghost use Rattle.hd_successors.specs.Marks.{words_for, FirstMark};
ghost use Rattle.hd_base.specs.Bits.{bit_in};

use hd_base::NoMemory;
use std::alloc::Global;

/// Returns no marks, with room for as many as asked.
#[tactic(auto, using(crate::proofs::Bits::none_marked))]
pub(crate) fn no_marks(alloc: Global, count: usize) -> Result<Vec<u64>, NoMemory>
    ensures none { IfOk result (λ v. (i : ℕ) → bit_in v.items i ≡ false) }
    ensures room { IfOk result (λ v. length v.items ≡ words_for count) }
{
    let marks = vec![in alloc; 0; count.div_ceil(64)]?;
    Ok(marks)
}

/// Marks a number.
#[tactic(auto, using(crate::proofs::Bits::marked_more))]
pub(crate) fn set_mark(marks: &mut [u64], number: usize)
    requires { number / 64 < length marks.old }
    ensures { (i : ℕ) → bit_in marks.new i ≡ ((i == number) || bit_in marks.old i) }
{
    marks[number / 64] |= 1 << (number % 64);
}

/// Returns the first number that is marked, of those in the words from this place on.
fn first_mark_in(marks: &[u64], place: usize) -> Option<usize>
    requires { length marks.now ≤ MAX_ACTIONS }
    ensures { FirstMark marks.now (64 * place) result }
{
    let mut at = place;
    while at < marks.len() {
        let word = marks[at];
        if word != 0 {
            return Some(64 * at + word.trailing_zeros() as usize);
        }
        at += 1;
    }
    None
}

/// Returns the first number that is marked, from this one on.
pub(crate) fn first_mark(marks: &[u64], from: usize) -> Option<usize>
    requires { length marks.now ≤ MAX_ACTIONS }
    ensures { FirstMark marks.now from result }
{
    let place = from / 64;
    if place >= marks.len() {
        return None;
    }
    let word = marks[place] >> (from % 64);
    if word != 0 {
        return Some(from + word.trailing_zeros() as usize);
    }
    first_mark_in(marks, place + 1)
}

/// Returns the first bit of a byte that is 1, from this one on: the same of one word that has no
/// more.
#[inline(always)]
pub(crate) fn first_bit(byte: u8, from: usize) -> Option<usize>
    requires { from ≤ 8 }
    ensures { FirstMark (byte ∷ []) from result }
{
    let rest = u64::from(byte) >> from;
    if rest == 0 {
        return None;
    }
    Some(from + rest.trailing_zeros() as usize)
}

/// Returns the first number that is marked, from this one on, of so many.
pub(crate) fn first_mark_below(marks: &[u64], from: u32, count: usize) -> Option<u32>
    requires words { length marks.now ≤ MAX_ACTIONS }
    requires few { count ≤ MAX_ACTIONS }
    ensures { result ≡ find (nat_le from) (filter (bit_in marks.now) (range_with_len 0 count)) }
{
    match first_mark(marks, from as usize) {
        None => None,
        Some(found) => {
            if found < count {
                Some(found as u32)
            } else {
                None
            }
        }
    }
}

/// Returns how many numbers are marked, of so many. It goes from one to the next.
pub(crate) fn marks_below(marks: &[u64], count: usize) -> usize
    requires words { length marks.now ≤ MAX_ACTIONS }
    requires few { count ≤ MAX_ACTIONS }
    ensures { result ≡ length (filter (bit_in marks.now) (range_with_len 0 count)) }
{
    let mut found = 0;
    let mut from = 0;
    while let Some(number) = first_mark_below(marks, from, count) {
        found += 1;
        from = number + 1;
    }
    found
}
