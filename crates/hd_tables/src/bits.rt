//! A list of bits in chunks of words.
ghost use Rattle.std.specs.Prelude.{◌≡◌, ◌≢◌, ℕ, ◌+◌, ◌-◌, ◌*◌, ◌<◌, ◌≤◌, ◌==◌, ◌++◌, [], ◌∷◌, Bool, OnOk, IsOk, length, slice_index_or, slice_set, true};
ghost use Rattle.hd_tables.specs.Bits.{BitsView, bits_in};
ghost use Rattle.hd_base.specs.Bits.{bit_in};
ghost use Rattle.hd_tables.specs.declared.chunks.TheConstants.{MOST_ITEMS};

use crate::chunks::Chunks;
use hd_base::NoMemory;
use std::alloc::Global;
use std::marker::Model;

/// A list of bits, 64 in a word, that grows in chunks: no growth copies the bits that are there.
///
/// Contracts see its items, and its room: the number of bits that can be pushed without asking for
/// memory.
#[derive(Debug, Drop)]
pub struct Bits {
    len: usize,
    words: Chunks<u64>,
}

impl Model for Bits {
    ghost Value = { BitsView };

    ghost view = { λ b. record {
      items = bits_in b.words.items b.len;
      room = 64 * (length b.words.items + b.words.room) - b.len;
    } };

    ghost invariant = { λ b. b.len ≤ 64 * length b.words.items };
}

impl Bits {
    /// Returns the list of no bits, which holds no memory yet.
    pub fn new(alloc: Global) -> Bits
        ensures items { result.items ≡ [] }
        ensures room { result.room ≡ 0 }
    {
        Bits {
            len: 0,
            words: Chunks::new(alloc),
        }
    }

    /// Returns how many bits there are.
    pub fn len(&self) -> usize
        ensures { result ≡ length self.now.items }
    {
        self.len
    }

    /// Reports whether there are none.
    pub fn is_empty(&self) -> bool
        ensures { result ≡ (length self.now.items == 0) }
    {
        self.len == 0
    }

    /// Returns how many bits can be pushed without asking for memory.
    pub fn room(&self) -> usize
        ensures { result ≡ self.now.room }
    {
        64 * (self.words.len() + self.words.room()) - self.len
    }

    /// Makes room for so many bits more.
    ///
    /// # Errors
    /// - `NoMemory`: the bits are as they were, and so is the room that there was.
    pub fn reserve(&mut self, count: usize) -> Result<(), NoMemory>
        ensures items { self.new.items ≡ self.old.items }
        ensures room_kept { self.old.room ≤ self.new.room }
        ensures room { OnOk result (count ≤ self.new.room) }
        ensures enough { count ≤ self.old.room → IsOk result }
    {
        let free = 64 * self.words.len() - self.len;
        self.words.reserve(count.saturating_sub(free).div_ceil(64))
    }

    /// Adds a bit at the end. It does not allocate.
    pub fn push(&mut self, bit: bool)
        requires { 0 < self.old.room }
        ensures items { self.new.items ≡ self.old.items ++ bit ∷ [] }
        ensures room { self.new.room + 1 ≡ self.old.room }
    {
        add_bit_word(&mut self.words, self.len);
        write(&mut self.words, self.len, bit);
        self.len += 1;
    }

    /// Returns the bit of this number.
    pub fn at(&self, number: usize) -> bool
        requires { number < length self.now.items }
        ensures { result ≡ slice_index_or self.now.items number true }
    {
        (*self.words.at(number / 64) >> (number % 64)) & 1 == 1
    }

    /// Puts a bit in the place of the one with this number. It does not allocate.
    pub fn set(&mut self, number: usize, bit: bool)
        requires { number < length self.old.items }
        ensures items { self.new.items ≡ slice_set self.old.items number bit }
        ensures room { self.new.room ≡ self.old.room }
        ensures few { length self.new.items ≤ 64 * MOST_ITEMS }
    {
        write(&mut self.words, number, bit);
    }
}

/// Adds a word where the bit of this number, which is to come next, needs one.
fn add_bit_word(words: &mut Chunks<u64>, number: usize)
    requires next { number ≤ 64 * length words.old.items }
    requires room { number < 64 * (length words.old.items + words.old.room) }
    ensures within { number < 64 * length words.new.items }
    ensures room { length words.new.items + words.new.room
        ≡ length words.old.items + words.old.room }
    ensures few { length words.new.items ≤ MOST_ITEMS }
    ensures below { (i : ℕ) → i < number
        → bit_in words.new.items i ≡ bit_in words.old.items i }
{
    if number / 64 == words.len() {
        words.push(0);
    }
}

/// Writes a bit.
fn write(words: &mut Chunks<u64>, number: usize, bit: bool)
    requires { number < 64 * length words.old.items }
    ensures len { length words.new.items ≡ length words.old.items }
    ensures room { words.new.room ≡ words.old.room }
    ensures few { length words.new.items ≤ MOST_ITEMS }
    ensures written { bit_in words.new.items number ≡ bit }
    ensures others { (i : ℕ) → i ≢ number
        → bit_in words.new.items i ≡ bit_in words.old.items i }
{
    let mask = 1 << (number % 64);
    let word = *words.at(number / 64);
    if bit {
        words.set(number / 64, word | mask);
    } else {
        words.set(number / 64, word & !mask);
    }
}
