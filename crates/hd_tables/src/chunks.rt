//! A list in chunks.
ghost use Rattle.std.specs.Prelude.{◌≡◌, ℕ, ◌+◌, ◌*◌, ◌<◌, ◌≤◌, ◌==◌, ◌++◌, [], ◌∷◌, OnOk, IsOk, length, slice_get, slice_index_or, slice_set, option_copied};
ghost use Rattle.hd_tables.specs.Chunks.{items_in, AreChunks};

use crate::iter::Iter;
use hd_base::NoMemory;
use std::alloc::Global;
use std::marker::Model;

/// How many items a chunk holds.
pub const CHUNK: usize = 1024;

/// How many items a list may have, with those that it has room for: more than fit a machine.
pub const MOST_ITEMS: usize = 1 << 56;

/// A list that grows in chunks: no growth copies the items that are there.
///
/// Contracts see its items, and its room: the number of items that can be pushed without asking for
/// memory.
#[derive(Debug, Drop)]
pub struct Chunks<T> {
    alloc: Global,
    len: usize,
    /// Full ones, then one that is not full, then empty ones.
    chunks: Vec<Vec<T>>,
}

impl<T> Model for Chunks<T> {
    ghost use Rattle.std.specs.Prelude.{◌≡◌, ◌-◌, ◌*◌, ◌≤◌, length};
    ghost use Rattle.hd_tables.specs.declared.chunks.TheConstants.{CHUNK, MOST_ITEMS};
    ghost use Rattle.hd_tables.specs.Chunks.{ChunksView, items_in, AreChunks};

    ghost Value = { ChunksView T };

    ghost view = { λ c. record {
      items = items_in c.chunks.items;
      room = CHUNK * length c.chunks.items - c.len;
    } };

    ghost invariant = { λ c. (c.len ≡ length (items_in c.chunks.items))
        × (CHUNK * length c.chunks.items ≤ MOST_ITEMS)
        × AreChunks c.len c.chunks.items };
}

/// Adds empty chunks until there are so many.
fn add_chunks<T: Drop>(
    alloc: Global,
    chunks: &mut Vec<Vec<T>>,
    wanted: usize,
) -> Result<(), NoMemory>
    requires { wanted * CHUNK ≤ MOST_ITEMS }
    ensures items { items_in chunks.new.items ≡ items_in chunks.old.items }
    ensures chunks { (n : ℕ) → AreChunks n chunks.old.items → AreChunks n chunks.new.items }
    ensures kept { length chunks.old.items ≤ length chunks.new.items }
    ensures few { length chunks.old.items * CHUNK ≤ MOST_ITEMS
        → length chunks.new.items * CHUNK ≤ MOST_ITEMS }
    ensures enough { wanted ≤ length chunks.old.items → IsOk result }
    ensures wanted { OnOk result (wanted ≤ length chunks.new.items) }
{
    while chunks.len() < wanted {
        let chunk = Vec::with_capacity(alloc, CHUNK)?;
        chunks.push(chunk)?;
    }
    Ok(())
}

impl<T> Chunks<T> {
    /// Returns the list of no items, which holds no memory yet.
    pub fn new(alloc: Global) -> Chunks<T>
        ensures items { result.items ≡ [] }
        ensures room { result.room ≡ 0 }
    {
        Chunks {
            alloc,
            len: 0,
            chunks: Vec::new(alloc),
        }
    }

    /// Returns how many items there are.
    pub fn len(&self) -> usize
        ensures len { result ≡ length self.now.items }
        ensures few { length self.now.items + self.now.room ≤ MOST_ITEMS }
    {
        self.len
    }

    /// Reports whether there are none.
    pub fn is_empty(&self) -> bool
        ensures { result ≡ (length self.now.items == 0) }
    {
        self.len == 0
    }

    /// Returns how many items can be pushed without asking for memory.
    pub fn room(&self) -> usize
        ensures { result ≡ self.now.room }
    {
        CHUNK * self.chunks.len() - self.len
    }

    /// Makes room for so many items more.
    ///
    /// # Errors
    /// - `NoMemory`: the items are as they were, and so is the room that there was.
    pub fn reserve(&mut self, count: usize) -> Result<(), NoMemory>
    where
        T: Drop,
        ensures items { self.new.items ≡ self.old.items }
        ensures room_kept { self.old.room ≤ self.new.room }
        ensures room { OnOk result (count ≤ self.new.room) }
        ensures enough { count ≤ self.old.room → IsOk result }
    {
        if count > MOST_ITEMS - self.len {
            return Err(std::alloc::AllocError);
        }
        let wanted = (self.len + count).div_ceil(CHUNK);
        add_chunks(self.alloc, &mut self.chunks, wanted)
    }

    /// Adds an item at the end. It does not allocate.
    pub fn push(&mut self, item: T)
        requires { 0 < self.old.room }
        ensures items { self.new.items ≡ self.old.items ++ item ∷ [] }
        ensures room { self.new.room + 1 ≡ self.old.room }
    {
        let chunk = &mut self.chunks[self.len / CHUNK];
        chunk.push_reserved(item);
        self.len += 1;
    }

    /// Returns the item of this number.
    pub fn at(&self, number: usize) -> &T
        requires { number < length self.now.items }
        ensures { result.now ≡ slice_index_or self.now.items number result.now }
    {
        &self.chunks[number / CHUNK][number % CHUNK]
    }

    /// Returns the item of this number, if there is such an item.
    pub fn get(&self, number: usize) -> Option<&T>
        ensures { option_copied result ≡ slice_get self.now.items number }
    {
        if number < self.len {
            Some(self.at(number))
        } else {
            None
        }
    }

    /// Returns the items, one after the other.
    pub fn iter(&self) -> Iter<'_, T>
        ensures { result ≡ self.now.items }
    {
        Iter::of(self)
    }

    /// Puts an item in the place of the one with this number. It does not allocate.
    pub fn set(&mut self, number: usize, item: T)
    where
        T: Drop,
        requires { number < length self.old.items }
        ensures items { self.new.items ≡ slice_set self.old.items number item }
        ensures room { self.new.room ≡ self.old.room }
        ensures few { length self.new.items + self.new.room ≤ MOST_ITEMS }
    {
        let chunk = &mut self.chunks[number / CHUNK];
        chunk[number % CHUNK] = item;
    }
}
