//! Packed states of one task in blocks of bytes.
ghost use Rattle.std.specs.Prelude.{◌≡◌, ℕ, ◌+◌, ◌*◌, ◌<◌, ◌≤◌, ◌++◌, [], ◌∷◌, Some, true, false, flat_map, length, slice_get, IsOk, OnOk};
ghost use Rattle.hd_tables.specs.declared.chunks.TheConstants.{CHUNK, MOST_ITEMS};
ghost use Rattle.hd_tables.specs.Chunks.{ArePieces};
ghost use Rattle.hd_tables.specs.Widths.{HasWidths};
ghost use Rattle.hd_tables.specs.Blocks.{states_of, widths_of, IsBlock};

use crate::block::Block;
use crate::row::Row;
use crate::{CHUNK, MOST_ITEMS};
use hd_base::NoMemory;
use hd_pack::{Layout, Packed};
use std::alloc::{AllocError, Global};
use std::marker::Model;

/// Packed states of as many atoms and fluents each, in blocks of as many states as a chunk has
/// items: a growth moves no state, and none has memory of its own. A full block is rewritten once,
/// so that its states share the bytes in which they agree, if that saves half of it.
///
/// Contracts see these numbers, the states, and the room: the number of states that can be pushed
/// without asking for memory.
#[derive(Debug, Drop)]
pub struct RowBlocks {
    alloc: Global,
    layout: Layout,
    len: usize,
    /// Full ones, then one that is not full, then empty ones.
    blocks: Vec<Block>,
    /// How many full ones have been tried, whether their states share bytes since then or not.
    tried: usize,
}

impl Model for RowBlocks {
    ghost use Rattle.std.specs.Prelude.{◌-◌, ◌*◌, flat_map, length};
    ghost use Rattle.hd_tables.specs.declared.chunks.TheConstants.{CHUNK};
    ghost use Rattle.hd_tables.specs.Blocks.{BlocksView, states_of, widths_of, AreBlocks};

    ghost Value = { BlocksView };

    ghost view = { λ r. record {
      widths = widths_of r.layout;
      states = flat_map (states_of (widths_of r.layout)) r.blocks.items;
      room = CHUNK * length r.blocks.items - r.len;
    } };

    ghost invariant = { λ r. AreBlocks (widths_of r.layout) r.len r.blocks.items };
}

/// Adds empty blocks until there are so many.
fn add_blocks(
    alloc: Global,
    layout: Layout,
    blocks: &mut Vec<Block>,
    wanted: usize,
) -> Result<(), NoMemory>
    requires { CHUNK * wanted ≤ MOST_ITEMS }
    ensures states { flat_map (states_of (widths_of layout)) blocks.new.items
        ≡ flat_map (states_of (widths_of layout)) blocks.old.items }
    ensures pieces { (n : ℕ)
        → ArePieces (states_of (widths_of layout)) (IsBlock (widths_of layout)) n blocks.old.items
        → ArePieces (states_of (widths_of layout)) (IsBlock (widths_of layout)) n blocks.new.items }
    ensures kept { length blocks.old.items ≤ length blocks.new.items }
    ensures few { CHUNK * length blocks.old.items ≤ MOST_ITEMS
        → CHUNK * length blocks.new.items ≤ MOST_ITEMS }
    ensures enough { wanted ≤ length blocks.old.items → IsOk result }
    ensures wanted { OnOk result (wanted ≤ length blocks.new.items) }
{
    while blocks.len() < wanted {
        let block = Block::empty(alloc, layout)?;
        blocks.push(block)?;
    }
    Ok(())
}

impl RowBlocks {
    /// Returns no states, and no memory yet.
    pub fn empty(alloc: Global, layout: Layout) -> RowBlocks
        ensures atoms { result.widths.atoms ≡ layout.atoms }
        ensures fluents { result.widths.fluents ≡ layout.fluents }
        ensures states { result.states ≡ [] }
        ensures room { result.room ≡ 0 }
    {
        RowBlocks {
            alloc,
            layout,
            len: 0,
            blocks: Vec::new(alloc),
            tried: 0,
        }
    }

    /// Returns the state at a place.
    pub fn at(&self, place: usize) -> Row<'_>
        requires { place < length self.now.states }
        ensures { slice_get self.now.states place ≡ Some result }
    {
        self.blocks[place / CHUNK].at(self.layout, place % CHUNK)
    }

    /// Reports whether this state stands at a place.
    pub fn is(&self, place: usize, state: &Packed) -> bool
        requires { place < length self.now.states }
        ensures yes { result ≡ true → slice_get self.now.states place ≡ Some state.now }
        ensures no { result ≡ false → slice_get self.now.states place ≡ Some state.now → ⊥ }
    {
        self.at(place).is_packed(state)
    }

    /// Lets the states of the next full block share what they can.
    fn thin_next(&mut self)
        ensures { self.new ≡ self.old }
    {
        if self.tried < self.len / CHUNK {
            let block = &mut self.blocks[self.tried];
            block.thin(self.alloc, self.layout);
            self.tried += 1;
        }
    }

    /// Returns how many more can be pushed without asking for memory.
    pub fn room(&self) -> usize
        ensures { result ≡ self.now.room }
    {
        CHUNK * self.blocks.len() - self.len
    }

    /// Makes room for so many more. It also rewrites the next full block.
    ///
    /// # Errors
    /// - `NoMemory`: the states are as they were, and so is the room that there was.
    pub fn reserve(&mut self, count: usize) -> Result<(), NoMemory>
        ensures widths { self.new.widths ≡ self.old.widths }
        ensures states { self.new.states ≡ self.old.states }
        ensures room_kept { self.old.room ≤ self.new.room }
        ensures room { OnOk result (count ≤ self.new.room) }
        ensures enough { count ≤ self.old.room → IsOk result }
    {
        self.thin_next();
        if count > MOST_ITEMS - self.len {
            return Err(AllocError);
        }
        let wanted = (self.len + count).div_ceil(CHUNK);
        add_blocks(self.alloc, self.layout, &mut self.blocks, wanted)
    }

    /// Adds one state more, after the others. It does not allocate.
    pub fn push(&mut self, state: &Packed)
        requires room { 0 < self.old.room }
        requires widths { HasWidths self.old.widths state.now }
        ensures widths { self.new.widths ≡ self.old.widths }
        ensures states { self.new.states ≡ self.old.states ++ state.now ∷ [] }
        ensures room { self.new.room + 1 ≡ self.old.room }
    {
        let bytes = state.bytes();
        let block = &mut self.blocks[self.len / CHUNK];
        block.push(bytes);
        self.len += 1;
    }
}
