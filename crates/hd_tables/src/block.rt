//! A block of bytes in which packed states of one task stand.
ghost use Rattle.std.specs.Prelude.{◌≡◌, ◌+◌, ◌*◌, ◌<◌, ◌≤◌, ◌++◌, [], None, Some, length, slice_get, vec_len, vec_capacity, IfOk};
ghost use Rattle.hd_tables.specs.declared.chunks.TheConstants.{CHUNK};
ghost use Rattle.hd_tables.specs.Rows.{row_in};
ghost use Rattle.hd_tables.specs.Blocks.{bytes_of_row, row_width, states_of, widths_of, IsBlock};

use crate::CHUNK;
use crate::row::Row;
use crate::thin::thinned;
use hd_base::NoMemory;
use hd_pack::{Layout, Segment, SplitBytes};
use std::alloc::Global;

/// What the states of a block share: the bytes of one of them, and which of these each state has for
/// itself.
#[derive(Debug, Drop)]
pub(crate) struct Pattern {
    pub(crate) segments: Vec<Segment>,
    pub(crate) base: Vec<u8>,
    /// How many bytes of its own each state has.
    pub(crate) width: usize,
}

/// Packed states, as many as a chunk has items at the most. All bytes of a state are its own at least
/// until the block is full.
#[derive(Debug, Drop)]
pub(crate) struct Block {
    pub(crate) count: usize,
    pub(crate) pattern: Option<Pattern>,
    /// Of each state its own bytes.
    pub(crate) bytes: Vec<u8>,
}

/// Returns the bytes of the row at a place.
pub(crate) fn row_at(bytes: &[u8], width: usize, place: usize) -> &[u8]
    requires { place * width + width ≤ length bytes.now }
    ensures { result.now ≡ row_in width bytes.now place }
{
    // So that it is known that the product and the sum fit.
    let _len = bytes.len();
    let from = place * width;
    &bytes[from..from + width]
}

impl Block {
    /// Returns no states, with the memory of a full block.
    ///
    /// # Errors
    /// - `NoMemory`: there is none.
    pub(crate) fn empty(alloc: Global, layout: Layout) -> Result<Block, NoMemory>
        ensures block { IfOk result (λ b. IsBlock (widths_of layout) b) }
        ensures states { IfOk result (λ b. states_of (widths_of layout) b ≡ []) }
    {
        Ok(Block {
            count: 0,
            pattern: None,
            bytes: Vec::with_capacity(alloc, CHUNK * layout.bytes())?,
        })
    }

    /// Returns all bytes of the state at a place.
    fn bytes_at(&self, layout: Layout, place: usize) -> SplitBytes<'_>
        requires block { IsBlock (widths_of layout) self.now }
        requires place { place < self.now.count }
        ensures { result ≡ bytes_of_row self.now.pattern
            (row_in (row_width (widths_of layout) self.now.pattern) self.now.bytes.items place) }
    {
        let rows = self.bytes.as_slice();
        match &self.pattern {
            None => SplitBytes::whole(row_at(rows, layout.bytes(), place)),
            Some(pattern) => SplitBytes::of(
                pattern.segments.as_slice(),
                pattern.base.as_slice(),
                row_at(rows, pattern.width, place),
            ),
        }
    }

    /// Returns the state at a place.
    pub(crate) fn at(&self, layout: Layout, place: usize) -> Row<'_>
        requires block { IsBlock (widths_of layout) self.now }
        requires place { place < length (states_of (widths_of layout) self.now) }
        ensures { slice_get (states_of (widths_of layout) self.now) place ≡ Some result }
    {
        let bytes = self.bytes_at(layout, place);
        Row::of(layout.atoms(), layout.fluents(), bytes)
    }

    /// Adds a state's bytes. It does not allocate.
    pub(crate) fn push(&mut self, bytes: &[u8])
        requires room { vec_len self.old.bytes + length bytes.now ≤ vec_capacity self.old.bytes }
        requires few { self.old.count < CHUNK }
        ensures bytes { self.new.bytes.items ≡ self.old.bytes.items ++ bytes.now }
        ensures pattern { self.new.pattern ≡ self.old.pattern }
        ensures count { self.new.count ≡ self.old.count + 1 }
        ensures capacity { vec_capacity self.old.bytes ≤ vec_capacity self.new.bytes }
    {
        match self.bytes.extend_from_slice(bytes) {
            Ok(()) => self.count += 1,
            Err(_) => unreachable!(),
        }
    }

    /// Rewrites a full block so that its states share the bytes in which they agree, if that saves
    /// half of it. The states stay as they are; without memory for it the block does too.
    pub(crate) fn thin(&mut self, alloc: Global, layout: Layout)
        requires { IsBlock (widths_of layout) self.old }
        ensures block { IsBlock (widths_of layout) self.new }
        ensures states { states_of (widths_of layout) self.new
            ≡ states_of (widths_of layout) self.old }
    {
        if self.count < CHUNK || self.pattern.is_some() {
            return;
        }
        if let Ok(Some(block)) = thinned(alloc, layout, self) {
            *self = block;
        }
    }
}
