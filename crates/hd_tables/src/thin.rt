//! How the states of a full block come to share bytes.
//!
//! Nothing is proved of the bytes that are found to differ: each row is tested again when its own
//! bytes are taken.
ghost use Rattle.std.specs.Prelude.{◌≡◌, ◌<◌, ◌≤◌, None, Some, length, take, IfOk, IfSome};
ghost use Rattle.hd_tables.specs.declared.chunks.TheConstants.{CHUNK};
ghost use Rattle.hd_pack.specs.Splitting.{own_width, AreInside};
ghost use Rattle.hd_tables.specs.Widths.{state_width};
ghost use Rattle.hd_tables.specs.Rows.{states_in, AreRows};
ghost use Rattle.hd_tables.specs.Blocks.{row_state, states_of, widths_of, IsBlock, IsStateRow};

use crate::CHUNK;
use crate::block::{Block, Pattern, row_at};
use hd_base::NoMemory;
use hd_pack::{Layout, Segment, own_width, push_own};
use std::alloc::Global;

/// How many bytes are shared or kept together: those of a fluent's value.
const CELL: usize = 8;

/// Of so many rows one is looked at first, to find cells that differ.
const EVERY: usize = 16;

/// How often segments are tried. Each time a row more is known in which other bytes differ.
const TRIES: usize = 32;

/// How many segments a row has at the most. Whoever reads a byte passes those before it.
const MOST_SEGMENTS: usize = 16;

/// Reports whether two rows agree in a cell, after which they have so many others.
fn agree_in(one: &[u8], other: &[u8], cells_after: usize) -> bool
    requires { length other.now ≡ length one.now }
{
    let end = one.len().saturating_sub(cells_after.saturating_mul(CELL));
    let from = end.saturating_sub(CELL);
    one[from..end] == other[from..end]
}

/// Marks the cells in which a row differs from a base of as many bytes.
fn mark(differ: &mut [bool], base: &[u8], row: &[u8]) {
    if row.len() != base.len() {
        return;
    }
    for cell in 0..differ.len() {
        let cells_after = differ.len() - 1 - cell;
        if !differ[cell] && !agree_in(base, row, cells_after) {
            differ[cell] = true;
        }
    }
}

/// Returns of each cell whether one of every [`EVERY`] rows differs from a base in it. Cells end
/// with the row, so each value is one, and the first cell may be shorter.
fn differing(alloc: Global, rows: &[u8], base: &[u8]) -> Result<Vec<bool>, NoMemory>
    requires { 0 < length base.now }
{
    let mut differ = Vec::new(alloc);
    for _ in 0..base.len().div_ceil(CELL) {
        differ.push(false)?;
    }
    for some in rows.chunks_exact(base.len().saturating_mul(EVERY)) {
        if let Some(row) = some.get(..base.len()) {
            mark(differ.as_mut_slice(), base, row);
        }
    }
    Ok(differ)
}

/// Marks cells that do not differ too, if fewer than `gap` of them stand between two that do.
fn close_gaps(differ: &mut [bool], gap: usize) {
    let mut same = gap;
    for cell in 0..differ.len() {
        if !differ[cell] {
            same = same.saturating_add(1);
            continue;
        }
        if same < gap {
            for back in 0..same {
                let before = cell.saturating_sub(back + 1);
                differ[before] = true;
            }
        }
        same = 0;
    }
}

/// Returns the segments of a row of `width` bytes whose own bytes are the cells that differ.
fn segments_of(alloc: Global, width: usize, differ: &[bool]) -> Result<Vec<Segment>, NoMemory> {
    let mut segments = Vec::new(alloc);
    let mut segment = Segment { shared: 0, own: 0 };
    for cell in 0..differ.len() {
        let bytes_from = (differ.len() - cell).saturating_mul(CELL);
        let size = CELL - bytes_from.saturating_sub(width).min(CELL);
        if differ[cell] {
            segment.own = segment.own.saturating_add(size);
        } else {
            if segment.own > 0 {
                segments.push(segment)?;
                segment = Segment { shared: 0, own: 0 };
            }
            segment.shared = segment.shared.saturating_add(size);
        }
    }
    if segment.own > 0 {
        segments.push(segment)?;
    }
    Ok(segments)
}

/// Returns at most [`MOST_SEGMENTS`] segments of a row, among whose own bytes are the cells that
/// differ; the shorter a gap between these, the sooner it is own too.
fn few_segments_of(
    alloc: Global,
    width: usize,
    differ: &mut [bool],
) -> Result<Vec<Segment>, NoMemory> {
    let mut gap = 1usize;
    for _ in 0..usize::BITS {
        let segments = segments_of(alloc, width, differ)?;
        if segments.len() <= MOST_SEGMENTS {
            return Ok(segments);
        }
        gap = gap.saturating_mul(2);
        close_gaps(differ, gap);
    }
    Ok(Vec::new(alloc))
}

/// Returns the own bytes of the first rows of a block, and of how many rows: all, or those before one
/// that differs from the base in other bytes too.
fn own_bytes(
    alloc: Global,
    layout: Layout,
    block: &Block,
    pattern: &Pattern,
) -> Result<(Vec<u8>, usize), NoMemory>
    requires block { IsBlock (widths_of layout) block.now }
    requires whole { block.now.pattern ≡ None }
    requires inside { AreInside pattern.now.segments.items pattern.now.base.items }
    requires base { length pattern.now.base.items ≡ state_width (widths_of layout) }
    requires width { pattern.now.width ≡ own_width pattern.now.segments.items }
    ensures few { IfOk result (λ r. r.1 ≤ block.now.count) }
    ensures rows { IfOk result (λ r. AreRows (IsStateRow (widths_of layout) (Some pattern.now))
        pattern.now.width r.0.items r.1) }
    ensures states { IfOk result (λ r. states_in (row_state (widths_of layout) (Some pattern.now))
        pattern.now.width r.0.items r.1 ≡ take r.1 (states_of (widths_of layout) block.now)) }
{
    let mut bytes = Vec::with_capacity(alloc, block.count.saturating_mul(pattern.width))?;
    for place in 0..block.count {
        let row = row_at(block.bytes.as_slice(), layout.bytes(), place);
        if !push_own(
            pattern.segments.as_slice(),
            pattern.base.as_slice(),
            row,
            &mut bytes,
        )? {
            return Ok((bytes, place));
        }
    }
    Ok((bytes, block.count))
}

/// Returns a block of the same states that share the bytes in which they agree, if that saves half
/// of them.
///
/// # Errors
/// - `NoMemory`: there is no room for it.
pub(crate) fn thinned(
    alloc: Global,
    layout: Layout,
    block: &Block,
) -> Result<Option<Block>, NoMemory>
    requires block { IsBlock (widths_of layout) block.now }
    requires whole { block.now.pattern ≡ None }
    requires full { CHUNK ≤ block.now.count }
    ensures block { IfOk result (λ o. IfSome o (λ b. IsBlock (widths_of layout) b)) }
    ensures states { IfOk result (λ o. IfSome o (λ b.
        states_of (widths_of layout) b ≡ states_of (widths_of layout) block.now)) }
{
    let width = layout.bytes();
    if width == 0 {
        return Ok(None);
    }
    let rows = block.bytes.as_slice();
    let first = row_at(rows, width, 0);
    let mut differ = differing(alloc, rows, first)?;
    for _ in 0..TRIES {
        let base = Vec::from_slice(alloc, first)?;
        let segments = few_segments_of(alloc, width, differ.as_mut_slice())?;
        let Some(own) = own_width(segments.as_slice(), base.as_slice()) else {
            return Ok(None);
        };
        if own > width / 2 {
            return Ok(None);
        }
        let pattern = Pattern {
            segments,
            base,
            width: own,
        };
        let (bytes, count) = own_bytes(alloc, layout, block, &pattern)?;
        if count == block.count {
            return Ok(Some(Block {
                count,
                pattern: Some(pattern),
                bytes,
            }));
        }
        mark(differ.as_mut_slice(), first, row_at(rows, width, count));
    }
    Ok(None)
}
