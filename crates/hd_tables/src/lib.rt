//! Tables of a search that grow without copying what is there: lists, packed states and nodes.
//!
//! Contracts see [`Chunks`] and [`Bits`] as a list and its room: the number of pushes that need no
//! memory. They see [`RowBlocks`] as a list of states, a [`Row`] or a [`Draft`] as a state, and a
//! [`KidTable`] as the generated nodes in posting order, each with a mark. [`Draft::follow`] makes
//! the draft the state after an applicable action, and returns the new cost.
//! [`KidTable::place_of`] returns the place of a node, exactly if it is posted.
//!
//! Items stand in chunks of [`CHUNK`] each; a growth adds chunks, and moves only the list of
//! chunks. No state has an allocation of its own, and the states of a full block share the bytes in
//! which they agree if that saves half, such as those of atoms and fluents that no action changes.
//! A node takes four bytes and a bit, and an entry eight bytes. The successors of an entry stand
//! side by side, and their actions rise, so `place_of` is a binary search among them. Of the lists
//! only `new` and `reserve` allocate.
//!
//! Start reading at [`Chunks`], then at [`RowBlocks`] and [`KidTable`].
#![tactic(auto)]

mod bits;
mod block;
mod blocks;
mod chunks;
mod draft;
mod iter;
pub mod kid_laws;
mod row;
mod search;
mod table;
mod thin;

pub use bits::Bits;
pub use blocks::RowBlocks;
pub use chunks::{CHUNK, Chunks, MOST_ITEMS};
pub use draft::Draft;
pub use iter::Iter;
pub use row::Row;
pub use table::KidTable;
