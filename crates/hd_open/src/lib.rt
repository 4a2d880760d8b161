//! Keeps the open list of a worker: the nodes that wait to be expanded, in the order of arrival.
//!
//! Contracts see a list. [`OpenList::best`] returns the place of the least total (cost plus
//! estimate), the oldest first; nodes without a total come last. [`OpenList::push`] adds at the
//! end, or gives the node back. [`OpenList::remove`] and [`OpenList::take_best`] take out one node.
//!
//! Nodes lie in slots by arrival, and a taken node leaves an empty slot. If no slot is left and
//! fewer than half hold a node, the nodes are moved together. Small totals have a bucket each,
//! larger ones are in a sorted set; stale entries are dropped when met. A binary indexed tree over
//! groups of 64 slots finds places. Start reading at [`OpenList`], then at `specs/Open`.
#![tactic(auto)]

mod arrivals;
mod compacting;
mod counts;
mod marks;
mod open;
mod queue;
mod slots;
mod waits;

pub use open::OpenList;
pub use waits::Waits;
