//! Implements a worker of a search: open nodes, closed list, outcomes, and parcels for others.
//!
//! Each call does what hd_turns defines, and changes nothing if memory is refused.
//! [`Worker::expand_best`] settles the open node of least total, the oldest of equal ones.
//! [`Worker::next_batch`] returns the first outcomes, at most `MAX_OUTCOMES`, as a batch.
//!
//! A new parcel waits in a queue until it is estimated, with others as a group. Then it is an open
//! node, whose state stands only in the closed list. `next_batch` makes the room for what the batch
//! releases, so [`Worker::released`] does not allocate. No call takes a lock or waits.
//!
//! Start reading at [`Worker`], then `src/judging.rt`, which settles a node.
#![tactic(auto)]

mod arriving;
mod batching;
mod deque;
mod expanding;
mod frontier;
mod judging;
mod lookup;
mod node;
mod releasing;
mod total;
mod worker;

pub use lookup::Lookup;
pub use worker::Worker;
