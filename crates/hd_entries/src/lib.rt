//! Holds the entries of a search and the nodes that they generate, and judges each batch.
//!
//! [`Entries::commit`] takes a batch only if it is justified (`refusal_to`), and then grows by
//! exactly the batch. Else nothing changes. [`Entries::verdict`] answers exactly if all is settled,
//! memory aside, and the answer is true. [`Entries::resume`] rebuilds exactly the given entries.
//! [`Entries::open_at`] makes the nodes that are not settled again, one by one. [`Entries::enter`]
//! rebuilds one entry, and gives its children with their states.
//!
//! A commit makes all its room first. Then it judges each outcome by applying the node's action to
//! its parent's state. A refusal takes the marks back. States and nodes stand in blocks, and no
//! growth moves them; a full block of states is rewritten once, so that it takes less. `resume`
//! makes the states of entries alone: of the other nodes it only tests whether their actions lead
//! on (`src/recording.rt`).
//!
//! Start reading at [`Entries`], then `specs/Settling.antt`, `specs/Resuming.antt` and [`laws`].
#![tactic(auto)]

mod admission;
mod answering;
mod commit;
mod content;
mod entries;
mod entry;
mod expanded;
mod hashed_row;
mod hearing;
pub mod laws;
mod opening;
mod recording;
mod refusal;
mod releasing;
mod resuming;
mod settling;
mod table;
mod verdict;

pub use entries::Entries;
pub use hashed_row::HashedRow;
pub use hearing::{Listener, Unheard};
pub use refusal::Refusal;
pub use releasing::Parcels;
pub use verdict::Verdict;
