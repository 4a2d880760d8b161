//! Creates and opens journals on a store, appends whole groups of entries to them, and makes new
//! ones of given entries.
//!
//! [`Journal::append`] adds exactly its group, or returns it with an error. After `Device`, only a
//! later [`Journal::open`] shows if the group stays. If nothing was pending, a stop at any moment
//! leaves the groups before, or these and the whole new one, and `open` finds exactly these.
//! [`copy`] makes a journal of exactly the given entries, at every moment one of a prefix.
//! [`salvage`] returns what damaged bytes are, or exactly the groups before the damage.
//!
//! A group is written after a closed gate and synced; only then is the gate opened, and synced too.
//! `open` closes the last gate if it is not closed, and cuts off what follows. Contracts list the
//! device calls, in order. A [`Group`] is linear, and only `append` makes a [`Flushed`]. Start
//! reading at [`Journal::append`], then at `specs/Moments`, `specs/Copy` and `specs/Salvage`.
#![tactic(auto)]

mod append;
mod copying;
mod create;
mod error;
mod group;
mod grouping;
mod journal;
mod kids;
pub mod laws;
mod mending;
mod open;
mod salvaging;
mod strokes;

pub use copying::copy;
pub use error::JournalError;
pub use group::{Flushed, Group};
pub use hd_image::{DIGEST_LEN, Entry, Found, ImageError, Kid, MAX_GROUP};
pub use journal::Journal;
pub use salvaging::{Salvaged, salvage};
