//! Keeps the closed list of a worker: the states that it met, and the expansions that it knows of.
//!
//! [`ClosedList::dominating`] names an expansion of a state at no greater cost, exactly if there is
//! one. [`ClosedList::place_of`] returns the place of a state, and adds a new one.
//! [`ClosedList::estimate`] returns its h-max; [`ClosedList::estimate_from`] computes that of new
//! states in groups, and [`ClosedList::estimate_at`] that of the states at some places.
//! [`ClosedList::number`] names a batch's expansions by their entries.
//!
//! The states stand packed in blocks of 1,024. A hash table with chains finds them by the upper half
//! of the hash, since the lower bits may select the owner. A note keeps what is known of a state.
//!
//! Start reading at [`ClosedList`], then `src/notes.rt`.
#![tactic(auto)]

mod closed;
mod notes;
mod numbering;
mod picked;
mod short;
mod stretch;

pub use closed::ClosedList;
pub use numbering::numbered;
