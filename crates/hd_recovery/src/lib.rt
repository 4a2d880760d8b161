//! Rebuilds the book and the workers of a search from a journal's entries, to resume it.
//!
//! If [`recover`] succeeds, the entries name a legal list. The book has exactly these entries, all
//! acknowledged. Each entry is closed, and each other generated node is open, at the worker that
//! owns its state and nowhere else ([`laws::nothing_is_lost`]). All that a worker holds is true of
//! the book ([`laws::workers_are_true`]).
//!
//! hd_book expands the entries again. Then one pass gives each entry and each other generated node
//! to the owner, which the state's hash selects. hd_book makes the states of the latter again, one
//! by one, so that they are never all there beside the workers' own.
//!
//! Start reading at [`recover`], then `specs/Recovered.antt`.
#![tactic(auto)]

mod handing;
pub mod laws;
mod recovering;
mod resuming;

pub use hd_certify::RecoverError;
pub use hd_journal::Entry;
pub use recovering::{Recovered, recover};
