//! Decides what a journal's entries show by themselves: an optimal plan, no plan, or nothing.
//!
//! [`certify`] returns exactly what the entries show, and that is true, no matter who wrote them.
//! Else it reports too many entries, the first one that makes no legal list with those before it,
//! or `NoMemory`. [`survey`] returns the counts and the best plan of a search, finished or not.
//!
//! Both calls rebuild the entries by hd_entries, without a worker or a book; [`kids_of`] makes its
//! list of a journal's entries. Then they check each generated node that is no entry, at most once:
//! is it dominated by an entry, or pruned by the bound? A closed list answers the first by hash,
//! and keeps the estimates for the second.
//!
//! Start reading at [`certify`], then `specs/Certificate.antt`.
#![tactic(auto)]

mod certified;
mod certifying;
mod covering;
mod error;
mod gathering;
pub mod laws;
mod naming;
mod resuming;
mod surveyed;
mod surveying;
mod tables;

pub use certified::Certified;
pub use certifying::certify;
pub use error::RecoverError;
pub use hd_journal::{Entry, Kid};
pub use naming::certified_kids;
pub use resuming::{fault_at, kids_of};
pub use surveyed::{Survey, ValueCount};
pub use surveying::survey;
