//! Hashes states, and selects the worker that owns the states of a hash.
//!
//! [`Words::hash`] returns the hash of a state. [`Words::update`] returns the hash after changes:
//! if these lead from a state with the old hash to another state, it is that state's hash from
//! scratch. [`owner`] returns the hash modulo the number of workers.
//!
//! A hash is the exclusive or of a word for each true atom and a word for each fluent with its
//! value (Zobrist 1970). So an update costs only what a step changed. The words are SplitMix64's,
//! so a hash is the same on every machine and in every run.
//!
//! Start reading at [`Words`], then `specs/Hash.antt`.
#![tactic(auto)]

mod change;
pub mod laws;
mod owners;
mod words;

pub use change::Change;
pub use owners::{MAX_WORKERS, owner};
pub use words::Words;
