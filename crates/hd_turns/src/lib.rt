//! Defines each call of a worker on plain lists, and has the laws about its batches.
//!
//! If all that a worker holds is true of a book, the book can refuse its batch only because a node
//! was settled before ([`laws::batches_are_admissible`]). Each call keeps this, if what it is given
//! is true ([`laws::calls_stay_true`]). So do an accepted batch ([`laws::commits_stay_true`]) and
//! the growth of the book ([`laws::truth_stays`]).
//!
//! A worker is a record of lists, and a call is an equation or a relation on it. hd_worker
//! implements the calls. A law is a function that does nothing: its contract is the law.
//!
//! Start at `specs/Calls.antt`, then `specs/Truth.antt` and [`laws`].
#![tactic(auto)]

pub mod laws;
