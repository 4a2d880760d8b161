//! Finds the actions that may apply at a state, without trying each action of the task.
//!
//! [`Successors::mark`] marks exactly the candidates at a state, and [`Successors::next`] returns
//! the first marked action from a number on. An action that is not a candidate neither applies nor
//! departs there ([`laws::candidates_suffice`]).
//!
//! Each action watches two atoms that its condition asks to be true. It is a candidate exactly if
//! both are true; an action that asks for no true atom always is. Chains link the actions that
//! watch an atom first, so that `mark` visits only the chains of true atoms.
//!
//! Start reading at [`Successors`], then `src/watches.rt`.
#![tactic(auto)]

pub mod laws;
mod marks;
mod successors;
mod watches;
mod watching;

pub use successors::Successors;
pub use watching::WatchedAtoms;
