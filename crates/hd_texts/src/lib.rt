//! Reads, checks and grounds the bytes of a domain and a problem.
//!
//! [`checked_of`] returns the lifted task of two texts, and [`task_of`] its grounding. Each reports
//! only a real error ([`TaskFault`]): of the domain's reader, else of the problem's, else of the
//! checker, else (by `task_of`) of the grounder. `NoMemory` says nothing of the texts.
//!
//! [`laws`] are about printed plans: let a plan of a grounding be valid at a cost, and nothing on
//! it depart. Then its printed steps are validated in the lifted task at this cost
//! ([`laws::printed_plans_are_validated`]), and their text is read back as these steps
//! ([`laws::printed_plans_are_read_back`]).
//!
//! It calls hd_pddl, hd_check and hd_ground one after another. [`task_by`] reports this to a
//! [`Stages`]. [`digest_of`] is the SHA-256 of the domain's length and both texts. Hash tables are
//! seeded with it, to resist texts whose names collide. Start reading at [`task_of`], then at
//! `specs/Tasks` and `specs/Printing`.
#![tactic(auto)]

mod digest;
mod fault;
pub mod laws;
mod tasks;

pub use digest::{digest_of, seed_of};
pub use fault::TaskFault;
pub use hd_check::Source;
pub use tasks::{Stages, Unheard, checked_of, task_by, task_of};
