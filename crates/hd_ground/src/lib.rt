//! Turns a checked lifted task into the ground task that is searched.
//!
//! [`ground`] returns only the grounding of the task (`IsGrounding`). It reports only a real error:
//! `TooMany`; else the first fluent without a first value; else the first action whose constant
//! cost is negative. `NoMemory` says nothing of the task.
//!
//! It counts before it builds: reachable actions (hd_reach), then atoms and fluents in sorted order
//! (hd_images). If a limit is exceeded, or an error is found, it builds no action. Hash tables use
//! a given seed, which changes no answer. Start reading at [`ground`], then at `src/counting.rt`
//! and `src/making.rt`.
#![tactic(auto)]

mod amounts;
mod counting;
mod error;
mod faults;
mod grounding;
mod making;

pub use error::GroundError;
pub use grounding::ground;
