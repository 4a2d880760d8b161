//! Explains plans as text: why one is refused, in one line, and what the steps of one do.
//!
//! [`explain`] returns a line exactly if the first error of the plan (hd_plan) is a condition
//! or goal that does not hold, or a departure. The line is the text of the reason of that error: a
//! literal, an equality, a comparison, a subexpression, a new value or a cost. Otherwise it returns
//! `None`: the plan is valid, or its error needs no reason.
//!
//! It takes the plan's steps by hd_judge, which says why it refuses a step or the goal.
//! [`text_of`] prints such a reason with the values where the plan leads.
//!
//! [`trace`] returns lines for each step before the first that has an error: its action, the cost
//! so far, and its effects. It reads the fluents that a step changes before hd_judge takes the step
//! in place. Start reading at [`explain`], then `specs/Plans` and `specs/Traces`.
#![tactic(auto)]

mod plan;
mod reading;
mod text;
mod tracing;

pub use plan::explain;
pub use reading::{Reading, readings_of};
pub use text::text_of;
pub use tracing::trace;
