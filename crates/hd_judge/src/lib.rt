//! Judges plans of a lifted task step by step: their cost, or their first error and its reason.
//!
//! [`begin`] returns the place where each plan begins. [`judge_step`] takes a step and moves the
//! place exactly as the step does, or reports the first error of the step. [`judge_goal`] reports
//! the first error of the goal, if it has one. A plan is valid by these questions or has one first
//! error, and never both ([`laws::plans_are_judged`]). The judge uses the meaning of the task
//! alone, and no grounder.
//!
//! [`explain_step`] and [`explain_goal`] do the work: they judge, and where a condition does not
//! hold or a number leaves the range, they return the [`Reason`]: the first part that fails. It
//! borrows this part from the task.
//!
//! A [`Place`] has hash tables of true atoms and of values, by ground form, and needs no grounding.
//! [`Lookups`] computes once which functions change, and the first values: the grounder looks them
//! up here too. What hd_images and hd_explain ask as well stands here: an instance's schema, a copy
//! of a ground form, whether a change adds to the cost. New values are computed beside the old
//! ones, in 128 bits. Start reading at [`judge_step`], then `specs/Validity` and `specs/Refusals`.
#![tactic(auto)]

mod asking;
mod atoms;
mod changed;
mod changes;
mod comparison;
mod condition;
mod effect;
mod expression;
mod fault;
mod instances;
mod judging;
pub mod laws;
mod lookups;
mod negative;
mod place;
mod reason;
mod refusal;
mod step;
mod table;
mod undefined;

pub use asking::explain_goal;
pub use changed::is_cost;
pub use fault::{PlanFault, PlanStop};
pub use instances::schema_of;
pub use judging::{begin, explain_step, judge_goal, judge_step};
pub use lookups::Lookups;
pub use negative::costs_negative;
pub use reason::{DepartingPart, NewValue, Reason, StepCost};
pub use refusal::PlanRefusal;
pub use table::{Place, copy_of};
pub use undefined::undefined_schema;
