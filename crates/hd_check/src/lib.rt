//! Checks the names, types and metric of a domain and a problem, and builds their lifted task.
//!
//! [`check`] returns a task only if the texts have no error, and then exactly their lifted task,
//! with each name as a number. Otherwise it reports the first error in the order of the texts, at
//! its place. One exception: of several types on cycles, the contract allows any. No two texts have
//! both a task and an error ([`laws::faults_leave_no_task`]).
//!
//! The parts are checked in the order of their errors: domain name, types, declarations, actions,
//! problem, metric. Each part takes over what the one before found. The tables of names are those
//! of hd_names, and hash by a seed that changes no answer. Start reading at [`check`], then
//! `specs/Whole`.
#![tactic(auto)]

mod checking;
mod conditions;
mod context;
mod effects;
mod expressions;
mod fault;
mod initial;
mod keys;
pub mod laws;
mod metric;
mod schemas;
mod terms;

pub use checking::check;
pub use fault::{CheckError, CheckFault, Source};
pub use hd_lifted::Checked;
pub use hd_metric::BadMetric;
pub use hd_names::NameFault;
