//! Finds the first misuse of the function that a metric names, in a domain and in a problem.
//!
//! [`misused_in_domain`] and [`misused_in_problem`] return exactly the first misuse with its place,
//! or `None`. Without a metric there is none. An effect may only increase the function, and no
//! condition, amount or goal may read it. The problem has to give it the first value 0.
//!
//! Each call walks the syntax tree and stops at the first misuse. In a domain it goes through the
//! actions in order, the condition before the effect. In a problem it asks for a value other than
//! 0, then for the goal, then for a missing value. It compares names and does not allocate. Start
//! reading at [`misused_in_domain`], then `specs/Metric`.
#![tactic(auto)]

mod fault;
mod metric;

pub use fault::BadMetric;
pub use metric::{misused_in_domain, misused_in_problem};
