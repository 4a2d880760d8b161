//! The planner hplan as a library: the commands of the program, and the program itself.
//!
//! If [`solve`] succeeds, it has written exactly the plan, if any, of a true answer to the two
//! texts. [`solve_kept`] answers what the entries in its file show when it returns. [`validate`],
//! [`certify`] and the other commands write exactly what their definitions say.
//! [`laws::written_plans_are_valid`]: a plan that a search has written is valid, at its cost.
//!
//! [`command`] reads the arguments and the files, and calls one of these. All files come from
//! [`Places`], so tests use a [`Shelf`] in memory. `solve` grounds the texts by hd_texts and
//! searches by hd_search. Error lines, explanations (hd_hints) and the statuses of `command` are
//! tested only.
//! Start reading at [`command`], then at `src/engine.rt` and `specs/Answer`.
#![tactic(auto)]

mod account;
mod certifying;
mod cost;
mod engine;
mod fault;
mod given;
mod grounding;
mod hinting;
mod host;
mod inspecting;
mod kept;
pub mod laws;
mod migrating;
mod naming;
mod noted;
mod output;
mod places;
mod program;
mod reading;
mod reasons;
mod replaying;
mod statistics;
mod streams;
mod survey_text;
mod surveying;
mod text;
mod told;
mod tracing;
mod trouble;
mod validating;
mod watching;

pub use account::Account;
pub use certifying::certify;
pub use engine::{solve, solve_kept};
pub use fault::Fault;
pub use grounding::ground;
pub use hd_texts::{Source, TaskFault};
pub use hd_words::Search;
pub use host::{Host, NoHost, System, SystemHost};
pub use inspecting::inspect;
pub use kept::Start;
pub use migrating::{Extent, migrate};
pub use places::{Places, Shelf, SystemFiles};
pub use program::{command, start};
pub use reasons::explain;
pub use replaying::replay;
pub use surveying::survey;
pub use told::Ending;
pub use tracing::trace;
pub use trouble::{Failure, Trouble};
pub use validating::validate;
