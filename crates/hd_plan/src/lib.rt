//! Reads and writes plan files, and validates plans: their cost, or their first error.
//!
//! [`read_plan`] returns exactly the steps of the lines, in order, or the number of the first bad
//! line. [`write_plan`] writes exactly the text of a plan and its cost. After an error it has
//! written a prefix, which is not all, and nothing if memory ran out. Steps with names of texts are
//! read back as written ([`what_is_written_is_read_back`]).
//!
//! [`validate`] returns a cost only if the steps are a valid plan of this cost. It reports an error
//! only if that is the plan's first, in the order of the questions of hd_judge. A plan of a checked
//! task never has both a cost and an error, and always one of them
//! ([`laws::named_plans_are_judged`]).
//!
//! The reader takes one line at a time and cuts it into tokens by hd_lex, which defines names. The
//! writer builds the whole text before it writes a byte. [`Watched`] notes each error of its
//! writer; `write_plan` reports only an error that is noted. [`TaskNames`] has hash tables from
//! names to numbers; [`instance_of`] looks up a step in them, and hd_judge judges the instance. No
//! grounder and no search takes part. Start reading at [`validate`], then `specs/Plans` and
//! `specs/Text`.
#![tactic(auto)]

mod error;
mod law;
pub mod laws;
mod line;
mod names;
mod output;
mod read;
mod step;
mod steps;
mod telling;
mod text_error;
mod texts;
mod validating;
mod write;

pub use error::PlanError;
pub use law::{each_text_reads_or_has_a_bad_line, what_is_written_is_read_back};
pub use names::TaskNames;
pub use output::{Watched, WriteFault, put};
pub use read::read_plan;
pub use step::Step;
pub use steps::instance_of;
pub use text_error::PlanTextError;
pub use validating::validate;
pub use write::{plan_text, write_plan};
