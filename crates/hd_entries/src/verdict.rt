//! What a book answers when all is settled.
use hd_task::{Departure, Plan};

/// What a book answers when all is settled.
#[derive(Debug, Drop)]
pub enum Verdict {
    /// The plan is valid, and no valid plan costs less.
    Optimal(Plan),
    /// No plan is valid.
    NoPlan,
    /// A number left the range at this departure, the first; with the best plan that was found, if
    /// there is one.
    RangeLeft(Departure, Option<Plan>),
}
