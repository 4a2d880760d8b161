//! What entries show of their task.
use hd_task::Plan;

/// What entries show of their task.
#[derive(Debug, Drop)]
pub enum Certified {
    /// The plan is valid, and no valid plan costs less.
    Optimal(Plan),
    /// No plan is valid.
    NoPlan,
}
