//! Steps: what an action does at a node, with the plan's cost.
ghost use Rattle.std.specs.Prelude.{◌≡◌, ◌<◌, length, IfOk};
ghost use Rattle.hd_task.specs.Plans.{IsStateOf, node};
ghost use Rattle.hd_task.specs.Stepping.{step_at, IsStepAnswer};

use crate::{ActionId, Applied, State, Task, apply};
use hd_base::{NoMemory, total_cost};
use std::alloc::Global;

/// Where an action leads from a node: a state with the cost of the plan that led there.
#[derive(Debug, PartialEq, Eq, Drop)]
pub enum Reached {
    /// Nowhere: its condition does not hold.
    No,
    /// The state after it, and the cost of the plan with it, which is in the range.
    Next(State, u64),
    /// A number leaves the range, or the plan's cost does.
    Departs,
}

/// Returns what an action does at a node, with the plan's cost.
///
/// It takes a copy of the state, and time in the action's own size.
///
/// # Errors
/// - `NoMemory`: there is no room for the state after it.
pub fn step(
    alloc: Global,
    task: &Task,
    state: &State,
    cost: u64,
    action: ActionId,
) -> Result<Reached, NoMemory>
    requires known { action.0 < length task.now.actions }
    requires of_task { IsStateOf task.now state.now }
    ensures answer { IfOk result (λ r. r ≡ step_at task.now (node state.now cost) action.0) }
    // It goes on exactly where the action is applicable, to where its step leads, and departs
    // exactly where it does.
    ensures says { IfOk result (IsStepAnswer task.now (node state.now cost) action.0) }
{
    match apply(alloc, task, state, action)? {
        Applied::No => Ok(Reached::No),
        Applied::Departs => Ok(Reached::Departs),
        Applied::Next(next, step) => match total_cost(cost, step) {
            Some(total) => Ok(Reached::Next(next, total)),
            None => Ok(Reached::Departs),
        },
    }
}
