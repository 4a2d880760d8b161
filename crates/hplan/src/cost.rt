//! What a plan costs.
ghost use Rattle.std.specs.Prelude.{◌≡◌, true, false, Some, IfOk, IfSome, MatchOption};
ghost use Rattle.hd_task.specs.Plans.{IsStateOf, Node, node, exec, step_by};
ghost use Rattle.hd_task.specs.Expansions.{is_applicable};
ghost use Rattle.hplan.specs.PlanText.{goes_through};

use hd_base::NoMemory;
use hd_task::{ActionId, Plan, Reached, State, Task, step};
use std::alloc::Global;

/// Returns the state and the cost that `action` leads to, if it is applicable at this node.
fn step_from(
    alloc: Global,
    task: &Task,
    state: &State,
    cost: u64,
    action: ActionId,
) -> Result<Option<(State, u64)>, NoMemory>
    requires { IsStateOf task.now state.now }
    ensures step { IfOk result (λ next. MatchOption next
        (is_applicable task.now (Some (node state.now cost)) action.0 ≡ false)
        (λ n. (is_applicable task.now (Some (node state.now cost)) action.0 ≡ true)
        × (step_by task.now (node state.now cost) action.0 ≡ Some (node n.0 n.1)))) }
    ensures of_task { IfOk result (λ next. IfSome next (λ n. IsStateOf task.now n.0)) }
{
    if action.0 as usize >= task.actions.len() {
        return Ok(None);
    }
    match step(alloc, task, state, cost, action)? {
        Reached::No => Ok(None),
        Reached::Departs => Ok(None),
        Reached::Next(next, total) => Ok(Some((next, total))),
    }
}

/// Returns what a plan costs, if each of its steps is applicable.
pub fn cost_of(alloc: Global, task: &Task, plan: &Plan) -> Result<Option<u64>, NoMemory>
    ensures { IfOk result (λ found. MatchOption found
        (goes_through task.now plan.now ≡ false)
        (λ c. (r : Node) × (exec task.now plan.now ≡ Some r) × (r.cost ≡ c))) }
{
    let mut state = task.initial.copied(alloc)?;
    let mut cost = 0;
    let mut rest = plan.as_slice();
    while let [first, after @ ..] = rest {
        match step_from(alloc, task, &state, cost, *first)? {
            Some((next, more)) => {
                state = next;
                cost = more;
                rest = after;
            }
            None => return Ok(None),
        }
    }
    Ok(Some(cost))
}
