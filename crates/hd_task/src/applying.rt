//! What an action does in a state, and whether the goal holds there.
ghost use Rattle.std.specs.Prelude.{◌≡◌, ◌<◌, true, length, fold, slice_set, IfOk};
ghost use Rattle.hd_task.specs.Effects.{atoms_after};
ghost use Rattle.hd_task.specs.Judging.{JudgesFluents, JudgesStepCost};
ghost use Rattle.hd_task.specs.Plans.{IsStateOf};
ghost use Rattle.hd_task.specs.Applying.{test_of, goal_of, applied_of, applied_at, fits_task};

use crate::condition::test_of;
use crate::effect::{new_value, sum_of_costs};
use crate::{Action, ActionId, Reads, State, Task};
use hd_base::{NoMemory, Sequence};
use std::alloc::Global;

/// What an action does in a state.
#[derive(Debug, PartialEq, Eq, Drop)]
pub enum Applied {
    /// Its condition does not hold.
    No,
    /// The state after it, and what it costs.
    Next(State, u128),
    /// A number leaves the range.
    Departs,
}

/// Whether the goal holds in a state.
#[derive(Clone, Copy, Debug, PartialEq, Eq)]
pub enum GoalTest {
    Yes,
    No,
    /// A number leaves the range.
    Departs,
}

fn set_each(bits: &mut Vec<bool>, places: &[u32], value: bool)
    ensures { bits.new.items ≡ fold (λ b i. slice_set b i value) bits.old.items places.now }
{
    for place in places {
        let i = *place as usize;
        if i < bits.len() {
            bits[i] = value;
        }
    }
}

/// Returns the atoms after an action.
fn atoms_after(
    alloc: Global,
    task: &Task,
    state: &State,
    action: &Action,
) -> Result<Vec<bool>, NoMemory>
    requires { IsStateOf task.now state.now }
    ensures { IfOk result (λ v. v.items ≡ atoms_after task.now state.now action.now) }
{
    let mut bits = Vec::from_slice(alloc, state.atoms.as_slice())?;
    set_each(&mut bits, action.deletes.as_slice(), false);
    set_each(&mut bits, action.adds.as_slice(), true);
    Ok(bits)
}

/// Returns the values after an action, unless a subexpression or a new value leaves the range.
fn fluents_after(
    alloc: Global,
    task: &Task,
    state: &State,
    action: &Action,
) -> Result<Option<Sequence<i64>>, NoMemory>
    requires of_task { IsStateOf task.now state.now }
    requires fits { fits_task task.now action.now ≡ true }
    ensures { IfOk result (JudgesFluents task.now state.now action.now) }
{
    let mut next = Vec::from_slice(alloc, state.fluents.as_slice())?;
    for effect in action.effects.as_slice() {
        let Some(value) = new_value(state, effect) else {
            return Ok(None);
        };
        let fluent = effect.fluent as usize;
        if fluent < next.len() {
            next[fluent] = value;
        }
    }
    Ok(Some(Sequence::from_vec(next)))
}

/// Returns the cost of a step, by the values before it, unless a subexpression of it leaves the
/// range or it is negative.
#[tactic(auto, unfolding(crate::specs::Effects::step_cost))]
pub fn step_cost<R: Reads>(task: &Task, state: &R, action: &Action) -> Option<u128>
    ensures { JudgesStepCost task.now (R.seen state.now) action.now result }
{
    let sum = sum_of_costs(state, action.costs.as_slice())?;
    if task.metric {
        u128::try_from(sum).ok()
    } else {
        Some(1)
    }
}

/// Returns what an action does if its condition holds.
#[tactic(auto, unfolding(crate::specs::Applying::test_of, crate::specs::Applying::applied_of, crate::specs::Applying::departs_aside, crate::specs::Effects::effects_stay, crate::specs::Effects::state_after))]
fn take_effect(
    alloc: Global,
    task: &Task,
    state: &State,
    action: &Action,
) -> Result<Applied, NoMemory>
    requires holds { test_of state.now action.now.condition ≡ GoalTest.Yes }
    requires of_task { IsStateOf task.now state.now }
    requires fits { fits_task task.now action.now ≡ true }
    ensures { IfOk result (λ r. r ≡ applied_of task.now state.now action.now) }
{
    let Some(cost) = step_cost(task, state, action) else {
        return Ok(Applied::Departs);
    };
    let Some(fluents) = fluents_after(alloc, task, state, action)? else {
        return Ok(Applied::Departs);
    };
    let atoms = atoms_after(alloc, task, state, action)?;
    let next = State {
        atoms: Sequence::from_vec(atoms),
        fluents,
    };
    Ok(Applied::Next(next, cost))
}

/// Returns what an action does in a state, the sum of a plan's cost aside (with it:
/// [`crate::step`]).
///
/// It takes a copy of the state, and time in the action's own size.
///
/// # Errors
/// - `NoMemory`: there is no room for the state after it.
#[tactic(auto, unfolding(crate::specs::Applying::test_of, crate::specs::Applying::applied_of, crate::specs::Applying::departs_aside))]
pub fn apply(
    alloc: Global,
    task: &Task,
    state: &State,
    action: ActionId,
) -> Result<Applied, NoMemory>
    requires known { action.0 < length task.now.actions }
    requires of_task { IsStateOf task.now state.now }
    ensures answer { IfOk result (λ r. r ≡ applied_at task.now state.now action.0) }
{
    let action = &task.actions.as_slice()[action.0 as usize];
    match test_of(state, &action.condition) {
        GoalTest::No => Ok(Applied::No),
        GoalTest::Departs => Ok(Applied::Departs),
        GoalTest::Yes => take_effect(alloc, task, state, action),
    }
}

/// Reports whether the goal holds in a state, or departs there. It does not allocate.
pub fn goal(task: &Task, state: &State) -> GoalTest
    requires of_task { IsStateOf task.now state.now }
    ensures answer { result ≡ goal_of task.now state.now }
{
    test_of(state, &task.goal)
}
