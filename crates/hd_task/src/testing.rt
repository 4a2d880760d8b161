//! What an action does in a state, without the state after it.
ghost use Rattle.std.specs.Prelude.{◌≡◌, ◌<◌, length};
ghost use Rattle.std.specs.List.{list_all};
ghost use Rattle.hd_task.specs.Effects.{effect_stays};
ghost use Rattle.hd_task.specs.Plans.{IsStateOf};
ghost use Rattle.hd_task.specs.Applying.{test_of, applied_of};
ghost use Rattle.hd_task.specs.ActionTest.{tested, action_test_at};

use crate::applying::step_cost;
use crate::condition::test_of;
use crate::effect::new_value;
use crate::{Action, ActionId, Effect, GoalTest, State, Task};

/// What an action does in a state, without the state after it.
#[derive(Clone, Copy, Debug, PartialEq, Eq)]
pub enum ActionTest {
    /// Its condition does not hold.
    No,
    /// It leads to a state, and costs this.
    Costs(u128),
    /// A number leaves the range.
    Departs,
}

/// Reports whether the effects' subexpressions and new values stay in the range.
fn do_effects_stay(state: &State, effects: &[Effect]) -> bool
    ensures { result ≡ list_all (effect_stays state.now.fluents) effects.now }
{
    effects
        .iter()
        .all(|effect| new_value(state, effect).is_some())
}

/// Returns what an action does if its condition holds, without the state after it.
#[tactic(auto, unfolding(crate::specs::Applying::test_of, crate::specs::Applying::applied_of, crate::specs::Applying::departs_aside, crate::specs::Effects::effects_stay))]
fn effect_test(task: &Task, state: &State, action: &Action) -> ActionTest
    requires holds { test_of state.now action.now.condition ≡ GoalTest.Yes }
    ensures { result ≡ tested (applied_of task.now state.now action.now) }
{
    let Some(cost) = step_cost(task, state, action) else {
        return ActionTest::Departs;
    };
    if do_effects_stay(state, action.effects.as_slice()) {
        ActionTest::Costs(cost)
    } else {
        ActionTest::Departs
    }
}

/// Returns what an action does in a state, the sum of a plan's cost aside: what [`crate::apply`]
/// answers, without the state after the action. It does not allocate.
#[tactic(auto, unfolding(crate::specs::Applying::test_of, crate::specs::Applying::applied_of, crate::specs::Applying::departs_aside))]
pub fn action_test(task: &Task, state: &State, action: ActionId) -> ActionTest
    requires known { action.0 < length task.now.actions }
    requires of_task { IsStateOf task.now state.now }
    ensures answer { result ≡ action_test_at task.now state.now action.0 }
{
    let action = &task.actions.as_slice()[action.0 as usize];
    match test_of(state, &action.condition) {
        GoalTest::No => ActionTest::No,
        GoalTest::Departs => ActionTest::Departs,
        GoalTest::Yes => effect_test(task, state, action),
    }
}
