//! Expansions without the states that they lead to.
ghost use Rattle.std.specs.Prelude.{◌≡◌, Some, IfOk};
ghost use Rattle.hd_task.specs.Plans.{IsStateOf, node};
ghost use Rattle.hd_task.specs.Applying.{goal_of};
ghost use Rattle.hd_task.specs.Expansions.{applicable_at, departing_at};
ghost use Rattle.hd_successors.specs.Watching.{candidates};

use crate::exploring::goal_departure;
use crate::{Hashed, Parcel};
use hd_base::{NoMemory, Sequence};
use hd_pack::test_step;
use hd_successors::Successors;
use hd_task::{ActionId, DepartsBy, GoalTest, Kid, Task, test_of};
use std::alloc::Global;
use std::marker::Model;

/// The expansion of a parcel without the states that it leads to, which contracts see as the
/// expansion: which actions are applicable, what departs from the range, and whether the goal
/// holds.
#[derive(Debug, Drop)]
pub struct Outline<'t> {
    pub(crate) task: &'t Task,
    pub(crate) kid: Kid,
    pub(crate) state: Hashed,
    pub(crate) cost: u64,
    /// The applicable actions, in order.
    pub(crate) actions: Sequence<u32>,
    /// What departs, the goal first, then actions in order.
    pub(crate) departures: Sequence<DepartsBy>,
    pub(crate) goal: GoalTest,
    // The state has the task's widths.
    ghost of_task: { IsStateOf task.now state },
    // The actions are exactly the applicable ones.
    ghost all_actions: { actions ≡ applicable_at task.now (Some (node state cost)) },
    // The departures are exactly those at the state and cost.
    ghost all_departures: { departures ≡ departing_at task.now (Some (node state cost)) },
    // The goal's test is that of the state.
    ghost is_goal: { goal ≡ goal_of task.now state },
}

impl<'t> Model for Outline<'t> {
    ghost use Rattle.std.specs.Prelude.{refl};
    ghost use Rattle.hd_task.specs.Plans.{node};
    ghost use Rattle.hd_node.specs.Children.{children_at};
    ghost use Rattle.hd_node.specs.Expansion.{ExpansionView};
    ghost use Rattle.hd_task.specs.contracts.task.Task as tasks;
    ghost use Rattle.std.specs.Coded.{codes};

    ghost Value = { ExpansionView };

    ghost coded = { Prim.hlevel (codes, tasks.the_row.coded) };

    ghost view = { λ o. record {
      task = o.task.now;
      kid = o.kid;
      state = o.state;
      cost = o.cost;
      children = children_at o.task.now (node o.state o.cost);
      departures = o.departures;
      goal = o.goal;
      of_task = o.of_task;
      all_children = refl;
      all_departures = o.all_departures;
      is_goal = o.is_goal;
    } };
}

/// Returns which actions are applicable at a node, and what departs there, where the goal's test is
/// known and the candidates at its state are marked.
///
/// # Errors
/// - `NoMemory`: there is no room for a number for each candidate, and for the departures.
fn list_actions(
    alloc: Global,
    task: &Task,
    successors: &Successors<'_>,
    state: &Hashed,
    cost: u64,
    test: GoalTest,
) -> Result<(Sequence<u32>, Sequence<DepartsBy>), NoMemory>
    requires of_task { IsStateOf task.now state.now }
    requires index { successors.now.task ≡ task.now }
    requires marked { successors.now.marked ≡ candidates successors.now.watched state.now }
    requires is_goal { test ≡ goal_of task.now state.now }
    ensures actions { IfOk result
        (λ r. r.0 ≡ applicable_at task.now (Some (node state.now cost))) }
    ensures departs { IfOk result
        (λ r. r.1 ≡ departing_at task.now (Some (node state.now cost))) }
{
    let mut actions = Vec::with_capacity(alloc, successors.count())?;
    let mut departures = goal_departure(alloc, task, state, test)?;
    let mut from = 0;
    while let Some(action) = successors.next(from) {
        match test_step(task, state.state(), cost, ActionId(action)) {
            GoalTest::No => {}
            GoalTest::Departs => departures.push(DepartsBy::Action(action))?,
            GoalTest::Yes => actions.push(action)?,
        }
        from = action + 1;
    }
    Ok((Sequence::from_vec(actions), Sequence::from_vec(departures)))
}

impl<'t> Outline<'t> {
    /// Returns the expansion of a parcel of a task: tests the actions that may apply, by an index
    /// of the task, and the goal, at the parcel's state and cost.
    ///
    /// # Errors
    /// - `NoMemory`: there is no room for a number for each action that may apply, and for the
    ///   departures.
    pub fn of(
        alloc: Global,
        task: &'t Task,
        successors: &mut Successors<'t>,
        parcel: Parcel<'t>,
    ) -> Result<Outline<'t>, NoMemory>
        requires of_task { parcel.task ≡ task.now }
        requires index { successors.old.task ≡ task.now }
        ensures index { successors.new.task ≡ successors.old.task }
        ensures task { IfOk result (λ o. o.task ≡ task.now) }
        ensures kid { IfOk result (λ o. o.kid ≡ parcel.entry.kid) }
        ensures state { IfOk result (λ o. o.state ≡ parcel.entry.state) }
        ensures cost { IfOk result (λ o. o.cost ≡ parcel.entry.cost) }
    {
        let (kid, state, cost) = parcel.into_parts();
        let goal = test_of(state.state(), &task.goal);
        successors.mark(state.state());
        let (actions, departures) = list_actions(alloc, task, successors, &state, cost, goal)?;
        Ok(Outline {
            task,
            kid,
            state,
            cost,
            actions,
            departures,
            goal,
        })
    }

    /// Returns the successor that names the plan.
    pub fn kid(&self) -> Kid
        ensures { result ≡ self.now.kid }
    {
        self.kid
    }

    /// Returns the state that the plan leads to, with its hash.
    pub fn hashed(&self) -> &Hashed
        ensures { result.now ≡ self.now.state }
    {
        &self.state
    }

    /// Returns what the plan costs.
    pub fn cost(&self) -> u64
        ensures { result ≡ self.now.cost }
    {
        self.cost
    }

    /// Returns the applicable actions, in order.
    pub fn actions(&self) -> &[u32]
        ensures { result.now
            ≡ applicable_at self.now.task (Some (node self.now.state self.now.cost)) }
    {
        self.actions.as_slice()
    }

    /// Returns what departs, the goal first, then actions in order.
    pub fn departures(&self) -> &[DepartsBy]
        ensures { result.now ≡ self.now.departures }
    {
        self.departures.as_slice()
    }

    /// Reports whether the goal holds at the state, or departs there.
    pub fn goal(&self) -> GoalTest
        ensures { result ≡ self.now.goal }
    {
        self.goal
    }
}
