//! Expansions: the children and the departures of a plan.
ghost use Rattle.std.specs.Prelude.{◌≡◌, Some, map, IfOk, IfErr};
ghost use Rattle.std.specs.List.{AllByRecursion};
ghost use Rattle.hd_task.specs.Plans.{IsStateOf, node};
ghost use Rattle.hd_task.specs.Applying.{goal_of};
ghost use Rattle.hd_task.specs.Expansions.{departing_at};
ghost use Rattle.hd_zobrist.specs.Hash.{state_hash};
ghost use Rattle.hd_node.specs.Children.{ChildView, children_at};

use crate::exploring::explore;
use crate::{Child, Children, Hashed, Outline, Parcel};
use hd_base::{NoMemory, Sequence};
use hd_pack::{Packed, SpareBlocks};
use hd_successors::Successors;
use hd_task::{DepartsBy, GoalTest, Kid, Task, test_of};
use hd_zobrist::Words;
use std::alloc::Global;
use std::marker::Model;

/// The expansion of a parcel: where each applicable action leads, what departs from the range, and
/// whether the goal holds.
#[derive(Debug, Drop)]
pub struct Expansion<'t> {
    task: &'t Task,
    kid: Kid,
    state: Hashed,
    cost: u64,
    /// One for each applicable action, in order.
    children: Children,
    /// What departs, the goal first, then actions in order.
    departures: Sequence<DepartsBy>,
    goal: GoalTest,
    // The state has the task's widths.
    ghost of_task: { IsStateOf task.now state },
    // The children are exactly those of the applicable actions.
    ghost all_children: { children ≡ children_at task.now (node state cost) },
    // The departures are exactly those at the state and cost.
    ghost all_departures: { departures ≡ departing_at task.now (Some (node state cost)) },
    // The goal's test is that of the state.
    ghost is_goal: { goal ≡ goal_of task.now state },
}

impl<'t> Model for Expansion<'t> {
    ghost use Rattle.hd_node.specs.Expansion.{ExpansionView};
    ghost use Rattle.hd_task.specs.contracts.task.Task as tasks;
    ghost use Rattle.std.specs.Coded.{codes};

    ghost Value = { ExpansionView };

    ghost coded = { Prim.hlevel (codes, tasks.the_row.coded) };

    ghost view = { λ e. record {
      task = e.task.now;
      kid = e.kid;
      state = e.state;
      cost = e.cost;
      children = e.children;
      departures = e.departures;
      goal = e.goal;
      of_task = e.of_task;
      all_children = e.all_children;
      all_departures = e.all_departures;
      is_goal = e.is_goal;
    } };
}

/// The parts of an expansion with which a search goes on.
#[derive(Debug, Drop)]
pub struct ExpansionParts {
    pub kid: Kid,
    pub state: Hashed,
    pub cost: u64,
    /// One for each applicable action, in order.
    pub children: Children,
}

/// Returns the actions of children.
///
/// # Errors
/// - `NoMemory`: there is no room for them.
fn actions_of(alloc: Global, children: &[Child]) -> Result<Vec<u32>, NoMemory>
    ensures { IfOk result (λ v. v.items ≡ map (λ (c : ChildView). c.action) children.now) }
{
    let mut actions = Vec::with_capacity(alloc, children.len())?;
    for child in children {
        actions.push(child.action())?;
    }
    Ok(actions)
}

impl<'t> Expansion<'t> {
    /// Returns the expansion of a parcel of a task: tries the actions that may apply, by an index
    /// of the task, and tests the goal, at the parcel's state and cost. It takes memory once for
    /// the children's list, if there are any, for the packed states that neither stand in place
    /// nor get a spare block, and for the departures, if there are any.
    ///
    /// # Errors
    /// - The parcel and `NoMemory` if there is no room for them.
    pub fn of(
        spare: &mut SpareBlocks,
        task: &'t Task,
        words: &Words,
        successors: &mut Successors<'t>,
        parcel: Parcel<'t>,
    ) -> Result<Expansion<'t>, (Parcel<'t>, NoMemory)>
        requires of_task { parcel.task ≡ task.now }
        requires index { successors.old.task ≡ task.now }
        ensures index { successors.new.task ≡ successors.old.task }
        ensures task { IfOk result (λ e. e.task ≡ task.now) }
        ensures kid { IfOk result (λ e. e.kid ≡ parcel.entry.kid) }
        ensures state { IfOk result (λ e. e.state ≡ parcel.entry.state) }
        ensures cost { IfOk result (λ e. e.cost ≡ parcel.entry.cost) }
        ensures err { IfErr result (λ e. e.0 ≡ parcel.entry) }
    {
        let state = parcel.hashed();
        let test = test_of(state.state(), &task.goal);
        let mut children = Children::none(spare.alloc());
        match explore(
            spare,
            task,
            words,
            successors,
            state,
            parcel.cost(),
            test,
            &mut children,
        ) {
            Ok(departures) => {
                let (kid, state, cost) = parcel.into_parts();
                Ok(Expansion {
                    task,
                    kid,
                    state,
                    cost,
                    children,
                    departures,
                    goal: test,
                })
            }
            Err(error) => Err((parcel, error)),
        }
    }

    /// Returns the successor that names the plan.
    pub fn kid(&self) -> Kid
        ensures { result ≡ self.now.kid }
    {
        self.kid
    }

    /// Returns the state that the plan leads to.
    pub fn state(&self) -> &Packed
        ensures { result.now ≡ self.now.state }
    {
        self.state.state()
    }

    /// Returns the hash of that state.
    pub fn hash(&self) -> u64
        ensures { result ≡ state_hash self.now.state }
    {
        self.state.hash()
    }

    /// Returns that state with its hash.
    pub fn hashed(&self) -> &Hashed
        ensures { result.now ≡ self.now.state }
    {
        &self.state
    }

    /// Returns what the plan costs.
    pub fn cost(&self) -> u64
        ensures { result ≡ self.now.cost }
    {
        self.cost
    }

    /// Returns where each applicable action leads, in order.
    pub fn children(&self) -> &[Child]
        ensures { result.now ≡ self.now.children }
    {
        self.children.as_slice()
    }

    /// Returns what departs, the goal first, then actions in order.
    pub fn departures(&self) -> &[DepartsBy]
        ensures { result.now ≡ self.now.departures }
    {
        self.departures.as_slice()
    }

    /// Reports whether the goal holds at the state, or departs there.
    pub fn goal(&self) -> GoalTest
        ensures { result ≡ self.now.goal }
    {
        self.goal
    }

    /// Returns the parts with which a search goes on.
    pub fn into_parts(self) -> ExpansionParts
        ensures kid { result.kid ≡ self.entry.kid }
        ensures state { result.state ≡ self.entry.state }
        ensures cost { result.cost ≡ self.entry.cost }
        ensures children { result.children ≡ self.entry.children }
        // Each child's state is one of the task.
        ensures of_task { AllByRecursion (λ (c : ChildView). IsStateOf self.entry.task c.state)
            result.children }
    {
        let Expansion {
            kid,
            state,
            cost,
            children,
            ..
        } = self;
        ExpansionParts {
            kid,
            state,
            cost,
            children,
        }
    }

    /// Returns the outline of the expansion, and its children.
    ///
    /// # Errors
    /// - `NoMemory`: there is no room for a number for each child.
    pub fn outlined(self, alloc: Global) -> Result<(Outline<'t>, Children), NoMemory>
        ensures task { IfOk result (λ r. r.0.task ≡ self.entry.task) }
        ensures kid { IfOk result (λ r. r.0.kid ≡ self.entry.kid) }
        ensures state { IfOk result (λ r. r.0.state ≡ self.entry.state) }
        ensures cost { IfOk result (λ r. r.0.cost ≡ self.entry.cost) }
        ensures children { IfOk result (λ r. r.1 ≡ self.entry.children) }
        // Each child's state is one of the task.
        ensures of_task { IfOk result (λ r.
            AllByRecursion (λ (c : ChildView). IsStateOf self.entry.task c.state) r.1) }
    {
        let actions = actions_of(alloc, self.children.as_slice())?;
        let Expansion {
            task,
            kid,
            state,
            cost,
            children,
            departures,
            goal,
            ..
        } = self;
        let outline = Outline {
            task,
            kid,
            state,
            cost,
            actions: Sequence::from_vec(actions),
            departures,
            goal,
        };
        Ok((outline, children))
    }
}
