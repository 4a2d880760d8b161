//! What a node leads to, and what departs there.
ghost use Rattle.std.specs.Prelude.{◌≡◌, ◌++◌, [], ◌∷◌, IfOk, OnOk};
ghost use Rattle.hd_task.specs.Plans.{IsStateOf, node};
ghost use Rattle.hd_task.specs.Applying.{goal_of};
ghost use Rattle.hd_task.specs.Expansions.{departing_at};
ghost use Rattle.hd_successors.specs.Watching.{candidates};
ghost use Rattle.hd_node.specs.Children.{children_at, departing_by_goal};

use crate::{Child, Children, Hashed};
use hd_base::{NoMemory, Sequence};
use hd_pack::{Led, SpareBlocks, leads};
use hd_successors::Successors;
use hd_task::{ActionId, DepartsBy, GoalTest, Task};
use hd_zobrist::Words;
use std::alloc::Global;

/// Returns what departs at a node before any action: the goal, if its test says so.
#[tactic(auto, unfolding(hd_task::specs::Applying::test_of))]
pub(crate) fn goal_departure(
    alloc: Global,
    task: &Task,
    state: &Hashed,
    test: GoalTest,
) -> Result<Vec<DepartsBy>, NoMemory>
    requires { test ≡ goal_of task.now state.now }
    ensures { IfOk result (λ v. v.items ≡ departing_by_goal task.now state.now) }
{
    let mut departures = Vec::new(alloc);
    if let GoalTest::Departs = test {
        departures.push(DepartsBy::Goal)?;
    }
    Ok(departures)
}

/// Pushes a child. A list that is full gets room for as many as are marked, since no more come, so
/// that it takes memory once.
fn push_child(
    children: &mut Children,
    successors: &Successors<'_>,
    child: Child,
) -> Result<(), NoMemory>
    ensures { OnOk result (children.new ≡ children.old ++ child ∷ []) }
{
    if children.is_full() {
        children.reserve_all(successors.count())?;
    }
    children.push(child)
}

/// Returns what departs at a node, and into a list what it leads to, where the goal's test is known
/// and the candidates at its state are marked.
fn walk(
    spare: &mut SpareBlocks,
    task: &Task,
    words: &Words,
    successors: &Successors<'_>,
    state: &Hashed,
    cost: u64,
    test: GoalTest,
    children: &mut Children,
) -> Result<Sequence<DepartsBy>, NoMemory>
    requires of_task { IsStateOf task.now state.now }
    requires index { successors.now.task ≡ task.now }
    requires marked { successors.now.marked ≡ candidates successors.now.watched state.now }
    requires is_goal { test ≡ goal_of task.now state.now }
    requires none { children.old ≡ [] }
    ensures children { OnOk result (children.new ≡ children_at task.now (node state.now cost)) }
    ensures departs { IfOk result (λ d. d ≡ departing_at task.now (Some (node state.now cost))) }
{
    let mut departures = goal_departure(spare.alloc(), task, state, test)?;
    let mut from = 0;
    while let Some(action) = successors.next(from) {
        match leads(
            spare,
            task,
            words,
            state.state(),
            state.hash(),
            cost,
            ActionId(action),
        )? {
            Led::No => {}
            Led::Departs => departures.push(DepartsBy::Action(action))?,
            Led::Next(next, hash, cost) => {
                push_child(
                    children,
                    successors,
                    Child::of(action, Hashed::known(next, hash), cost),
                )?;
            }
        }
        from = action + 1;
    }
    Ok(Sequence::from_vec(departures))
}

/// Returns what departs at a node, and into a list what it leads to, where the goal's test is
/// known. The index marks the candidates at its state.
pub(crate) fn explore<'t>(
    spare: &mut SpareBlocks,
    task: &'t Task,
    words: &Words,
    successors: &mut Successors<'t>,
    state: &Hashed,
    cost: u64,
    test: GoalTest,
    children: &mut Children,
) -> Result<Sequence<DepartsBy>, NoMemory>
    requires of_task { IsStateOf task.now state.now }
    requires index { successors.old.task ≡ task.now }
    requires is_goal { test ≡ goal_of task.now state.now }
    requires none { children.old ≡ [] }
    ensures children { OnOk result (children.new ≡ children_at task.now (node state.now cost)) }
    ensures departs { IfOk result (λ d. d ≡ departing_at task.now (Some (node state.now cost))) }
    ensures index { successors.new.task ≡ successors.old.task }
{
    successors.mark(state.state());
    walk(spare, task, words, successors, state, cost, test, children)
}
