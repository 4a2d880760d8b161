//! What an accepted batch does to the parts of a book. Nothing here asks for memory: the room was
//! made before.
ghost use Rattle.std.specs.Prelude.{◌≡◌, ℕ, ◌+◌, ◌<◌, ◌≤◌, ◌^◌, ◌++◌, [], ◌∷◌, List, Some, vec_len, vec_capacity, length, map, flat_map, slice_get, option_map};
ghost use Rattle.std.specs.List.{AllByRecursion, AllPairs};
ghost use Rattle.std.specs.Option.{option_or};
ghost use Rattle.hd_task.specs.declared.plan.TheConstants.{ROOT_PARENT};
ghost use Rattle.hd_task.specs.declared.state.State.{State};
ghost use Rattle.hd_task.specs.declared.task.Task.{Task};
ghost use Rattle.hd_task.specs.Applying.{goal_of, says_yes};
ghost use Rattle.hd_task.specs.Expansions.{goal_cost, departure_at};
ghost use Rattle.hd_task.specs.Plans.{IsStateOf, node};
ghost use Rattle.hd_node.specs.Children.{ChildView};
ghost use Rattle.hd_entries.specs.Settling.{entry_of, IsOutcomeOfTask};
ghost use Rattle.hd_entries.specs.Table.{AreWidthsOf};
ghost use Rattle.hd_entries.specs.Holding.{parcel_of, released_from, released_at, released_by, IsParcelOf};
ghost use Rattle.hd_entries.specs.Growing.{entry_gained, entered_by, better, best_by, departure_by, kids_at, successor_count, actions_of, with_kids, posted_all};

use crate::entry::Best;
use crate::table::EntryTable;
use hd_node::{Child, Expansion, Outcome};
use hd_tables::KidTable;
use hd_task::{DepartsBy, Departure, GoalTest, Task};

/// Returns how many successors the expansions among outcomes have.
pub(crate) fn kids_of(outcomes: &[Outcome]) -> usize
    requires fits { successor_count outcomes.now < 2 ^ 64 }
    ensures { result ≡ successor_count outcomes.now }
{
    let mut count = 0usize;
    for outcome in outcomes {
        if let Outcome::Expanded(expansion) = outcome {
            count += expansion.children().len();
        }
    }
    count
}

/// Returns what a plan costs, if it meets the goal by the goal's test at its state.
pub(crate) fn cost_at_goal(goal: GoalTest, cost: u64) -> Option<u64>
    ensures { (t : Task) (s : State) → goal ≡ goal_of t s
        → result ≡ goal_cost t (Some (node s cost)) }
{
    match goal {
        GoalTest::Yes => Some(cost),
        GoalTest::No => None,
        GoalTest::Departs => None,
    }
}

/// Returns what an expansion costs, if it meets the goal.
fn goal_cost(expansion: &Expansion) -> Option<u64>
    ensures { result ≡ goal_cost expansion.now.task
        (Some (node expansion.now.state expansion.now.cost)) }
{
    cost_at_goal(expansion.goal(), expansion.cost())
}

/// Returns the better one of what is best so far and a later entry.
pub(crate) fn better(best: Option<Best>, entry: usize, cost: Option<u64>) -> Option<Best>
    ensures { result ≡ better best entry cost }
{
    match (best, cost) {
        (best, None) => best,
        (None, Some(cost)) => Some(Best { cost, entry }),
        (Some(best), Some(cost)) => {
            if cost < best.cost {
                Some(Best { cost, entry })
            } else {
                Some(best)
            }
        }
    }
}

/// Returns the first departure so far; or, if there is none, the first of what departs by the entry
/// of this number.
pub(crate) fn departure_with(
    departure: Option<Departure>,
    entry: u64,
    departures: &[DepartsBy],
) -> Option<Departure>
    ensures { result ≡ option_or departure
        (option_map (departure_at entry) (slice_get departures.now 0)) }
{
    if departure.is_some() {
        return departure;
    }
    match departures.first() {
        Some(by) => Some(Departure { entry, by: *by }),
        None => None,
    }
}

/// Returns the best and the first departure after outcomes, where the next entry has the number
/// `first`.
pub(crate) fn found_after(
    best: Option<Best>,
    departure: Option<Departure>,
    first: usize,
    outcomes: &[Outcome],
) -> (Option<Best>, Option<Departure>)
    requires fits { first + length outcomes.now < 2 ^ 64 }
    ensures best { result.0 ≡ best_by best first outcomes.now }
    ensures departure { result.1 ≡ departure_by departure first outcomes.now }
{
    let mut best = best;
    let mut departure = departure;
    let mut entry = first;
    for outcome in outcomes {
        if let Outcome::Expanded(expansion) = outcome {
            best = better(best, entry, goal_cost(expansion));
            departure = departure_with(departure, entry as u64, expansion.departures());
            entry += 1;
        }
    }
    (best, departure)
}

/// Posts the children of an expansion, as the successors of an entry more.
fn post(kids: &mut KidTable, children: &[Child])
    requires entry_room { 0 < kids.old.entry_room }
    requires kid_room { length children.now ≤ kids.old.kid_room }
    requires few { kids.old.entries < ROOT_PARENT }
    requires rises { AllPairs (λ (a b : ℕ). a < b) (actions_of children.now) }
    ensures { kids.new ≡ with_kids kids.old (actions_of children.now) }
{
    kids.enter();
    for child in children {
        kids.post(child.action());
    }
}

/// Posts applicable actions, as the successors of an entry more.
pub(crate) fn post_actions(kids: &mut KidTable, actions: &[u32])
    requires entry_room { 0 < kids.old.entry_room }
    requires kid_room { length actions.now ≤ kids.old.kid_room }
    requires few { kids.old.entries < ROOT_PARENT }
    requires rises { AllPairs (λ (a b : ℕ). a < b) actions.now }
    ensures { kids.new ≡ with_kids kids.old actions.now }
{
    kids.enter();
    for number in 0..actions.len() {
        kids.post(actions[number]);
    }
}

/// Posts the successors of the expansions among outcomes.
pub(crate) fn post_all(kids: &mut KidTable, outcomes: &[Outcome])
    requires entry_room { length (flat_map entry_of outcomes.now) ≤ kids.old.entry_room }
    requires kid_room { successor_count outcomes.now ≤ kids.old.kid_room }
    requires few { kids.old.entries + length (flat_map entry_of outcomes.now) ≤ ROOT_PARENT }
    ensures { kids.new ≡ posted_all kids.old outcomes.now }
{
    for outcome in outcomes {
        if let Outcome::Expanded(expansion) = outcome {
            post(kids, expansion.children());
        }
    }
}

/// Adds an outcome to the entries, if it is an expansion.
fn enter_outcome(task: &Task, entries: &mut EntryTable, outcome: &Outcome)
    requires of_task { IsOutcomeOfTask task.now outcome.now }
    requires fits { AreWidthsOf task.now entries.old.widths }
    requires room { length (entry_gained outcome.now) ≤ entries.old.room }
    ensures fits { AreWidthsOf task.now entries.new.widths }
    ensures entries { entries.new.items ≡ entries.old.items ++ entry_gained outcome.now }
    ensures room { entries.new.room + length (entry_gained outcome.now) ≡ entries.old.room }
{
    match outcome {
        Outcome::Expanded(expansion) => {
            entries.push(expansion.kid(), expansion.hashed(), expansion.cost());
        }
        Outcome::Duplicate(_, _) => {}
        Outcome::Bounded(_, _) => {}
    }
}

/// Adds the expansions among outcomes of a task to the entries.
pub(crate) fn enter(task: &Task, entries: &mut EntryTable, outcomes: &[Outcome])
    requires of_task { AllByRecursion (IsOutcomeOfTask task.now) outcomes.now }
    requires fits { AreWidthsOf task.now entries.old.widths }
    requires room { length (entered_by outcomes.now) ≤ entries.old.room }
    ensures fits { AreWidthsOf task.now entries.new.widths }
    ensures entries { entries.new.items ≡ entries.old.items ++ entered_by outcomes.now }
{
    for outcome in outcomes {
        enter_outcome(task, entries, outcome);
    }
}
