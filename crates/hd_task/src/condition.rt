//! Conditions of actions and of the goal.
ghost use Rattle.std.specs.Prelude.{◌≡◌};
ghost use Rattle.std.specs.List.{list_all};
ghost use Rattle.hd_task.specs.Conditions.{literal_holds, literals_hold};
ghost use Rattle.hd_task.specs.Judging.{JudgesComparison, JudgesComparisons};
ghost use Rattle.hd_task.specs.Applying.{test_of};

use crate::expression::value_of;
use crate::{Expr, GoalTest, Reads};
use hd_base::{Relation, Sequence};

/// That an atom is true, or that it is false.
#[derive(Clone, Copy, Debug, PartialEq, Eq)]
pub struct Literal {
    /// The atom's number. One that the task lacks is false.
    pub atom: u32,
    /// Whether the atom has to be true.
    pub positive: bool,
}

/// A comparison of two numeric expressions.
#[derive(Debug, Drop)]
pub struct Comparison {
    pub left: Expr,
    pub relation: Relation,
    pub right: Expr,
}

/// A conjunction of literals and comparisons, which holds where each part does.
#[derive(Debug, Drop)]
pub struct Condition {
    pub literals: Sequence<Literal>,
    pub comparisons: Sequence<Comparison>,
    /// Whether it can't hold in any state, as where an equality of two different objects stands in
    /// it.
    pub never: bool,
}

fn literal_holds<R: Reads>(state: &R, literal: Literal) -> bool
    ensures { result ≡ literal_holds (R.seen state.now) literal }
{
    state.has_atom(literal.atom) == literal.positive
}

fn all_hold<R: Reads>(state: &R, literals: &[Literal]) -> bool
    ensures { result ≡ list_all (literal_holds (R.seen state.now)) literals.now }
{
    literals
        .iter()
        .all(|literal| literal_holds(state, *literal))
}

/// Reports whether the conditions on atoms and objects hold.
fn literals_hold<R: Reads>(state: &R, condition: &Condition) -> bool
    ensures { result ≡ literals_hold (R.seen state.now) condition.now }
{
    !condition.never && all_hold(state, condition.literals.as_slice())
}

/// Reports whether a comparison holds, unless a subexpression leaves the range.
fn comparison_holds<R: Reads>(state: &R, comparison: &Comparison) -> Option<bool>
    ensures { JudgesComparison (R.seen state.now).fluents comparison.now result }
{
    let left = value_of(state, &comparison.left)?;
    let right = value_of(state, &comparison.right)?;
    Some(comparison.relation.holds(left, right))
}

/// Reports whether all comparisons hold, unless a subexpression of one leaves the range.
fn comparisons_hold<R: Reads>(state: &R, comparisons: &[Comparison]) -> Option<bool>
    ensures { JudgesComparisons (R.seen state.now).fluents comparisons.now result }
{
    let mut all = true;
    for comparison in comparisons {
        let holds = comparison_holds(state, comparison)?;
        all = all && holds;
    }
    Some(all)
}

/// Reports whether a condition holds in a state, or departs there. It does not allocate.
#[tactic(auto, unfolding(crate::specs::Applying::test_of, crate::specs::Conditions::holds, crate::specs::Conditions::condition_departs))]
pub fn test_of<R: Reads>(state: &R, condition: &Condition) -> GoalTest
    ensures { result ≡ test_of (R.seen state.now) condition.now }
{
    if !literals_hold(state, condition) {
        return GoalTest::No;
    }
    match comparisons_hold(state, condition.comparisons.as_slice()) {
        None => GoalTest::Departs,
        Some(true) => GoalTest::Yes,
        Some(false) => GoalTest::No,
    }
}
