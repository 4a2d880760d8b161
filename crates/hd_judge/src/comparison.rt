//! Why comparisons do not hold, or depart.
ghost use Rattle.std.specs.Prelude.{◌≡◌, IfOk};
ghost use Rattle.hd_lifted.specs.Conditions.{relation_holds_if};
ghost use Rattle.hd_judge.specs.Tables.{reached_in};
ghost use Rattle.hd_judge.specs.Reasons.{MeansCompared, ExplainsComparisons};

use crate::expression::{Evaluated, outcome_of};
use crate::reason::{DepartingPart, Reason};
use crate::table::Place;
use hd_base::{NoMemory, Relation};
use hd_lifted::Comparison;
use std::alloc::Global;

/// What the computation of a comparison comes to.
#[derive(Clone, Copy)]
pub(crate) enum Compared<'a> {
    /// Whether it holds: each subexpression is in the range.
    Holds(bool),
    /// A subexpression is out of the range, and those of its own are not.
    Departs(DepartingPart<'a>),
}

/// Reports whether two values compare in this way: if one is missing, they don't.
fn relation_holds(relation: Relation, left: Option<i64>, right: Option<i64>) -> bool
    ensures { result ≡ relation_holds_if relation left right }
{
    match (left, right) {
        (Some(left), Some(right)) => relation.holds(left, right),
        _ => false,
    }
}

/// Reports whether a comparison holds at a place, or else the first of its subexpressions that is
/// out of the range.
fn compare<'a>(
    alloc: Global,
    place: &Place,
    objects: &[usize],
    said: &'a Comparison,
) -> Result<Compared<'a>, NoMemory>
    ensures { IfOk result (MeansCompared (reached_in place.now).state.values objects.now said.now) }
{
    let left = match outcome_of(alloc, place, objects, &said.left)? {
        Evaluated::Value(value) => value,
        Evaluated::Departs(departure) => return Ok(Compared::Departs(departure)),
    };
    let right = match outcome_of(alloc, place, objects, &said.right)? {
        Evaluated::Value(value) => value,
        Evaluated::Departs(departure) => return Ok(Compared::Departs(departure)),
    };
    Ok(Compared::Holds(relation_holds(said.relation, left, right)))
}

/// Returns the first departure of comparisons at a place, or else the first of them that does not
/// hold.
#[tactic(auto, using(crate::proofs::Failing::all_where_none))]
pub(crate) fn explain_comparisons<'a>(
    alloc: Global,
    place: &Place,
    objects: &[usize],
    said: &'a [Comparison],
) -> Result<Option<Reason<'a>>, NoMemory>
    ensures { IfOk result (ExplainsComparisons (reached_in place.now).state.values objects.now
        said.now) }
{
    let mut failing = None;
    let mut rest = said;
    while let [first, after @ ..] = rest {
        match compare(alloc, place, objects, first)? {
            Compared::Departs(departure) => return Ok(Some(Reason::Subexpression(departure))),
            Compared::Holds(holds) => {
                if !holds && failing.is_none() {
                    failing = Some(first);
                }
            }
        }
        rest = after;
    }
    match failing {
        Some(comparison) => Ok(Some(Reason::Comparison(comparison))),
        None => Ok(None),
    }
}
