//! The values of expressions, or else where they leave the range.
ghost use Rattle.std.specs.Prelude.{◌≡◌, IfOk, neg_ℤ, option_map};
ghost use Rattle.hd_base.specs.Answers.{Judges};
ghost use Rattle.hd_base.specs.Numbers.{result_of, in_range};
ghost use Rattle.hd_base.specs.Values.{of_both};
ghost use Rattle.hd_lifted.specs.Expressions.{leaf_value};
ghost use Rattle.hd_judge.specs.Tables.{reached_in};
ghost use Rattle.hd_judge.specs.Departures.{MeansOutcome, IsOutcomeBy};

use crate::reason::DepartingPart;
use crate::table::Place;
use hd_base::{ExprParts, NoMemory, Operand, Operation, RANGE_END};
use hd_lifted::{Expr, Leaf, ground_form_of};
use std::alloc::Global;

/// What the computation of an expression comes to.
#[derive(Clone, Copy)]
pub(crate) enum Evaluated<'a> {
    /// Its value, if it has one: each subexpression is in the range.
    Value(Option<i64>),
    /// A subexpression is out of the range, and those of its own are not.
    Departs(DepartingPart<'a>),
}

/// Returns a value, if it is in the range.
pub(crate) fn narrow(value: i128) -> Option<i64>
    ensures { Judges result (in_range value) value }
{
    if value.unsigned_abs() <= u128::from(RANGE_END) {
        Some(value as i64)
    } else {
        None
    }
}

/// Returns an expression's value, or the expression itself where that is out of the range.
fn judged<'a>(said: &'a Expr, value: i128) -> Evaluated<'a>
    ensures { IsOutcomeBy said.now (Some value) result }
{
    match narrow(value) {
        Some(value) => Evaluated::Value(Some(value)),
        None => Evaluated::Departs(DepartingPart { part: said, value }),
    }
}

/// Returns the value of a leaf at a place, if it has one.
fn leaf_value(
    alloc: Global,
    place: &Place,
    objects: &[usize],
    said: &Leaf,
) -> Result<Option<i64>, NoMemory>
    ensures { IfOk result (λ v. v
        ≡ leaf_value (reached_in place.now).state.values objects.now said.now) }
{
    match said {
        Operand::Number(number) => Ok(Some(*number)),
        Operand::Fluent(fluent) => {
            let fluent = ground_form_of(alloc, objects, fluent.get())?;
            Ok(place.value(&fluent))
        }
    }
}

/// Returns the value of an expression with its sign turned.
fn negated<'a>(said: &'a Expr, inner: Option<i64>) -> Evaluated<'a>
    ensures { IsOutcomeBy said.now (option_map neg_ℤ inner) result }
{
    match inner {
        Some(number) => judged(said, -i128::from(number)),
        None => Evaluated::Value(None),
    }
}

/// Returns what an operation makes of two numbers.
fn result_of(operation: Operation, left: i64, right: i64) -> i128
    ensures { result ≡ result_of operation left right }
{
    let left = i128::from(left);
    let right = i128::from(right);
    match operation {
        Operation::Add => left + right,
        Operation::Subtract => left - right,
        Operation::Multiply => left * right,
    }
}

/// Returns the value of what an operation makes of two values.
fn combined<'a>(
    said: &'a Expr,
    operation: Operation,
    left: Option<i64>,
    right: Option<i64>,
) -> Evaluated<'a>
    ensures { IsOutcomeBy said.now (of_both (result_of operation) left right) result }
{
    match (left, right) {
        (Some(left), Some(right)) => judged(said, result_of(operation, left, right)),
        _ => Evaluated::Value(None),
    }
}

/// Returns the value of an expression at a place, or else the first of its subexpressions that is
/// out of the range: what it is made of before itself, and the left before the right.
pub(crate) fn outcome_of<'a>(
    alloc: Global,
    place: &Place,
    objects: &[usize],
    said: &'a Expr,
) -> Result<Evaluated<'a>, NoMemory>
    ensures { IfOk result (MeansOutcome (reached_in place.now).state.values objects.now said.now) }
{
    match said.parts() {
        ExprParts::Leaf(leaf) => match leaf_value(alloc, place, objects, leaf)? {
            Some(number) => Ok(judged(said, i128::from(number))),
            None => Ok(Evaluated::Value(None)),
        },
        ExprParts::Negate(inner) => match outcome_of(alloc, place, objects, inner)? {
            Evaluated::Value(value) => Ok(negated(said, value)),
            departs => Ok(departs),
        },
        ExprParts::Binary(operation, left, right) => {
            let left = match outcome_of(alloc, place, objects, left)? {
                Evaluated::Value(value) => value,
                departs => return Ok(departs),
            };
            let right = match outcome_of(alloc, place, objects, right)? {
                Evaluated::Value(value) => value,
                departs => return Ok(departs),
            };
            Ok(combined(said, operation, left, right))
        }
    }
}
