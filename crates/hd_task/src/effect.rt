//! Effects on fluents.
ghost use Rattle.std.specs.Prelude.{◌≤ℤ◌, pos, neg_ℤ, ◌^◌, IfSome};
ghost use Rattle.hd_base.specs.declared.range.TheConstants.{RANGE_END};
ghost use Rattle.hd_base.specs.Numbers.{in_range};
ghost use Rattle.hd_base.specs.Answers.{Judges};
ghost use Rattle.hd_task.specs.Judging.{JudgesSum, JudgesTerm, JudgesTerms, JudgesCosts, JudgesEffect};
ghost use Rattle.hd_base.specs.Numbers.{IsNear};

use crate::expression::value_of;
use crate::{Expr, Reads};
use hd_base::{RANGE_END, Sequence, if_in_range};

/// One part of a sum onto a fluent.
#[derive(Debug, Drop)]
pub enum SumPart {
    Increase(Expr),
    Decrease(Expr),
}

/// What an action does to a fluent.
///
/// An assignment and a scaling stand alone; increases and decreases add up.
#[derive(Debug, Drop)]
pub enum ValueChange {
    Assign(Expr),
    ScaleUp(Expr),
    Sum(Sequence<SumPart>),
}

/// The change of one fluent.
#[derive(Debug, Drop)]
pub struct Effect {
    /// The fluent's number.
    pub fluent: u32,
    pub change: ValueChange,
}

/// Returns a sum with one more amount, unless a subexpression leaves the range. The sum itself is
/// not judged.
fn plus_value<R: Reads>(state: &R, sum: i128, amount: &Expr) -> Option<i128>
    requires low { neg_ℤ (pos (2 ^ 126)) ≤ℤ sum }
    requires high { sum ≤ℤ pos (2 ^ 126) }
    ensures value { JudgesSum (R.seen state.now).fluents sum amount.now result }
    ensures near { IfSome result (IsNear RANGE_END sum) }
{
    Some(sum + i128::from(value_of(state, amount)?))
}

/// Returns a sum with one more term, unless a subexpression leaves the range. The sum itself is not
/// judged.
fn with_term<R: Reads>(state: &R, sum: i128, term: &SumPart) -> Option<i128>
    requires low { neg_ℤ (pos (2 ^ 126)) ≤ℤ sum }
    requires high { sum ≤ℤ pos (2 ^ 126) }
    ensures value { JudgesTerm (R.seen state.now).fluents sum term.now result }
    ensures near { IfSome result (IsNear RANGE_END sum) }
{
    match term {
        SumPart::Increase(amount) => plus_value(state, sum, amount),
        SumPart::Decrease(amount) => Some(sum - i128::from(value_of(state, amount)?)),
    }
}

/// Returns the sum of the terms, onto a first value.
fn sum_of<R: Reads>(state: &R, terms: &[SumPart], first: i64) -> Option<i128>
    ensures { JudgesTerms (R.seen state.now).fluents first terms.now result }
{
    let mut sum = i128::from(first);
    for term in terms {
        sum = with_term(state, sum, term)?;
    }
    Some(sum)
}

/// Returns a sum, if it is in the range.
fn narrow(value: i128) -> Option<i64>
    ensures { Judges result (in_range value) value }
{
    if value.unsigned_abs() <= u128::from(RANGE_END) {
        Some(value as i64)
    } else {
        None
    }
}

/// Returns the value that an effect gives its fluent by the values of a state, unless it or a
/// subexpression leaves the range.
pub fn new_value<R: Reads>(state: &R, effect: &Effect) -> Option<i64>
    ensures { JudgesEffect (R.seen state.now).fluents effect.now result }
{
    let old = state.fluent_of(effect.fluent);
    match &effect.change {
        ValueChange::Assign(amount) => value_of(state, amount),
        ValueChange::ScaleUp(amount) => if_in_range(old.checked_mul(value_of(state, amount)?)),
        ValueChange::Sum(terms) => narrow(sum_of(state, terms.as_slice(), old)?),
    }
}

/// Returns the sum of the amounts, unless a subexpression of one leaves the range.
pub(crate) fn sum_of_costs<R: Reads>(state: &R, amounts: &[Expr]) -> Option<i128>
    ensures { JudgesCosts (R.seen state.now).fluents amounts.now result }
{
    let mut sum = 0;
    for amount in amounts {
        sum = plus_value(state, sum, amount)?;
    }
    Some(sum)
}
