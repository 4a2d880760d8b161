//! What actions cost at least.
ghost use Rattle.std.specs.Prelude.{◌≡◌, ◌≤◌, ◌+ℤ◌, ◌*◌, ◌≤ℤ◌, pos, neg_ℤ, ◌^◌, [], map, length, IfOk, IfSome};
ghost use Rattle.std.specs.List.{list_all, All};
ghost use Rattle.hd_base.specs.Answers.{Judges};
ghost use Rattle.hd_task.specs.declared.task.TheConstants.{MAX_AMOUNTS};
ghost use Rattle.hd_task.specs.Expressions.{value_of};
ghost use Rattle.hd_base.specs.Numbers.{IsNear};
ghost use Rattle.hd_task.specs.WellFormed.{is_constant_amount, constant_sum};
ghost use Rattle.hd_hmax.specs.Prices.{constant_price, price};

use hd_base::NoMemory;
use hd_task::{Action, Expr, ExprParts, Operand, Task};
use std::alloc::Global;

/// Returns a sum with one more amount, if that is constant.
fn plus_constant(sum: i128, amount: &Expr) -> Option<i128>
    requires low { neg_ℤ (pos (2 ^ 126)) ≤ℤ sum }
    requires high { sum ≤ℤ pos (2 ^ 126) }
    ensures value { Judges result (is_constant_amount amount.now) (sum +ℤ value_of [] amount.now) }
    ensures near { IfSome result (IsNear (2 ^ 63) sum) }
{
    match amount.parts() {
        ExprParts::Leaf(Operand::Number(number)) => Some(sum + i128::from(*number)),
        _ => None,
    }
}

/// Returns the sum of the amounts, if all of them are constant.
fn sum_of_constants(amounts: &[Expr]) -> Option<i128>
    ensures value { Judges result (list_all is_constant_amount amounts.now)
        (constant_sum amounts.now) }
    ensures small { IfSome result (λ sum. sum ≤ℤ pos (2 ^ 63 * length amounts.now)) }
{
    let mut sum = 0;
    for amount in amounts {
        sum = plus_constant(sum, amount)?;
    }
    Some(sum)
}

/// Returns the sum of an action's amounts, if all of them are constant, and 0 where one depends on
/// the state.
fn constant_price(action: &Action) -> u128
    requires few { length action.now.costs ≤ MAX_AMOUNTS }
    ensures price { result ≡ constant_price action.now }
    ensures small { result ≤ 2 ^ 63 * MAX_AMOUNTS }
{
    match sum_of_constants(action.costs.as_slice()) {
        Some(sum) => u128::try_from(sum).unwrap_or(0),
        None => 0,
    }
}

/// Returns what an action costs at least, whatever the state.
#[tactic(auto, unfolding(crate::specs::Prices::price))]
fn price(task: &Task, action: &Action) -> u128
    requires few { length action.now.costs ≤ MAX_AMOUNTS }
    ensures price { result ≡ price task.now action.now }
    ensures small { result ≤ 2 ^ 63 * MAX_AMOUNTS }
{
    if task.metric {
        constant_price(action)
    } else {
        1
    }
}

/// Returns the prices of a task's actions.
///
/// # Errors
/// - `NoMemory`: there is no room for a number an action.
pub(crate) fn prices_of(alloc: Global, task: &Task) -> Result<Vec<u128>, NoMemory>
    ensures prices { IfOk result (λ v. v.items ≡ map (price task.now) task.now.actions) }
    ensures small { IfOk result (λ v. All (λ p. p ≤ 2 ^ 63 * MAX_AMOUNTS) v.items) }
{
    let actions = task.actions.as_slice();
    let mut prices = Vec::with_capacity(alloc, actions.len())?;
    for action in actions {
        prices.push(price(task, action))?;
    }
    Ok(prices)
}
