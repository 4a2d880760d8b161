//! Costs that are the same in each state, and negative.
ghost use Rattle.std.specs.Prelude.{◌≡◌, ◌-◌, ◌^◌, ◌≤ℤ◌, Some, None, pos, neg_ℤ, if◌then◌else◌, IfSome, IfOk};
ghost use Rattle.hd_lifted.specs.Expressions.{value_of};
ghost use Rattle.hd_lifted.specs.States.{first_value};
ghost use Rattle.hd_judge.specs.Constant.{constant_cost};
ghost use Rattle.hd_base.specs.Numbers.{IsNear};
ghost use Rattle.hd_lifted.specs.Amounts.{is_constant};
ghost use Rattle.hd_lifted.specs.Questions.{costs_negative};

use crate::changed::is_cost;
use crate::lookups::Lookups;
use hd_base::{ExprParts, NoMemory};
use hd_lifted::{Expr, NumericEffect, Schema};
use std::alloc::Global;

/// Returns the value of an amount at first, if it is the same in each state.
fn constant_value(
    alloc: Global,
    lookups: &Lookups<'_>,
    objects: &[usize],
    said: &Expr,
) -> Result<Option<i64>, NoMemory>
    ensures { IfOk result (λ v. v ≡ (if is_constant lookups.now said.now
        then value_of (first_value lookups.now.values) objects.now said.now else None)) }
{
    match said.parts() {
        ExprParts::Leaf(leaf) if lookups.is_constant(said) => {
            lookups.first_value_of_leaf(alloc, objects, leaf)
        }
        _ => Ok(None),
    }
}

/// Returns a sum of constant amounts with that of one more effect, if it has one.
fn with_cost(
    alloc: Global,
    lookups: &Lookups<'_>,
    objects: &[usize],
    sum: i128,
    effect: &NumericEffect,
) -> Result<Option<i128>, NoMemory>
    requires low { neg_ℤ (pos (2 ^ 127 - 2 ^ 64)) ≤ℤ sum }
    requires high { sum ≤ℤ pos (2 ^ 127 - 2 ^ 64) }
    ensures sum { IfOk result (λ s. s
        ≡ constant_cost lookups.now objects.now (Some sum) effect.now) }
    ensures near { IfOk result (λ s. IfSome s (IsNear (2 ^ 63) sum)) }
{
    if !is_cost(effect.change) {
        return Ok(Some(sum));
    }
    match constant_value(alloc, lookups, objects, &effect.amount)? {
        Some(value) => Ok(Some(sum + i128::from(value))),
        None => Ok(None),
    }
}

/// Reports whether a schema with objects costs the same in each state, and less than 0.
///
/// # Errors
/// - Lack of memory.
pub fn costs_negative(
    alloc: Global,
    lookups: &Lookups<'_>,
    schema: &Schema,
    objects: &[usize],
) -> Result<bool, NoMemory>
    ensures { IfOk result (λ b. b ≡ costs_negative lookups.now schema.now objects.now) }
{
    let mut sum = 0;
    for effect in schema.effects.as_slice() {
        match with_cost(alloc, lookups, objects, sum, effect)? {
            Some(next) => sum = next,
            None => return Ok(false),
        }
    }
    Ok(sum < 0)
}
