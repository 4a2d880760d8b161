//! The amounts that actions add to the cost.
ghost use Rattle.std.specs.Prelude.{◌≡◌, length, filter, IfOk};
ghost use Rattle.hd_lifted.specs.Questions.{is_paid};
ghost use Rattle.hd_grounding.specs.Images.{amount_of, costs_of};

use crate::NumberedForms;
use crate::expressions::expression_of;
use hd_base::{ExprParts, NoMemory, Operand, Sequence};
use hd_judge::{Lookups, is_cost};
use hd_lifted::{NumericEffect, Schema};
use hd_task::Expr;
use std::alloc::Global;

/// Returns an amount: a constant one is put in as its number, every other keeps its fluents.
fn amount_of(
    alloc: Global,
    lookups: &Lookups<'_>,
    fluents: &NumberedForms,
    objects: &[usize],
    said: &hd_lifted::Expr,
) -> Result<Expr, NoMemory>
    ensures { IfOk result (λ e. e ≡ amount_of lookups.now fluents.now objects.now said.now) }
{
    match said.parts() {
        ExprParts::Leaf(leaf) if lookups.is_constant(said) => {
            let value = lookups.first_value_of_leaf(alloc, objects, leaf)?;
            Ok(Expr::leaf(Operand::Number(value.unwrap_or(0))))
        }
        _ => expression_of(alloc, fluents, objects, said),
    }
}

/// Returns how many of these effects are parts of the cost.
pub fn count_costs(effects: &[NumericEffect]) -> usize
    ensures { result ≡ length (filter is_paid effects.now) }
{
    let mut count = 0;
    for effect in effects {
        if is_cost(effect.change) {
            count += 1;
        }
    }
    count
}

/// Returns the amounts that a schema with objects adds to the cost, in the text's order: those that
/// are the same in each state as numbers.
///
/// # Errors
/// - Lack of memory.
pub fn costs_of(
    alloc: Global,
    lookups: &Lookups<'_>,
    fluents: &NumberedForms,
    objects: &[usize],
    schema: &Schema,
) -> Result<Sequence<Expr>, NoMemory>
    ensures { IfOk result (λ s. s ≡ costs_of lookups.now fluents.now objects.now schema.now) }
{
    let effects = schema.effects.as_slice();
    let mut costs = Vec::with_capacity(alloc, count_costs(effects))?;
    for effect in effects {
        if is_cost(effect.change) {
            costs.push(amount_of(alloc, lookups, fluents, objects, &effect.amount)?)?;
        }
    }
    Ok(Sequence::from_vec(costs))
}
