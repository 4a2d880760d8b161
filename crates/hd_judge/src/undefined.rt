//! Fluents without a first value.
ghost use Rattle.std.specs.Prelude.{◌≡◌, [], ◌∷◌, flat_map, IfOk};
ghost use Rattle.hd_lifted.specs.States.{ground_form_of};
ghost use Rattle.hd_base.specs.Expression.{leaf};
ghost use Rattle.hd_lifted.specs.Met.{met_by_goal, fluents_in, met_by_comparison, changed_by, met_by_effect, met_by};
ghost use Rattle.hd_lifted.specs.Questions.{first_undefined};

use crate::changed::is_cost;
use crate::lookups::Lookups;
use hd_base::{ExprParts, NoMemory, Operand};
use hd_lifted::{
    AppliedSymbol, Comparison, Expr, Ground, Leaf, NumericEffect, Schema, ground_form_of,
};
use std::alloc::Global;

/// Returns a fluent, if it has no first value.
fn if_undefined(
    alloc: Global,
    lookups: &Lookups<'_>,
    objects: &[usize],
    said: &AppliedSymbol,
) -> Result<Option<Ground>, NoMemory>
    ensures { IfOk result (λ g. g
        ≡ first_undefined lookups.now (ground_form_of objects.now said.now ∷ [])) }
{
    let fluent = ground_form_of(alloc, objects, said)?;
    match lookups.first_value_of(&fluent) {
        Some(_) => Ok(None),
        None => Ok(Some(fluent)),
    }
}

/// Returns the fluent that a leaf reads, if it has no first value.
fn undefined_leaf(
    alloc: Global,
    lookups: &Lookups<'_>,
    objects: &[usize],
    said: &Leaf,
) -> Result<Option<Ground>, NoMemory>
    ensures { IfOk result (λ g. g
        ≡ first_undefined lookups.now (fluents_in objects.now (leaf said.now))) }
{
    match said {
        Operand::Number(_) => Ok(None),
        Operand::Fluent(fluent) => if_undefined(alloc, lookups, objects, fluent.get()),
    }
}

/// Returns the first fluent without a first value that an expression reads.
#[tactic(auto, using(crate::proofs::Finding::undefined_append))]
fn undefined_in(
    alloc: Global,
    lookups: &Lookups<'_>,
    objects: &[usize],
    said: &Expr,
) -> Result<Option<Ground>, NoMemory>
    ensures { IfOk result (λ g. g
        ≡ first_undefined lookups.now (fluents_in objects.now said.now)) }
{
    match said.parts() {
        ExprParts::Leaf(leaf) => undefined_leaf(alloc, lookups, objects, leaf),
        ExprParts::Negate(inner) => undefined_in(alloc, lookups, objects, inner),
        ExprParts::Binary(_, left, right) => {
            match undefined_in(alloc, lookups, objects, left)? {
                Some(fluent) => Ok(Some(fluent)),
                None => undefined_in(alloc, lookups, objects, right),
            }
        }
    }
}

/// Returns the first fluent without a first value that a comparison reads.
#[tactic(auto, using(crate::proofs::Finding::undefined_append))]
fn undefined_comparison(
    alloc: Global,
    lookups: &Lookups<'_>,
    objects: &[usize],
    said: &Comparison,
) -> Result<Option<Ground>, NoMemory>
    ensures { IfOk result (λ g. g
        ≡ first_undefined lookups.now (met_by_comparison objects.now said.now)) }
{
    match undefined_in(alloc, lookups, objects, &said.left)? {
        Some(fluent) => Ok(Some(fluent)),
        None => undefined_in(alloc, lookups, objects, &said.right),
    }
}

/// Returns the first fluent without a first value that comparisons read.
#[tactic(auto, using(crate::proofs::Finding::undefined_next, crate::proofs::Finding::undefined_found))]
pub(crate) fn undefined_comparisons(
    alloc: Global,
    lookups: &Lookups<'_>,
    objects: &[usize],
    said: &[Comparison],
) -> Result<Option<Ground>, NoMemory>
    ensures { IfOk result (λ g. g ≡ first_undefined lookups.now
        (flat_map (met_by_comparison objects.now) said.now)) }
{
    for comparison in said {
        if let Some(fluent) = undefined_comparison(alloc, lookups, objects, comparison)? {
            return Ok(Some(fluent));
        }
    }
    Ok(None)
}

/// Returns the fluent that an effect changes, if it changes one and that has no first value.
fn undefined_target(
    alloc: Global,
    lookups: &Lookups<'_>,
    objects: &[usize],
    effect: &NumericEffect,
) -> Result<Option<Ground>, NoMemory>
    ensures { IfOk result (λ g. g
        ≡ first_undefined lookups.now (changed_by objects.now effect.now)) }
{
    if is_cost(effect.change) {
        return Ok(None);
    }
    if_undefined(alloc, lookups, objects, &effect.fluent)
}

/// Returns the first fluent without a first value that an effect meets: the one that it changes,
/// and then those that its amount reads.
#[tactic(auto, using(crate::proofs::Finding::undefined_append))]
fn undefined_effect(
    alloc: Global,
    lookups: &Lookups<'_>,
    objects: &[usize],
    effect: &NumericEffect,
) -> Result<Option<Ground>, NoMemory>
    ensures { IfOk result (λ g. g
        ≡ first_undefined lookups.now (met_by_effect objects.now effect.now)) }
{
    match undefined_target(alloc, lookups, objects, effect)? {
        Some(fluent) => Ok(Some(fluent)),
        None => undefined_in(alloc, lookups, objects, &effect.amount),
    }
}

/// Returns the first fluent without a first value that effects meet.
#[tactic(auto, using(crate::proofs::Finding::undefined_next, crate::proofs::Finding::undefined_found))]
fn undefined_effects(
    alloc: Global,
    lookups: &Lookups<'_>,
    objects: &[usize],
    effects: &[NumericEffect],
) -> Result<Option<Ground>, NoMemory>
    ensures { IfOk result (λ g. g ≡ first_undefined lookups.now
        (flat_map (met_by_effect objects.now) effects.now)) }
{
    for effect in effects {
        if let Some(fluent) = undefined_effect(alloc, lookups, objects, effect)? {
            return Ok(Some(fluent));
        }
    }
    Ok(None)
}

/// Returns the first fluent without a first value that a schema with objects meets: in its
/// comparisons, and then in its effects.
///
/// # Errors
/// - Lack of memory.
#[tactic(auto, using(crate::proofs::Finding::undefined_append))]
pub fn undefined_schema(
    alloc: Global,
    lookups: &Lookups<'_>,
    objects: &[usize],
    schema: &Schema,
) -> Result<Option<Ground>, NoMemory>
    ensures { IfOk result (λ g. g ≡ first_undefined lookups.now (met_by objects.now schema.now)) }
{
    let comparisons = schema.condition.comparisons.as_slice();
    match undefined_comparisons(alloc, lookups, objects, comparisons)? {
        Some(fluent) => Ok(Some(fluent)),
        None => undefined_effects(alloc, lookups, objects, schema.effects.as_slice()),
    }
}

/// Returns the first fluent without a first value that the goal meets.
pub(crate) fn undefined_goal(
    alloc: Global,
    lookups: &Lookups<'_>,
) -> Result<Option<Ground>, NoMemory>
    ensures { IfOk result (λ g. g ≡ first_undefined lookups.now (met_by_goal lookups.now)) }
{
    let none: [usize; 0] = [];
    let comparisons = lookups.task().goal.comparisons.as_slice();
    undefined_comparisons(alloc, lookups, none.as_slice(), comparisons)
}
