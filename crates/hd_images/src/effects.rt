//! Effects on fluents.
ghost use Rattle.std.specs.Prelude.{◌≡◌, ℕ, if◌then◌else◌, [], ◌∷◌, ◌++◌, map, nat_eq, Some, IfOk};
ghost use Rattle.std.specs.BTreeMap.{get, IsOrdered};
ghost use Rattle.std.specs.Ordering.{nat_cmp};
ghost use Rattle.hd_grounding.specs.Images.{term_by};
ghost use Rattle.hd_grounding.specs.Grounding.{HasEffectsOf};
ghost use Rattle.hd_images.specs.Gathering.{change_with, change_at, change_in, effect_from};

use crate::NumberedForms;
use crate::expressions::expression_of;
use hd_base::{NoMemory, Sequence};
use hd_judge::is_cost;
use hd_lifted::{NumericEffect, Schema};
use hd_task::{Effect, Expr, SumPart, ValueChange};
use std::alloc::Global;
use std::collections::BTreeMap;

/// Returns a part of a sum.
fn term_by(change: hd_lifted::ChangeKind, amount: Expr) -> SumPart
    ensures { result ≡ term_by change amount }
{
    match change {
        hd_lifted::ChangeKind::Decrease => SumPart::Decrease(amount),
        hd_lifted::ChangeKind::Assign
        | hd_lifted::ChangeKind::ScaleUp
        | hd_lifted::ChangeKind::Increase
        | hd_lifted::ChangeKind::Cost => SumPart::Increase(amount),
    }
}

/// Returns `terms` with `term` at the end.
fn with_term(terms: Sequence<SumPart>, term: SumPart) -> Result<Sequence<SumPart>, NoMemory>
    ensures { IfOk result (λ s. s ≡ terms ++ term ∷ []) }
{
    let mut terms = terms.into_vec();
    terms.push(term)?;
    Ok(Sequence::from_vec(terms))
}

/// Returns the change of a fluent by one effect more: an assignment or a scaling stands alone, and
/// increases and decreases add up.
fn change_with(
    alloc: Global,
    before: Option<ValueChange>,
    change: hd_lifted::ChangeKind,
    amount: Expr,
) -> Result<ValueChange, NoMemory>
    ensures { IfOk result (λ c. c ≡ change_with before change amount) }
{
    match before {
        Some(ValueChange::Sum(terms)) => Ok(ValueChange::Sum(with_term(
            terms,
            term_by(change, amount),
        )?)),
        Some(alone) => {
            drop(amount);
            Ok(alone)
        }
        None => match change {
            hd_lifted::ChangeKind::Assign => Ok(ValueChange::Assign(amount)),
            hd_lifted::ChangeKind::ScaleUp => Ok(ValueChange::ScaleUp(amount)),
            hd_lifted::ChangeKind::Increase
            | hd_lifted::ChangeKind::Decrease
            | hd_lifted::ChangeKind::Cost => {
                let none = Sequence::from_vec(Vec::with_capacity(alloc, 1)?);
                Ok(ValueChange::Sum(with_term(none, term_by(change, amount))?))
            }
        },
    }
}

/// Adds an effect on the fluent `number` to `changes`: `change` by `amount`.
fn put(
    alloc: Global,
    changes: &mut BTreeMap<u32, ValueChange>,
    number: u32,
    change: hd_lifted::ChangeKind,
    amount: Expr,
) -> Result<(), NoMemory>
    ensures { IfOk result (λ _. (n : ℕ) → get nat_cmp changes.new n
        ≡ (if nat_eq number n then Some (change_with (get nat_cmp changes.old n) change amount)
        else get nat_cmp changes.old n)) }
{
    let before = changes.remove(&number);
    let after = change_with(alloc, before, change, amount)?;
    changes.insert(number, after)?;
    Ok(())
}

/// Adds `effect` to `changes`, unless it is a cost or its fluent has no number.
fn gather(
    alloc: Global,
    changes: &mut BTreeMap<u32, ValueChange>,
    fluents: &NumberedForms,
    objects: &[usize],
    effect: &NumericEffect,
) -> Result<(), NoMemory>
    ensures { IfOk result (λ _. (n : ℕ) → get nat_cmp changes.new n
        ≡ change_at fluents.now objects.now effect.now n (get nat_cmp changes.old n)) }
{
    fluents.are_rising();
    if is_cost(effect.change) {
        return Ok(());
    }
    match fluents.number_at(alloc, objects, &effect.fluent)? {
        Some(number) => {
            let amount = expression_of(alloc, fluents, objects, &effect.amount)?;
            put(alloc, changes, number, effect.change, amount)
        }
        None => Ok(()),
    }
}

/// Returns the effects that these changes are.
fn effects_from(
    alloc: Global,
    changes: BTreeMap<u32, ValueChange>,
) -> Result<Sequence<Effect>, NoMemory>
    ensures effects { IfOk result (λ s. s ≡ map effect_from changes.entries) }
    ensures ordered { IsOrdered nat_cmp changes }
{
    let mut effects = Vec::with_capacity(alloc, changes.len())?;
    for (fluent, change) in changes {
        effects.push(Effect { fluent, change })?;
    }
    Ok(Sequence::from_vec(effects))
}

/// Returns the changes by number that these effects make.
fn changes_of(
    alloc: Global,
    fluents: &NumberedForms,
    objects: &[usize],
    effects: &[NumericEffect],
) -> Result<BTreeMap<u32, ValueChange>, NoMemory>
    ensures { IfOk result (λ m. (n : ℕ) → get nat_cmp m n
        ≡ change_in fluents.now objects.now effects.now n) }
{
    let mut changes = BTreeMap::new(alloc);
    for effect in effects {
        gather(alloc, &mut changes, fluents, objects, effect)?;
    }
    Ok(changes)
}

/// Returns what a schema with objects does to each fluent that has a number, in the order of the
/// numbers.
///
/// # Errors
/// - Lack of memory.
pub fn effects_of(
    alloc: Global,
    fluents: &NumberedForms,
    objects: &[usize],
    schema: &Schema,
) -> Result<Sequence<Effect>, NoMemory>
    ensures { IfOk result (HasEffectsOf fluents.now objects.now schema.now) }
{
    let changes = changes_of(alloc, fluents, objects, schema.effects.as_slice())?;
    effects_from(alloc, changes)
}
