//! What a step does to the values of fluents, and what it costs; or else why it departs.
ghost use Rattle.std.specs.Prelude.{◌≡◌, ◌+◌, ◌≤◌, ◌^◌, ℕ, true, false, is_some, ◌&&◌, if◌then◌else◌, None, Some, pos, ◌+ℤ◌, ◌-ℤ◌, ◌*ℤ◌, flat_map, IfOk, OnOk, IfErr};
ghost use Rattle.std.specs.List.{list_all};
ghost use Rattle.std.specs.Option.{option_or};
ghost use Rattle.hd_base.specs.Numbers.{in_range, fits};
ghost use Rattle.hd_base.specs.declared.range.TheConstants.{RANGE_END};
ghost use Rattle.hd_lifted.specs.declared.schema.Ground.{Ground};
ghost use Rattle.hd_lifted.specs.declared.schema.ChangeKind.TheVariants.{ScaleUp};
ghost use Rattle.hd_lifted.specs.States.{same, ground_form_of};
ghost use Rattle.hd_lifted.specs.Expressions.{value_of};
ghost use Rattle.hd_lifted.specs.Effects.{value_by_change, with_cost, effects_clash};
ghost use Rattle.hd_lifted.specs.Met.{met_by_effect};
ghost use Rattle.hd_lifted.specs.Questions.{is_paid};
ghost use Rattle.hd_judge.specs.Tables.{value_in, reached_in};
ghost use Rattle.hd_judge.specs.Effects.{HaveValues, amount_stays, new_value_in, with_change, AreNear, AreChangesOf};
ghost use Rattle.hd_base.specs.Numbers.{IsNear};
ghost use Rattle.hd_judge.specs.EffectReasons.{JudgesAmount, JudgesChanges, JudgesLeaving, JudgesValues, JudgesCost, AreEffectsOf, IsReasonOfEffects};
ghost use Rattle.hd_judge.specs.Refusals.{RefusesFor};

use crate::changed::is_cost;
use crate::changes::Changes;
use crate::expression::{Evaluated, narrow, outcome_of};
use crate::lookups::Lookups;
use crate::reason::{DepartingPart, NewValue, Reason, StepCost};
use crate::refusal::PlanRefusal;
use crate::table::{Numbers, Place};
use hd_base::{NoMemory, total_cost};
use hd_lifted::{ChangeKind, Ground, LiftedTask, NumericEffect, Schema, ground_form_of};
use std::alloc::Global;

// ---- one effect

/// Returns an effect's amount by the values at a place, or else its departure.
fn amount_of<'a>(
    alloc: Global,
    place: &Place,
    objects: &[usize],
    effect: &'a NumericEffect,
) -> Result<Result<i64, DepartingPart<'a>>, NoMemory>
    requires there { HaveValues (reached_in place.now).state.values
        (met_by_effect objects.now effect.now) }
    ensures amount { IfOk result (JudgesAmount (reached_in place.now).state.values objects.now
        effect.now) }
    ensures in_range { IfOk result (λ judged. IfOk judged (λ x. in_range x ≡ true)) }
{
    match outcome_of(alloc, place, objects, &effect.amount)? {
        Evaluated::Value(amount) => Ok(Ok(amount.unwrap())),
        Evaluated::Departs(departure) => Ok(Err(departure)),
    }
}

/// Returns a sum and one more amount.
fn plus(sum: i128, amount: i64) -> i128
    requires near { IsNear (2 ^ 126) (pos 0) sum }
    requires in_range { in_range amount ≡ true }
    ensures sum { result ≡ sum +ℤ amount }
    ensures near { IsNear RANGE_END sum result }
{
    sum + i128::from(amount)
}

/// Returns a sum less one more amount.
fn minus(sum: i128, amount: i64) -> i128
    requires near { IsNear (2 ^ 126) (pos 0) sum }
    requires in_range { in_range amount ≡ true }
    ensures sum { result ≡ sum -ℤ amount }
    ensures near { IsNear RANGE_END sum result }
{
    sum - i128::from(amount)
}

/// Returns a value times an amount.
fn times(value: i64, amount: i64) -> i128
    requires in_range { in_range amount ≡ true }
    ensures product { result ≡ value *ℤ amount }
    ensures near { IsNear (2 ^ 114) (pos 0) result }
{
    i128::from(value) * i128::from(amount)
}

/// Returns the value that a change makes of the one so far, where a scaling has changed nothing so
/// far. The value is not judged.
#[tactic(auto, using(crate::proofs::Changing::near_more))]
fn value_by_change(change: ChangeKind, old: i64, so_far: i128, amount: i64) -> i128
    requires near { IsNear (2 ^ 126) (pos 0) so_far }
    requires in_range { in_range amount ≡ true }
    requires alone { change ≡ ScaleUp → so_far ≡ old }
    ensures value { value_by_change change (Some so_far) (Some amount) ≡ Some result }
    ensures near { (n : ℕ) → 2 ^ 114 ≤ n → IsNear n (pos 0) so_far
        → IsNear (n + RANGE_END) (pos 0) result }
{
    match change {
        ChangeKind::Assign => i128::from(amount),
        ChangeKind::ScaleUp => times(old, amount),
        ChangeKind::Increase => plus(so_far, amount),
        ChangeKind::Decrease => minus(so_far, amount),
        ChangeKind::Cost => so_far,
    }
}

/// Returns the value of a fluent after the changes so far, by its value before the step.
#[tactic(auto, using(crate::proofs::Changing::near_wider))]
fn value_so_far(changes: &Changes, fluent: &Ground, old: i64) -> i128
    ensures value { option_or (new_value_in changes.now fluent.now) (Some old) ≡ Some result }
    ensures near { (n : ℕ) → 2 ^ 114 ≤ n → AreNear n changes.now → IsNear n (pos 0) result }
{
    match changes.get(fluent) {
        Some(value) => value,
        None => i128::from(old),
    }
}

/// Changes the fluent of one effect, which is no cost, by an amount of the values before the step.
fn change_value(
    alloc: Global,
    numbers: &Numbers,
    objects: &[usize],
    changes: &mut Changes,
    effect: &NumericEffect,
    amount: i64,
) -> Result<(), NoMemory>
    requires changes { is_paid effect.now ≡ false }
    requires there { HaveValues (value_in numbers.now) (met_by_effect objects.now effect.now) }
    requires amount { value_of (value_in numbers.now) objects.now effect.now.amount ≡ Some amount }
    requires in_range { in_range amount ≡ true }
    requires alone { effect.now.change ≡ ScaleUp
        → new_value_in changes.old (ground_form_of objects.now effect.now.fluent) ≡ None }
    requires near { AreNear (2 ^ 126) changes.old }
    ensures values { OnOk result ((g : Ground) → new_value_in changes.new g
        ≡ with_change (value_in numbers.now) objects.now effect.now g
        (new_value_in changes.old g)) }
    ensures cost { changes.new.cost ≡ changes.old.cost }
    ensures near { OnOk result ((n : ℕ) → 2 ^ 114 ≤ n → AreNear n changes.old
        → AreNear (n + RANGE_END) changes.new) }
{
    let fluent = ground_form_of(alloc, objects, &effect.fluent)?;
    let Some(old) = numbers.get(&fluent) else {
        return Ok(());
    };
    let so_far = value_so_far(changes, &fluent, old);
    let value = value_by_change(effect.change, old, so_far, amount);
    changes.set(fluent, value)?;
    Ok(())
}

/// Takes one effect into the changes, by its amount of the values before the step.
fn add_effect(
    alloc: Global,
    numbers: &Numbers,
    objects: &[usize],
    changes: &mut Changes,
    effect: &NumericEffect,
    amount: i64,
) -> Result<(), NoMemory>
    requires there { HaveValues (value_in numbers.now) (met_by_effect objects.now effect.now) }
    requires amount { value_of (value_in numbers.now) objects.now effect.now.amount ≡ Some amount }
    requires in_range { in_range amount ≡ true }
    requires alone { effect.now.change ≡ ScaleUp
        → new_value_in changes.old (ground_form_of objects.now effect.now.fluent) ≡ None }
    requires near { AreNear (2 ^ 126) changes.old }
    ensures values { OnOk result ((g : Ground) → new_value_in changes.new g
        ≡ with_change (value_in numbers.now) objects.now effect.now g
        (new_value_in changes.old g)) }
    ensures cost { OnOk result (with_cost (value_in numbers.now) objects.now
        (Some changes.old.cost) effect.now ≡ Some changes.new.cost) }
    ensures near { OnOk result ((n : ℕ) → 2 ^ 114 ≤ n → AreNear n changes.old
        → AreNear (n + RANGE_END) changes.new) }
{
    if is_cost(effect.change) {
        changes.cost = plus(changes.cost, amount);
        return Ok(());
    }
    change_value(alloc, numbers, objects, changes, effect, amount)
}

// ---- all effects

/// Returns what effects change, each by the values at a place, or else the first departure of their
/// amounts.
fn changes_of<'a>(
    alloc: Global,
    place: &Place,
    objects: &[usize],
    effects: &'a [NumericEffect],
) -> Result<Result<Changes, DepartingPart<'a>>, NoMemory>
    requires there { HaveValues (reached_in place.now).state.values
        (flat_map (met_by_effect objects.now) effects.now) }
    requires compatible { effects_clash objects.now effects.now ≡ false }
    ensures { IfOk result (JudgesChanges (reached_in place.now).state.values objects.now
        effects.now) }
{
    let mut changes = Changes::beside(alloc, &place.numbers);
    for effect in effects {
        let amount = match amount_of(alloc, place, objects, effect)? {
            Ok(amount) => amount,
            Err(departure) => {
                drop(changes);
                return Ok(Err(departure));
            }
        };
        add_effect(alloc, &place.numbers, objects, &mut changes, effect, amount)?;
    }
    Ok(Ok(changes))
}

/// Returns the value that a step gives to an effect's fluent, if that is out of the range.
fn leaving_value(
    alloc: Global,
    changes: &Changes,
    objects: &[usize],
    effect: &NumericEffect,
) -> Result<Option<i128>, NoMemory>
    ensures { IfOk result (JudgesLeaving changes.now objects.now effect.now) }
{
    if is_cost(effect.change) {
        return Ok(None);
    }
    let fluent = ground_form_of(alloc, objects, &effect.fluent)?;
    let Some(value) = changes.get(&fluent) else {
        return Ok(None);
    };
    match narrow(value) {
        Some(_) => Ok(None),
        None => Ok(Some(value)),
    }
}

/// Returns the first of the effects whose fluent's new value is out of the range.
fn leaving_effect<'a>(
    alloc: Global,
    changes: &Changes,
    objects: &[usize],
    effects: &'a [NumericEffect],
) -> Result<Option<NewValue<'a>>, NoMemory>
    ensures { IfOk result (JudgesValues changes.now objects.now effects.now) }
{
    let mut rest = effects;
    while let [first, after @ ..] = rest {
        if let Some(value) = leaving_value(alloc, changes, objects, first)? {
            return Ok(Some(NewValue {
                effect: first,
                effects,
                value,
            }));
        }
        rest = after;
    }
    Ok(None)
}

/// Returns a plan's cost with a step's, or why the step can't have it: it is negative, or the sum
/// is out of the range.
#[tactic(auto, using(crate::proofs::Paying::natural_total, crate::proofs::Paying::negative_step))]
fn plus_cost<'a>(before: u64, step: i128, effects: &'a [NumericEffect]) -> Result<u64, Reason<'a>>
    ensures { JudgesCost before step effects.now result }
{
    let cost = StepCost {
        effects,
        value: step,
        before,
    };
    match u128::try_from(step) {
        Ok(step) => match total_cost(before, step) {
            Some(total) => Ok(total),
            None => Err(Reason::PlanCost(cost)),
        },
        Err(_) => Err(Reason::NegativeCost(cost)),
    }
}

/// Returns the cost of a step: `sum`, that of the amounts of its costs, or 1 without a metric.
fn step_cost(task: &LiftedTask, sum: i128) -> i128
    ensures { result ≡ (if is_some task.now.metric then sum else pos 1) }
{
    if task.metric.is_some() { sum } else { 1 }
}

/// Returns what a plan costs with a step whose amounts stay in the range, or why the step departs,
/// by what its effects change.
fn judge_changes<'a>(
    alloc: Global,
    lookups: &Lookups<'_>,
    place: &Place,
    objects: &[usize],
    schema: &'a Schema,
    changes: &Changes,
) -> Result<u64, PlanRefusal<'a>>
    requires changes { AreChangesOf (reached_in place.now).state.values objects.now
        schema.now.effects changes.now }
    requires stay { list_all (amount_stays (reached_in place.now).state.values objects.now)
        schema.now.effects ≡ true }
    ensures gives { IfOk result (AreEffectsOf lookups.now (reached_in place.now) schema.now
        objects.now changes.now) }
    ensures refuses { IfErr result (RefusesFor (IsReasonOfEffects lookups.now
        (reached_in place.now) schema.now objects.now)) }
{
    let effects = schema.effects.as_slice();
    if let Some(new) = leaving_effect(alloc, changes, objects, effects)? {
        return Err(PlanRefusal::For(Reason::NewValue(new)));
    }
    let step = step_cost(lookups.task(), changes.cost);
    match plus_cost(place.cost, step, effects) {
        Ok(cost) => Ok(cost),
        Err(reason) => Err(PlanRefusal::For(reason)),
    }
}

/// Returns what a step changes at a place and what the plan then costs, where the objects stand for
/// the schema's parameters; or why it departs: the first subexpression of an amount that is out of
/// the range, or else the first effect whose fluent's new value is, or else the step's cost, which
/// is negative, or else the plan's cost with it.
pub(crate) fn judge_effects<'a>(
    alloc: Global,
    lookups: &Lookups<'_>,
    place: &Place,
    objects: &[usize],
    schema: &'a Schema,
) -> Result<(Changes, u64), PlanRefusal<'a>>
    requires there { HaveValues (reached_in place.now).state.values
        (flat_map (met_by_effect objects.now) schema.now.effects) }
    requires compatible { effects_clash objects.now schema.now.effects ≡ false }
    ensures gives { IfOk result (λ given. AreEffectsOf lookups.now (reached_in place.now) schema.now
        objects.now given.0 given.1) }
    ensures refuses { IfErr result (RefusesFor (IsReasonOfEffects lookups.now
        (reached_in place.now) schema.now objects.now)) }
{
    match changes_of(alloc, place, objects, schema.effects.as_slice())? {
        Ok(changes) => match judge_changes(alloc, lookups, place, objects, schema, &changes) {
            Ok(cost) => Ok((changes, cost)),
            Err(refusal) => {
                drop(changes);
                Err(refusal)
            }
        },
        Err(departure) => Err(PlanRefusal::For(Reason::Subexpression(departure))),
    }
}

// ---- putting the new values in

/// Sets the value of a fluent, if it is in the range.
fn put_value(numbers: &mut Numbers, fluent: Ground, value: i128) -> Result<(), NoMemory>
    ensures { OnOk result ((g : Ground) → value_in numbers.new g
        ≡ (if in_range value && same fluent g then Some value else value_in numbers.old g)) }
{
    let Some(value) = narrow(value) else {
        drop(fluent);
        return Ok(());
    };
    numbers.set(fluent, value)?;
    Ok(())
}

/// Puts new values, which are in the range, in the place of the old ones.
pub(crate) fn put_values(numbers: &mut Numbers, mut changes: Changes) -> Result<(), NoMemory>
    requires fit { (g : Ground) → fits (new_value_in changes g) ≡ true }
    ensures { OnOk result ((g : Ground) → value_in numbers.new g
        ≡ option_or (new_value_in changes g) (value_in numbers.old g)) }
{
    while let Some((fluent, value)) = changes.values.pop() {
        put_value(numbers, fluent, value)?;
    }
    Ok(())
}
