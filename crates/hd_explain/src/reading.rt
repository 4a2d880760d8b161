//! The fluents that reasons speak of, with their values.
ghost use Rattle.std.specs.Prelude.{◌≡◌, ◌++◌, ◌∷◌, [], map, IfOk, OnOk};
ghost use Rattle.hd_base.specs.Expression.{leaf};
ghost use Rattle.hd_lifted.specs.States.{ground_form_of};
ghost use Rattle.hd_lifted.specs.Met.{fluents_in, met_by_comparison};
ghost use Rattle.hd_judge.specs.Tables.{reached_in};
ghost use Rattle.hd_explain.specs.Readings.{reading_at, changing_fluents, fluents_of, paid_fluents};

use hd_base::{ExprParts, NoMemory, Operand, Sequence};
use hd_judge::{NewValue, Place, Reason, is_cost};
use hd_lifted::{
    AppliedSymbol, Comparison, Expr, Ground, NumericEffect, are_lifted_forms_equal, ground_form_of,
};
use std::alloc::Global;

/// A fluent in its ground form, with its value at a place, if it has one there.
#[derive(Debug, Drop)]
pub struct Reading {
    pub fluent: Ground,
    pub value: Option<i64>,
}

/// Puts a fluent with its value after others.
fn push_reading(
    alloc: Global,
    readings: &mut Vec<Reading>,
    place: &Place,
    objects: &[usize],
    said: &AppliedSymbol,
) -> Result<(), NoMemory>
    ensures { OnOk result (readings.new.items ≡ readings.old.items
        ++ reading_at (reached_in place.now).state.values (ground_form_of objects.now said.now)
        ∷ []) }
{
    let fluent = ground_form_of(alloc, objects, said)?;
    let value = place.value(&fluent);
    readings.push(Reading { fluent, value })?;
    Ok(())
}

/// Puts the fluents that an expression reads, with their values, after others.
fn push_expression(
    alloc: Global,
    readings: &mut Vec<Reading>,
    place: &Place,
    objects: &[usize],
    said: &Expr,
) -> Result<(), NoMemory>
    ensures { OnOk result (readings.new.items ≡ readings.old.items
        ++ map (reading_at (reached_in place.now).state.values)
        (fluents_in objects.now said.now)) }
{
    match said.parts() {
        ExprParts::Leaf(Operand::Number(_)) => Ok(()),
        ExprParts::Leaf(Operand::Fluent(fluent)) => {
            push_reading(alloc, readings, place, objects, fluent.get())
        }
        ExprParts::Negate(inner) => push_expression(alloc, readings, place, objects, inner),
        ExprParts::Binary(_, left, right) => {
            push_expression(alloc, readings, place, objects, left)?;
            push_expression(alloc, readings, place, objects, right)
        }
    }
}

/// Puts the fluents that a comparison reads, with their values, after others.
fn push_comparison(
    alloc: Global,
    readings: &mut Vec<Reading>,
    place: &Place,
    objects: &[usize],
    said: &Comparison,
) -> Result<(), NoMemory>
    ensures { OnOk result (readings.new.items ≡ readings.old.items
        ++ map (reading_at (reached_in place.now).state.values)
        (met_by_comparison objects.now said.now)) }
{
    push_expression(alloc, readings, place, objects, &said.left)?;
    push_expression(alloc, readings, place, objects, &said.right)
}

/// Puts the fluents that an effect's amount reads, with their values, after others, if the effect
/// is on this fluent.
fn push_change(
    alloc: Global,
    readings: &mut Vec<Reading>,
    place: &Place,
    objects: &[usize],
    fluent: &AppliedSymbol,
    said: &NumericEffect,
) -> Result<(), NoMemory>
    ensures { OnOk result (readings.new.items ≡ readings.old.items
        ++ map (reading_at (reached_in place.now).state.values)
        (changing_fluents objects.now (ground_form_of objects.now fluent.now)
        (said.now ∷ []))) }
{
    if is_cost(said.change) || !are_lifted_forms_equal(objects, &said.fluent, fluent) {
        return Ok(());
    }
    push_expression(alloc, readings, place, objects, &said.amount)
}

/// Puts the fluents that the amounts of the effects on a fluent read, with their values, after
/// others.
fn push_changes(
    alloc: Global,
    readings: &mut Vec<Reading>,
    place: &Place,
    objects: &[usize],
    fluent: &AppliedSymbol,
    said: &[NumericEffect],
) -> Result<(), NoMemory>
    ensures { OnOk result (readings.new.items ≡ readings.old.items
        ++ map (reading_at (reached_in place.now).state.values)
        (changing_fluents objects.now (ground_form_of objects.now fluent.now) said.now)) }
{
    let mut rest = said;
    while let [first, after @ ..] = rest {
        push_change(alloc, readings, place, objects, fluent, first)?;
        rest = after;
    }
    Ok(())
}

/// Puts a fluent whose new value is reported, and those that its new value is made of, with their
/// values, after others.
fn push_new_value(
    alloc: Global,
    readings: &mut Vec<Reading>,
    place: &Place,
    objects: &[usize],
    new: &NewValue<'_>,
) -> Result<(), NoMemory>
    ensures { OnOk result (readings.new.items ≡ readings.old.items
        ++ map (reading_at (reached_in place.now).state.values)
        (ground_form_of objects.now new.now.effect.now.fluent
        ∷ changing_fluents objects.now (ground_form_of objects.now new.now.effect.now.fluent)
        new.now.effects.now)) }
{
    let fluent = &new.effect.fluent;
    push_reading(alloc, readings, place, objects, fluent)?;
    push_changes(alloc, readings, place, objects, fluent, new.effects)
}

/// Puts the fluents that the amounts of the cost read, with their values, after others.
fn push_costs(
    alloc: Global,
    readings: &mut Vec<Reading>,
    place: &Place,
    objects: &[usize],
    said: &[NumericEffect],
) -> Result<(), NoMemory>
    ensures { OnOk result (readings.new.items ≡ readings.old.items
        ++ map (reading_at (reached_in place.now).state.values)
        (paid_fluents objects.now said.now)) }
{
    let mut rest = said;
    while let [first, after @ ..] = rest {
        if is_cost(first.change) {
            push_expression(alloc, readings, place, objects, &first.amount)?;
        }
        rest = after;
    }
    Ok(())
}

/// Puts the fluents that a reason speaks of, with their values, after others.
fn push_readings(
    alloc: Global,
    readings: &mut Vec<Reading>,
    place: &Place,
    objects: &[usize],
    reason: &Reason<'_>,
) -> Result<(), NoMemory>
    ensures { OnOk result (readings.new.items ≡ readings.old.items
        ++ map (reading_at (reached_in place.now).state.values)
        (fluents_of objects.now reason.now)) }
{
    match reason {
        Reason::Literal(_) | Reason::Equality(_) => Ok(()),
        Reason::Comparison(comparison) => {
            push_comparison(alloc, readings, place, objects, comparison)
        }
        Reason::Subexpression(departure) => {
            push_expression(alloc, readings, place, objects, departure.part)
        }
        Reason::NewValue(new) => push_new_value(alloc, readings, place, objects, new),
        Reason::NegativeCost(cost) | Reason::PlanCost(cost) => {
            push_costs(alloc, readings, place, objects, cost.effects)
        }
    }
}

/// Returns the fluents that a reason speaks of, from the left, with their values at the place. One
/// that is read twice stands twice.
///
/// # Errors
/// - Lack of memory.
pub fn readings_of(
    alloc: Global,
    place: &Place,
    objects: &[usize],
    reason: &Reason<'_>,
) -> Result<Sequence<Reading>, NoMemory>
    ensures { IfOk result (λ rs. rs ≡ map (reading_at (reached_in place.now).state.values)
        (fluents_of objects.now reason.now)) }
{
    let mut readings = Vec::new(alloc);
    push_readings(alloc, &mut readings, place, objects, reason)?;
    Ok(Sequence::from_vec(readings))
}
