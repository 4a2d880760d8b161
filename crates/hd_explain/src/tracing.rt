//! What the steps of a plan do, as text.
ghost use Rattle.std.specs.Prelude.{◌≡◌, ◌++◌, List, ℕ, Some, [], flat_map, slice_get, string_bytes, IfOk, IfSome, IfNone, OnOk};
ghost use Rattle.std.specs.List.{list_any};
ghost use Rattle.hd_lifted.specs.Steps.{start};
ghost use Rattle.hd_lifted.specs.WellFormed.{HasDistinctNames};
ghost use Rattle.hd_lifted.specs.States.{same};
ghost use Rattle.hd_judge.specs.Tables.{reached_in};
ghost use Rattle.hd_judge.specs.Way.{IsOnWay};
ghost use Rattle.hd_plan.specs.PlanText.{line_end};
ghost use Rattle.hd_plan.specs.Texts.{name_of_schema, instance_text};
ghost use Rattle.hd_explain.specs.declared.reading.Reading.{Reading};
ghost use Rattle.hd_explain.specs.Texts.{atom_text};
ghost use Rattle.hd_explain.specs.Traces.{with_changed, changed_by_effects, number_text, atom_line, fluent_line, start_text, action_text, effect_lines, TracesInstance, TracesStep, TracesFrom, IsTrace, FailsAt, FailsAtStep};

use crate::reading::Reading;
use crate::text::{push_ground_form, push_objects};
use hd_base::{NoMemory, Seed};
use hd_judge::{Lookups, Place, PlanStop, begin, is_cost, judge_step, schema_of};
use hd_lifted::{
    AppliedSymbol, Checked, Ground, Instance, LiftedTask, NumericEffect, Schema, ground_form_of,
};
use hd_plan::{Step, TaskNames, instance_of};
use std::alloc::{AllocError, Global};
use std::fmt::Write;

// ---- what changes

/// Reports whether a fluent is one of these.
fn is_among(readings: &[Reading], fluent: &Ground) -> bool
    ensures { result ≡ list_any (λ (r : Reading). same r.fluent fluent.now) readings.now }
{
    readings.iter().any(|reading| reading.fluent == *fluent)
}

/// Puts the fluent that an effect changes, with its value, after others, unless it is one of them.
fn push_changed(
    alloc: Global,
    readings: &mut Vec<Reading>,
    place: &Place,
    objects: &[usize],
    effect: &NumericEffect,
) -> Result<(), NoMemory>
    ensures { OnOk result (readings.new.items ≡ with_changed (reached_in place.now).state.values
        objects.now readings.old.items effect.now) }
{
    if is_cost(effect.change) {
        return Ok(());
    }
    let fluent = ground_form_of(alloc, objects, &effect.fluent)?;
    if is_among(readings.as_slice(), &fluent) {
        drop(fluent);
        return Ok(());
    }
    let value = place.value(&fluent);
    readings.push(Reading { fluent, value })?;
    Ok(())
}

/// Returns the fluents that effects change, with their values here.
fn changed_by_effects(
    alloc: Global,
    place: &Place,
    objects: &[usize],
    effects: &[NumericEffect],
) -> Result<Vec<Reading>, NoMemory>
    ensures { IfOk result (λ readings. readings.items
        ≡ changed_by_effects (reached_in place.now).state.values objects.now effects.now) }
{
    let mut readings = Vec::new(alloc);
    for effect in effects {
        push_changed(alloc, &mut readings, place, objects, effect)?;
    }
    Ok(readings)
}

// ---- lines

/// Puts a number after a text.
fn push_number(text: &mut String, number: Option<i64>) -> Result<(), NoMemory>
    ensures { OnOk result (string_bytes text.new ≡ string_bytes text.old ++ number_text number) }
{
    match number {
        Some(number) => write!(text, "{number}"),
        None => text.push_str("nothing"),
    }
}

/// Puts a line of words and an atom after a text.
fn push_atom(
    text: &mut String,
    task: &LiftedTask,
    words: &str,
    atom: &Ground,
) -> Result<(), NoMemory>
    ensures { OnOk result (string_bytes text.new ≡ string_bytes text.old
        ++ (words.now ++ atom_text task.now atom.now ++ line_end)) }
{
    text.push_str(words)?;
    push_ground_form(text, task, task.predicates.as_slice(), atom)?;
    text.push_str("\n")
}

/// Puts a line for each of `atoms` after a text: words, and the atom.
fn push_atoms(
    alloc: Global,
    text: &mut String,
    task: &LiftedTask,
    objects: &[usize],
    words: &str,
    atoms: &[AppliedSymbol],
) -> Result<(), NoMemory>
    ensures { OnOk result (string_bytes text.new ≡ string_bytes text.old
        ++ flat_map (atom_line task.now objects.now words.now) atoms.now) }
{
    for said in atoms {
        let atom = ground_form_of(alloc, objects, said)?;
        push_atom(text, task, words, &atom)?;
    }
    Ok(())
}

/// Puts a line after a text: a fluent with the value that it had, and the one that it has here.
fn push_fluent(
    text: &mut String,
    task: &LiftedTask,
    place: &Place,
    old: &Reading,
) -> Result<(), NoMemory>
    ensures { OnOk result (string_bytes text.new ≡ string_bytes text.old
        ++ fluent_line task.now (reached_in place.now).state.values old.now) }
{
    text.push_str("  sets ")?;
    push_ground_form(text, task, task.functions.as_slice(), &old.fluent)?;
    text.push_str(" from ")?;
    push_number(text, old.value)?;
    text.push_str(" to ")?;
    push_number(text, place.value(&old.fluent))?;
    text.push_str("\n")
}

/// Puts such a line for each of `olds` after a text.
fn push_fluents(
    text: &mut String,
    task: &LiftedTask,
    place: &Place,
    olds: &[Reading],
) -> Result<(), NoMemory>
    ensures { OnOk result (string_bytes text.new ≡ string_bytes text.old
        ++ flat_map (fluent_line task.now (reached_in place.now).state.values) olds.now) }
{
    for reading in olds {
        push_fluent(text, task, place, reading)?;
    }
    Ok(())
}

/// Puts the name of a schema after a text.
fn push_schema(text: &mut String, task: &LiftedTask, schema: usize) -> Result<(), NoMemory>
    ensures { OnOk result (string_bytes text.new ≡ string_bytes text.old
        ++ name_of_schema (slice_get task.now.schemas schema)) }
{
    match task.schemas.as_slice().get(schema) {
        Some(declared) => text.push_str(declared.name.as_str()),
        None => Ok(()),
    }
}

/// Puts an instance after a text.
fn push_instance(text: &mut String, task: &LiftedTask, instance: &Instance) -> Result<(), NoMemory>
    ensures { OnOk result (string_bytes text.new ≡ string_bytes text.old
        ++ instance_text task.now instance.now) }
{
    text.push_str("(")?;
    push_schema(text, task, instance.schema)?;
    push_objects(text, task, instance.objects.as_slice())?;
    text.push_str(")")
}

/// A step that was taken.
#[derive(Clone, Copy)]
struct Taken<'a> {
    /// Its number, from 1.
    number: u64,
    instance: &'a Instance,
    schema: &'a Schema,
    /// The fluents that it changes, with their values before it.
    olds: &'a [Reading],
}

/// Puts what the plan costs here after a text.
fn push_cost(text: &mut String, place: &Place) -> Result<(), NoMemory>
    ensures { OnOk result (string_bytes text.new ≡ string_bytes text.old
        ++ number_text (reached_in place.now).cost) }
{
    let cost = place.cost();
    write!(text, "{cost}")
}

/// Puts the number of a step after a text.
fn push_start(alloc: Global, text: &mut String, number: u64) -> Result<(), NoMemory>
    ensures { OnOk result (string_bytes text.new ≡ string_bytes text.old ++ start_text number) }
{
    let start = format!(in alloc; "step {number} ")?;
    text.push_str(start.as_str())
}

/// Puts the action of a step after a text, and what the plan costs here.
fn push_action(
    text: &mut String,
    task: &LiftedTask,
    place: &Place,
    instance: &Instance,
) -> Result<(), NoMemory>
    ensures { OnOk result (string_bytes text.new ≡ string_bytes text.old
        ++ action_text task.now instance.now (reached_in place.now)) }
{
    push_instance(text, task, instance)?;
    text.push_str(", cost so far ")?;
    push_cost(text, place)?;
    text.push_str("\n")
}

/// Puts a line for each effect of a step, which has led here, after a text.
fn push_effects(
    alloc: Global,
    text: &mut String,
    task: &LiftedTask,
    place: &Place,
    taken: &Taken<'_>,
) -> Result<(), NoMemory>
    ensures { OnOk result (string_bytes text.new ≡ string_bytes text.old
        ++ effect_lines task.now taken.now.instance.now.objects taken.now.schema.now
        taken.now.olds.now (reached_in place.now)) }
{
    let (objects, schema) = (taken.instance.objects.as_slice(), taken.schema);
    push_atoms(
        alloc,
        text,
        task,
        objects,
        "  deletes ",
        schema.deletes.as_slice(),
    )?;
    push_atoms(
        alloc,
        text,
        task,
        objects,
        "  adds ",
        schema.adds.as_slice(),
    )?;
    push_fluents(text, task, place, taken.olds)
}

/// Returns the lines of a step, which has led here.
fn lines_of(
    alloc: Global,
    task: &LiftedTask,
    place: &Place,
    taken: &Taken<'_>,
) -> Result<String, NoMemory>
    ensures { IfOk result (λ lines. string_bytes lines
        ≡ start_text taken.now.number
        ++ action_text task.now taken.now.instance.now (reached_in place.now)
        ++ effect_lines task.now taken.now.instance.now.objects taken.now.schema.now
        taken.now.olds.now (reached_in place.now)) }
{
    let mut text = String::new(alloc);
    push_start(alloc, &mut text, taken.number)?;
    push_action(&mut text, task, place, taken.instance)?;
    push_effects(alloc, &mut text, task, place, taken)?;
    Ok(text)
}

// ---- traces

/// Takes the n-th step, which is one of this instance, and returns its lines: `None` says that it
/// has a fault. Then, and on an error, the place is of no use.
#[tactic(auto, using(crate::proofs::Traced::instance_missing))]
fn trace_instance(
    alloc: Global,
    lookups: &Lookups<'_>,
    place: &mut Place,
    number: u64,
    instance: &Instance,
) -> Result<Option<String>, NoMemory>
    requires way { IsOnWay lookups.now (reached_in place.old) }
    ensures traces { IfOk result (λ o. IfSome o (λ lines. TracesInstance lookups.now
        (reached_in place.old) number instance.now (reached_in place.new) (string_bytes lines))) }
    ensures way { IfOk result (λ o. IfSome o (λ _. IsOnWay lookups.now (reached_in place.new))) }
    ensures fails { IfOk result (λ o. IfNone o (FailsAt lookups.now (reached_in place.old) number
        instance.now)) }
{
    let Some(schema) = schema_of(lookups.task(), instance) else {
        return Ok(None);
    };
    let (objects, effects) = (instance.objects.as_slice(), schema.effects.as_slice());
    let olds = changed_by_effects(alloc, place, objects, effects)?;
    match judge_step(alloc, lookups, place, number, instance) {
        Ok(()) => {
            let taken = Taken {
                number,
                instance,
                schema,
                olds: olds.as_slice(),
            };
            Ok(Some(lines_of(alloc, lookups.task(), place, &taken)?))
        }
        Err(PlanStop::At(fault)) => {
            drop(fault);
            Ok(None)
        }
        Err(PlanStop::NoMemory) => Err(AllocError),
    }
}

/// Takes the n-th step and returns its lines, as `trace_instance` does.
fn trace_next(
    alloc: Global,
    names: &TaskNames<'_>,
    lookups: &Lookups<'_>,
    place: &mut Place,
    number: u64,
    step: &Step,
) -> Result<Option<String>, NoMemory>
    requires named { names.now ≡ lookups.now }
    requires distinct { HasDistinctNames lookups.now }
    requires way { IsOnWay lookups.now (reached_in place.old) }
    ensures traces { IfOk result (λ o. IfSome o (λ lines. TracesStep lookups.now
        (reached_in place.old) number step.now (reached_in place.new) (string_bytes lines))) }
    ensures way { IfOk result (λ o. IfSome o (λ _. IsOnWay lookups.now (reached_in place.new))) }
    ensures fails { IfOk result (λ o. IfNone o (FailsAtStep lookups.now (reached_in place.old)
        number step.now)) }
{
    let Some(instance) = instance_of(alloc, names, step)? else {
        return Ok(None);
    };
    let lines = trace_instance(alloc, lookups, place, number, &instance);
    drop(instance);
    lines
}

/// Returns the trace of steps from here on. The place is of no use afterwards.
fn trace_from(
    alloc: Global,
    names: &TaskNames<'_>,
    lookups: &Lookups<'_>,
    place: &mut Place,
    steps: &[Step],
) -> Result<String, NoMemory>
    requires named { names.now ≡ lookups.now }
    requires distinct { HasDistinctNames lookups.now }
    requires way { IsOnWay lookups.now (reached_in place.old) }
    ensures { IfOk result (λ text. TracesFrom lookups.now (reached_in place.old) 1 steps.now
        (string_bytes text)) }
{
    let mut text = String::new(alloc);
    let mut number: u64 = 1;
    let mut rest = steps;
    while let [first, after @ ..] = rest {
        let Some(lines) = trace_next(alloc, names, lookups, place, number, first)? else {
            return Ok(text);
        };
        text.push_str(lines.as_str())?;
        number += 1;
        rest = after;
    }
    Ok(text)
}

/// Returns what the steps of a plan do, by the tables of its task.
fn trace_in(
    alloc: Global,
    seed: Seed,
    names: &TaskNames<'_>,
    lookups: &Lookups<'_>,
    steps: &[Step],
) -> Result<String, NoMemory>
    requires named { names.now ≡ lookups.now }
    requires distinct { HasDistinctNames lookups.now }
    ensures { IfOk result (λ text. IsTrace lookups.now steps.now (string_bytes text)) }
{
    let mut place = begin(alloc, seed, lookups.task())?;
    let text = trace_from(alloc, names, lookups, &mut place, steps);
    drop(place);
    text
}

/// Returns what the steps of a plan of a task do, by the names of the task.
fn trace_by(
    alloc: Global,
    seed: Seed,
    names: &TaskNames<'_>,
    checked: &Checked,
    steps: &[Step],
) -> Result<String, NoMemory>
    requires named { names.now ≡ checked.now }
    ensures { IfOk result (λ text. IsTrace checked.now steps.now (string_bytes text)) }
{
    let lookups = Lookups::of(alloc, seed, checked.task())?;
    let text = trace_in(alloc, seed, names, &lookups, steps);
    drop(lookups);
    text
}

/// Returns what the steps of a plan of a checked task do, up to the first step that has a fault:
/// the number and the action of each, what the plan costs up to there, and a line for each atom
/// that it deletes or adds and each fluent that it changes. The tables hash by the seed.
///
/// All effects are listed, whether or not they change anything; the goal is not asked.
///
/// # Errors
/// - Lack of memory.
pub fn trace(
    alloc: Global,
    seed: Seed,
    checked: &Checked,
    steps: &[Step],
) -> Result<String, NoMemory>
    ensures { IfOk result (λ text. IsTrace checked.now steps.now (string_bytes text)) }
{
    let names = TaskNames::of(alloc, seed, checked)?;
    let text = trace_by(alloc, seed, &names, checked, steps);
    drop(names);
    text
}
