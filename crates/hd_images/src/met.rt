//! The fluents that schemas and the goal meet, in the order of the text.
ghost use Rattle.std.specs.Prelude.{◌≡◌, List, ◌++◌, flat_map, IfOk};
ghost use Rattle.hd_base.specs.Expression.{leaf};
ghost use Rattle.hd_lifted.specs.declared.schema.Ground.{Ground};
ghost use Rattle.hd_lifted.specs.Met.{met_by_goal, fluents_in, met_by_comparison, changed_by, met_by_effect, met_by};
ghost use Rattle.hd_task.specs.declared.task.TheConstants.{MAX_FLUENTS};
ghost use Rattle.hd_grounding.specs.Faults.{met_by_instance, met_by_all};
ghost use Rattle.hd_images.specs.Meeting.{with_forms, IsMet};

use crate::Forms;
use hd_base::{ExprParts, NoMemory, Operand, Seed};
use hd_judge::is_cost;
use hd_lifted::{Comparison, Expr, Instance, Leaf, LiftedTask, NumericEffect, Schema};
use hd_task::MAX_FLUENTS;
use std::alloc::Global;

/// Adds the fluent that the leaf `said` reads, if it reads one, to `forms`.
fn meet_leaf(
    alloc: Global,
    forms: &mut Forms,
    objects: &[usize],
    said: &Leaf,
) -> Result<(), NoMemory>
    ensures { IfOk result (λ _. forms.new
        ≡ with_forms forms.old (fluents_in objects.now (leaf said.now))) }
{
    match said {
        Operand::Number(_) => Ok(()),
        Operand::Fluent(fluent) => forms.add_at(alloc, objects, fluent.get()),
    }
}

/// Adds the fluents that the expression `said` reads to `forms`.
fn meet_expression(
    alloc: Global,
    forms: &mut Forms,
    objects: &[usize],
    said: &Expr,
) -> Result<(), NoMemory>
    ensures { IfOk result (λ _. forms.new
        ≡ with_forms forms.old (fluents_in objects.now said.now)) }
{
    match said.parts() {
        ExprParts::Leaf(leaf) => meet_leaf(alloc, forms, objects, leaf),
        ExprParts::Negate(inner) => meet_expression(alloc, forms, objects, inner),
        ExprParts::Binary(_, left, right) => {
            meet_expression(alloc, forms, objects, left)?;
            meet_expression(alloc, forms, objects, right)
        }
    }
}

/// Adds the fluents that the comparison `said` reads to `forms`.
fn meet_comparison(
    alloc: Global,
    forms: &mut Forms,
    objects: &[usize],
    said: &Comparison,
) -> Result<(), NoMemory>
    ensures { IfOk result (λ _. forms.new
        ≡ with_forms forms.old (met_by_comparison objects.now said.now)) }
{
    meet_expression(alloc, forms, objects, &said.left)?;
    meet_expression(alloc, forms, objects, &said.right)
}

/// Adds the fluents that the comparisons `said` read to `forms`.
fn meet_comparisons(
    alloc: Global,
    forms: &mut Forms,
    objects: &[usize],
    said: &[Comparison],
) -> Result<(), NoMemory>
    ensures { IfOk result (λ _. forms.new
        ≡ with_forms forms.old (flat_map (met_by_comparison objects.now) said.now)) }
{
    for comparison in said {
        meet_comparison(alloc, forms, objects, comparison)?;
    }
    Ok(())
}

/// Adds the fluent that `effect` changes, if it changes one, to `forms`.
fn meet_target(
    alloc: Global,
    forms: &mut Forms,
    objects: &[usize],
    effect: &NumericEffect,
) -> Result<(), NoMemory>
    ensures { IfOk result (λ _. forms.new
        ≡ with_forms forms.old (changed_by objects.now effect.now)) }
{
    if is_cost(effect.change) {
        return Ok(());
    }
    forms.add_at(alloc, objects, &effect.fluent)
}

/// Adds the fluent that `effect` changes, and then those that its amount reads, to `forms`.
fn meet_effect(
    alloc: Global,
    forms: &mut Forms,
    objects: &[usize],
    effect: &NumericEffect,
) -> Result<(), NoMemory>
    ensures { IfOk result (λ _. forms.new
        ≡ with_forms forms.old (met_by_effect objects.now effect.now)) }
{
    meet_target(alloc, forms, objects, effect)?;
    meet_expression(alloc, forms, objects, &effect.amount)
}

/// Adds the fluents that `effects` change or read to `forms`.
fn meet_effects(
    alloc: Global,
    forms: &mut Forms,
    objects: &[usize],
    effects: &[NumericEffect],
) -> Result<(), NoMemory>
    ensures { IfOk result (λ _. forms.new
        ≡ with_forms forms.old (flat_map (met_by_effect objects.now) effects.now)) }
{
    for effect in effects {
        meet_effect(alloc, forms, objects, effect)?;
    }
    Ok(())
}

/// Adds the fluents that `schema` with `objects` meets to `forms`.
fn meet_schema(
    alloc: Global,
    forms: &mut Forms,
    objects: &[usize],
    schema: &Schema,
) -> Result<(), NoMemory>
    ensures { IfOk result (λ _. forms.new ≡ with_forms forms.old (met_by objects.now schema.now)) }
{
    meet_comparisons(
        alloc,
        forms,
        objects,
        schema.condition.comparisons.as_slice(),
    )?;
    meet_effects(alloc, forms, objects, schema.effects.as_slice())
}

/// Adds the fluents that `instance` meets to `forms`.
fn meet_instance(
    alloc: Global,
    forms: &mut Forms,
    task: &LiftedTask,
    instance: &Instance,
) -> Result<(), NoMemory>
    ensures { IfOk result (λ _. forms.new
        ≡ with_forms forms.old (met_by_instance task.now instance.now)) }
{
    match task.schemas.as_slice().get(instance.schema) {
        Some(schema) => meet_schema(alloc, forms, instance.objects.as_slice(), schema),
        None => Ok(()),
    }
}

/// Adds the fluents that `instance` meets to `forms`, unless there are too many already.
fn meet_instance_too(
    alloc: Global,
    forms: &mut Forms,
    task: &LiftedTask,
    instance: &Instance,
) -> Result<(), NoMemory>
    ensures { IfOk result (λ _. (met : List Ground) → IsMet MAX_FLUENTS met forms.old
        → IsMet MAX_FLUENTS (met ++ met_by_instance task.now instance.now) forms.new) }
{
    if forms.len() > MAX_FLUENTS {
        return Ok(());
    }
    meet_instance(alloc, forms, task, instance)
}

/// Adds the fluents that the goal meets to `forms`.
fn meet_goal(alloc: Global, forms: &mut Forms, task: &LiftedTask) -> Result<(), NoMemory>
    ensures { IfOk result (λ _. forms.new ≡ with_forms forms.old (met_by_goal task.now)) }
{
    let none: [usize; 0] = [];
    meet_comparisons(
        alloc,
        forms,
        none.as_slice(),
        task.goal.comparisons.as_slice(),
    )
}

/// Adds the fluents that the goal meets to `forms`, unless there are too many already.
fn meet_goal_too(alloc: Global, forms: &mut Forms, task: &LiftedTask) -> Result<(), NoMemory>
    ensures { IfOk result (λ _. (met : List Ground) → IsMet MAX_FLUENTS met forms.old
        → IsMet MAX_FLUENTS (met ++ met_by_goal task.now) forms.new) }
{
    if forms.len() > MAX_FLUENTS {
        return Ok(());
    }
    meet_goal(alloc, forms, task)
}

/// Returns the fluents that the instances meet: all of them, or more than a task may have.
fn met_by_instances(
    alloc: Global,
    seed: Seed,
    task: &LiftedTask,
    instances: &[Instance],
) -> Result<Forms, NoMemory>
    ensures { IfOk result (IsMet MAX_FLUENTS (flat_map (met_by_instance task.now) instances.now)) }
{
    let mut forms = Forms::none(alloc, seed);
    for instance in instances {
        meet_instance_too(alloc, &mut forms, task, instance)?;
    }
    Ok(forms)
}

/// Returns the fluents that the instances meet and then those that the goal meets, in the order in
/// which they are met first: all of them, or more than a task may have.
///
/// # Errors
/// - Lack of memory.
pub fn met_by_all(
    alloc: Global,
    seed: Seed,
    task: &LiftedTask,
    instances: &[Instance],
) -> Result<Forms, NoMemory>
    ensures { IfOk result (IsMet MAX_FLUENTS (met_by_all task.now instances.now)) }
{
    let mut forms = met_by_instances(alloc, seed, task, instances)?;
    meet_goal_too(alloc, &mut forms, task)?;
    Ok(forms)
}
