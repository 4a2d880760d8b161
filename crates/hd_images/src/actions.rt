//! Actions.
ghost use Rattle.std.specs.Prelude.{◌≡◌, ◌<◌, length, IfOk};
ghost use Rattle.hd_grounding.specs.Images.{numbers_of, condition_of, costs_of};
ghost use Rattle.hd_grounding.specs.Grounding.{form_of_instance, HasEffectsOf, IsActionOf};

use crate::NumberedForms;
use crate::conditions::{condition_of, numbers_of};
use crate::costs::costs_of;
use crate::effects::effects_of;
use crate::names::form_of_instance;
use hd_base::{NoMemory, Sequence};
use hd_judge::Lookups;
use hd_lifted::{Instance, Schema};
use hd_task::{Action, Condition, Effect, Expr, GroundForm};
use std::alloc::Global;

/// The atoms that a schema with objects deletes and adds.
type ChangedAtoms = (Sequence<u32>, Sequence<u32>);

/// What a schema with objects does to fluents, and what it adds to the cost.
type ChangedNumbers = (Sequence<Effect>, Sequence<Expr>);

/// Returns what an instance is printed as, and its condition.
fn described(
    alloc: Global,
    atoms: &NumberedForms,
    fluents: &NumberedForms,
    instance: &Instance,
    schema: &Schema,
) -> Result<(GroundForm, Condition), NoMemory>
    ensures form { IfOk result (λ p. p.0 ≡ form_of_instance instance.now) }
    ensures condition { IfOk result (λ p. p.1
        ≡ condition_of atoms.now fluents.now instance.now.objects schema.now.condition) }
{
    let objects = instance.objects.as_slice();
    let condition = condition_of(alloc, atoms, fluents, objects, &schema.condition)?;
    match form_of_instance(alloc, instance) {
        Ok(form) => Ok((form, condition)),
        Err(error) => {
            drop(condition);
            Err(error)
        }
    }
}

/// Returns the atoms that a schema with objects deletes, and those that it adds.
fn changed_atoms(
    alloc: Global,
    atoms: &NumberedForms,
    objects: &[usize],
    schema: &Schema,
) -> Result<ChangedAtoms, NoMemory>
    ensures deletes { IfOk result (λ p. p.0 ≡ numbers_of atoms.now objects.now schema.now.deletes) }
    ensures adds { IfOk result (λ p. p.1 ≡ numbers_of atoms.now objects.now schema.now.adds) }
{
    let deletes = numbers_of(alloc, atoms, objects, schema.deletes.as_slice())?;
    match numbers_of(alloc, atoms, objects, schema.adds.as_slice()) {
        Ok(adds) => Ok((deletes, adds)),
        Err(error) => {
            drop(deletes);
            Err(error)
        }
    }
}

/// Returns what a schema with objects does to fluents, and what it adds to the cost.
fn changed_numbers(
    alloc: Global,
    lookups: &Lookups<'_>,
    fluents: &NumberedForms,
    objects: &[usize],
    schema: &Schema,
) -> Result<ChangedNumbers, NoMemory>
    ensures effects { IfOk result (λ p. HasEffectsOf fluents.now objects.now schema.now p.0) }
    ensures costs { IfOk result (λ p. p.1
        ≡ costs_of lookups.now fluents.now objects.now schema.now) }
{
    let effects = effects_of(alloc, fluents, objects, schema)?;
    match costs_of(alloc, lookups, fluents, objects, schema) {
        Ok(costs) => Ok((effects, costs)),
        Err(error) => {
            drop(effects);
            Err(error)
        }
    }
}

/// Returns all that a schema with objects changes.
fn changed(
    alloc: Global,
    lookups: &Lookups<'_>,
    atoms: &NumberedForms,
    fluents: &NumberedForms,
    objects: &[usize],
    schema: &Schema,
) -> Result<(ChangedAtoms, ChangedNumbers), NoMemory>
    ensures deletes { IfOk result (λ p. p.0.0
        ≡ numbers_of atoms.now objects.now schema.now.deletes) }
    ensures adds { IfOk result (λ p. p.0.1 ≡ numbers_of atoms.now objects.now schema.now.adds) }
    ensures effects { IfOk result (λ p. HasEffectsOf fluents.now objects.now schema.now p.1.0) }
    ensures costs { IfOk result (λ p. p.1.1
        ≡ costs_of lookups.now fluents.now objects.now schema.now) }
{
    let changed = changed_atoms(alloc, atoms, objects, schema)?;
    match changed_numbers(alloc, lookups, fluents, objects, schema) {
        Ok(numbers) => Ok((changed, numbers)),
        Err(error) => {
            drop(changed);
            Err(error)
        }
    }
}

/// Returns the action that an instance of a schema is.
///
/// # Errors
/// - Lack of memory.
pub fn action_of(
    alloc: Global,
    lookups: &Lookups<'_>,
    atoms: &NumberedForms,
    fluents: &NumberedForms,
    instance: &Instance,
) -> Result<Action, NoMemory>
    requires { instance.now.schema < length lookups.now.schemas }
    ensures { IfOk result (IsActionOf lookups.now atoms.now fluents.now instance.now) }
{
    let schema = &lookups.task().schemas.as_slice()[instance.schema];
    let objects = instance.objects.as_slice();
    let (form, condition) = described(alloc, atoms, fluents, instance, schema)?;
    match changed(alloc, lookups, atoms, fluents, objects, schema) {
        Ok(((deletes, adds), (effects, costs))) => Ok(Action {
            form,
            condition,
            deletes,
            adds,
            effects,
            costs,
        }),
        Err(error) => {
            drop(form);
            drop(condition);
            Err(error)
        }
    }
}
