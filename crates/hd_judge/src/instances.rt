//! Instances of a task.
ghost use Rattle.std.specs.Prelude.{◌≡◌, Some, slice_get, IfOk, IfSome, IfNone};
ghost use Rattle.hd_lifted.specs.Plans.{IsInstance};

use hd_base::{NoMemory, Tuple};
use hd_lifted::{Instance, LiftedTask, Schema, are_of_subtypes, effects_clash};
use smallvec::SmallVec;
use std::alloc::Global;

/// Returns the same instance in memory of its own.
pub(crate) fn copy_of(alloc: Global, instance: &Instance) -> Result<Instance, NoMemory>
    ensures { IfOk result (λ i. i ≡ instance.now) }
{
    let objects = SmallVec::from_slice(alloc, instance.objects.as_slice())?;
    Ok(Instance {
        schema: instance.schema,
        objects: Tuple::from_small_vec(objects),
    })
}

/// Returns the schema of an instance, if it is one of the task.
#[tactic(auto, using(crate::proofs::Schemas::is_instance, crate::proofs::Schemas::no_schema, crate::proofs::Schemas::not_typed, crate::proofs::Schemas::not_compatible))]
pub fn schema_of<'a>(task: &'a LiftedTask, instance: &Instance) -> Option<&'a Schema>
    ensures schema { IfSome result (λ a. slice_get task.now.schemas instance.now.schema
        ≡ Some a.now) }
    ensures instance { IfSome result (λ _. IsInstance task.now instance.now) }
    ensures none { IfNone result (IsInstance task.now instance.now → ⊥) }
{
    let schema = task.schemas.as_slice().get(instance.schema)?;
    let objects = instance.objects.as_slice();
    if !are_of_subtypes(task, objects, schema.parameters.as_slice()) {
        return None;
    }
    if effects_clash(objects, schema.effects.as_slice()) {
        return None;
    }
    Some(schema)
}
