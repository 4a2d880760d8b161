//! Negative costs.
ghost use Rattle.std.specs.Prelude.{◌≡◌, option_map, IfOk};
ghost use Rattle.hd_grounding.specs.Faults.{is_negative_instance, negative_in};

use hd_base::NoMemory;
use hd_judge::{Lookups, costs_negative};
use hd_lifted::Instance;
use std::alloc::Global;

/// Reports whether an instance costs the same in each state, and less than 0.
fn is_negative_instance(
    alloc: Global,
    lookups: &Lookups<'_>,
    instance: &Instance,
) -> Result<bool, NoMemory>
    ensures { IfOk result (λ b. b ≡ is_negative_instance lookups.now instance.now) }
{
    match lookups.task().schemas.as_slice().get(instance.schema) {
        Some(schema) => costs_negative(alloc, lookups, schema, instance.objects.as_slice()),
        None => Ok(false),
    }
}

/// Returns the first instance that costs less than 0 in each state, if there is one.
///
/// # Errors
/// - Lack of memory.
pub fn first_negative<'a>(
    alloc: Global,
    lookups: &Lookups<'_>,
    instances: &'a [Instance],
) -> Result<Option<&'a Instance>, NoMemory>
    ensures { IfOk result (λ i. option_map (λ r. r.now) i ≡ negative_in lookups.now instances.now) }
{
    for instance in instances {
        if is_negative_instance(alloc, lookups, instance)? {
            return Ok(Some(instance));
        }
    }
    Ok(None)
}
