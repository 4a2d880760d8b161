//! Amounts of the cost, if there are more than an action may have.
ghost use Rattle.std.specs.Prelude.{◌≡◌, nat_lt, true, false};
ghost use Rattle.hd_task.specs.declared.task.TheConstants.{MAX_AMOUNTS};
ghost use Rattle.hd_grounding.specs.Counted.{HaveFewAmounts};
ghost use Rattle.hd_ground.specs.Amounts.{amounts_of, HasMoreAmountsIn};

use hd_images::count_costs;
use hd_lifted::{Instance, LiftedTask, Schema};
use hd_task::MAX_AMOUNTS;

/// Reports whether a schema adds more amounts to the cost than an action may.
#[tactic(auto, using(crate::proofs::Limits::few_effects))]
fn has_more_amounts(schema: &Schema) -> bool
    ensures { result ≡ nat_lt MAX_AMOUNTS (amounts_of schema.now) }
{
    let effects = schema.effects.as_slice();
    // The effects of a schema that has few are not counted for each of its instances.
    effects.len() > MAX_AMOUNTS && count_costs(effects) > MAX_AMOUNTS
}

/// Reports whether one of these instances adds more amounts to the cost than an action may.
#[tactic(auto, using(crate::proofs::Limits::few_none, crate::proofs::Limits::few_more, crate::proofs::Limits::few_without, crate::proofs::Limits::more_found))]
pub fn have_more_amounts(task: &LiftedTask, instances: &[Instance]) -> bool
    ensures more { result ≡ true → HasMoreAmountsIn task.now instances.now }
    ensures few { result ≡ false → HaveFewAmounts task.now instances.now }
{
    for instance in instances {
        if let Some(schema) = task.schemas.as_slice().get(instance.schema) {
            if has_more_amounts(schema) {
                return true;
            }
        }
    }
    false
}
