//! What a step does.
ghost use Rattle.std.specs.Prelude.{◌≡◌, true, false, Some, None, OnOk, IfErr};
ghost use Rattle.hd_lifted.specs.Conditions.{holds};
ghost use Rattle.hd_lifted.specs.Effects.{effects_clash};
ghost use Rattle.hd_lifted.specs.Steps.{step};
ghost use Rattle.hd_lifted.specs.Met.{met_by};
ghost use Rattle.hd_judge.specs.EffectReasons.{StaysWithin, IsReasonOfEffects};
ghost use Rattle.hd_lifted.specs.Questions.{first_undefined};
ghost use Rattle.hd_judge.specs.Refusals.{RefusesFor};
ghost use Rattle.hd_judge.specs.Tables.{state_in, reached_in};
ghost use Rattle.hd_judge.specs.Way.{IsOnWay};

use crate::atoms::change_atoms;
use crate::effect::{judge_effects, put_values};
use crate::lookups::Lookups;
use crate::refusal::PlanRefusal;
use crate::table::Place;
use hd_lifted::Schema;
use std::alloc::Global;

/// Takes a step whose questions before it are answered, if nothing of it departs: the place is then
/// the one after it.
///
/// Where something does, the place is as before. After an error for lack of memory it may be
/// anything.
pub(crate) fn take_step<'a>(
    alloc: Global,
    lookups: &Lookups<'_>,
    place: &mut Place,
    objects: &[usize],
    schema: &'a Schema,
) -> Result<(), PlanRefusal<'a>>
    requires compatible { effects_clash objects.now schema.now.effects ≡ false }
    requires defined { first_undefined lookups.now (met_by objects.now schema.now) ≡ None }
    requires met { holds (state_in place.old) objects.now schema.now.condition ≡ true }
    requires way { IsOnWay lookups.now (reached_in place.old) }
    ensures stays { OnOk result (StaysWithin lookups.now (reached_in place.old) schema.now
        objects.now) }
    ensures leads { OnOk result (step lookups.now (reached_in place.old) schema.now objects.now
        ≡ Some (reached_in place.new)) }
    ensures refuses { IfErr result (RefusesFor (λ reason.
        IsReasonOfEffects lookups.now (reached_in place.old) schema.now objects.now reason
        × (reached_in place.new ≡ reached_in place.old))) }
{
    let (changes, cost) = judge_effects(alloc, lookups, place, objects, schema)?;
    put_values(&mut place.numbers, changes)?;
    change_atoms(alloc, &mut place.truths, objects, schema)?;
    place.cost = cost;
    Ok(())
}
