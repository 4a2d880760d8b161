//! A plan, judged step by step: where it begins, each step, and its end.
ghost use Rattle.std.specs.Prelude.{◌≡◌, IfOk, OnOk, IfErr};
ghost use Rattle.hd_lifted.specs.Steps.{start};
ghost use Rattle.hd_judge.specs.Asking.{asked_of_goal};
ghost use Rattle.hd_judge.specs.Fault.{Asks, StopsBy};
ghost use Rattle.hd_judge.specs.Refusals.{RefusesBy, IsReasonOfStep, TellsUnexplained};
ghost use Rattle.hd_judge.specs.Tables.{reached_in};
ghost use Rattle.hd_judge.specs.Validity.{Passes, TellsStep};
ghost use Rattle.hd_judge.specs.Way.{IsOnWay};

use crate::asking::{ask_before, explain_goal};
use crate::fault::{PlanFault, PlanStop};
use crate::instances::schema_of;
use crate::lookups::Lookups;
use crate::refusal::{PlanRefusal, stop_of};
use crate::step::take_step;
use crate::table::{Numbers, Place, Truths};
use hd_base::{NoMemory, Seed};
use hd_lifted::{Instance, LiftedTask};
use std::alloc::Global;

/// Returns the place at which every plan of a lifted task begins, in tables that hash by the seed.
///
/// Fails only for lack of memory.
#[tactic(auto, using(crate::proofs::Beginning::is_start, crate::proofs::Beginning::on_way_at))]
pub fn begin(alloc: Global, seed: Seed, task: &LiftedTask) -> Result<Place, NoMemory>
    ensures start { IfOk result (λ p. reached_in p ≡ start task.now) }
    ensures way { IfOk result (λ p. IsOnWay task.now (reached_in p)) }
{
    let truths = Truths::listed(alloc, seed, task.atoms.as_slice())?;
    match Numbers::listed(alloc, seed, task.values.as_slice()) {
        Ok(numbers) => Ok(Place {
            truths,
            numbers,
            cost: 0,
        }),
        Err(error) => {
            drop(truths);
            Err(error)
        }
    }
}

/// Judges the step of a plan that has this number, counted from 1, and takes it: the place is then
/// the one after it.
///
/// # Errors
/// - Why the step is refused, where it is for a reason: the place is then as before. Or a fault of
///   it that needs no reason; or lack of memory.
#[tactic(auto, using(crate::proofs::Judged::compatible_by, crate::proofs::Judged::defined_before, crate::proofs::Judged::unknown_told, crate::proofs::Judged::refused_before, crate::proofs::Judged::refused_then))]
pub fn explain_step<'a>(
    alloc: Global,
    lookups: &Lookups<'a>,
    place: &mut Place,
    number: u64,
    instance: &Instance,
) -> Result<(), PlanRefusal<'a>>
    requires way { IsOnWay lookups.now (reached_in place.old) }
    ensures passes { OnOk result (Passes lookups.now (reached_in place.old) number instance.now
        (reached_in place.new)) }
    ensures way { OnOk result (IsOnWay lookups.now (reached_in place.new)) }
    ensures refuses { IfErr result (RefusesBy (λ reason.
        IsReasonOfStep lookups.now (reached_in place.old) instance.now reason
        × (reached_in place.new ≡ reached_in place.old))
        (TellsUnexplained lookups.now (reached_in place.old) number instance.now)) }
{
    let Some(schema) = schema_of(lookups.task(), instance) else {
        return Err(PlanRefusal::At(PlanStop::At(PlanFault::NoSuchAction(number))));
    };
    ask_before(alloc, lookups, place, number, instance, schema)?;
    take_step(alloc, lookups, place, instance.objects.as_slice(), schema)?;
    Ok(())
}

/// Judges the step of a plan that has this number, counted from 1, and takes it: the place is then
/// the one after it.
///
/// It stops at the first fault of the step, or for lack of memory. After an error the place is of
/// no use.
#[tactic(auto, using(crate::proofs::Judged::refusal_told))]
pub fn judge_step(
    alloc: Global,
    lookups: &Lookups<'_>,
    place: &mut Place,
    number: u64,
    instance: &Instance,
) -> Result<(), PlanStop>
    requires way { IsOnWay lookups.now (reached_in place.old) }
    ensures passes { OnOk result (Passes lookups.now (reached_in place.old) number instance.now
        (reached_in place.new)) }
    ensures way { OnOk result (IsOnWay lookups.now (reached_in place.new)) }
    ensures tells { IfErr result (StopsBy (TellsStep lookups.now (reached_in place.old) number
        instance.now)) }
{
    match explain_step(alloc, lookups, place, number, instance) {
        Ok(()) => Ok(()),
        Err(refusal) => {
            let unmet = PlanFault::NotApplicable(number);
            Err(stop_of(unmet, PlanFault::Departs(number), refusal))
        }
    }
}

/// Judges the end of a plan that leads to this place: the number is one more than that of its
/// steps.
///
/// It stops at the first fault of the goal, or for lack of memory.
#[tactic(auto, using(crate::proofs::Judged::goal_told))]
pub fn judge_goal(
    alloc: Global,
    lookups: &Lookups<'_>,
    place: &Place,
    number: u64,
) -> Result<(), PlanStop>
    ensures { Asks result (asked_of_goal lookups.now (reached_in place.now) number) }
{
    match explain_goal(alloc, lookups, place) {
        Ok(()) => Ok(()),
        Err(refusal) => Err(stop_of(PlanFault::GoalUnmet, PlanFault::Departs(number), refusal)),
    }
}
