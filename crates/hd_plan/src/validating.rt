//! Whether a plan of steps is validated.
ghost use Rattle.std.specs.Prelude.{◌≡◌, ℕ, IfOk, IfErr, OnOk, MatchResult};
ghost use Rattle.hd_lifted.specs.Steps.{start};
ghost use Rattle.hd_lifted.specs.WellFormed.{HasDistinctNames};
ghost use Rattle.hd_judge.specs.Fault.{StopsBy};
ghost use Rattle.hd_judge.specs.Tables.{reached_in};
ghost use Rattle.hd_judge.specs.Way.{IsOnWay};
ghost use Rattle.hd_judge.specs.declared.fault.PlanFault.{PlanFault};
ghost use Rattle.hd_plan.specs.declared.error.PlanError.{PlanError};
ghost use Rattle.hd_plan.specs.Plans.{IsValidatedBy, PassesBy, TellsStepBy, TellsFromBy, ClearsFromBy, IsFirstFaultBy};
ghost use Rattle.hd_plan.specs.Telling.{Tells};

use crate::Step;
use crate::error::PlanError;
use crate::names::TaskNames;
use crate::steps::instance_of;
use crate::telling::error_of;
use hd_base::Seed;
use hd_judge::{Lookups, Place, PlanFault, PlanStop, begin, judge_goal, judge_step};
use hd_lifted::Checked;
use std::alloc::Global;

/// Judges the n-th step, and takes it. After an error the place is of no use.
fn judge_named(
    alloc: Global,
    names: &TaskNames<'_>,
    lookups: &Lookups<'_>,
    place: &mut Place,
    number: u64,
    step: &Step,
) -> Result<(), PlanStop>
    requires same { names.now ≡ lookups.now }
    requires distinct { HasDistinctNames lookups.now }
    requires way { IsOnWay lookups.now (reached_in place.old) }
    ensures passes { OnOk result (PassesBy lookups.now (reached_in place.old) number step.now
        (reached_in place.new)) }
    ensures way { OnOk result (IsOnWay lookups.now (reached_in place.new)) }
    ensures tells { IfErr result (StopsBy (TellsStepBy lookups.now (reached_in place.old) number
        step.now)) }
{
    let Some(instance) = instance_of(alloc, names, step)? else {
        return Err(PlanStop::At(PlanFault::NoSuchAction(number)));
    };
    let judged = judge_step(alloc, lookups, place, number, &instance);
    drop(instance);
    judged
}

/// Judges the steps, from the first on, and then the goal. After an error the place is of no use.
fn judge_all(
    alloc: Global,
    names: &TaskNames<'_>,
    lookups: &Lookups<'_>,
    place: &mut Place,
    steps: &[Step],
) -> Result<(), PlanStop>
    requires same { names.now ≡ lookups.now }
    requires distinct { HasDistinctNames lookups.now }
    requires way { IsOnWay lookups.now (reached_in place.old) }
    ensures clears { OnOk result (ClearsFromBy lookups.now (reached_in place.old) 1 steps.now
        (reached_in place.new)) }
    ensures tells { IfErr result (StopsBy (TellsFromBy lookups.now (reached_in place.old) 1
        steps.now)) }
{
    let mut number: u64 = 1;
    let mut rest = steps;
    while let [first, after @ ..] = rest {
        if let Err(stop) = judge_named(alloc, names, lookups, place, number, first) {
            return Err(stop);
        }
        number += 1;
        rest = after;
    }
    judge_goal(alloc, lookups, place, number)
}

/// Returns what a plan costs that begins here, or where its judgement stops. The place is of no use
/// afterwards.
#[tactic(auto, using(crate::proofs::Judged::validated_from, crate::proofs::Stepping::tells_from))]
fn cost_from(
    alloc: Global,
    names: &TaskNames<'_>,
    lookups: &Lookups<'_>,
    place: &mut Place,
    steps: &[Step],
) -> Result<u64, PlanStop>
    requires same { names.now ≡ lookups.now }
    requires distinct { HasDistinctNames lookups.now }
    requires start { reached_in place.old ≡ start lookups.now }
    requires way { IsOnWay lookups.now (reached_in place.old) }
    ensures valid { IfOk result (IsValidatedBy lookups.now steps.now) }
    ensures tells { IfErr result (StopsBy (IsFirstFaultBy lookups.now steps.now)) }
{
    match judge_all(alloc, names, lookups, place, steps) {
        Ok(()) => Ok(place.cost()),
        Err(stop) => Err(stop),
    }
}

/// Returns what a plan costs, by the tables of its task, or where its judgement stops.
fn cost_in(
    alloc: Global,
    seed: Seed,
    names: &TaskNames<'_>,
    lookups: &Lookups<'_>,
    steps: &[Step],
) -> Result<u64, PlanStop>
    requires same { names.now ≡ lookups.now }
    requires distinct { HasDistinctNames lookups.now }
    ensures valid { IfOk result (IsValidatedBy lookups.now steps.now) }
    ensures tells { IfErr result (StopsBy (IsFirstFaultBy lookups.now steps.now)) }
{
    let mut place = begin(alloc, seed, lookups.task())?;
    let cost = cost_from(alloc, names, lookups, &mut place, steps);
    drop(place);
    cost
}

/// Returns what a plan of a task costs, by the names of the task, or where its judgement stops.
fn cost_by(
    alloc: Global,
    seed: Seed,
    names: &TaskNames<'_>,
    checked: &Checked,
    steps: &[Step],
) -> Result<u64, PlanStop>
    requires same { names.now ≡ checked.now }
    ensures valid { IfOk result (IsValidatedBy checked.now steps.now) }
    ensures tells { IfErr result (StopsBy (IsFirstFaultBy checked.now steps.now)) }
{
    let lookups = Lookups::of(alloc, seed, checked.task())?;
    let cost = cost_in(alloc, seed, names, &lookups, steps);
    drop(lookups);
    cost
}

/// Returns what a plan of a task costs, or where its judgement stops.
fn cost_of(alloc: Global, seed: Seed, checked: &Checked, steps: &[Step]) -> Result<u64, PlanStop>
    ensures valid { IfOk result (IsValidatedBy checked.now steps.now) }
    ensures tells { IfErr result (StopsBy (IsFirstFaultBy checked.now steps.now)) }
{
    let names = TaskNames::of(alloc, seed, checked)?;
    let cost = cost_by(alloc, seed, &names, checked, steps);
    drop(names);
    cost
}

/// Judges a plan of a checked task: its cost, if it is valid, nothing of it leaves the range, and
/// what it meets is defined.
///
/// The tables hash by the seed.
///
/// # Errors
/// - The first fault, in the order of the steps, with the goal after them. Of each step it is asked
///   whether there is such an instance, then its conditions on atoms and objects, first values, a
///   cost that is negative in each state, its comparisons, and its effects; and of the goal the
///   same. Or lack of memory.
pub fn validate(
    alloc: Global,
    seed: Seed,
    checked: &Checked,
    steps: &[Step],
) -> Result<u64, PlanError>
    ensures valid { IfOk result (IsValidatedBy checked.now steps.now) }
    ensures refusal { IfErr result (Tells checked.now steps.now) }

    // A validated plan is answered, and one with a fault is refused, unless memory ran out.
    ensures valid_plan { (cost : ℕ) → IsValidatedBy checked.now steps.now cost
        → MatchResult result (λ found. found ≡ cost) (λ error. error ≡ PlanError.NoMemory) }
    ensures faulty_plan { (fault : PlanFault) → IsFirstFaultBy checked.now steps.now fault
        → MatchResult result (λ _. ⊥) (λ error. Tells checked.now steps.now error) }
{
    let task = checked.task();
    match cost_of(alloc, seed, checked, steps) {
        Ok(cost) => Ok(cost),
        Err(stop) => {
            let error = error_of(alloc, task, &stop);
            drop(stop);
            Err(error)
        }
    }
}
