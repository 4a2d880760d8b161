//! The questions about a step before it is taken, and about the end of a plan.
ghost use Rattle.std.specs.Prelude.{◌≡◌, ℕ, None, OnOk, IfErr};
ghost use Rattle.hd_judge.specs.Tables.{reached_in};
ghost use Rattle.hd_judge.specs.Asking.{asked_of_goal};
ghost use Rattle.hd_judge.specs.Refusals.{RefusesBy, IsBefore, IsReasonBefore, TellsBefore, IsReasonOfGoal, GoalUnexplained};

use crate::comparison::explain_comparisons;
use crate::condition::explain_literals;
use crate::fault::{PlanFault, PlanStop};
use crate::instances::copy_of;
use crate::lookups::Lookups;
use crate::negative::costs_negative;
use crate::refusal::PlanRefusal;
use crate::table::Place;
use crate::undefined::{undefined_goal, undefined_schema};
use hd_lifted::{Instance, Schema};
use std::alloc::Global;

/// Asks whether the step `number` may be taken: whether its literals and equalities hold, whether
/// all that it meets has first values, whether its cost is not the same in each state and less than
/// 0, and whether its comparisons stay in the range, and hold.
#[tactic(auto, using(crate::proofs::Asked::asked_undefined, crate::proofs::Asked::asked_negative))]
pub(crate) fn ask_before<'a>(
    alloc: Global,
    lookups: &Lookups<'_>,
    place: &Place,
    number: u64,
    instance: &Instance,
    schema: &'a Schema,
) -> Result<(), PlanRefusal<'a>>
    ensures before { OnOk result (IsBefore lookups.now (reached_in place.now) instance.now
        schema.now) }
    ensures refuses { IfErr result (RefusesBy (IsReasonBefore lookups.now (reached_in place.now)
        instance.now schema.now) (TellsBefore lookups.now (reached_in place.now) number
        instance.now schema.now)) }
{
    let objects = instance.objects.as_slice();
    if let Some(reason) = explain_literals(alloc, place, objects, &schema.condition)? {
        return Err(PlanRefusal::For(reason));
    }
    if let Some(fluent) = undefined_schema(alloc, lookups, objects, schema)? {
        return Err(PlanRefusal::At(PlanStop::At(PlanFault::Undefined(fluent))));
    }
    if costs_negative(alloc, lookups, schema, objects)? {
        let fault = PlanFault::NegativeCost(copy_of(alloc, instance)?);
        return Err(PlanRefusal::At(PlanStop::At(fault)));
    }
    let comparisons = schema.condition.comparisons.as_slice();
    match explain_comparisons(alloc, place, objects, comparisons)? {
        Some(reason) => Err(PlanRefusal::For(reason)),
        None => Ok(()),
    }
}

/// Judges the goal where a plan leads, and says why it is not met: its first literal or equality
/// that does not hold; or else, where all that it meets has first values, its first comparison that
/// departs, or else the first that does not hold.
///
/// # Errors
/// - Such a reason; or a fluent without a first value; or lack of memory.
#[tactic(auto, using(crate::proofs::Asked::goal_undefined, crate::proofs::Asked::goal_unasked))]
pub fn explain_goal<'a>(
    alloc: Global,
    lookups: &Lookups<'a>,
    place: &Place,
) -> Result<(), PlanRefusal<'a>>
    ensures met { OnOk result ((n : ℕ)
        → asked_of_goal lookups.now (reached_in place.now) n ≡ None) }
    ensures refuses { IfErr result (RefusesBy (IsReasonOfGoal lookups.now (reached_in place.now))
        (GoalUnexplained lookups.now (reached_in place.now))) }
{
    let none: [usize; 0] = [];
    let goal = &lookups.task().goal;
    if let Some(reason) = explain_literals(alloc, place, none.as_slice(), goal)? {
        return Err(PlanRefusal::For(reason));
    }
    if let Some(fluent) = undefined_goal(alloc, lookups)? {
        return Err(PlanRefusal::At(PlanStop::At(PlanFault::Undefined(fluent))));
    }
    match explain_comparisons(alloc, place, none.as_slice(), goal.comparisons.as_slice())? {
        Some(reason) => Err(PlanRefusal::For(reason)),
        None => Ok(()),
    }
}
