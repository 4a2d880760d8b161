//! Why a plan of steps is not valid.
ghost use Rattle.std.specs.Prelude.{◌≡◌, ℕ, [], string_bytes, IfOk, IfSome, IfNone};
ghost use Rattle.hd_lifted.specs.Steps.{start};
ghost use Rattle.hd_lifted.specs.WellFormed.{HasDistinctNames};
ghost use Rattle.hd_judge.specs.Tables.{reached_in};
ghost use Rattle.hd_judge.specs.Way.{IsOnWay};
ghost use Rattle.hd_plan.specs.Plans.{PassesBy};
ghost use Rattle.hd_explain.specs.Texts.{text_of};
ghost use Rattle.hd_explain.specs.Plans.{objects_of, TellsReason, NeedsNoReason, HaltsAt, HaltsFrom};

use crate::text::text_of;
use hd_base::{NoMemory, Seed};
use hd_judge::{Lookups, Place, PlanRefusal, PlanStop, Reason, begin, explain_goal, explain_step};
use hd_lifted::{Checked, Instance};
use hd_plan::{Step, TaskNames, instance_of};
use std::alloc::{AllocError, Global};

/// Why a plan is not valid.
#[derive(Drop)]
pub(crate) struct PlanReason<'a> {
    /// The instance of the step that is refused; none where the goal is not met.
    pub(crate) instance: Option<Instance>,
    pub(crate) reason: Reason<'a>,
}

/// Where the way along a plan ends.
#[derive(Drop)]
pub(crate) enum Halt<'a> {
    /// At a fault that says all that there is to say, or at the goal, which is met.
    Untold,
    /// At a fault that has this reason.
    Told(PlanReason<'a>),
}

/// Takes the n-th step, or explains why it is refused: `None` says that it passes, and where the
/// step is refused for a reason, the place is as before. Else, and on an error, it is of no use.
#[tactic(auto, using(crate::proofs::Named::step_unnamed, crate::proofs::Named::step_told, crate::proofs::Named::step_passes, crate::proofs::Named::step_untold))]
fn explain_next<'a>(
    alloc: Global,
    names: &TaskNames<'_>,
    lookups: &Lookups<'a>,
    place: &mut Place,
    number: u64,
    step: &Step,
) -> Result<Option<Halt<'a>>, NoMemory>
    requires named { names.now ≡ lookups.now }
    requires distinct { HasDistinctNames lookups.now }
    requires way { IsOnWay lookups.now (reached_in place.old) }
    ensures passes { IfOk result (λ o. IfNone o (PassesBy lookups.now (reached_in place.old) number
        step.now (reached_in place.new))) }
    ensures way { IfOk result (λ o. IfNone o (IsOnWay lookups.now (reached_in place.new))) }
    ensures halts { IfOk result (λ o. IfSome o (HaltsAt lookups.now (reached_in place.old) number
        step.now (reached_in place.new))) }
{
    let Some(instance) = instance_of(alloc, names, step)? else {
        return Ok(Some(Halt::Untold));
    };
    match explain_step(alloc, lookups, place, number, &instance) {
        Ok(()) => {
            drop(instance);
            Ok(None)
        }
        Err(PlanRefusal::For(reason)) => Ok(Some(Halt::Told(PlanReason {
            instance: Some(instance),
            reason,
        }))),
        Err(PlanRefusal::At(PlanStop::At(fault))) => {
            drop(fault);
            drop(instance);
            Ok(Some(Halt::Untold))
        }
        Err(PlanRefusal::At(PlanStop::NoMemory)) => {
            drop(instance);
            Err(AllocError)
        }
    }
}

/// Explains the goal, where it is not met.
#[tactic(auto, using(crate::proofs::Named::goal_told, crate::proofs::Named::goal_met, crate::proofs::Named::goal_untold))]
fn explain_end<'a>(
    alloc: Global,
    lookups: &Lookups<'a>,
    place: &Place,
) -> Result<Halt<'a>, NoMemory>
    requires way { IsOnWay lookups.now (reached_in place.now) }
    ensures { IfOk result (λ h. (n : ℕ) → HaltsFrom lookups.now (reached_in place.now) n []
        (reached_in place.now) h) }
{
    match explain_goal(alloc, lookups, place) {
        Ok(()) => Ok(Halt::Untold),
        Err(PlanRefusal::For(reason)) => Ok(Halt::Told(PlanReason {
            instance: None,
            reason,
        })),
        Err(PlanRefusal::At(PlanStop::At(fault))) => {
            drop(fault);
            Ok(Halt::Untold)
        }
        Err(PlanRefusal::At(PlanStop::NoMemory)) => Err(AllocError),
    }
}

/// Explains the first of the steps that is refused, or else the goal: the place is then the one
/// where the steps before lead. Where there is no reason, and on an error, the place is of no use.
#[tactic(auto, using(crate::proofs::Named::halts_whole, crate::proofs::Named::halts_behind))]
fn explain_all<'a>(
    alloc: Global,
    names: &TaskNames<'_>,
    lookups: &Lookups<'a>,
    place: &mut Place,
    steps: &[Step],
) -> Result<Halt<'a>, NoMemory>
    requires named { names.now ≡ lookups.now }
    requires distinct { HasDistinctNames lookups.now }
    requires way { IsOnWay lookups.now (reached_in place.old) }
    ensures { IfOk result (HaltsFrom lookups.now (reached_in place.old) 1 steps.now
        (reached_in place.new)) }
{
    let mut number: u64 = 1;
    let mut rest = steps;
    while let [first, after @ ..] = rest {
        if let Some(halt) = explain_next(alloc, names, lookups, place, number, first)? {
            return Ok(halt);
        }
        number += 1;
        rest = after;
    }
    explain_end(alloc, lookups, place)
}

/// Returns the line of a reason at a place.
fn line_of(
    alloc: Global,
    lookups: &Lookups<'_>,
    place: &Place,
    told: &PlanReason<'_>,
) -> Result<String, NoMemory>
    ensures { IfOk result (λ line. string_bytes line ≡ text_of lookups.now (reached_in place.now)
        (objects_of told.now.instance) told.now.reason) }
{
    let task = lookups.task();
    let none: [usize; 0] = [];
    match &told.instance {
        Some(instance) => {
            let objects = instance.objects.as_slice();
            text_of(alloc, task, place, objects, &told.reason)
        }
        None => text_of(alloc, task, place, none.as_slice(), &told.reason),
    }
}

/// Returns the line that explains a plan which begins here. The place is of no use afterwards.
fn explain_from(
    alloc: Global,
    names: &TaskNames<'_>,
    lookups: &Lookups<'_>,
    place: &mut Place,
    steps: &[Step],
) -> Result<Option<String>, NoMemory>
    requires named { names.now ≡ lookups.now }
    requires distinct { HasDistinctNames lookups.now }
    requires start { reached_in place.old ≡ start lookups.now }
    requires way { IsOnWay lookups.now (reached_in place.old) }
    ensures told { IfOk result (λ l. IfSome l (λ line.
        TellsReason lookups.now steps.now (string_bytes line))) }
    ensures none { IfOk result (λ l. IfNone l (NeedsNoReason lookups.now steps.now)) }
{
    match explain_all(alloc, names, lookups, place, steps) {
        Ok(Halt::Told(told)) => {
            let line = line_of(alloc, lookups, place, &told);
            drop(told);
            match line {
                Ok(line) => Ok(Some(line)),
                Err(error) => Err(error),
            }
        }
        Ok(Halt::Untold) => Ok(None),
        Err(error) => Err(error),
    }
}

/// Returns the line that explains a plan, by the tables of its task.
fn explain_in(
    alloc: Global,
    seed: Seed,
    names: &TaskNames<'_>,
    lookups: &Lookups<'_>,
    steps: &[Step],
) -> Result<Option<String>, NoMemory>
    requires named { names.now ≡ lookups.now }
    requires distinct { HasDistinctNames lookups.now }
    ensures told { IfOk result (λ l. IfSome l (λ line.
        TellsReason lookups.now steps.now (string_bytes line))) }
    ensures none { IfOk result (λ l. IfNone l (NeedsNoReason lookups.now steps.now)) }
{
    let mut place = begin(alloc, seed, lookups.task())?;
    let line = explain_from(alloc, names, lookups, &mut place, steps);
    drop(place);
    line
}

/// Returns the line that explains a plan of a task, by the names of the task.
fn explain_by(
    alloc: Global,
    seed: Seed,
    names: &TaskNames<'_>,
    checked: &Checked,
    steps: &[Step],
) -> Result<Option<String>, NoMemory>
    requires named { names.now ≡ checked.now }
    ensures told { IfOk result (λ l. IfSome l (λ line.
        TellsReason checked.now steps.now (string_bytes line))) }
    ensures none { IfOk result (λ l. IfNone l (NeedsNoReason checked.now steps.now)) }
{
    let lookups = Lookups::of(alloc, seed, checked.task())?;
    let line = explain_in(alloc, seed, names, &lookups, steps);
    drop(lookups);
    line
}

/// Returns why a plan of a checked task is not valid, in one line without a line's end: the reason
/// of its first fault, as `text_of` reports it. The tables hash by the seed.
///
/// `None` says that the plan is valid, or that its fault says all that there is to say: a step is
/// one of no instance, a fluent has no first value, or a step costs the same in each state and less
/// than 0.
///
/// # Errors
/// - Lack of memory.
pub fn explain(
    alloc: Global,
    seed: Seed,
    checked: &Checked,
    steps: &[Step],
) -> Result<Option<String>, NoMemory>
    ensures told { IfOk result (λ l. IfSome l (λ line.
        TellsReason checked.now steps.now (string_bytes line))) }
    ensures none { IfOk result (λ l. IfNone l (NeedsNoReason checked.now steps.now)) }
{
    let names = TaskNames::of(alloc, seed, checked)?;
    let line = explain_by(alloc, seed, &names, checked, steps);
    drop(names);
    line
}
