//! What is reported of a plan that is not validated.
ghost use Rattle.std.specs.Prelude.{List};
ghost use Rattle.hd_plan.specs.declared.step.Step.{Step};
ghost use Rattle.hd_judge.specs.declared.fault.PlanFault.TheVariants as faults;
ghost use Rattle.hd_judge.specs.Fault.{StopsBy};
ghost use Rattle.hd_plan.specs.Plans.{IsFirstFaultBy};
ghost use Rattle.hd_plan.specs.Telling.{Tells};

use crate::error::PlanError;
use crate::texts::{fluent_text, instance_text};
use hd_judge::{PlanFault, PlanStop};
use hd_lifted::{Ground, Instance, LiftedTask};
use std::alloc::Global;

/// Reports that a fluent has no first value.
fn undefined(alloc: Global, task: &LiftedTask, fluent: &Ground) -> PlanError
    ensures { (steps : List Step) → IsFirstFaultBy task.now steps (faults.Undefined fluent.now)
        → Tells task.now steps result }
{
    match fluent_text(alloc, task, fluent) {
        Ok(text) => PlanError::Undefined(text),
        Err(_) => PlanError::NoMemory,
    }
}

/// Reports that an instance is of a negative cost.
fn negative_cost(alloc: Global, task: &LiftedTask, instance: &Instance) -> PlanError
    ensures { (steps : List Step)
        → IsFirstFaultBy task.now steps (faults.NegativeCost instance.now)
        → Tells task.now steps result }
{
    match instance_text(alloc, task, instance) {
        Ok(text) => PlanError::NegativeCost(text),
        Err(_) => PlanError::NoMemory,
    }
}

/// Reports a fault.
fn plan_error_of(alloc: Global, task: &LiftedTask, fault: &PlanFault) -> PlanError
    ensures { (steps : List Step) → IsFirstFaultBy task.now steps fault.now
        → Tells task.now steps result }
{
    match fault {
        PlanFault::NoSuchAction(step) => PlanError::NoSuchAction(*step),
        PlanFault::NotApplicable(step) => PlanError::NotApplicable(*step),
        PlanFault::Undefined(fluent) => undefined(alloc, task, fluent),
        PlanFault::NegativeCost(instance) => negative_cost(alloc, task, instance),
        PlanFault::Departs(step) => PlanError::Departs(*step),
        PlanFault::GoalUnmet => PlanError::GoalUnmet,
    }
}

/// Reports why a plan is not validated.
pub(crate) fn error_of(alloc: Global, task: &LiftedTask, stop: &PlanStop) -> PlanError
    ensures { (steps : List Step) → StopsBy (IsFirstFaultBy task.now steps) stop.now
        → Tells task.now steps result }
{
    match stop {
        PlanStop::At(fault) => plan_error_of(alloc, task, fault),
        PlanStop::NoMemory => PlanError::NoMemory,
    }
}
