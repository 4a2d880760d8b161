//! How the answer of a search is reported.
ghost use Rattle.std.specs.Prelude.{◌≡◌, IfOk};
ghost use Rattle.hd_threads.specs.Ending.{cost_by, plan_in};
ghost use Rattle.hplan.specs.Answer.{text_if, written_of, ending_of};
ghost use Rattle.hplan.specs.PlanText.{printed};

use crate::naming::{NamedPlan, named_plan};
use crate::text::departure_text;
use hd_base::{NoMemory, Sequence};
use hd_search::Outcome;
use hd_task::{Plan, Task};
use std::alloc::Global;

/// How an answer ends.
#[derive(Debug, PartialEq, Eq, Drop)]
pub enum Ending {
    /// With a plan of least cost.
    Optimal,
    /// There is no plan.
    NoPlan,
    /// A number left the range: where, as it is told.
    RangeLeft(Sequence<u8>),
    /// The search has stopped at its limit.
    Stopped,
}

/// How an answer ends, and the plan that is written, if there is one.
#[derive(Debug, Drop)]
pub struct Told {
    pub ending: Ending,
    pub plan: Option<NamedPlan>,
}

/// Returns the plan, by its names, that an answer may have beside.
fn plan_beside(
    alloc: Global,
    task: &Task,
    plan: &Option<Plan>,
    cost: Option<u64>,
) -> Result<Option<NamedPlan>, NoMemory>
    requires { cost ≡ cost_by task.now plan.now }
    ensures { IfOk result (λ named. printed named ≡ text_if task.now plan.now) }
{
    match plan {
        Some(plan) => named_plan(alloc, task, plan, cost),
        None => Ok(None),
    }
}

/// Returns how an answer ends, and its plan, if it has one, with what that costs.
pub fn told_of(
    alloc: Global,
    task: &Task,
    outcome: &Outcome,
    cost: Option<u64>,
) -> Result<Told, NoMemory>
    requires { cost ≡ cost_by task.now (plan_in outcome.now) }
    ensures ends { IfOk result (λ told. told.ending ≡ ending_of task.now outcome.now) }
    ensures text { IfOk result (λ told. printed told.plan ≡ written_of task.now outcome.now) }
{
    match outcome {
        Outcome::Optimal(plan) => Ok(Told {
            ending: Ending::Optimal,
            plan: named_plan(alloc, task, plan, cost)?,
        }),
        Outcome::NoPlan => Ok(Told {
            ending: Ending::NoPlan,
            plan: None,
        }),
        Outcome::RangeLeft(departure, plan) => {
            let text = departure_text(alloc, task, *departure)?;
            Ok(Told {
                ending: Ending::RangeLeft(Sequence::from_vec(text)),
                plan: plan_beside(alloc, task, plan, cost)?,
            })
        }
        Outcome::Stopped(plan) => Ok(Told {
            ending: Ending::Stopped,
            plan: plan_beside(alloc, task, plan, cost)?,
        }),
    }
}
