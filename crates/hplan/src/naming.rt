//! Plans by the names of their steps.
ghost use Rattle.std.specs.Prelude.{◌≡◌, Some, IfOk, map};
ghost use Rattle.hd_task.specs.FormText.{name_at};
ghost use Rattle.hd_texts.specs.Printing.{step_of_form, numbered_step, steps_of};
ghost use Rattle.hd_threads.specs.Ending.{cost_by};
ghost use Rattle.hplan.specs.PlanText.{task_plan_text, printed};

use hd_base::{Name, NoMemory, Sequence};
use hd_plan::Step;
use hd_task::{ActionId, GroundForm, Names, Plan, Task};
use std::alloc::Global;

/// A plan as it is printed: its steps by their names, and what it costs.
#[derive(Debug, Drop)]
pub struct NamedPlan {
    pub steps: Sequence<Step>,
    pub cost: u64,
}

/// Returns the name of this number; every number of a task has one.
fn name_at(alloc: Global, names: &[Name], number: usize) -> Result<Name, NoMemory>
    ensures { IfOk result (λ name. name ≡ name_at names.now number) }
{
    match names.get(number) {
        Some(name) => Ok(name.copied(alloc)?),
        None => Ok(Name::of(alloc, "")?),
    }
}

/// Returns the names at `numbers` in `names`.
fn names_at(alloc: Global, names: &[Name], numbers: &[usize]) -> Result<Sequence<Name>, NoMemory>
    ensures { IfOk result (λ found. found ≡ map (name_at names.now) numbers.now) }
{
    let mut found = Vec::new(alloc);
    for number in numbers {
        found.push(name_at(alloc, names, *number)?)?;
    }
    Ok(Sequence::from_vec(found))
}

/// Returns the step that a ground form of an action is.
fn step_of(alloc: Global, names: &Names, form: &GroundForm) -> Result<Step, NoMemory>
    ensures { IfOk result (λ step. step ≡ step_of_form names.now form.now) }
{
    Ok(Step {
        name: name_at(alloc, names.schemas.as_slice(), form.symbol)?,
        args: names_at(alloc, names.objects.as_slice(), form.objects.as_slice())?,
    })
}

/// Returns the step of the action with this number.
fn step_at(alloc: Global, task: &Task, action: ActionId) -> Result<Step, NoMemory>
    ensures { IfOk result (λ step. step ≡ numbered_step task.now action.0) }
{
    match task.actions.as_slice().get(action.0 as usize) {
        Some(found) => step_of(alloc, &task.names, &found.form),
        None => Ok(Step {
            name: Name::of(alloc, "")?,
            args: Sequence::empty(alloc),
        }),
    }
}

/// Returns the steps of a plan.
pub fn steps_of(alloc: Global, task: &Task, plan: &Plan) -> Result<Sequence<Step>, NoMemory>
    ensures { IfOk result (λ steps. steps ≡ steps_of task.now plan.now) }
{
    let mut steps = Vec::new(alloc);
    for action in plan.as_slice() {
        steps.push(step_at(alloc, task, *action)?)?;
    }
    Ok(Sequence::from_vec(steps))
}

/// Returns `plan` by the names of its steps, with its cost; none if it has none.
pub fn named_plan(
    alloc: Global,
    task: &Task,
    plan: &Plan,
    cost: Option<u64>,
) -> Result<Option<NamedPlan>, NoMemory>
    requires { cost ≡ cost_by task.now (Some plan.now) }
    ensures { IfOk result (λ named. printed named ≡ task_plan_text task.now plan.now) }
{
    let Some(cost) = cost else {
        return Ok(None);
    };
    let steps = steps_of(alloc, task, plan)?;
    Ok(Some(NamedPlan { steps, cost }))
}
