//! From a checked task to a task to search.
ghost use Rattle.std.specs.Prelude.{◌≡◌, IfOk, IfErr};
ghost use Rattle.hd_lifted.specs.Checked.{IsChecked};
ghost use Rattle.hd_grounding.specs.Faults.{undefined_in};
ghost use Rattle.hd_grounding.specs.Grounding.{IsGrounding};
ghost use Rattle.hd_grounding.specs.Counted.{AreCounted};
ghost use Rattle.hd_ground.specs.Telling.{Tells};

use crate::GroundError;
use crate::counting::{Counted, counted_of, look_for_faults};
use crate::making::task_of;
use hd_base::Seed;
use hd_judge::Lookups;
use hd_lifted::Checked;
use hd_task::Task;
use std::alloc::Global;

/// Returns the task of what was counted, if nothing is at fault.
fn faultless_task(
    alloc: Global,
    lookups: &Lookups<'_>,
    counted: &Counted,
) -> Result<Task, GroundError>
    requires checked { IsChecked lookups.now }
    requires counted { AreCounted lookups.now counted.now.instances counted.now.atoms
        counted.now.fluents }
    requires undefined { counted.now.undefined ≡ undefined_in lookups.now counted.now.instances }
    ensures task { IfOk result (IsGrounding lookups.now) }
    ensures refusal { IfErr result (Tells lookups.now) }
{
    look_for_faults(alloc, lookups, counted)?;
    Ok(task_of(alloc, lookups, counted)?)
}

/// Returns the same, once it is counted.
fn ground_with(alloc: Global, seed: Seed, lookups: &Lookups<'_>) -> Result<Task, GroundError>
    requires { IsChecked lookups.now }
    ensures task { IfOk result (IsGrounding lookups.now) }
    ensures refusal { IfErr result (Tells lookups.now) }
{
    let counted = counted_of(alloc, seed, lookups)?;
    let task = faultless_task(alloc, lookups, &counted);
    drop(counted);
    task
}

/// Returns the task to search of a checked task: its actions are the kept instances (no plan can
/// use another), in the order of their schemas and then of their objects, the first parameter's
/// slowest; its atoms are those that are true at first, that an action adds or that the goal names,
/// its fluents those that an action or the goal reads or changes, the metric's function aside, in
/// the order of their symbols and then of their objects. The tables used on the way hash by the
/// seed, which changes no answer.
///
/// A task has one grounding at most (`hd_grounding::laws::groundings_are_one`), and none where one
/// of the errors but `NoMemory` is reported (`faults_leave_no_grounding`): so each comes exactly
/// where it should.
///
/// # Errors
/// - `TooMany`: there would be more actions, atoms or fluents than a task may have, or an action
///   with more amounts. Else `Undefined` with the first fluent, by the actions' numbers and then
///   the goal, that has no first value. Else `NegativeCost` with the first action whose amounts are
///   constant and add up to less than 0.
/// - `NoMemory`: memory runs out.
pub fn ground(alloc: Global, seed: Seed, checked: &Checked) -> Result<Task, GroundError>
    ensures task { IfOk result (IsGrounding checked.now) }
    ensures refusal { IfErr result (Tells checked.now) }
{
    let lookups = Lookups::of(alloc, seed, checked.task())?;
    let task = ground_with(alloc, seed, &lookups);
    drop(lookups);
    task
}
