//! The call that certifies.
ghost use Rattle.std.specs.Prelude.{◌≡◌, ◌<◌, ◌≤◌, length, IfOk, IfErr, IfSome, OnOk};
ghost use Rattle.hd_task.specs.declared.plan.TheConstants.{ROOT_PARENT};
ghost use Rattle.hd_entries.specs.Settling.{expansions};
ghost use Rattle.hd_certify.specs.Certificate.{IsDecisive, IsShown, IsCertificateOf, IsTrueOf};
ghost use Rattle.hd_certify.specs.Error.{IsRecoverRefusal};
ghost use Rattle.hd_certify.specs.Gathering.{AreGathered};
ghost use Rattle.hd_entries.specs.Waiting.{IsAgain};

use crate::covering::are_spared;
use crate::gathering::{Gathered, gather};
use crate::{Certified, Entry, RecoverError};
use hd_base::NoMemory;
use hd_entries::Entries;
use hd_task::Task;
use std::alloc::Global;

/// Returns what entries show that decide their task.
///
/// # Errors
/// - `NoMemory`: there is no room for the plan.
fn shown_by(entries: &Entries<'_>) -> Result<Certified, NoMemory>
    requires { IsDecisive entries.now.state.task (expansions entries.now.state) }
    ensures { IfOk result (λ c.
        IsShown entries.now.state.task (expansions entries.now.state) (Some c)) }
{
    match entries.extract()? {
        Some(plan) => Ok(Certified::Optimal(plan)),
        None => Ok(Certified::NoPlan),
    }
}

/// Returns what entries that were made again show of their task, or nothing.
///
/// # Errors
/// - `NoMemory`.
fn shown_in(alloc: Global, gathered: &mut Gathered<'_>) -> Result<Option<Certified>, NoMemory>
    requires again { IsAgain gathered.old.entries.state }
    requires gathered { AreGathered gathered.old }
    ensures { IfOk result (IsShown gathered.old.entries.state.task
        (expansions gathered.old.entries.state)) }
{
    if gathered.entries.departure().is_some() {
        return Ok(None);
    }
    if !are_spared(alloc, gathered)? {
        return Ok(None);
    }
    Ok(Some(shown_by(&gathered.entries)?))
}

/// Returns what these entries, of which there may be `most`, show of a task: that a plan is
/// optimal, or that there is none; or nothing. What they show is true, whoever made them.
///
/// # Errors
/// - `Full`: there are more entries than `most`.
/// - `Damaged` with the place of the first that makes no legal list with those before it.
/// - `NoMemory`.
pub fn certify(
    alloc: Global,
    task: &Task,
    entries: &[Entry],
    most: u64,
) -> Result<Option<Certified>, RecoverError>
    requires { most < ROOT_PARENT }
    ensures within { OnOk result (length entries.now ≤ most) }
    ensures shows { IfOk result (IsCertificateOf task.now entries.now) }
    ensures is_true { IfOk result (λ c. IfSome c (IsTrueOf task.now)) }
    ensures refused { IfErr result (IsRecoverRefusal task.now most entries.now) }
{
    let mut gathered = gather(alloc, task, entries, most)?;
    let shown = shown_in(alloc, &mut gathered);
    drop(gathered);
    Ok(shown?)
}
