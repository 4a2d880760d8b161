//! How the entries of a journal are made again.
ghost use Rattle.std.specs.Prelude.{◌≡◌, ◌<◌, ◌≤◌, ℕ, [], None, map, length, slice_get, option_map, Some, IfOk, IfErr, OnOk};
ghost use Rattle.hd_task.specs.declared.task.Task.{Task};
ghost use Rattle.hd_task.specs.declared.plan.TheConstants.{ROOT_PARENT};
ghost use Rattle.hd_image.specs.declared.entry.Entry.{Entry as EntryRecord};
ghost use Rattle.hd_journal.specs.Journal.{kid_of};
ghost use Rattle.hd_entries.specs.Resuming.{first_fault, resumed, IsFaultOf};
ghost use Rattle.hd_entries.specs.Settling.{IsBookKept};
ghost use Rattle.hd_entries.specs.Waiting.{IsAgain};
ghost use Rattle.hd_certify.specs.declared.error.RecoverError.TheVariants.{Damaged};
ghost use Rattle.hd_certify.specs.Error.{IsRecoverRefusal};

use crate::RecoverError;
use hd_base::NoMemory;
use hd_entries::{Entries, Refusal, Unheard};
use hd_journal::{Entry, Kid};
use hd_task::Task;
use std::alloc::Global;

/// Returns the pair of an entry.
fn kid_of(entry: &Entry) -> Kid
    ensures { result ≡ kid_of entry.now }
{
    Kid {
        parent: entry.parent,
        action: entry.action,
    }
}

/// Returns the pairs of entries, in order.
///
/// # Errors
/// - `NoMemory`: there is no room for them.
pub fn kids_of(alloc: Global, entries: &[Entry]) -> Result<Vec<Kid>, NoMemory>
    ensures { IfOk result (λ kids. kids.items ≡ map kid_of entries.now) }
{
    let mut kids = Vec::with_capacity(alloc, entries.len())?;
    for entry in entries {
        kids.push(kid_of(entry))?;
    }
    Ok(kids)
}

/// Returns the error that entry `number` is faulty, with its place.
fn damaged_at(entries: &[Entry], number: u64) -> RecoverError
    requires { number < length entries.now }
    ensures { (at : ℕ) × (result ≡ Damaged at)
        × (option_map (λ (e : EntryRecord). e.at) (slice_get entries.now number) ≡ Some at) }
{
    RecoverError::Damaged(entries[number as usize].at)
}

/// Returns why no search can be made again from entries, where that of this number can't be the
/// next one.
pub fn fault_at(entries: &[Entry], number: u64, refusal: Refusal) -> RecoverError
    requires { (t : Task) × (most : ℕ) × (most < ROOT_PARENT)
        × IsFaultOf t most (map kid_of entries.now) number refusal }
    ensures { (t : Task) (most : ℕ) → most < ROOT_PARENT
        → IsFaultOf t most (map kid_of entries.now) number refusal
        → IsRecoverRefusal t most entries.now result }
{
    match refusal {
        Refusal::Full => RecoverError::Full,
        Refusal::NoMemory => RecoverError::NoMemory,
        Refusal::UnknownParent
        | Refusal::NotAKid
        | Refusal::SettledBefore
        | Refusal::StateDiffers
        | Refusal::NotDominated
        | Refusal::BelowBound => damaged_at(entries, number),
    }
}

/// Returns the entries made again.
///
/// # Errors
/// - `Full`: there are more entries than `most`.
/// - `Damaged` of the first that makes no legal list with those before it.
/// - `NoMemory`.
pub(crate) fn resume<'t>(
    alloc: Global,
    task: &'t Task,
    entries: &[Entry],
    most: u64,
) -> Result<Entries<'t>, RecoverError>
    requires { most < ROOT_PARENT }
    ensures within { OnOk result (length entries.now ≤ most) }
    ensures entries { IfOk result (λ r. r ≡ resumed task.now most (map kid_of entries.now)) }
    ensures faultless { OnOk result (first_fault task.now [] (map kid_of entries.now) ≡ None) }
    ensures kept { IfOk result (λ r. IsBookKept r.state) }
    ensures again { IfOk result (λ r. IsAgain r.state) }
    ensures refused { IfErr result (IsRecoverRefusal task.now most entries.now) }
{
    if entries.len() as u64 > most {
        return Err(RecoverError::Full);
    }
    let kids = kids_of(alloc, entries)?;
    match Entries::resume(alloc, task, kids.as_slice(), &Unheard, most) {
        Ok(held) => Ok(held),
        Err((number, refusal)) => Err(fault_at(entries, number, refusal)),
    }
}
