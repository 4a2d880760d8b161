//! The pairs of entries that name a legal list.
ghost use Rattle.std.specs.Prelude.{◌≡◌, ◌<◌, ◌≤◌, ◌==◌, ◌||◌, true, ℕ, map, length, nat_lt, IfOk, IfErr, OnOk};
ghost use Rattle.std.specs.List.{list_all};
ghost use Rattle.hd_task.specs.declared.plan.TheConstants.{ROOT_PARENT};
ghost use Rattle.hd_journal.specs.Journal.{kid_of};
ghost use Rattle.hd_entries.specs.Resuming.{AreLegal};
ghost use Rattle.hd_certify.specs.Error.{IsRecoverRefusal};

use crate::resuming::{kids_of, resume};
use crate::{Entry, RecoverError};
use hd_journal::Kid;
use hd_task::Task;
use std::alloc::Global;

/// Reports whether the entries of a journal, of which there may be `most`, name a legal list of a
/// task: they are made again, and let go.
///
/// # Errors
/// - `Full`: there are more entries than `most`.
/// - `Damaged` with the place of the first that makes no legal list with those before it.
/// - `NoMemory`.
fn check(alloc: Global, task: &Task, entries: &[Entry], most: u64) -> Result<(), RecoverError>
    requires { most < ROOT_PARENT }
    ensures within { OnOk result (length entries.now ≤ most) }
    ensures legal { OnOk result (AreLegal task.now (map kid_of entries.now)) }
    ensures numbered { (limit : ℕ) → most ≤ limit → OnOk result (list_all
        (λ kid. (kid.parent == ROOT_PARENT) || nat_lt kid.parent limit)
        (map kid_of entries.now) ≡ true) }
    ensures refused { IfErr result (IsRecoverRefusal task.now most entries.now) }
{
    match resume(alloc, task, entries, most) {
        Ok(held) => {
            drop(held);
            Ok(())
        }
        Err(error) => Err(error),
    }
}

/// Returns the pairs of the entries of a journal, of which there may be `most`, where they name a
/// legal list of a task. Each parent is the root's or a number below `most`.
///
/// # Errors
/// - `Full`: there are more entries than `most`.
/// - `Damaged` with the place of the first that makes no legal list with those before it.
/// - `NoMemory`.
pub fn certified_kids(
    alloc: Global,
    task: &Task,
    entries: &[Entry],
    most: u64,
) -> Result<Vec<Kid>, RecoverError>
    requires { most < ROOT_PARENT }
    ensures within { OnOk result (length entries.now ≤ most) }
    ensures kids { IfOk result (λ kids. kids.items ≡ map kid_of entries.now) }
    ensures legal { OnOk result (AreLegal task.now (map kid_of entries.now)) }
    ensures numbered { (limit : ℕ) → most ≤ limit → IfOk result (λ kids. list_all
        (λ kid. (kid.parent == ROOT_PARENT) || nat_lt kid.parent limit) kids.items ≡ true) }
    ensures refused { IfErr result (IsRecoverRefusal task.now most entries.now) }
{
    check(alloc, task, entries, most)?;
    match kids_of(alloc, entries) {
        Ok(kids) => Ok(kids),
        Err(_) => Err(RecoverError::NoMemory),
    }
}
