//! How the book of a journal's entries is made.
ghost use Rattle.std.specs.Prelude.{◌≡◌, ◌<◌, ◌≤◌, map, length, IfOk, IfErr, OnOk};
ghost use Rattle.hd_task.specs.declared.plan.TheConstants.{ROOT_PARENT};
ghost use Rattle.hd_journal.specs.Journal.{kid_of};
ghost use Rattle.hd_entries.specs.Resuming.{AreLegal};
ghost use Rattle.hd_book.specs.Steps.{resumed_book};
ghost use Rattle.hd_certify.specs.Error.{IsRecoverRefusal};

use crate::RecoverError;
use hd_book::Book;
use hd_certify::{fault_at, kids_of};
use hd_entries::Listener;
use hd_journal::Entry;
use hd_task::Task;
use std::alloc::Global;
use std::sync::ledger::{Blank, Ledger, Share};

/// Returns the book with exactly these entries, with the share that is the whole of its ledger.
///
/// # Errors
/// - `Full`: there are more entries than `most`.
/// - `Damaged` of the first that makes no legal list with those before it.
/// - `NoMemory`.
pub(crate) fn resume<'t, L: Ledger, H: Listener>(
    alloc: Global,
    blank: Blank,
    task: &'t Task,
    entries: &[Entry],
    heard: &H,
    most: u64,
) -> Result<(Book<'t, L>, Share<L>), RecoverError>
    requires name { blank.name ≡ L.name }
    requires parts { blank.parts ≡ L.parts }
    requires most { most < ROOT_PARENT }
    ensures within { OnOk result (length entries.now ≤ most) }
    ensures legal { OnOk result (AreLegal task.now (map kid_of entries.now)) }
    ensures book { IfOk result (λ r. r.0 ≡ resumed_book task.now most (map kid_of entries.now)) }
    ensures share { IfOk result (λ r. (r.1.parts ≡ L.parts) × (r.1.amount ≡ 0)) }
    ensures refused { IfErr result (IsRecoverRefusal task.now most entries.now) }
{
    if entries.len() as u64 > most {
        return Err(RecoverError::Full);
    }
    let kids = kids_of(alloc, entries)?;
    match Book::resume(alloc, blank, task, kids.as_slice(), heard, most) {
        Ok(resumed) => Ok(resumed),
        Err((number, refusal)) => Err(fault_at(entries, number, refusal)),
    }
}
