//! The call that makes a search again from a journal's entries.
ghost use Rattle.std.specs.Prelude.{◌≡◌, ◌<◌, ◌≤◌, ℕ, List, map, length, IfOk, IfErr, OnOk};
ghost use Rattle.hd_task.specs.declared.plan.Kid.{Kid};
ghost use Rattle.hd_task.specs.declared.plan.TheConstants.{ROOT_PARENT};
ghost use Rattle.hd_zobrist.specs.declared.owners.TheConstants.{MAX_WORKERS};
ghost use Rattle.hd_journal.specs.Journal.{kid_of};
ghost use Rattle.hd_entries.specs.Resuming.{AreLegal};
ghost use Rattle.hd_book.specs.Steps.{resumed_book};
ghost use Rattle.hd_recovery.specs.Recovered.{recovered_workers};
ghost use Rattle.hd_certify.specs.Error.{IsRecoverRefusal};

use crate::handing::{close_all, idle_workers, open_all};
use crate::resuming::resume;
use crate::{Entry, RecoverError};
use hd_base::NoMemory;
use hd_book::Book;
use hd_entries::Listener;
use hd_task::Task;
use hd_worker::{Lookup, Worker};
use std::alloc::Global;
use std::sync::ledger::{Blank, Ledger, Share};

/// A search that goes on: the book, the share that is the whole of its ledger, and the workers,
/// in the order of their numbers.
#[derive(Drop)]
pub struct Recovered<'t, L: Ledger> {
    pub book: Book<'t, L>,
    pub share: Share<L>,
    pub workers: Vec<Worker<'t>>,
}

/// Returns `count` workers of a `book` that has just been made again.
/// Each entry is closed, and each other successor is open, at the worker that owns its state.
///
/// # Errors
/// - `NoMemory`: there is no room for one.
fn workers_of<'t, L: Ledger>(
    alloc: Global,
    task: &'t Task,
    count: usize,
    book: &Book<'t, L>,
) -> Result<Vec<Worker<'t>>, NoMemory>
    requires some { 1 ≤ count }
    requires few { count ≤ MAX_WORKERS }
    requires book { (most : ℕ) × (entries : List Kid)
        × (book.now ≡ resumed_book task.now most entries) }
    ensures { (most : ℕ) (entries : List Kid) → book.now ≡ resumed_book task.now most entries
        → IfOk result (λ ws. ws.items ≡ recovered_workers task.now entries count) }
{
    let mut workers = idle_workers(alloc, task, count)?;
    let mut lookup = Lookup::of(alloc, task)?;
    close_all(alloc, book, count, &mut workers)?;
    open_all(book, count, &mut workers, &mut lookup)?;
    Ok(workers)
}

/// Returns the search with exactly these entries, of which there may be `most`, shared among so
/// many workers: all entries are acknowledged, each is closed at the worker that owns its state,
/// and so each successor that is no entry is open at one worker. With the book comes a share of the
/// ledger that counts its commits, which is the whole of it. The listener hears how many entries
/// are made again.
///
/// # Errors
/// - `Full`: there are more entries than `most`.
/// - `Damaged` with the place of the first that makes no legal list with those before it.
/// - `NoMemory`.
pub fn recover<'t, L: Ledger, H: Listener>(
    alloc: Global,
    blank: Blank,
    task: &'t Task,
    entries: &[Entry],
    workers: usize,
    heard: &H,
    most: u64,
) -> Result<Recovered<'t, L>, RecoverError>
    requires name { blank.name ≡ L.name }
    requires parts { blank.parts ≡ L.parts }
    requires most { most < ROOT_PARENT }
    requires some { 1 ≤ workers }
    requires few { workers ≤ MAX_WORKERS }
    ensures within { OnOk result (length entries.now ≤ most) }
    ensures legal { OnOk result (AreLegal task.now (map kid_of entries.now)) }
    ensures book { IfOk result (λ r. r.book ≡ resumed_book task.now most (map kid_of entries.now)) }
    ensures share { IfOk result (λ r. (r.share.parts ≡ L.parts) × (r.share.amount ≡ 0)) }
    ensures workers { IfOk result (λ r. r.workers.items
        ≡ recovered_workers task.now (map kid_of entries.now) workers) }
    ensures refused { IfErr result (IsRecoverRefusal task.now most entries.now) }
{
    let (book, share) = resume(alloc, blank, task, entries, heard, most)?;
    let workers = workers_of(alloc, task, workers, &book)?;
    Ok(Recovered {
        book,
        share,
        workers,
    })
}
