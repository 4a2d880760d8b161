//! How a run begins: the search of a journal's entries is shared among workers.
ghost use Rattle.std.specs.Prelude.{◌≡◌, ◌≤◌, ◌<◌, List, ℕ, [], None, length, map, replicate, IfOk};
ghost use Rattle.hd_zobrist.specs.declared.owners.TheConstants.{MAX_WORKERS};
ghost use Rattle.hd_worker.specs.Lookup.{IsLookupOf};
ghost use Rattle.hd_world.specs.Moves.{book_bound};
ghost use Rattle.hd_world.specs.Stops.{File};
ghost use Rattle.hd_replay.specs.Seats.{seat_with};
ghost use Rattle.hd_replay.specs.Journals.{StandsAs};
ghost use Rattle.hd_replay.specs.Opening.{IsRunOf};

use crate::fault::{ReplayFault, told_of_recovery};
use crate::run::{Out, Run};
use crate::seat::Seat;
use hd_base::NoMemory;
use hd_book::Rooms;
use hd_entries::Unheard;
use hd_journal::Journal;
use hd_node::Parcel;
use hd_recovery::{Recovered, recover};
use hd_store::MemoryDisk;
use hd_task::Task;
use hd_worker::{Lookup, Worker};
use std::alloc::Global;
use std::collections::VecDeque;
use std::sync::ledger::{Blank, Ledger};

/// Returns the place of each worker.
///
/// # Errors
/// - `NoMemory`: there is no room for them.
fn seats_of<'t>(alloc: Global, workers: Vec<Worker<'t>>) -> Result<Vec<Seat<'t>>, NoMemory>
    ensures { IfOk result (λ seats. seats.items ≡ map seat_with workers.entry.items) }
{
    let mut seats = Vec::with_capacity(alloc, workers.len())?;
    for worker in workers {
        seats.push_reserved(Seat::of(alloc, worker));
    }
    Ok(seats)
}

/// Returns `workers` empty mailboxes.
///
/// # Errors
/// - `NoMemory`: there is no room for them.
fn mailboxes_of<'t>(alloc: Global, workers: usize) -> Result<Vec<VecDeque<Parcel<'t>>>, NoMemory>
    ensures { IfOk result (λ boxes. map (λ box. box.items) boxes.items ≡ replicate workers []) }
{
    let mut mailboxes = Vec::with_capacity(alloc, workers)?;
    for _worker in 0..workers {
        mailboxes.push_reserved(VecDeque::new(alloc));
    }
    Ok(mailboxes)
}

/// Returns what a run has beside its book and its places: what workers look up, and `workers` empty
/// mailboxes.
///
/// # Errors
/// - `NoMemory`: there is no room for them.
fn beside_of<'t>(
    alloc: Global,
    task: &'t Task,
    workers: usize,
) -> Result<(Lookup<'t>, Vec<VecDeque<Parcel<'t>>>), NoMemory>
    ensures lookup { IfOk result (λ beside. IsLookupOf task.now beside.0) }
    ensures mailboxes { IfOk result (λ beside.
        map (λ box. box.items) beside.1.items ≡ replicate workers []) }
{
    let lookup = Lookup::of(alloc, task)?;
    match mailboxes_of(alloc, workers) {
        Ok(mailboxes) => Ok((lookup, mailboxes)),
        Err(error) => {
            drop(lookup);
            Err(error)
        }
    }
}

/// Returns the run of a search that was made again.
///
/// # Errors
/// - `NoMemory`: there is no room for it.
fn begun<'t, L: Ledger>(
    alloc: Global,
    task: &'t Task,
    recovered: Recovered<'t, L>,
    workers: usize,
) -> Result<Run<'t, L>, NoMemory>
    requires task { recovered.book.state.task ≡ task.now }
    requires part { 0 < recovered.share.parts }
    requires all { length recovered.workers.items ≡ workers }
    requires some { 1 ≤ workers }
    requires few { workers ≤ MAX_WORKERS }
    ensures { IfOk result (λ run. run ≡ record {
      book = recovered.entry.book;
      seats = map seat_with recovered.entry.workers.items;
      mailboxes = replicate workers [];
      bound = book_bound recovered.entry.book.state;
      group = None;
      flushed = None;
    }) }
{
    let (lookup, mailboxes) = match beside_of(alloc, task, workers) {
        Ok(beside) => beside,
        Err(error) => {
            drop(recovered);
            return Err(error);
        }
    };
    let Recovered {
        book,
        share,
        workers: team,
    } = recovered;
    let bound = book.bound();
    match seats_of(alloc, team) {
        Ok(seats) => Ok(Run {
            book,
            share,
            lookup,
            seats,
            mailboxes,
            bound,
            out: Out::Nothing,
            rooms: Rooms::new(alloc),
        }),
        Err(error) => {
            drop(book);
            drop(share);
            drop(lookup);
            drop(mailboxes);
            Err(error)
        }
    }
}

/// Returns the run that begins with a journal's entries, shared among so many workers.
///
/// # Errors
/// - Why a search can't go on from them: that they are too many, or that one is faulty; or
///   `NoMemory`.
pub(crate) fn run_of<'t, L: Ledger>(
    blank: Blank,
    alloc: Global,
    task: &'t Task,
    journal: &Journal<MemoryDisk>,
    workers: usize,
) -> Result<Run<'t, L>, ReplayFault>
    requires name { blank.name ≡ L.name }
    requires parts { blank.parts ≡ L.parts }
    requires part { 0 < L.parts }
    requires some { 1 ≤ workers }
    requires few { workers ≤ MAX_WORKERS }
    ensures { (digest : List ℕ) (f : File) → StandsAs digest f journal.now
        → IfOk result (IsRunOf task.now f workers) }
{
    match recover::<L, Unheard>(
        alloc,
        blank,
        task,
        journal.entries(),
        workers,
        &Unheard,
        journal.most(),
    ) {
        Ok(recovered) => Ok(begun(alloc, task, recovered, workers)?),
        Err(fault) => Err(told_of_recovery(fault)),
    }
}
