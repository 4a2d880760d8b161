//! How what is closed and what is open is handed to the workers that own it.
ghost use Rattle.std.specs.Prelude.{◌≡◌, ◌+◌, ◌<◌, ◌≤◌, List, [], ◌∷◌, ◌++◌, IfOk, OnOk};
ghost use Rattle.hd_task.specs.Plans.{IsStateOf};
ghost use Rattle.hd_zobrist.specs.declared.owners.TheConstants.{MAX_WORKERS};
ghost use Rattle.hd_node.specs.declared.batch.By.TheVariants.{Entry};
ghost use Rattle.hd_entries.specs.Holding.{Released, parcel_of, posted_count};
ghost use Rattle.hd_entries.specs.Settling.{IsBookKept};
ghost use Rattle.hd_entries.specs.Waiting.{IsAgain};
ghost use Rattle.hd_closed.specs.Closed.{Closed};
ghost use Rattle.hd_turns.specs.Calls.{with_parcel};
ghost use Rattle.hd_worker.specs.Lookup.{IsLookupOf};
ghost use Rattle.hd_recovery.specs.Recovered.{AreOfTask, entry_closed, closed_in, nodes_before, open_nodes, team};

use hd_base::NoMemory;
use hd_book::Book;
use hd_node::{Hashed, Parcel};
use hd_task::Task;
use hd_worker::{Lookup, Worker};
use hd_zobrist::owner;
use std::alloc::Global;
use std::sync::ledger::Ledger;

/// Returns `count` workers with nothing open and nothing closed.
///
/// # Errors
/// - `NoMemory`: there is no room for them.
pub(crate) fn idle_workers<'t>(
    alloc: Global,
    task: &'t Task,
    count: usize,
) -> Result<Vec<Worker<'t>>, NoMemory>
    requires few { count ≤ MAX_WORKERS }
    ensures { IfOk result (λ ws. ws.items ≡ team task.now count [] []) }
{
    let mut workers = Vec::with_capacity(alloc, count)?;
    for id in 0..count {
        workers.push(Worker::new(alloc, task, id, count))?;
    }
    Ok(workers)
}

/// Closes entry `number` at the worker that owns `state`.
///
/// # Errors
/// - `NoMemory`: there is no room for it.
fn close_at_owner<'t>(
    task: &'t Task,
    count: usize,
    workers: &mut Vec<Worker<'t>>,
    number: u64,
    state: &Hashed,
    cost: u64,
) -> Result<(), NoMemory>
    requires some { 1 ≤ count }
    requires few { count ≤ MAX_WORKERS }
    requires of_task { IsStateOf task.now state.now }
    requires team { (closed : List Closed) × (workers.old.items ≡ team task.now count closed []) }
    ensures { (closed : List Closed) → workers.old.items ≡ team task.now count closed []
        → OnOk result (workers.new.items ≡ team task.now count
        (closed ++ record { by = Entry number; state = state.now; cost = cost } ∷ []) []) }
{
    let id = owner(state.hash(), count);
    workers[id].close(number, state, cost)
}

/// Closes entry `number` of `book`, if there is one, at the worker that owns its state.
///
/// # Errors
/// - `NoMemory`: there is no room for it.
fn close_one<'t, L: Ledger>(
    alloc: Global,
    book: &Book<'t, L>,
    count: usize,
    workers: &mut Vec<Worker<'t>>,
    number: u64,
) -> Result<(), NoMemory>
    requires some { 1 ≤ count }
    requires few { count ≤ MAX_WORKERS }
    requires team { (closed : List Closed)
        × (workers.old.items ≡ team book.now.state.task count closed []) }
    ensures { (closed : List Closed) → workers.old.items ≡ team book.now.state.task count closed []
        → OnOk result (workers.new.items
        ≡ team book.now.state.task count (closed ++ entry_closed book.now.state number) []) }
{
    match book.node(number) {
        Some((state, cost)) => {
            let own = state.copied(alloc)?;
            close_at_owner(book.task(), count, workers, number, &own, cost)
        }
        None => Ok(()),
    }
}

/// Closes each entry of `book` at the worker that owns its state.
///
/// # Errors
/// - `NoMemory`: there is no room for one.
pub(crate) fn close_all<'t, L: Ledger>(
    alloc: Global,
    book: &Book<'t, L>,
    count: usize,
    workers: &mut Vec<Worker<'t>>,
) -> Result<(), NoMemory>
    requires some { 1 ≤ count }
    requires few { count ≤ MAX_WORKERS }
    requires idle { workers.old.items ≡ team book.now.state.task count [] [] }
    ensures { OnOk result (workers.new.items
        ≡ team book.now.state.task count (closed_in book.now.state) []) }
{
    for number in 0..book.counts().entries {
        close_one(alloc, book, count, workers, number)?;
    }
    Ok(())
}

/// Makes `parcel` the last open node of `worker`.
///
/// # Errors
/// - `NoMemory`: there is no room for it.
fn take<'t>(worker: &mut Worker<'t>, parcel: Parcel<'t>) -> Result<(), NoMemory>
    requires { parcel.task ≡ worker.old.task }
    ensures { OnOk result (worker.new ≡ with_parcel (parcel_of parcel.entry) worker.old) }
{
    match worker.take(parcel) {
        Ok(()) => Ok(()),
        Err((_, error)) => Err(error),
    }
}

/// Makes `parcel` the last open node of the worker that owns its state.
///
/// # Errors
/// - `NoMemory`: there is no room for it.
fn take_at_owner<'t>(
    task: &'t Task,
    count: usize,
    workers: &mut Vec<Worker<'t>>,
    parcel: Parcel<'t>,
) -> Result<(), NoMemory>
    requires some { 1 ≤ count }
    requires few { count ≤ MAX_WORKERS }
    requires of_task { parcel.task ≡ task.now }
    requires team { (closed : List Closed) × (taken : List Released)
        × (workers.old.items ≡ team task.now count closed taken) }
    ensures { (closed : List Closed) (taken : List Released)
        → workers.old.items ≡ team task.now count closed taken
        → OnOk result (workers.new.items
        ≡ team task.now count closed (taken ++ parcel_of parcel.entry ∷ [])) }
{
    let id = owner(parcel.hash(), count);
    take(&mut workers[id], parcel)
}

/// Makes the successor at a place, if it is no entry, the last open node of the worker that owns
/// its state.
///
/// # Errors
/// - `NoMemory`: there is no room for it.
fn open_one<'t, L: Ledger>(
    book: &Book<'t, L>,
    count: usize,
    workers: &mut Vec<Worker<'t>>,
    place: u64,
) -> Result<(), NoMemory>
    requires some { 1 ≤ count }
    requires few { count ≤ MAX_WORKERS }
    requires kept { IsBookKept book.now.state }
    requires again { IsAgain book.now.state }
    requires within { place < posted_count book.now.state }
    requires team { (closed : List Closed)
        × (workers.old.items
        ≡ team book.now.state.task count closed (nodes_before book.now.state place)) }
    ensures { (closed : List Closed) → workers.old.items
        ≡ team book.now.state.task count closed (nodes_before book.now.state place)
        → OnOk result (workers.new.items
        ≡ team book.now.state.task count closed (nodes_before book.now.state (place + 1))) }
{
    match book.open_at(place)? {
        Some(parcel) => take_at_owner(book.task(), count, workers, parcel),
        None => Ok(()),
    }
}

/// Makes the successors at the places from `from` up to `end` that are no entries open, in posting
/// order, at the workers that own their states.
///
/// # Errors
/// - `NoMemory`: there is no room for one.
fn open_between<'t, L: Ledger>(
    book: &Book<'t, L>,
    count: usize,
    workers: &mut Vec<Worker<'t>>,
    from: u64,
    end: u64,
) -> Result<(), NoMemory>
    requires some { 1 ≤ count }
    requires few { count ≤ MAX_WORKERS }
    requires kept { IsBookKept book.now.state }
    requires again { IsAgain book.now.state }
    requires order { from ≤ end }
    requires within { end ≤ posted_count book.now.state }
    requires team { (closed : List Closed)
        × (workers.old.items
        ≡ team book.now.state.task count closed (nodes_before book.now.state from)) }
    ensures { (closed : List Closed) → workers.old.items
        ≡ team book.now.state.task count closed (nodes_before book.now.state from)
        → OnOk result (workers.new.items
        ≡ team book.now.state.task count closed (nodes_before book.now.state end)) }
{
    for place in from..end {
        open_one(book, count, workers, place)?;
    }
    Ok(())
}

/// Estimates all open nodes, so that their states stand in the closed lists alone.
///
/// # Errors
/// - `NoMemory`: there is no room for the estimates.
fn estimate_open<'t>(
    task: &'t Task,
    workers: &mut Vec<Worker<'t>>,
    lookup: &mut Lookup<'t>,
) -> Result<(), NoMemory>
    requires lookup { IsLookupOf task.now lookup.old }
    requires of_task { AreOfTask task.now workers.old.items }
    ensures lookup { IsLookupOf task.now lookup.new }
    ensures same { workers.new.items ≡ workers.old.items }
{
    for id in 0..workers.len() {
        workers[id].open_some(lookup, usize::MAX)?;
    }
    Ok(())
}

/// How many places are gone through before what is open is estimated. As long as a node is not, it
/// takes over a hundred bytes, and later forty.
const TOGETHER: u64 = 1 << 19;

/// Makes each successor that is no entry, in posting order, the last open node of the worker that
/// owns its state.
///
/// # Errors
/// - `NoMemory`: there is no room for one.
pub(crate) fn open_all<'t, L: Ledger>(
    book: &Book<'t, L>,
    count: usize,
    workers: &mut Vec<Worker<'t>>,
    lookup: &mut Lookup<'t>,
) -> Result<(), NoMemory>
    requires some { 1 ≤ count }
    requires few { count ≤ MAX_WORKERS }
    requires again { IsAgain book.now.state }
    requires lookup { IsLookupOf book.now.state.task lookup.old }
    requires team { (closed : List Closed)
        × (workers.old.items ≡ team book.now.state.task count closed []) }
    ensures { (closed : List Closed) → workers.old.items
        ≡ team book.now.state.task count closed []
        → OnOk result (workers.new.items ≡ team book.now.state.task count closed
        (open_nodes book.now.state.task book.now.state.entries)) }
{
    let posted = book.counts().posted;
    let mut from = 0;
    while from < posted {
        estimate_open(book.task(), workers, lookup)?;
        let end = from + (posted - from).min(TOGETHER);
        open_between(book, count, workers, from, end)?;
        from = end;
    }
    Ok(())
}
