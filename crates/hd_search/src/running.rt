//! A search by threads, from a journal's entries to the answer.
ghost use Rattle.std.specs.Prelude.{◌≡◌, ◌<◌, ◌≤◌, IfOk, IfErr, IfSome, OnOk};
ghost use Rattle.hd_zobrist.specs.declared.owners.TheConstants.{MAX_WORKERS};
ghost use Rattle.crossbeam_queue.specs.Passes.{view};
ghost use Rattle.hd_desk.specs.Passes.{IsOutside};
ghost use Rattle.hd_journal.specs.Journal.{device_of, kids_of};
ghost use Rattle.hd_journal.specs.Moments.{IsSettled};
ghost use Rattle.hd_base.specs.Lists.{BeginsWith};
ghost use Rattle.hd_threads.specs.Growing.{JournalGrows};
ghost use Rattle.hd_threads.specs.Ending.{IsSearchOutcome, IsTrueOutcome, IsCountedBy, cost_by, plan_in};
ghost use Rattle.hd_threads.specs.Surviving.{Survives};
ghost use Rattle.hd_threads.specs.Working.{bound_by};
ghost use Rattle.hd_search.specs.Committing.{CanRun};
ghost use Rattle.hd_search.specs.Fault.{IsConfirmed, IsFullRightly, Stops, TellsOfThreads};
ghost use Rattle.hd_search.specs.Opening.{AreAt, CanCommit, StartsWith};

use crate::ThreadsFault;
use crate::committing::{Committer, Ended};
use crate::fault::first_of;
use crate::opening::{CommitterPlace, OpenedSearch, open_search};
use crate::scoping::{ScopedSearch, run_in_scope};
use hd_journal::Journal;
use hd_node::MAX_OUTCOMES;
use hd_store::Store;
use hd_task::Task;
use hd_threads::{CommitterRole, Concluded, Desk, Gate, RunFault, Workplace, answer};
use std::alloc::Global;
use std::marker::Brand;
use std::sync::Wait;
use std::sync::ledger::{Blank, Ledger};
use std::thread::Threads;

/// Law: does nothing. With it, what is written through a reference that came back is known of the
/// one that was lent.
fn take_back<T>(_journal: &mut T)
    ensures { _journal.new ≡ _journal.old }
{}

/// Runs an opened search until all its threads have ended: a thread for each place, and the
/// committer in this one. With the committer's place comes what is reported first of how they
/// ended.
///
/// # Errors
/// - The committer's fault, else that of the least worker.
/// - `NoThread`: a thread does not start.
#[tactic(auto, using(crate::proofs::Stopping::first_stops, crate::proofs::Stopping::first_grows, crate::proofs::Stopping::first_settled))]
fn run_threads<
    't,
    L: Ledger + Send + Sync,
    A: Ledger + Send + Sync,
    S: Store,
    G: Gate + Sync,
    R: Threads + Wait + Sync,
>(
    rt: &R,
    alloc: Global,
    desk: &Desk<'t, L, A>,
    place: CommitterPlace<'t, L, A>,
    places: Vec<Workplace<'t, L, A>>,
    journal: &mut Journal<S>,
    together: usize,
    limit: Option<u64>,
    gate: &G,
) -> (CommitterPlace<'t, L, A>, Result<(), ThreadsFault>)
    requires at { AreAt desk.now places.items }
    requires can { CanRun A.parts desk.now place journal.old }
    ensures outside { IsOutside desk.now.lock.place result.0.pass }
    ensures task { (view result.0.pass).seen.task ≡ (view place.entry.pass).seen.task }
    ensures log { BeginsWith (view result.0.pass).seen.log (kids_of journal.new) }
    ensures begins { BeginsWith (kids_of journal.new) (kids_of journal.old) }
    ensures grows { OnOk result.1 (JournalGrows journal.old journal.new) }
    ensures told { IfErr result.1 (Stops journal.old journal.new) }
    ensures survives { IfSome (view place.entry.pass).seen.task (λ t.
        Survives t journal.old journal.new) }
    ensures settled { IsSettled (device_of journal.old)
        → OnOk result.1 (IsSettled (device_of journal.new)) }
{
    let beside = Committer {
        rt,
        desk,
        place,
        journal,
        role: CommitterRole {
            alloc,
            limit,
            gate,
            bells: &desk.bells,
        },
    };
    let search = ScopedSearch {
        rt,
        alloc,
        desk,
        places,
        together,
        limit,
        gate,
        beside,
    };
    let (ended, joined) = run_in_scope(rt, search);
    let Ended {
        journal,
        place,
        done,
        halted: _,
    } = ended;
    take_back(journal);
    (place, first_of(done, joined))
}

/// Returns what is reported of a fault of the threads: that the journal is full only where it is
/// short of room, else that what they share did not fit together.
fn confirmed<S: Store>(fault: ThreadsFault, journal: &Journal<S>) -> ThreadsFault
    ensures confirmed { IsConfirmed journal.now fault result }
    ensures full { IsFullRightly journal.now result }
{
    let left = journal
        .most()
        .saturating_sub(journal.entries().len() as u64);
    if fault == ThreadsFault::Run(RunFault::Full) && left >= MAX_OUTCOMES as u64 {
        return ThreadsFault::Run(RunFault::NotOut);
    }
    fault
}

/// Runs an opened search to its end; then says what the book says.
///
/// # Errors
/// - Those of the threads; `Full` only where the journal is short of room.
/// - `NotOut`: the book and the journal do not fit together.
/// - `NoMemory`: there is no room for a plan.
#[tactic(auto, using(crate::proofs::Stopping::can_run, crate::proofs::Stopping::answer_stops, crate::proofs::Stopping::answer_not_full, crate::proofs::Stopping::confirmed_stops, crate::proofs::Stopping::survives_of))]
fn run_opened<
    't,
    L: Ledger + Send + Sync,
    A: Ledger + Send + Sync,
    S: Store,
    G: Gate + Sync,
    R: Threads + Wait + Sync,
>(
    rt: &R,
    alloc: Global,
    task: &'t Task,
    search: OpenedSearch<'t, L, A>,
    journal: &mut Journal<S>,
    together: usize,
    limit: Option<u64>,
    gate: &G,
) -> Result<Concluded, ThreadsFault>
    requires at { AreAt search.desk search.places.items }
    requires committer { CanCommit task.now A.parts search.desk search.place (kids_of journal.old) }
    requires bound { StartsWith (bound_by task.now (kids_of journal.old))
        search.desk search.places.items }
    ensures answer { IfOk result (λ e.
        IsSearchOutcome task.now limit (kids_of journal.new) e.outcome) }
    ensures truth { IfOk result (λ e. IsTrueOutcome task.now e.outcome) }
    ensures cost { IfOk result (λ e. e.cost ≡ cost_by task.now (plan_in e.outcome)) }
    ensures counts { IfOk result (λ e. IsCountedBy (kids_of journal.new) e.outcome e.counts) }
    ensures grows { OnOk result (JournalGrows journal.old journal.new) }
    ensures begins { BeginsWith (kids_of journal.new) (kids_of journal.old) }
    ensures told { IfErr result (Stops journal.old journal.new) }
    ensures full { IfErr result (IsFullRightly journal.new) }
    ensures survives { Survives task.now journal.old journal.new }
    ensures settled { IsSettled (device_of journal.old)
        → OnOk result (IsSettled (device_of journal.new)) }
{
    let _ = task;
    let OpenedSearch {
        desk,
        place,
        places,
    } = search;
    let (place, done) = run_threads(
        rt, alloc, &desk, place, places, journal, together, limit, gate,
    );
    let mut place = place;
    if let Err(fault) = done {
        drop(place);
        drop(desk);
        return Err(confirmed(fault, journal));
    }
    let answered = answer(rt, &desk.lock, &mut place.pass, journal, limit);
    drop(place);
    drop(desk);
    match answered {
        Ok(concluded) => Ok(concluded),
        Err(fault) => Err(ThreadsFault::Run(fault)),
    }
}

/// Searches as [`run`] does, with one ledger for the commits and another for the acknowledged
/// entries.
#[tactic(auto, using(crate::proofs::Stopping::tells_later, crate::proofs::Stopping::tells_faulty, crate::proofs::Stopping::faulty_full))]
fn run_as<
    L: Ledger + Send + Sync,
    A: Ledger + Send + Sync,
    S: Store,
    G: Gate + Sync,
    R: Threads + Wait + Sync,
>(
    rt: &R,
    alloc: Global,
    commits: Blank,
    flushes: Blank,
    task: &Task,
    journal: &mut Journal<S>,
    workers: usize,
    together: usize,
    limit: Option<u64>,
    gate: &G,
) -> Result<Concluded, ThreadsFault>
    requires name { commits.name ≡ L.name }
    requires parts { commits.parts ≡ L.parts }
    requires enough { workers < L.parts }
    requires flushes_name { flushes.name ≡ A.name }
    requires flushes_parts { flushes.parts ≡ A.parts }
    requires flushes_some { 0 < A.parts }
    requires some { 1 ≤ workers }
    requires few { workers ≤ MAX_WORKERS }
    ensures answer { IfOk result (λ e.
        IsSearchOutcome task.now limit (kids_of journal.new) e.outcome) }
    ensures truth { IfOk result (λ e. IsTrueOutcome task.now e.outcome) }
    ensures cost { IfOk result (λ e. e.cost ≡ cost_by task.now (plan_in e.outcome)) }
    ensures counts { IfOk result (λ e. IsCountedBy (kids_of journal.new) e.outcome e.counts) }
    ensures grows { OnOk result (JournalGrows journal.old journal.new) }
    ensures begins { BeginsWith (kids_of journal.new) (kids_of journal.old) }
    ensures told { IfErr result (TellsOfThreads task.now journal.old journal.new) }
    ensures full { IfErr result (IsFullRightly journal.new) }
    ensures survives { Survives task.now journal.old journal.new }
    ensures settled { IsSettled (device_of journal.old)
        → OnOk result (IsSettled (device_of journal.new)) }
{
    match open_search::<L, A, S, G, R>(rt, alloc, commits, flushes, task, journal, workers, gate) {
        Ok(search) => run_opened(rt, alloc, task, search, journal, together, limit, gate),
        Err(fault) => Err(ThreadsFault::Run(fault)),
    }
}

/// Searches a task to the end by so many workers, each in a thread of its own, over a journal:
/// the search goes on from the entries that the journal has, from the root if it has none.
/// This thread appends the entries of the workers' batches to the journal, and what these lead to
/// is open only then. Each worker has the states that it owns by their hashes, and sends what
/// leads to others to their owners. It settles its best open nodes and commits what comes of
/// them, that of `together` nodes at a time, or of fewer if no more are open; while its
/// batches wait to be appended it goes on with the nodes that are open. The gate is called around
/// each.
///
/// With a limit no batch is committed any more once there are so many entries, those that the
/// journal had among them.
///
/// # Errors
/// - `Damaged` of the first entry of the journal that makes no legal list with those before it, and
///   nothing is written then.
/// - `Full`: there are more entries than the journal may have, or would be with all the outcomes
///   that a batch may have.
/// - `Device`, `Failed`: the journal's device failed now, or before.
/// - `NotOut`: a batch is refused for what it says, or the book and the journal do not agree.
/// - `NoThread`: the system starts no thread.
/// - `NoMemory`.
///
/// The committer's fault is reported before those of workers, and that of the least worker first.
/// The journal has the entries that it had, and maybe more after them, from which a later search
/// resumes.
pub fn run<S: Store, G: Gate + Sync, R: Threads + Wait + Sync>(
    rt: &R,
    alloc: Global,
    task: &Task,
    journal: &mut Journal<S>,
    workers: usize,
    together: usize,
    limit: Option<u64>,
    gate: &G,
) -> Result<Concluded, ThreadsFault>
    requires some { 1 ≤ workers }
    requires few { workers ≤ MAX_WORKERS }
    ensures answer { IfOk result (λ e.
        IsSearchOutcome task.now limit (kids_of journal.new) e.outcome) }
    ensures truth { IfOk result (λ e. IsTrueOutcome task.now e.outcome) }
    ensures cost { IfOk result (λ e. e.cost ≡ cost_by task.now (plan_in e.outcome)) }
    ensures counts { IfOk result (λ e. IsCountedBy (kids_of journal.new) e.outcome e.counts) }
    ensures grows { OnOk result (JournalGrows journal.old journal.new) }
    ensures begins { BeginsWith (kids_of journal.new) (kids_of journal.old) }
    ensures told { IfErr result (TellsOfThreads task.now journal.old journal.new) }
    ensures full { IfErr result (IsFullRightly journal.new) }
    // Where the journal has not failed, and nothing is pending on its device: whatever a stop
    // leaves there, at any moment from the call to its end, has all the entries that the journal
    // had, and maybe more, in whole groups, which with them name a legal list. What a read gives
    // in the end has all that the journal lists, also after a fault.
    ensures survives { Survives task.now journal.old journal.new }
    ensures settled { IsSettled (device_of journal.old)
        → OnOk result (IsSettled (device_of journal.new)) }
{
    let commits = Blank::new(workers as u64 + 1);
    run_as::<Brand, Brand, S, G, R>(
        rt,
        alloc,
        commits,
        Blank::new(1),
        task,
        journal,
        workers,
        together,
        limit,
        gate,
    )
}
