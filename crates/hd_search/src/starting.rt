//! The threads of the workers.
ghost use Rattle.std.specs.Prelude.{◌≡◌, ◌∷◌, ◌++◌, [], IfErr, IfOk, OnOk, length};
ghost use Rattle.std.specs.List.{AllByRecursion};
ghost use Rattle.std.specs.Thread.{IsSync};
ghost use Rattle.hd_threads.specs.Ends.{first_fault};
ghost use Rattle.hd_search.specs.Fault.{AreEndsInOrder, AreThreadsInOrder, EndsAsWorker, IsOfThreads, reported};
ghost use Rattle.hd_search.specs.Opening.{IsJob, AreAt};

use crate::ThreadsFault;
use hd_base::NoMemory;
use hd_threads::{Desk, Gate, Role, RunFault, WorkerEnd, Workplace, first_fault, work};
use std::alloc::{AllocError, Global};
use std::sync::Wait;
use std::sync::ledger::Ledger;
use std::thread::{Promise, PromisedHandle, Scope, Threads, join_promised};

/// The thread of a worker, which gives how it ended.
pub(crate) type Working = PromisedHandle<WorkerEnd, OfWorker>;

/// That the thread of a worker ended by no fault, or by one of a worker.
#[derive(Clone, Copy)]
pub(crate) struct OfWorker {
    /// The worker's number.
    id: usize,
}

impl Promise<WorkerEnd> for OfWorker {
    ghost kept_by = { λ worker end. (end.id ≡ worker.id) × EndsAsWorker end };
}

/// What the thread of a worker has.
#[derive(Drop)]
struct Job<'s, 't, L: Ledger, A: Ledger, G: Gate, R: Wait> {
    rt: &'s R,
    alloc: Global,
    desk: &'s Desk<'t, L, A>,
    place: Workplace<'t, L, A>,
    id: usize,
    workers: usize,
    together: usize,
    limit: Option<u64>,
    gate: &'s G,
}

/// Runs the thread of a worker.
fn work_by<'s, 't, L: Ledger, A: Ledger, G: Gate, R: Wait>(
    job: Job<'s, 't, L, A, G, R>,
) -> WorkerEnd
    requires { IsJob job.desk.now job.place job.id job.workers }
    ensures id { result.id ≡ job.entry.id }
    ensures told { EndsAsWorker result }
{
    let Job {
        rt,
        alloc,
        desk,
        place,
        id,
        workers,
        together,
        limit,
        gate,
    } = job;
    let mut place = place;
    let role = Role {
        id,
        workers,
        together,
        limit,
        gate,
    };
    let end = work(rt, alloc, desk, &mut place, &role);
    drop(place);
    end
}

/// Starts the thread of a worker.
///
/// # Errors
/// - `NoThread`: the system starts none.
fn start<
    's,
    'e: 's,
    't: 's,
    L: Ledger + Send + Sync,
    A: Ledger + Send + Sync,
    G: Gate + Sync,
    R: Threads + Wait + Sync,
>(scope: &'s Scope<'s, &'e ()>, job: Job<'s, 't, L, A, G, R>) -> Result<Working, ThreadsFault>
    requires job { IsJob job.desk.now job.place job.id job.workers }
    ensures of { IfOk result (λ thread. thread.promise.id ≡ job.entry.id) }
    ensures told { IfErr result IsOfThreads }
{
    let started = scope.spawn_with(
        OfWorker { id: job.id },
        move || -> WorkerEnd
            requires { IsSync R.row × IsSync G.row
                × IsJob job.desk.now job.place job.id job.workers }
            ensures id { result.id ≡ job.entry.id }
            ensures told { EndsAsWorker result }
        { work_by(job) },
    );
    match started.ok() {
        Some(thread) => Ok(thread),
        None => Err(ThreadsFault::NoThread),
    }
}

/// Appends a thread to those that run.
///
/// # Errors
/// - `NoMemory`: there is no room for its handle; it is left to end.
fn push_thread(threads: &mut Vec<Working>, thread: Working) -> Result<(), NoMemory>
    ensures items { OnOk result (threads.new.items ≡ threads.old.items ++ thread ∷ []) }
{
    match threads.push(thread) {
        Ok(()) => Ok(()),
        Err(_) => Err(AllocError),
    }
}

/// Starts a thread for each worker.
///
/// # Errors
/// - `NoThread`: one does not start, `NoMemory` if there is no room for its handle; those that
///   run are left to end.
pub(crate) fn start_all<
    's,
    'e: 's,
    't: 's,
    L: Ledger + Send + Sync,
    A: Ledger + Send + Sync,
    G: Gate + Sync,
    R: Threads + Wait + Sync,
>(
    rt: &'s R,
    scope: &'s Scope<'s, &'e ()>,
    alloc: Global,
    desk: &'s Desk<'t, L, A>,
    places: Vec<Workplace<'t, L, A>>,
    together: usize,
    limit: Option<u64>,
    gate: &'s G,
) -> Result<Vec<Working>, ThreadsFault>
    requires { AreAt desk.now places.items }
    ensures order { IfOk result (λ threads. AreThreadsInOrder 0 threads.items) }
    ensures told { IfErr result IsOfThreads }
{
    let workers = places.len();
    let mut threads = Vec::with_capacity(alloc, workers)?;
    let mut id = 0;
    for place in places {
        let job = Job {
            rt,
            alloc,
            desk,
            place,
            id,
            workers,
            together,
            limit,
            gate,
        };
        let thread = start(scope, job)?;
        push_thread(&mut threads, thread)?;
        id += 1;
    }
    Ok(threads)
}

/// Joins the threads of all workers: how each has ended, in the order of their numbers.
///
/// # Errors
/// - `NoMemory`: there is no room for that; all have ended then too.
pub(crate) fn join_all<R: Threads>(
    rt: &R,
    threads: Vec<Working>,
) -> Result<Vec<WorkerEnd>, NoMemory>
    ensures count { IfOk result (λ ends. length ends.items ≡ length threads.items) }
    ensures order { AreThreadsInOrder 0 threads.items
        → IfOk result (λ ends. AreEndsInOrder 0 ends.items) }
    ensures told { IfOk result (λ ends. AllByRecursion EndsAsWorker ends.items) }
{
    match join_promised(rt, threads) {
        Ok(ends) => Ok(ends),
        Err(failed) => {
            for thread in failed.value {
                let _ = thread.join(rt);
            }
            Err(AllocError)
        }
    }
}

/// Returns what is reported of how workers have ended: the fault of the first that ended by one.
pub(crate) fn reported(ends: &[WorkerEnd]) -> Result<(), ThreadsFault>
    ensures { result ≡ reported (first_fault ends.now) }
{
    match first_fault(ends) {
        Some(fault) => Err(ThreadsFault::Run(fault)),
        None => Ok(()),
    }
}
