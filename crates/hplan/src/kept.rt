//! The search of a task by threads over a journal, in memory or in a file.
ghost use Rattle.std.specs.Prelude.{◌≡◌, ◌≢◌, ◌⊎◌, ℕ, true, is_some, List, IfOk, IfErr, OnOk};
ghost use Rattle.hd_task.specs.declared.plan.Kid.{Kid};
ghost use Rattle.hd_image.specs.declared.version.Version.{Version};
ghost use Rattle.hd_store.specs.Device.{content_of, refused};
ghost use Rattle.hd_journal.specs.Journal.{IsOf, device_of, kids_of};
ghost use Rattle.hd_journal.specs.Answers.{StandsIn, device_left};
ghost use Rattle.hd_journal.specs.Moments.{IsSettled, LeavesSince};
ghost use Rattle.hd_threads.specs.Growing.{JournalGrows};
ghost use Rattle.hd_threads.specs.Ending.{IsSearchOutcome, IsTrueOutcome, cost_by, plan_in};
ghost use Rattle.hd_threads.specs.Surviving.{Survives};
ghost use Rattle.hd_search.specs.Fault.{IsFullRightly, TellsOfThreads};
ghost use Rattle.hd_words.specs.Request.{IsWorkers};
ghost use Rattle.hplan.specs.declared.fault.Fault.TheVariants as faults;
ghost use Rattle.hplan.specs.Answer.{IsSolution, IsKeptSolution};
ghost use Rattle.hplan.specs.declared.kept.Start.TheVariants.{Kept};
ghost use Rattle.hplan.specs.Kept.{HasGroups, HasSamePast, WasStopped, IsJournalBegun, HoldsEntries, TellsOfFile, HasNoSolution, FailsIn, IsRefusedRun, StandsOrFails, InMemory, InFile};
ghost use Rattle.hplan.specs.PlanText.{printed};

use crate::account::Account;
use crate::fault::{Fault, journal_in, search_in, store_in};
use crate::host::Host;
use crate::places::Places;
use crate::told::{Told, told_of};
use crate::trouble::Trouble;
use crate::watching::Watching;
use hd_journal::{DIGEST_LEN, Journal, JournalError};
use hd_search::{Concluded, OpenGate, ThreadsFault, Watch, run};
use hd_store::{MemoryDisk, Store};
use hd_task::Task;
use hd_threads::RunFault;
use hd_words::Search;
use std::alloc::Global;
use std::io::Eprint;
use std::sync::Wait;
use std::thread::Threads;
use std::time::Clock;

/// How many open nodes a worker settles before their outcomes are committed, or fewer, where no
/// more are open.
const TOGETHER: usize = 64;

/// What a search that is kept in a file begins with.
#[derive(Clone, Copy, Debug, PartialEq, Eq)]
pub enum Start {
    /// A new journal, in a file that is not there or empty.
    New,
    /// The journal that the file holds.
    Kept,
}

/// Returns how many open nodes a worker settles before their outcomes are committed: no more than
/// the limit leaves, so that few are expanded in vain.
fn together_for(limit: Option<u64>, entries: u64) -> usize {
    match limit {
        Some(limit) => {
            let left = usize::try_from(limit.saturating_sub(entries)).unwrap_or(TOGETHER);
            left.min(TOGETHER).max(1)
        }
        None => TOGETHER,
    }
}

/// Reports whether somebody hears how a search stands.
fn is_watched<H: Host>(how: Search, account: &Account<'_, H>) -> bool {
    how.progress.is_some() || how.stats || account.plan_file.is_some()
}

/// Returns what the search of a task by threads ends with over a journal. Where it is to report how
/// it stands, it does so on standard error. What is counted of it, and how long it took, is in the
/// account.
fn concluded_of<S: Store, R: Threads + Wait + Sync + Eprint + Clock, H: Host + Sync>(
    rt: &R,
    alloc: Global,
    task: &Task,
    journal: &mut Journal<S>,
    how: Search,
    account: &mut Account<'_, H>,
) -> Result<Concluded, ThreadsFault>
    requires { IsWorkers how.workers }
    ensures answer { IfOk result (λ e.
        IsSearchOutcome task.now how.limit (kids_of journal.new) e.outcome) }
    ensures truth { IfOk result (λ e. IsTrueOutcome task.now e.outcome) }
    ensures cost { IfOk result (λ e. e.cost ≡ cost_by task.now (plan_in e.outcome)) }
    ensures grows { OnOk result (JournalGrows journal.old journal.new) }
    ensures told { IfErr result (TellsOfThreads task.now journal.old journal.new) }
    ensures full { IfErr result (IsFullRightly journal.new) }
    ensures survives { Survives task.now journal.old journal.new }
    ensures settled { IsSettled (device_of journal.old)
        → OnOk result (IsSettled (device_of journal.new)) }
{
    let workers = how.workers as usize;
    let found = journal.entries().len() as u64;
    let together = together_for(how.limit, found);
    if !is_watched(how, account) {
        return run(
            rt, alloc, task, journal, workers, together, how.limit, &OpenGate,
        );
    }
    let Ok(watch) = Watch::begin(rt, account.host(), alloc, workers, found, how.progress) else {
        return Err(ThreadsFault::Run(RunFault::NoMemory));
    };
    let gate = Watching::of(rt, alloc, task, watch, account);
    let ended = run(
        rt, alloc, task, journal, workers, together, how.limit, &gate,
    );
    gate.end(workers, found, account);
    ended
}

/// Returns what the search of a task answers over a journal.
fn solution_of<S: Store, R: Threads + Wait + Sync + Eprint + Clock, H: Host + Sync>(
    rt: &R,
    alloc: Global,
    task: &Task,
    journal: &mut Journal<S>,
    how: Search,
    account: &mut Account<'_, H>,
) -> Result<Told, Fault>
    requires { IsWorkers how.workers }
    ensures found { IfOk result (λ told. IsSolution how.limit task.now (kids_of journal.new)
        told.ending (printed told.plan)) }
    ensures grows { OnOk result (JournalGrows journal.old journal.new) }
    ensures refusal { IfErr result (IsRefusedRun task.now journal.old journal.new) }
    ensures survives { Survives task.now journal.old journal.new }
    ensures settled { IsSettled (device_of journal.old)
        → OnOk result (IsSettled (device_of journal.new)) }
{
    let ended = concluded_of(rt, alloc, task, journal, how, account);
    account.count_journal(journal.entries(), journal.most());
    let concluded = match ended {
        Ok(concluded) => concluded,
        Err(fault) => return Err(search_in(fault)),
    };
    match told_of(alloc, task, &concluded.outcome, concluded.cost) {
        Ok(told) => Ok(told),
        Err(_) => Err(Fault::NoMemory),
    }
}

/// Returns a journal on a store: a new one, or the one that is there.
fn journal_on<S: Store>(
    alloc: Global,
    start: Start,
    digest: &[u8; DIGEST_LEN],
    store: S,
) -> Result<Journal<S>, (S, JournalError)>
    ensures begun { IfOk result (IsJournalBegun start digest.now (content_of (S.device store))) }
    ensures settled { IsSettled (S.device store)
        → IfOk result (λ journal. IsSettled (device_of journal)) }
    ensures groups { (v : Version) (groups : List (List Kid)) → start ≡ Kept
        → StandsIn v digest.now groups (content_of (S.device store))
        → IfOk result (λ journal. (journal.version ≡ v) × IsOf digest.now groups journal) }
    ensures moments { (v : Version) (groups : List (List Kid)) (next : List Kid) → start ≡ Kept
        → WasStopped v digest.now groups next (S.device store)
        → LeavesSince (HasGroups v digest.now groups) (S.device store) (device_left result) }
    ensures refused { IfErr result (λ e. TellsOfFile start digest.now
        (content_of (S.device store)) (content_of (S.device e.0)) e.1) }
{
    match start {
        Start::New => Journal::create(alloc, store, digest),
        Start::Kept => Journal::open(alloc, store, digest),
    }
}

/// Returns what a search has found, if its store is still there and as long as it should be. After
/// its last flush nothing else would notice that somebody has removed or cut the file.
fn looked_again<S: Store>(store: S, found: Result<Told, Fault>) -> (S, Result<Told, Fault>)
    ensures same { content_of (S.device result.0) ≡ content_of (S.device store) }
    ensures stands { StandsOrFails found result.1 }
    ensures past { HasSamePast (S.device store) (S.device result.0) }
    ensures failed { (result.1 ≡ found) ⊎ (S.device result.0 ≡ refused (S.device store)) }
{
    let mut store = store;
    match (store.len(), found) {
        (Err(_), Ok(_)) => (store, Err(Fault::Search(RunFault::Device))),
        (_, found) => (store, found),
    }
}

/// Returns what the search of a task answers over a journal on a store, and the store as it is
/// then.
fn solution_on<S: Store, R: Threads + Wait + Sync + Eprint + Clock, H: Host + Sync>(
    rt: &R,
    alloc: Global,
    task: &Task,
    start: Start,
    digest: &[u8; DIGEST_LEN],
    how: Search,
    store: S,
    account: &mut Account<'_, H>,
) -> (S, Result<Told, Fault>)
    requires { IsWorkers how.workers }
    ensures found { IfOk result.1 (λ told. (kids : List Kid)
        × IsSolution how.limit task.now kids told.ending (printed told.plan)
        × HoldsEntries start digest.now kids (content_of (S.device store))
        (content_of (S.device result.0))) }
    ensures refusal { IfErr result.1 (HasNoSolution start task.now digest.now
        (content_of (S.device store)) (content_of (S.device result.0))) }
    // Where nothing was pending on the device: all that the answer stands on is made sure of.
    ensures settled { IsSettled (S.device store)
        → OnOk result.1 (IsSettled (S.device result.0)) }
    // Whatever a further stop leaves, at any moment, has the groups that the earlier one left.
    ensures moments { (v : Version) (groups : List (List Kid)) (next : List Kid) → start ≡ Kept
        → WasStopped v digest.now groups next (S.device store)
        → LeavesSince (HasGroups v digest.now groups) (S.device store) (S.device result.0) }
{
    match journal_on(alloc, start, digest, store) {
        Ok(journal) => {
            let mut journal = journal;
            let found = solution_of(rt, alloc, task, &mut journal, how, account);
            looked_again(journal.into_store(), found)
        }
        Err((store, error)) => (store, Err(journal_in(error))),
    }
}

/// Reports whether the file for the best plan is the one of this name, which is there now. Then it
/// is noted.
fn is_plan_file<P: Places, H: Host>(places: &P, account: &Account<'_, H>, name: &str) -> bool {
    let is = match account.plan_file {
        Some(plan) => places.is_one_file(plan, name),
        None => false,
    };
    if is {
        places.note_plan(Trouble::ReadToo);
    }
    is
}

/// Returns what [`solution_on`] does, unless the file is `taken` by another use. Then it is
/// refused, and its store is as it was.
#[tactic(auto, using(crate::proofs::Keeping::refused_alone))]
fn solution_unless<S: Store, R: Threads + Wait + Sync + Eprint + Clock, H: Host + Sync>(
    rt: &R,
    alloc: Global,
    task: &Task,
    start: Start,
    digest: &[u8; DIGEST_LEN],
    how: Search,
    store: S,
    account: &mut Account<'_, H>,
    taken: bool,
) -> (S, Result<Told, Fault>)
    requires { IsWorkers how.workers }
    ensures found { IfOk result.1 (λ told. (kids : List Kid)
        × IsSolution how.limit task.now kids told.ending (printed told.plan)
        × HoldsEntries start digest.now kids (content_of (S.device store))
        (content_of (S.device result.0))) }
    ensures refusal { IfErr result.1 (HasNoSolution start task.now digest.now
        (content_of (S.device store)) (content_of (S.device result.0))) }
{
    if taken {
        return (store, Err(journal_in(JournalError::Device)));
    }
    solution_on(rt, alloc, task, start, digest, how, store, account)
}

/// Returns what the search of a task answers over a journal in memory.
pub fn solution_in_memory<R: Threads + Wait + Sync + Eprint + Clock, H: Host + Sync>(
    rt: &R,
    alloc: Global,
    task: &Task,
    digest: &[u8; DIGEST_LEN],
    how: Search,
    account: &mut Account<'_, H>,
) -> Result<Told, Fault>
    requires { IsWorkers how.workers }
    ensures found { IfOk result (λ told. IsKeptSolution InMemory how.limit task.now digest.now
        told.ending (printed told.plan)) }
    ensures refusal { IfErr result (FailsIn InMemory task.now digest.now) }
{
    let disk = MemoryDisk::new(alloc);
    let (disk, found) = solution_on(rt, alloc, task, Start::New, digest, how, disk, account);
    drop(disk);
    found
}

/// Returns what the search of a task answers over a journal in a file.
pub fn solution_in_file<P: Places, R: Threads + Wait + Sync + Eprint + Clock, H: Host + Sync>(
    rt: &R,
    alloc: Global,
    places: &mut P,
    name: &str,
    start: Start,
    task: &Task,
    digest: &[u8; DIGEST_LEN],
    how: Search,
    account: &mut Account<'_, H>,
) -> Result<Told, Fault>
    requires { IsWorkers how.workers }
    ensures found { IfOk result (λ told. IsKeptSolution
        (InFile start (P.file_of places.old name.now) (P.file_of places.new name.now))
        how.limit task.now digest.now told.ending (printed told.plan)) }
    ensures refusal { IfErr result (FailsIn
        (InFile start (P.file_of places.old name.now) (P.file_of places.new name.now))
        task.now digest.now) }
    ensures known { is_some (P.file_of places.old name.now) ≡ true
        → is_some (P.file_of places.new name.now) ≡ true }
    ensures others { (other : List ℕ) → other ≢ name.now
        → P.file_of places.new other ≡ P.file_of places.old other }
{
    let is_made = matches!(start, Start::New);
    let disk = match places.store(alloc, name, is_made) {
        Ok(disk) => disk,
        Err(error) => return Err(store_in(error)),
    };
    let taken = is_plan_file(places, account, name);
    let (disk, found) = solution_unless(rt, alloc, task, start, digest, how, disk, account, taken);
    if is_made && found.is_err() {
        places.take_back(name, disk);
    } else {
        places.give_back(name, disk);
    }
    found
}
