//! How a search is opened for its threads.
ghost use Rattle.std.specs.Prelude.{◌≡◌, ℕ, ◌+◌, ◌<◌, ◌≤◌, List, map, length, IfOk, IfErr, OnOk};
ghost use Rattle.std.specs.List.{AllByRecursion};
ghost use Rattle.hd_task.specs.declared.plan.Kid.{Kid as KidRecord};
ghost use Rattle.hd_zobrist.specs.declared.owners.TheConstants.{MAX_WORKERS};
ghost use Rattle.hd_task.specs.Expansions.{bound_of};
ghost use Rattle.hd_entries.specs.Settling.{expansions};
ghost use Rattle.hd_desk.specs.Bound.{word_of};
ghost use Rattle.hd_image.specs.Image.{most_of};
ghost use Rattle.hd_journal.specs.Journal.{kids_of};
ghost use Rattle.hd_recovery.specs.Recovered.{recovered_workers};
ghost use Rattle.hd_threads.specs.Placing.{IsReadyAt};
ghost use Rattle.hd_threads.specs.Working.{bound_by};
ghost use Rattle.hd_search.specs.Fault.{IsFaulty};
ghost use Rattle.hd_search.specs.Opening.{IsFresh, HasSeatsLeft, HasSeenStart, StartsWith, AreAt, CanCommit};

use crate::fault::of_recovery;
use hd_base::NoMemory;
use hd_book::Book;
use hd_desk::{BoundSeat, BoundWord, Hands, Lock, Mailboxes, Pass};
use hd_entries::Listener;
use hd_journal::Journal;
use hd_node::Parcel;
use hd_recovery::{Recovered, recover};
use hd_store::Store;
use hd_task::{Kid, ROOT_ACTION, ROOT_PARENT, Task};
use hd_threads::{Bells, Desk, Gate, Letter, Pace, RunFault, SharedBook, Workplace};
use hd_worker::{Lookup, Worker};
use hd_zobrist::Words;
use std::alloc::Global;
use std::sync::Wait;
use std::sync::ledger::{Blank, Ledger, Share};

/// What the committer has of its own: a pass of the lock, and the whole of the ledger of what is
/// acknowledged.
#[derive(Drop)]
pub(crate) struct CommitterPlace<'t, L: Ledger, A: Ledger> {
    pub(crate) pass: Pass<SharedBook<'t, L, A>>,
    pub(crate) share: Share<A>,
}

/// What is not given to a worker yet: a pass of the lock, a share of the commits, a seat at the
/// bound, and hands at the mailboxes.
#[derive(Drop)]
pub(crate) struct Rest<'t, L: Ledger, A: Ledger> {
    pass: Pass<SharedBook<'t, L, A>>,
    share: Share<L>,
    seat: BoundSeat,
    hands: Hands<'t, Task, Letter<'t>>,
}

/// A search that is opened: what its threads share, the committer's place, and the workers'
/// places in the order of their numbers.
#[derive(Drop)]
pub(crate) struct OpenedSearch<'t, L: Ledger, A: Ledger> {
    pub(crate) desk: Desk<'t, L, A>,
    pub(crate) place: CommitterPlace<'t, L, A>,
    pub(crate) places: Vec<Workplace<'t, L, A>>,
}

/// Returns a letter of a task: that of the root.
///
/// # Errors
/// - `NoMemory`: there is no room for it.
fn letter_of<'t>(alloc: Global, task: &'t Task) -> Result<Letter<'t>, NoMemory>
    ensures { IfOk result (λ l. l.task ≡ task.now) }
{
    let words = Words::new(alloc, task)?;
    let root = Kid {
        parent: ROOT_PARENT,
        action: ROOT_ACTION,
    };
    let initial = task.initial.copied(alloc)?;
    Ok(Letter::of(Parcel::of(alloc, task, &words, root, initial, 0)?))
}

/// Returns what threads share of a book, with so many mailboxes; the whole of what a book's
/// committer has; and the rest.
///
/// # Errors
/// - `NoMemory`: there is no room for it.
#[tactic(auto, using(crate::proofs::Parts::all_many))]
fn opened_desk<'t, L: Ledger, A: Ledger, R: Wait>(
    rt: &R,
    alloc: Global,
    task: &'t Task,
    flushes: Blank,
    book: Book<'t, L>,
    share: Share<L>,
    workers: usize,
) -> Result<(Desk<'t, L, A>, Rest<'t, L, A>, Share<A>), NoMemory>
    requires name { flushes.name ≡ A.name }
    requires parts { flushes.parts ≡ A.parts }
    requires some { 0 < A.parts }
    requires task { book.state.task ≡ task.now }
    requires few { workers ≤ MAX_WORKERS }
    requires enough { workers < share.parts }
    ensures boxes { IfOk result (λ r. length r.0.boxes ≡ workers) }
    ensures room { IfOk result
        (λ r. HasSeatsLeft task.now book.entry.state.entries r.0 workers r.1) }
    ensures parts { IfOk result (λ r. r.2.parts ≡ A.parts) }
    ensures amount { IfOk result (λ r. r.2.amount ≡ book.entry.batches.queue.acknowledged) }
    ensures bound { IfOk result (λ r.
        r.0.bound.start ≡ word_of (bound_of task.now (expansions book.entry.state))) }
{
    let start = book.bound();
    let (book, all) = SharedBook::<L, A>::of(flushes, book);
    let (lock, pass) = Lock::open(rt, alloc, book)?;
    let (bound, seat) = BoundWord::new(alloc, start)?;
    let letter = letter_of(alloc, task)?;
    let (boxes, hands) = Mailboxes::new(rt, alloc, workers, task, letter)?;
    let pace = Pace::new(alloc, workers)?;
    let bells = Bells::new(alloc, workers)?;
    let desk = Desk {
        lock,
        boxes,
        bound,
        pace,
        bells,
    };
    let rest = Rest {
        pass,
        share,
        seat,
        hands,
    };
    Ok((desk, rest, all))
}

/// Returns the place of a worker, for which a part of all is given.
///
/// # Errors
/// - `NoMemory`: there is no room for it.
#[tactic(auto, using(crate::proofs::Parts::all_shareable, crate::proofs::Seating::at_place, crate::proofs::Seating::seen_start, crate::proofs::Seating::room_after))]
fn place_of<'t, L: Ledger, A: Ledger>(
    alloc: Global,
    task: &'t Task,
    desk: &Desk<'t, L, A>,
    rest: &mut Rest<'t, L, A>,
    worker: Worker<'t>,
) -> Result<Workplace<'t, L, A>, NoMemory>
    requires fresh { IsFresh task.now worker }
    requires room { (log : List KidRecord) × (left : ℕ)
        × HasSeatsLeft task.now log desk.now (left + 1) rest.old }
    ensures at { IfOk result (IsReadyAt desk.now) }
    ensures worker { IfOk result (λ p. p.worker ≡ worker.entry) }
    ensures bound { IfOk result (HasSeenStart desk.now) }
    ensures room { (log : List KidRecord) (left : ℕ)
        → HasSeatsLeft task.now log desk.now (left + 1) rest.old
        → OnOk result (HasSeatsLeft task.now log desk.now left rest.new) }
{
    let lookup = Lookup::of(alloc, task)?;
    let hands = desk.boxes.share(alloc, &mut rest.hands)?;
    Ok(Workplace {
        pass: desk.lock.another(&mut rest.pass),
        share: rest.share.split_off(1, 0),
        seat: desk.bound.another(&mut rest.seat),
        hands,
        worker,
        lookup,
    })
}

/// Returns the places of workers, in their order.
///
/// # Errors
/// - `NoMemory`: there is no room for one.
fn places_of<'t, L: Ledger, A: Ledger>(
    alloc: Global,
    task: &'t Task,
    desk: &Desk<'t, L, A>,
    rest: &mut Rest<'t, L, A>,
    workers: Vec<Worker<'t>>,
) -> Result<Vec<Workplace<'t, L, A>>, NoMemory>
    requires fresh { AllByRecursion (IsFresh task.now) workers.items }
    requires room { (log : List KidRecord)
        × HasSeatsLeft task.now log desk.now (length workers.items) rest.old }
    ensures at { IfOk result (λ ps. AllByRecursion (IsReadyAt desk.now) ps.items) }
    ensures bound { IfOk result (λ ps. AllByRecursion (HasSeenStart desk.now) ps.items) }
    ensures workers { IfOk result (λ ps. map (λ p. p.worker) ps.items ≡ workers.entry.items) }
    ensures room { (log : List KidRecord)
        → HasSeatsLeft task.now log desk.now (length workers.entry.items) rest.old
        → OnOk result (HasSeatsLeft task.now log desk.now 0 rest.new) }
{
    let mut places = Vec::with_capacity(alloc, workers.len())?;
    for worker in workers {
        places.push(place_of(alloc, task, desk, rest, worker)?)?;
    }
    Ok(places)
}

/// A gate that hears how far the entries of a journal are made again.
#[derive(Drop)]
struct ByGate<'g, G: Gate>(&'g G);

impl<'g, G: Gate> Listener for ByGate<'g, G> {
    fn hear(&self, done: u64, all: u64) {
        self.0.hear_rebuilding(done, all);
    }
}

/// Returns the search with the entries of a journal, opened for so many workers. The gate hears how
/// many entries are made again.
///
/// # Errors
/// - `Full`: there are more entries than the journal may have.
/// - `Damaged` of the first that makes no legal list with those before it.
/// - `NoMemory`.
pub(crate) fn open_search<'t, L: Ledger, A: Ledger, S: Store, G: Gate, R: Wait>(
    rt: &R,
    alloc: Global,
    commits: Blank,
    flushes: Blank,
    task: &'t Task,
    journal: &Journal<S>,
    workers: usize,
    gate: &G,
) -> Result<OpenedSearch<'t, L, A>, RunFault>
    requires name { commits.name ≡ L.name }
    requires parts { commits.parts ≡ L.parts }
    requires enough { workers < L.parts }
    requires flushes_name { flushes.name ≡ A.name }
    requires flushes_parts { flushes.parts ≡ A.parts }
    requires flushes_some { 0 < A.parts }
    requires some { 1 ≤ workers }
    requires few { workers ≤ MAX_WORKERS }
    ensures at { IfOk result (λ o. AreAt o.desk o.places.items) }
    ensures committer { IfOk result (λ o.
        CanCommit task.now A.parts o.desk o.place (kids_of journal.now)) }
    ensures workers { IfOk result (λ o. map (λ p. p.worker) o.places.items
        ≡ recovered_workers task.now (kids_of journal.now) workers) }
    ensures bound { IfOk result (λ o.
        StartsWith (bound_by task.now (kids_of journal.now)) o.desk o.places.items) }
    ensures told { IfErr result
        (IsFaulty task.now (most_of journal.now.version) journal.now.entries.items) }
{
    let recovered = recover::<L, ByGate<'_, G>>(
        alloc,
        commits,
        task,
        journal.entries(),
        workers,
        &ByGate(gate),
        journal.most(),
    );
    match recovered {
        Ok(recovered) => Ok(opened_from(rt, alloc, flushes, task, recovered, workers)?),
        Err(fault) => Err(of_recovery(fault)),
    }
}

/// Returns a search that goes on, opened for its workers.
///
/// # Errors
/// - `NoMemory`: there is no room for what they share.
#[tactic(auto, using(crate::proofs::Places::fresh_all, crate::proofs::Places::length_all, crate::proofs::Places::opened_at))]
fn opened_from<'t, L: Ledger, A: Ledger, R: Wait>(
    rt: &R,
    alloc: Global,
    flushes: Blank,
    task: &'t Task,
    recovered: Recovered<'t, L>,
    workers: usize,
) -> Result<OpenedSearch<'t, L, A>, NoMemory>
    requires name { flushes.name ≡ A.name }
    requires parts { flushes.parts ≡ A.parts }
    requires some { 0 < A.parts }
    requires few { workers ≤ MAX_WORKERS }
    requires enough { workers < recovered.share.parts }
    requires task { recovered.book.state.task ≡ task.now }
    requires workers { recovered.workers.items
        ≡ recovered_workers task.now recovered.book.state.entries workers }
    requires acknowledged { recovered.book.batches.queue.acknowledged
        ≡ length recovered.book.state.entries }
    ensures at { IfOk result (λ o. AreAt o.desk o.places.items) }
    ensures committer { IfOk result (λ o.
        CanCommit task.now A.parts o.desk o.place recovered.entry.book.state.entries) }
    ensures workers { IfOk result (λ o. map (λ p. p.worker) o.places.items
        ≡ recovered_workers task.now recovered.entry.book.state.entries workers) }
    ensures bound { IfOk result (λ o.
        StartsWith (bound_of task.now (expansions recovered.entry.book.state))
        o.desk o.places.items) }
{
    let Recovered {
        book,
        share,
        workers: team,
    } = recovered;
    let (desk, rest, all) = opened_desk::<L, A, R>(rt, alloc, task, flushes, book, share, workers)?;
    let mut rest = rest;
    let places = places_of(alloc, task, &desk, &mut rest, team)?;
    let place = CommitterPlace {
        pass: rest.pass,
        share: all,
    };
    Ok(OpenedSearch {
        desk,
        place,
        places,
    })
}
