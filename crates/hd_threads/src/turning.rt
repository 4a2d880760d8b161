//! One turn of a worker, and turn after turn.
ghost use Rattle.std.specs.Prelude.{◌≡◌, ◌<◌, ◌≤◌, true, length, IfErr, IfSome, OnOk};
ghost use Rattle.std.specs.VecDeque.{deque_len};
ghost use Rattle.hd_zobrist.specs.declared.owners.TheConstants.{MAX_WORKERS};
ghost use Rattle.hd_book.specs.declared.ticket.TheConstants.{MAX_TICKETS};
ghost use Rattle.hd_threads.specs.Faults.{IsOfWorker};
ghost use Rattle.hd_threads.specs.Placing.{IsSeated, IsReadyAt, IsBackAt, StaysAt, StaysSeated};
ghost use Rattle.hd_threads.specs.Posting.{HaveBoxes};
ghost use Rattle.hd_threads.specs.Turning.{kids_held, IsWorkerEnd, CanTurn, HasTurned};

use crate::ends::WorkerEnd;
use crate::fault::RunFault;
use crate::gate::Gate;
use crate::halting::halt;
use crate::pausing::Pause;
use crate::placing::{
    Desk, Workplace, commit, has_next, least, open_some, redeem, send, settle, take,
};
use crate::posting::Sending;
use crate::progress::{Progress, end};
use crate::tally::Work;
use crate::working::{Committed, Redemption};
use hd_base::NoMemory;
use hd_book::MAX_TICKETS;
use hd_desk::MAILBOX_PLACES;
use std::alloc::Global;
use std::sync::Wait;
use std::sync::ledger::Ledger;

/// How many parcels that came a worker estimates in a turn, at most. Between these turns it looks
/// whether the search is over.
const MOST_OPENED: usize = 256;

/// What a worker is to do, turn after turn.
#[derive(Drop)]
pub struct Role<'g, G: Gate> {
    /// The worker's number, from 0.
    pub id: usize,
    /// How many workers there are.
    pub workers: usize,
    /// How many nodes it settles before it commits them; 0 stands for 1.
    pub together: usize,
    /// No batch is committed once the book has so many entries.
    pub limit: Option<u64>,
    /// What it calls around each node, and reports how it stands.
    pub gate: &'g G,
    ghost there: { id < workers },
    ghost most: { workers ≤ MAX_WORKERS },
}

/// Returns how a worker ends that stops by a fault, or by none. By a fault, it halts the book.
fn end_by<'t, L: Ledger, A: Ledger, R: Wait>(
    rt: &R,
    desk: &Desk<'t, L, A>,
    place: &mut Workplace<'t, L, A>,
    id: usize,
    fault: Option<RunFault>,
) -> WorkerEnd
    requires seated { IsSeated desk.now place.old }
    ensures seated { StaysSeated desk.now place.old place.new }
    ensures id { result.id ≡ id }
    ensures fault { result.fault ≡ fault }
{
    match fault {
        Some(fault) => {
            let halted = halt(rt, &desk.lock, &mut place.pass);
            WorkerEnd::by(id, fault, halted)
        }
        None => WorkerEnd::by_none(id),
    }
}

/// Gives up what tickets a worker holds.
fn finish<'t, L: Ledger, A: Ledger, R: Wait>(
    rt: &R,
    desk: &Desk<'t, L, A>,
    place: &mut Workplace<'t, L, A>,
    progress: Progress,
)
    requires seated { IsSeated desk.now place.old }
    ensures seated { StaysSeated desk.now place.old place.new }
{
    end(rt, &desk.lock, &mut place.pass, progress);
}

/// Redeems a worker's oldest ticket, if it has one: whether its batch has released what it leads
/// to. It waits for the lock only where the worker settles nothing before its tickets are redeemed,
/// or had nothing else to do.
///
/// # Errors
/// - How the search ends for the worker.
fn redeem_oldest<'t, L: Ledger, A: Ledger, R: Wait>(
    rt: &R,
    desk: &Desk<'t, L, A>,
    place: &mut Workplace<'t, L, A>,
    progress: &mut Progress,
) -> Result<bool, Option<RunFault>>
    requires turns { CanTurn desk.now place.old progress.old }
    ensures back { IsBackAt desk.now place.old place.new }
    ensures room { OnOk result (kids_held progress.new ≤ place.new.worker.room) }
    ensures told { IfErr result IsWorkerEnd }
{
    let waits = progress.waits();
    let Some(oldest) = progress.oldest() else {
        return Ok(false);
    };
    match redeem(rt, desk, place, oldest, waits) {
        Ok(Redemption::Opened) => {
            progress.released();
            Ok(true)
        }
        Ok(Redemption::Waiting(held)) => {
            progress.keep(held);
            Ok(false)
        }
        Ok(Redemption::Void) => Err(None),
        Err(fault) => Err(Some(fault)),
    }
}

/// Redeems a worker's tickets from the oldest on, as long as they are released: whether one was.
///
/// # Errors
/// - How the search ends for the worker.
fn redeem_all<'t, L: Ledger, A: Ledger, R: Wait>(
    rt: &R,
    desk: &Desk<'t, L, A>,
    place: &mut Workplace<'t, L, A>,
    progress: &mut Progress,
) -> Result<bool, Option<RunFault>>
    requires turns { CanTurn desk.now place.old progress.old }
    ensures back { IsBackAt desk.now place.old place.new }
    ensures room { OnOk result (kids_held progress.new ≤ place.new.worker.room) }
    ensures told { IfErr result IsWorkerEnd }
{
    let mut released = false;
    for _ticket in 0..MAX_TICKETS {
        if !redeem_oldest(rt, desk, place, progress)? {
            break;
        }
        released = true;
    }
    Ok(released)
}

/// Sends a worker's parcels, until its outbox is empty or one comes back: whether one was sent.
fn send_all<'t, L: Ledger, A: Ledger>(
    desk: &Desk<'t, L, A>,
    place: &mut Workplace<'t, L, A>,
    workers: usize,
) -> bool
    requires at { IsReadyAt desk.now place.old }
    requires workers { HaveBoxes workers (length desk.now.boxes) }
    ensures stays { StaysAt desk.now place.old place.new }
{
    let mut sent = false;
    for _parcel in 0..u64::MAX {
        match send(desk, place, workers) {
            Sending::Sent => sent = true,
            Sending::Full | Sending::Empty => break,
        }
    }
    sent
}

/// Takes the parcels that came to a worker: whether one came.
///
/// # Errors
/// - `NoMemory`: there is no room for one.
fn take_all<'t, L: Ledger, A: Ledger>(
    desk: &Desk<'t, L, A>,
    place: &mut Workplace<'t, L, A>,
    id: usize,
) -> Result<bool, NoMemory>
    requires at { IsReadyAt desk.now place.old }
    requires there { id < length desk.now.boxes }
    ensures stays { StaysAt desk.now place.old place.new }
{
    let mut taken = false;
    for _parcel in 0..MAILBOX_PLACES {
        if !take(desk, place, id)? {
            break;
        }
        taken = true;
    }
    Ok(taken)
}

/// Sends what is in a worker's outbox, and takes what came to it: whether there was something.
///
/// # Errors
/// - `NoMemory`: there is no room for a parcel that came.
fn exchange<'t, L: Ledger, A: Ledger, G: Gate>(
    desk: &Desk<'t, L, A>,
    place: &mut Workplace<'t, L, A>,
    role: &Role<'_, G>,
) -> Result<bool, NoMemory>
    requires at { IsReadyAt desk.now place.old }
    requires boxes { role.now.workers ≤ length desk.now.boxes }
    ensures stays { StaysAt desk.now place.old place.new }
{
    let sent = send_all(desk, place, role.workers);
    let taken = take_all(desk, place, role.id)?;
    Ok(is_either(sent, taken))
}

/// Settles a worker's best open node between the calls of the gate.
///
/// # Errors
/// - `NoMemory`: there is no room for an outcome, or for what is kept of estimates.
fn settle_next<'t, L: Ledger, A: Ledger, R: Wait, G: Gate>(
    rt: &R,
    desk: &Desk<'t, L, A>,
    place: &mut Workplace<'t, L, A>,
    progress: &mut Progress,
    role: &Role<'_, G>,
) -> Result<(), NoMemory>
    requires at { IsReadyAt desk.now place.old }
    ensures stays { StaysAt desk.now place.old place.new }
    ensures tickets { progress.new.held ≡ progress.old.held }
{
    let nth = progress.count();
    role.gate.before(rt, role.id, nth);
    let settled = settle(desk, place);
    role.gate.after(rt, role.id, nth);
    settled?;
    progress.hold_bytes(place.worker.last_bytes());
    Ok(())
}

/// Settles a worker's best open node, if one is within its stride: whether it did. Where the worker
/// is first to commit, or to wait for its tickets, nothing is settled.
///
/// # Errors
/// - `NoMemory`: there is no room for an outcome, or for what is kept of estimates.
fn settle_one<'t, L: Ledger, A: Ledger, R: Wait, G: Gate>(
    rt: &R,
    desk: &Desk<'t, L, A>,
    place: &mut Workplace<'t, L, A>,
    progress: &mut Progress,
    role: &Role<'_, G>,
) -> Result<bool, NoMemory>
    requires at { IsReadyAt desk.now place.old }
    ensures stays { StaysAt desk.now place.old place.new }
    ensures tickets { progress.new.held ≡ progress.old.held }
{
    let rests = progress.settles_no_more();
    if rests {
        return Ok(false);
    }
    let next = has_next(desk, place, progress.stride())?;
    if !next {
        return Ok(false);
    }
    settle_next(rt, desk, place, progress, role)?;
    Ok(true)
}

/// Settles a worker's best open nodes, so many of them, or as many as [`settle_one`] settles: how
/// many these are.
///
/// # Errors
/// - Those of settling one.
fn settle_some<'t, L: Ledger, A: Ledger, R: Wait, G: Gate>(
    rt: &R,
    desk: &Desk<'t, L, A>,
    place: &mut Workplace<'t, L, A>,
    progress: &mut Progress,
    role: &Role<'_, G>,
) -> Result<usize, NoMemory>
    requires at { IsReadyAt desk.now place.old }
    ensures stays { StaysAt desk.now place.old place.new }
    ensures tickets { progress.new.held ≡ progress.old.held }
{
    let together = role.together.max(1);
    for settled in 0..together {
        let another = settle_one(rt, desk, place, progress, role)?;
        if !another {
            return Ok(settled);
        }
    }
    Ok(together)
}

/// Reports the gate how a worker stands, if it asks.
///
/// # Errors
/// - `NoMemory`: there is no room for what is kept of estimates.
fn tell<'t, L: Ledger, A: Ledger, G: Gate>(
    desk: &Desk<'t, L, A>,
    place: &mut Workplace<'t, L, A>,
    role: &Role<'_, G>,
) -> Result<(), NoMemory>
    requires at { IsReadyAt desk.now place.old }
    ensures stays { StaysAt desk.now place.old place.new }
{
    let asked = role.gate.asks_worker(role.id);
    if !asked {
        return Ok(());
    }
    let least = least(desk, place)?;
    role.gate.hear_worker(role.id, least);
    Ok(())
}

/// What a worker did without the lock.
#[derive(Clone, Copy)]
struct Worked {
    /// Something.
    any: bool,
    /// It settled as many nodes as it may, and further ones may be open, or are not estimated yet.
    open: bool,
}

/// Reports whether one of two things was done.
fn is_either(one: bool, other: bool) -> bool {
    one || other
}

/// Returns what was done where all is estimated, and so many nodes were settled.
fn worked_of<G: Gate>(settled: usize, progress: &Progress, role: &Role<'_, G>) -> Worked {
    let enough = settled == role.together.max(1);
    Worked {
        any: settled > 0,
        open: enough || progress.holds_much(),
    }
}

/// Tells the other workers the least total of a worker's open nodes, and finds its stride.
///
/// # Errors
/// - `NoMemory`: there is no room for what is kept of estimates.
fn keep_pace<'t, L: Ledger, A: Ledger>(
    desk: &Desk<'t, L, A>,
    place: &mut Workplace<'t, L, A>,
    progress: &mut Progress,
    id: usize,
) -> Result<(), NoMemory>
    requires at { IsReadyAt desk.now place.old }
    ensures stays { StaysAt desk.now place.old place.new }
    ensures tickets { progress.new.held ≡ progress.old.held }
{
    let least = least(desk, place)?;
    progress.keep_pace(&desk.pace, id, least);
    Ok(())
}

/// Settles a worker's best open nodes, and reports how it stands where it is asked, once all that
/// came to it is estimated. Before that only a part of that is estimated, which is something done.
///
/// # Errors
/// - `NoMemory`: there is no room for an outcome, or for what is kept of estimates.
fn open_and_settle<'t, L: Ledger, A: Ledger, R: Wait, G: Gate>(
    rt: &R,
    desk: &Desk<'t, L, A>,
    place: &mut Workplace<'t, L, A>,
    progress: &mut Progress,
    role: &Role<'_, G>,
) -> Result<Worked, NoMemory>
    requires at { IsReadyAt desk.now place.old }
    ensures stays { StaysAt desk.now place.old place.new }
    ensures tickets { progress.new.held ≡ progress.old.held }
{
    let all = open_some(desk, place, MOST_OPENED)?;
    progress.note_opened(all);
    if !all {
        return Ok(Worked {
            any: true,
            open: true,
        });
    }
    keep_pace(desk, place, progress, role.id)?;
    let settled = settle_some(rt, desk, place, progress, role)?;
    tell(desk, place, role)?;
    Ok(worked_of(settled, progress, role))
}

/// Returns what a worker does without the lock: it sends, takes, settles, and reports how it stands
/// where it is asked. Whether nodes are left that it may settle.
///
/// # Errors
/// - `NoMemory`: there is no room for a parcel that came, or an outcome.
fn go_on<'t, L: Ledger, A: Ledger, R: Wait, G: Gate>(
    rt: &R,
    desk: &Desk<'t, L, A>,
    place: &mut Workplace<'t, L, A>,
    progress: &mut Progress,
    role: &Role<'_, G>,
) -> Result<bool, NoMemory>
    requires at { IsReadyAt desk.now place.old }
    requires boxes { role.now.workers ≤ length desk.now.boxes }
    ensures stays { StaysAt desk.now place.old place.new }
    ensures tickets { progress.new.held ≡ progress.old.held }
{
    let exchanged = exchange(desk, place, role)?;
    let worked = open_and_settle(rt, desk, place, progress, role)?;
    progress.note(is_either(exchanged, worked.any));
    Ok(worked.open)
}

/// Does what [`go_on`] does.
///
/// # Errors
/// - How the search ends for the worker: by `NoMemory`.
fn go_on_or_end<'t, L: Ledger, A: Ledger, R: Wait, G: Gate>(
    rt: &R,
    desk: &Desk<'t, L, A>,
    place: &mut Workplace<'t, L, A>,
    progress: &mut Progress,
    role: &Role<'_, G>,
) -> Result<bool, Option<RunFault>>
    requires at { IsReadyAt desk.now place.old }
    requires boxes { role.now.workers ≤ length desk.now.boxes }
    ensures seated { StaysSeated desk.now place.old place.new }
    ensures at { OnOk result (IsReadyAt desk.now place.new) }
    ensures room { OnOk result (place.new.worker.room ≡ place.old.worker.room) }
    ensures tickets { progress.new.held ≡ progress.old.held }
    ensures told { IfErr result IsWorkerEnd }
{
    match go_on(rt, desk, place, progress, role) {
        Ok(open) => Ok(open),
        Err(_) => Err(Some(RunFault::NoMemory)),
    }
}

/// Reports whether a worker puts its next batch off: it has nodes to settle, its outcomes are few
/// enough, and another thread has the lock.
#[tactic(auto, using(crate::proofs::Begins::begins_same))]
fn puts_off<'t, L: Ledger, A: Ledger>(
    desk: &Desk<'t, L, A>,
    place: &mut Workplace<'t, L, A>,
    progress: &Progress,
    open: bool,
) -> bool
    requires at { IsReadyAt desk.now place.old }
    ensures back { IsBackAt desk.now place.old place.new }
    ensures room { place.new.worker.room ≡ place.old.worker.room }
{
    let may_wait = open && !progress.has_many();
    may_wait && desk.lock.is_taken(&mut place.pass)
}

/// Commits a worker's next batch: whether there was one.
///
/// # Errors
/// - How the search ends for the worker.
fn commit_some<'t, L: Ledger, A: Ledger, R: Wait>(
    rt: &R,
    desk: &Desk<'t, L, A>,
    place: &mut Workplace<'t, L, A>,
    progress: &mut Progress,
    limit: Option<u64>,
) -> Result<bool, Option<RunFault>>
    requires turns { CanTurn desk.now place.old progress.old }
    requires few { deque_len progress.old.held < MAX_TICKETS }
    ensures turned { HasTurned desk.now place.old place.new progress.new result }
{
    match commit(rt, desk, place, limit) {
        Ok(Committed::Taken(held)) => {
            progress.batched();
            progress.note_reopened(place.worker.reopened());
            progress.hold(held);
            desk.bells.ring_committer();
            Ok(true)
        }
        Ok(Committed::Idle) => {
            progress.batched();
            Ok(false)
        }
        Ok(Committed::Halted) => Err(None),
        Err(fault) => Err(Some(fault)),
    }
}

/// Reports whether a worker commits its next batch now: it is due, and is not put off.
fn commits_now<'t, L: Ledger, A: Ledger, G: Gate>(
    desk: &Desk<'t, L, A>,
    place: &mut Workplace<'t, L, A>,
    progress: &Progress,
    role: &Role<'_, G>,
    open: bool,
) -> bool
    requires at { IsReadyAt desk.now place.old }
    ensures back { IsBackAt desk.now place.old place.new }
    ensures room { place.new.worker.room ≡ place.old.worker.room }
    ensures few { result ≡ true → deque_len progress.now.held < MAX_TICKETS }
{
    let due = progress.is_due(open, role.together.max(1));
    if !due {
        return false;
    }
    let off = puts_off(desk, place, progress, open);
    !off
}

/// Takes one turn of a worker: whether something was done. In this order:
///
/// - It redeems its tickets from the oldest on. Where it has something else to do, it does so only
///   if the lock is free.
/// - It sends what is in its outbox, and takes and estimates what came to it. Where that is much,
///   it estimates a part of it, and settles nothing.
/// - It settles its best open nodes, as many as its role says, unless it is first to wait for its
///   tickets ([`Progress`]) or its outcomes hold much, and none whose total is far above the least
///   of all workers ([`crate::Pace`]). It reports the gate how it stands, if that asks.
/// - It commits its next batch, if it holds fewer than [`MAX_TICKETS`] tickets and has outcomes
///   enough, or some that hold much, or some and no node open. While the lock is taken it puts that
///   off, unless no node is open or its outcomes are many: it settles further nodes rather than
///   wait. No batch is committed once the book has as many entries as the limit says.
///
/// The book is locked while a ticket is redeemed and while a batch is committed, and at no other
/// time.
///
/// # Errors
/// - How the search ends for the worker.
fn take_turn<'t, L: Ledger, A: Ledger, R: Wait, G: Gate>(
    rt: &R,
    desk: &Desk<'t, L, A>,
    place: &mut Workplace<'t, L, A>,
    progress: &mut Progress,
    role: &Role<'_, G>,
) -> Result<bool, Option<RunFault>>
    requires turns { CanTurn desk.now place.old progress.old }
    requires boxes { role.now.workers ≤ length desk.now.boxes }
    ensures turned { HasTurned desk.now place.old place.new progress.new result }
{
    let released = redeem_all(rt, desk, place, progress)?;
    let open = go_on_or_end(rt, desk, place, progress, role)?;
    let worked = is_either(released, progress.worked());
    let now = commits_now(desk, place, progress, role, open);
    if !now {
        return Ok(worked);
    }
    let committed = commit_some(rt, desk, place, progress, role.limit)?;
    Ok(is_either(worked, committed))
}

/// Takes a turn. Where there was nothing to do, or not all that came is estimated, looks whether
/// the search is over.
///
/// # Errors
/// - How the search ends for the worker.
fn turn_or_end<'t, L: Ledger, A: Ledger, R: Wait, G: Gate>(
    rt: &R,
    desk: &Desk<'t, L, A>,
    place: &mut Workplace<'t, L, A>,
    progress: &mut Progress,
    role: &Role<'_, G>,
) -> Result<bool, Option<RunFault>>
    requires turns { CanTurn desk.now place.old progress.old }
    requires boxes { role.now.workers ≤ length desk.now.boxes }
    ensures turned { HasTurned desk.now place.old place.new progress.new result }
{
    let busy = take_turn(rt, desk, place, progress, role)?;
    let looks = progress.asks_if_over(busy);
    if !looks {
        return Ok(busy);
    }
    let over = desk.bells.is_over();
    if over {
        return Err(None);
    }
    Ok(busy)
}

/// Takes turns until the search is over.
fn turns<'t, L: Ledger, A: Ledger, R: Wait, G: Gate>(
    rt: &R,
    desk: &Desk<'t, L, A>,
    place: &mut Workplace<'t, L, A>,
    progress: &mut Progress,
    role: &Role<'_, G>,
) -> Option<RunFault>
    requires turns { CanTurn desk.now place.old progress.old }
    requires boxes { role.now.workers ≤ length desk.now.boxes }
    ensures seated { StaysSeated desk.now place.old place.new }
    ensures told { IfSome result IsOfWorker }
{
    let mut pause = Pause::new();
    let bell = desk.bells.of_worker(role.id);
    for _turn in rt.forever() {
        match turn_or_end(rt, desk, place, progress, role) {
            Ok(true) => pause.reset(bell),
            Ok(false) => pause.wait(rt, bell, progress.holds_tickets()),
            Err(fault) => return fault,
        }
    }
    unreachable!()
}

/// Reports the gate what a worker did, if it asks. `before` expansions had reopened a state when it
/// began.
fn tell_work<'t, L: Ledger, A: Ledger, G: Gate>(
    place: &Workplace<'t, L, A>,
    progress: &Progress,
    role: &Role<'_, G>,
    before: u64,
) {
    if !role.gate.asks_work() {
        return;
    }
    let (tally, reopened) = progress.committed();
    let work = Work {
        tally,
        reopened: reopened.saturating_sub(before),
        evaluated: place.worker.estimated(),
    };
    role.gate.hear_work(role.id, work);
}

/// Runs the thread of a worker: turn after turn, until the search is over; it waits
/// longer and longer while there is nothing to do. In the end its tickets are given up. Its fault,
/// if it ends by one, is `NoMemory`, `Full` or `NotOut`, and then it has halted the book.
pub fn work<'t, L: Ledger, A: Ledger, R: Wait, G: Gate>(
    rt: &R,
    alloc: Global,
    desk: &Desk<'t, L, A>,
    place: &mut Workplace<'t, L, A>,
    role: &Role<'_, G>,
) -> WorkerEnd
    requires at { IsReadyAt desk.now place.old }
    requires boxes { role.now.workers ≤ length desk.now.boxes }
    ensures seated { StaysSeated desk.now place.old place.new }
    ensures id { result.id ≡ role.now.id }
    ensures told { IfSome result.fault IsOfWorker }
{
    let Ok(progress) = Progress::begin(alloc) else {
        return end_by(rt, desk, place, role.id, Some(RunFault::NoMemory));
    };
    let mut progress = progress;
    let before = place.worker.reopened();
    let fault = turns(rt, desk, place, &mut progress, role);
    tell_work(place, &progress, role, before);
    let end = end_by(rt, desk, place, role.id, fault);
    finish(rt, desk, place, progress);
    end
}
