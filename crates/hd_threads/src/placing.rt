//! What a worker does at its place, call by call.
ghost use Rattle.std.specs.Prelude.{◌≡◌, ◌<◌, ◌≤◌, length, IfOk, IfErr};
ghost use Rattle.crossbeam_queue.specs.Passes.{view};
ghost use Rattle.hd_threads.specs.Working.{HasRedeemed};
ghost use Rattle.hd_threads.specs.Faults.{IsOfWorker};
ghost use Rattle.hd_threads.specs.Placing.{IsReadyAt, IsBackAt, StaysAt, StaysSeated, IsAfterCommit};
ghost use Rattle.hd_threads.specs.Posting.{HaveBoxes};

use crate::fault::RunFault;
use crate::pacing::{Pace, Stride};
use crate::posting::{Sending, send_next, take_next};
use crate::waking::Bells;
use crate::working::{Committed, Held, Redemption, commit_next, redeem_next, settle_best};
use crate::{Letter, SharedBook};
use hd_base::NoMemory;
use hd_desk::{BoundSeat, BoundWord, Hands, Lock, Mailboxes, Pass};
use hd_task::Task;
use hd_worker::{Lookup, Worker};
use std::sync::Wait;
use std::sync::ledger::{Ledger, Share};

/// What the threads of a search share: the lock of the book, the mailboxes, the bound word, the
/// pace of the workers, and the bells by which they wake one another.
#[derive(Drop)]
pub struct Desk<'t, L: Ledger, A: Ledger> {
    pub lock: Lock<SharedBook<'t, L, A>>,
    pub boxes: Mailboxes<Task, Letter<'t>>,
    pub bound: BoundWord,
    pub pace: Pace,
    pub bells: Bells,
}

/// What a worker's thread has of its own: a pass of the lock, a share of the commits, a seat at the
/// bound, hands at the mailboxes, the worker, and what it looks up.
#[derive(Drop)]
pub struct Workplace<'t, L: Ledger, A: Ledger> {
    pub pass: Pass<SharedBook<'t, L, A>>,
    pub share: Share<L>,
    pub seat: BoundSeat,
    pub hands: Hands<'t, Task, Letter<'t>>,
    pub worker: Worker<'t>,
    pub lookup: Lookup<'t>,
}

/// Redeems a worker's ticket, as [`redeem_next`] does.
///
/// # Errors
/// - As there.
pub(crate) fn redeem<'t, L: Ledger, A: Ledger, R: Wait>(
    rt: &R,
    desk: &Desk<'t, L, A>,
    place: &mut Workplace<'t, L, A>,
    held: Held,
    waits: bool,
) -> Result<Redemption, RunFault>
    requires at { IsReadyAt desk.now place.old }
    requires room { held.kids ≤ place.old.worker.room }
    ensures back { IsBackAt desk.now place.old place.new }
    ensures redeemed { IfOk result (HasRedeemed (view place.new.pass).seen.log held
        place.old.worker place.new.worker) }
    ensures told { IfErr result IsOfWorker }
{
    redeem_next(
        rt,
        &desk.lock,
        &mut place.pass,
        &mut place.worker,
        held,
        waits,
    )
}

/// Sends the first parcel of a worker's outbox, as [`send_next`] does.
pub(crate) fn send<'t, L: Ledger, A: Ledger>(
    desk: &Desk<'t, L, A>,
    place: &mut Workplace<'t, L, A>,
    workers: usize,
) -> Sending
    requires at { IsReadyAt desk.now place.old }
    requires workers { HaveBoxes workers (length desk.now.boxes) }
    ensures stays { StaysAt desk.now place.old place.new }
{
    send_next(
        &desk.boxes,
        &desk.bells,
        &mut place.hands,
        &mut place.worker,
        workers,
    )
}

/// Takes the oldest parcel out of a worker's mailbox, as [`take_next`] does.
///
/// # Errors
/// - As there.
pub(crate) fn take<'t, L: Ledger, A: Ledger>(
    desk: &Desk<'t, L, A>,
    place: &mut Workplace<'t, L, A>,
    id: usize,
) -> Result<bool, NoMemory>
    requires at { IsReadyAt desk.now place.old }
    requires there { id < length desk.now.boxes }
    ensures stays { StaysAt desk.now place.old place.new }
{
    take_next(&desk.boxes, &mut place.hands, &mut place.worker, id)
}

/// Estimates what came to a worker, so many parcels at most, as [`Worker::open_some`] does: whether
/// all is estimated now.
///
/// # Errors
/// - As there.
pub(crate) fn open_some<'t, L: Ledger, A: Ledger>(
    desk: &Desk<'t, L, A>,
    place: &mut Workplace<'t, L, A>,
    most: usize,
) -> Result<bool, NoMemory>
    requires at { IsReadyAt desk.now place.old }
    ensures stays { StaysAt desk.now place.old place.new }
{
    let _ = desk;
    place.worker.open_some(&mut place.lookup, most)
}

/// Reports whether a worker has an open node that it settles in this turn, and does not rest: one
/// whose total is within its stride, or, if it has no other, one of an infinite estimate.
///
/// # Errors
/// - `NoMemory`: there is no room for what is kept of estimates.
pub(crate) fn has_next<'t, L: Ledger, A: Ledger>(
    desk: &Desk<'t, L, A>,
    place: &mut Workplace<'t, L, A>,
    stride: Stride,
) -> Result<bool, NoMemory>
    requires at { IsReadyAt desk.now place.old }
    ensures stays { StaysAt desk.now place.old place.new }
{
    let _ = desk;
    if stride.rests() {
        return Ok(false);
    }
    if stride.has_limit() {
        if let Some(total) = place.worker.least(&mut place.lookup)? {
            return Ok(stride.reaches(total));
        }
    }
    Ok(place.worker.has_open())
}

/// Returns the least cost plus estimate of a worker's open nodes, as [`Worker::least`] reports it.
///
/// # Errors
/// - As there.
pub(crate) fn least<'t, L: Ledger, A: Ledger>(
    desk: &Desk<'t, L, A>,
    place: &mut Workplace<'t, L, A>,
) -> Result<Option<u128>, NoMemory>
    requires at { IsReadyAt desk.now place.old }
    ensures stays { StaysAt desk.now place.old place.new }
{
    let _ = desk;
    place.worker.least(&mut place.lookup)
}

/// Settles a worker's best open node, as [`settle_best`] does.
///
/// # Errors
/// - As there.
pub(crate) fn settle<'t, L: Ledger, A: Ledger>(
    desk: &Desk<'t, L, A>,
    place: &mut Workplace<'t, L, A>,
) -> Result<(), NoMemory>
    requires at { IsReadyAt desk.now place.old }
    ensures stays { StaysAt desk.now place.old place.new }
{
    settle_best(
        &desk.bound,
        &mut place.seat,
        &mut place.worker,
        &mut place.lookup,
    )
}

/// Commits a worker's next batch, as [`commit_next`] does.
///
/// # Errors
/// - As there.
pub(crate) fn commit<'t, L: Ledger, A: Ledger, R: Wait>(
    rt: &R,
    desk: &Desk<'t, L, A>,
    place: &mut Workplace<'t, L, A>,
    limit: Option<u64>,
) -> Result<Committed, RunFault>
    requires at { IsReadyAt desk.now place.old }
    ensures seated { StaysSeated desk.now place.old place.new }
    ensures behind { IfOk result (IsAfterCommit desk.now place.old place.new) }
    ensures told { IfErr result IsOfWorker }
{
    commit_next(rt, desk, place, limit)
}
