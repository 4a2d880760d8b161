//! What a worker does under the lock, and beside it.
ghost use Rattle.std.specs.Prelude.{◌≡◌, ◌+◌, ◌<◌, ◌≤◌, ◌^◌, true, [], Some, length, is_some, IfOk, IfErr, IfNone, IfSome, OnOk, OnErr};
ghost use Rattle.std.specs.List.{AllByRecursion};
ghost use Rattle.crossbeam_queue.specs.Passes.{view};
ghost use Rattle.hd_desk.specs.Passes.{IsInside, IsOutside};
ghost use Rattle.hd_desk.specs.Views.{entered};
ghost use Rattle.hd_base.specs.Lists.{BeginsWith};
ghost use Rattle.hd_desk.specs.Bound.{bound_in};
ghost use Rattle.hd_entries.specs.Settling.{IsOutcomeOfTask};
ghost use Rattle.hd_entries.specs.Growing.{successor_count};
ghost use Rattle.hd_turns.specs.Calls.{ExpandsBest, after_seeing};
ghost use Rattle.hd_worker.specs.Lookup.{IsLookupOf};
ghost use Rattle.hd_threads.specs.declared.fault.RunFault.TheVariants as faults;
ghost use Rattle.hd_threads.specs.Working.{run_fault_of_refusal, with_offer, KeepsSeat, EntersBook, HasCommitted, HasRedeemed, IsAsked};
ghost use Rattle.hd_threads.specs.Faults.{IsOfWorker};
ghost use Rattle.hd_threads.specs.Shared.{IsGivenOf, IsGivenBy, IsGivenIn};
ghost use Rattle.hd_threads.specs.Outside.{IsOutsideAgain};

use crate::ending::is_reached;
use crate::fault::RunFault;
use crate::halting::halt;
use crate::placing::{Desk, Workplace};
use crate::shared::{Given, SharedBook};
use crate::tally::{Tally, tally_of};
use hd_base::NoMemory;
use hd_book::{CommitRefusal, NotOut, Refusal, Ticket};
use hd_desk::{BoundSeat, BoundWord, Lock, Pass};
use hd_node::{Batch, Outcome};
use hd_worker::{Lookup, Worker};
use std::sync::Wait;
use std::sync::ledger::{Ledger, Share};

/// A ticket that is out, how many parcels its batch releases at most, and what became of the nodes
/// of the batch.
///
/// It must be spent: it can't be let go.
#[must_use]
#[derive(Debug)]
pub struct Held {
    pub(crate) ticket: Ticket,
    pub(crate) kids: usize,
    pub(crate) tally: Tally,
}

/// What became of a worker's next batch.
#[must_use]
#[derive(Debug)]
pub enum Committed {
    /// The book has it.
    Taken(Held),
    /// The book takes no batch any more, since it is halted, or has as many entries as the limit
    /// says; the batch is dropped.
    Halted,
    /// There was none.
    Idle,
}

/// What became of a ticket.
#[must_use]
#[derive(Debug)]
pub enum Redemption {
    /// Its batch is acknowledged: what it releases is open, or in the outbox.
    Opened,
    /// Its batch waits to be appended, or the lock was taken.
    Waiting(Held),
    /// The book is halted, and its batch will not be appended.
    Void,
}

/// A batch that the book is to take if it has fewer entries than the limit says.
struct LimitedBatch<'t> {
    batch: Batch<'t>,
    limit: Option<u64>,
}

/// A batch that is in the book: its ticket, the number of its first entry, and the bound after it.
struct TakenBatch {
    ticket: Ticket,
    first: u64,
    bound: Option<u64>,
}

/// Returns what is reported of why the entries refuse a batch.
fn told_by(refusal: Refusal) -> RunFault
    ensures fault { result ≡ run_fault_of_refusal refusal }
    ensures of_worker { IsOfWorker result }
{
    match refusal {
        Refusal::Full => RunFault::Full,
        Refusal::NoMemory => RunFault::NoMemory,
        Refusal::UnknownParent
        | Refusal::NotAKid
        | Refusal::SettledBefore
        | Refusal::StateDiffers
        | Refusal::NotDominated
        | Refusal::BelowBound => RunFault::NotOut,
    }
}

/// Returns how many parcels outcomes release.
fn count_kids(outcomes: &[Outcome]) -> usize
    requires fits { successor_count outcomes.now < 2 ^ 64 }
    ensures { result ≡ successor_count outcomes.now }
{
    let mut count = 0usize;
    for outcome in outcomes {
        if let Outcome::Expanded(expansion) = outcome {
            count += expansion.children().len();
        }
    }
    count
}

/// Settles a worker's best open node by the bound as it is now: outside the lock.
///
/// # Errors
/// - `NoMemory`: there is no room for it; the node is open again.
pub fn settle_best<'t>(
    bound: &BoundWord,
    seat: &mut BoundSeat,
    worker: &mut Worker<'t>,
    lookup: &mut Lookup<'t>,
) -> Result<(), NoMemory>
    requires seat { seat.old.of ≡ bound.now.of }
    requires lookup { IsLookupOf worker.old.task lookup.old }
    ensures seat { KeepsSeat seat.old seat.new }
    ensures offers { seat.new.offers ≡ seat.old.offers }
    ensures lookup { IsLookupOf worker.old.task lookup.new }
    ensures ok { OnOk result (ExpandsBest worker.old.task
        (after_seeing (bound_in seat.new.seen) worker.old) worker.new) }
    ensures err { OnErr result
        (worker.new ≡ after_seeing (bound_in seat.new.seen) worker.old) }
{
    worker.see(bound.load(seat));
    worker.expand_best(lookup)
}

/// Offers a bound, if there is one.
fn offer(word: &BoundWord, seat: &mut BoundSeat, bound: Option<u64>)
    requires { seat.old.of ≡ word.now.of }
    ensures seat { KeepsSeat seat.old seat.new }
    ensures offers { seat.new.offers ≡ with_offer bound seat.old.offers }
{
    match bound {
        Some(cost) => word.offer(seat, cost),
        None => {}
    }
}

/// Commits a batch under the lock, if there are fewer entries than the limit says. A book that
/// refuses it is halted.
///
/// # Errors
/// - Why it is refused: as by a book that is halted, where the limit is reached.
fn commit_batch<'t, L: Ledger, A: Ledger, R: Wait>(
    rt: &R,
    lock: &Lock<SharedBook<'t, L, A>>,
    pass: &mut Pass<SharedBook<'t, L, A>>,
    share: &mut Share<L>,
    limited: LimitedBatch<'t>,
) -> Result<TakenBatch, CommitRefusal>
    requires pass { IsOutside lock.now.place pass.old }
    requires part { 0 < share.old.parts }
    requires of_task { IfSome (view pass.old).seen.task
        (λ t. AllByRecursion (IsOutcomeOfTask t) limited.batch.outcomes) }
    ensures pass { IsOutsideAgain lock.now.place pass.old pass.new }
    ensures share { share.new.parts ≡ share.old.parts }
    ensures counted { OnOk result (share.new.amount ≡ share.old.amount + 1) }
    ensures uncounted { OnErr result (share.new.amount ≡ share.old.amount) }
    ensures committed { IfOk result (λ r. EntersBook (view pass.old).seen.task
        (view pass.old).seen.log limited.entry.batch.outcomes
        (view pass.new).seen.log r.first r.bound) }
    ensures from { IfOk result (λ r. r.ticket.first ≡ r.first) }
    ensures to { IfOk result (λ r. r.ticket.end ≡ length (view pass.new).seen.log) }
    ensures few { IfOk result (λ r. r.first < 2 ^ 40) }
{
    let LimitedBatch { batch, limit } = limited;
    let mut book = lock.enter(rt, pass);
    let first = book.counts().entries;
    if is_reached(limit, first) {
        lock.leave(rt, pass, book);
        return Err(CommitRefusal::Halted);
    }
    match book.commit(share, batch) {
        Ok(ticket) => {
            let bound = book.bound();
            lock.leave(rt, pass, book);
            Ok(TakenBatch {
                ticket,
                first,
                bound,
            })
        }
        Err(refusal) => {
            lock.leave(rt, pass, book);
            Err(refusal)
        }
    }
}

/// Commits a worker's next batch, if there is one and the book has fewer entries than the limit
/// says, and then, outside the lock, offers the bound that the book has after it.
///
/// # Errors
/// - `NoMemory`: there is no room for the batch's numbers, or in the book.
/// - `Full`: there would be more entries than there may be.
/// - `NotOut`: the book refuses the batch for what it says. The book is halted, but in the first
///   case.
#[tactic(auto, using(crate::proofs::Outside::outside_itself))]
pub fn commit_next<'t, L: Ledger, A: Ledger, R: Wait>(
    rt: &R,
    desk: &Desk<'t, L, A>,
    place: &mut Workplace<'t, L, A>,
    limit: Option<u64>,
) -> Result<Committed, RunFault>
    requires pass { IsOutside desk.now.lock.place place.old.pass }
    requires part { 0 < place.old.share.parts }
    requires task { (view place.old.pass).seen.task ≡ Some place.old.worker.task }
    requires seat { place.old.seat.of ≡ desk.now.bound.of }
    requires numbered { place.old.worker.given ≡ [] }
    ensures pass { IsOutsideAgain desk.now.lock.place place.old.pass place.new.pass }
    ensures share { place.new.share.parts ≡ place.old.share.parts }
    ensures seat { KeepsSeat place.old.seat place.new.seat }
    ensures hands { place.new.hands ≡ place.old.hands }
    ensures lookup { place.new.lookup ≡ place.old.lookup }
    ensures worker_task { place.new.worker.task ≡ place.old.worker.task }
    ensures committed { IfOk result (HasCommitted (view place.old.pass).seen.log
        place.old.share.amount place.old.seat place.old.worker
        (view place.new.pass).seen.log
        place.new.share.amount place.new.seat place.new.worker) }
    ensures offered { OnErr result (place.new.seat.offers ≡ place.old.seat.offers) }
    ensures told { IfErr result IsOfWorker }
{
    let Some(batch) = place.worker.next_batch()? else {
        return Ok(Committed::Idle);
    };
    let outcomes = batch.outcomes.as_slice();
    let kids = count_kids(outcomes);
    let tally = tally_of(outcomes);
    let limited = LimitedBatch { batch, limit };
    match commit_batch(rt, &desk.lock, &mut place.pass, &mut place.share, limited) {
        Ok(taken) => {
            let TakenBatch {
                ticket,
                first,
                bound: cost,
            } = taken;
            place.worker.committed(first);
            offer(&desk.bound, &mut place.seat, cost);
            Ok(Committed::Taken(Held {
                ticket,
                kids,
                tally,
            }))
        }
        Err(CommitRefusal::Halted) => Ok(Committed::Halted),
        Err(CommitRefusal::Refused(refusal)) => Err(told_by(refusal)),
    }
}

/// Enters the lock, or only tries to.
fn enter<'t, L: Ledger, A: Ledger, R: Wait>(
    rt: &R,
    lock: &Lock<SharedBook<'t, L, A>>,
    pass: &mut Pass<SharedBook<'t, L, A>>,
    waits: bool,
) -> Option<SharedBook<'t, L, A>>
    requires pass { IsOutside lock.now.place pass.old }
    ensures pass { IfSome result (λ _. IsInside lock.now.place pass.new) }
    ensures task { IfSome result (λ b. (view pass.old).seen.task ≡ Some b.state.task) }
    ensures begins { IfSome result (λ b. BeginsWith b.state.entries (view pass.old).seen.log) }
    ensures view { IfSome result (λ b.
        view pass.new ≡ entered (view pass.old) b.state.task b.state.entries) }
    ensures outside { IfNone result (IsOutside lock.now.place pass.new) }
    ensures same { IfNone result (view pass.new ≡ view pass.old) }
    ensures waited { waits ≡ true → is_some result ≡ true }
{
    if waits {
        Some(lock.enter(rt, pass))
    } else {
        lock.try_enter(rt, pass)
    }
}

/// Redeems a ticket under the lock; where it does not wait for the lock, and that is not free, the
/// ticket comes back.
///
/// # Errors
/// - `NotOut`: no such ticket is out; the book is halted.
fn redeem_inside<'t, L: Ledger, A: Ledger, R: Wait>(
    rt: &R,
    lock: &Lock<SharedBook<'t, L, A>>,
    pass: &mut Pass<SharedBook<'t, L, A>>,
    ticket: Ticket,
    waits: bool,
) -> Result<Given<'t>, NotOut>
    requires pass { IsOutside lock.now.place pass.old }
    ensures pass { IsOutsideAgain lock.now.place pass.old pass.new }
    ensures given { IfOk result (IsGivenIn (view pass.old).seen.task
        (view pass.new).seen.log ticket) }
    ensures asked { waits ≡ true → IfOk result (IsGivenBy (view pass.old).seen.task
        (view pass.new).seen.log ticket) }
    ensures of_task { IfSome (view pass.old).seen.task (λ t. IfOk result (IsGivenOf t)) }
{
    let Some(mut book) = enter(rt, lock, pass, waits) else {
        return Ok(Given::NotYet(ticket));
    };
    let given = book.redeem(ticket);
    lock.leave(rt, pass, book);
    given
}

/// Redeems a worker's ticket: what its batch releases is open, or in the outbox, once the batch is
/// acknowledged. Where it does not wait for the lock, and that is not free, the ticket waits.
///
/// # Errors
/// - `NotOut`: no such ticket is out, or it releases more than its batch has; the book is halted.
#[tactic(auto, using(crate::proofs::Outside::outside_along))]
pub fn redeem_next<'t, L: Ledger, A: Ledger, R: Wait>(
    rt: &R,
    lock: &Lock<SharedBook<'t, L, A>>,
    pass: &mut Pass<SharedBook<'t, L, A>>,
    worker: &mut Worker<'t>,
    held: Held,
    waits: bool,
) -> Result<Redemption, RunFault>
    requires pass { IsOutside lock.now.place pass.old }
    requires task { (view pass.old).seen.task ≡ Some worker.old.task }
    requires room { held.kids ≤ worker.old.room }
    ensures pass { IsOutsideAgain lock.now.place pass.old pass.new }
    ensures redeemed { IfOk result
        (HasRedeemed (view pass.new).seen.log held worker.old worker.new) }
    ensures asked { waits ≡ true → IfOk result
        (IsAsked (view pass.old).seen.task (view pass.new).seen.log held) }
    ensures err { OnErr result (worker.new ≡ worker.old) }
    ensures fault { IfErr result (λ fault. fault ≡ faults.NotOut) }
    ensures told { IfErr result IsOfWorker }
{
    let Held {
        ticket,
        kids,
        tally,
    } = held;
    match redeem_inside(rt, lock, pass, ticket, waits) {
        Ok(Given::Parcels(parcels)) => {
            if parcels.len() > kids {
                halt(rt, lock, pass);
                return Err(RunFault::NotOut);
            }
            worker.released(parcels);
            Ok(Redemption::Opened)
        }
        Ok(Given::NotYet(ticket)) => Ok(Redemption::Waiting(Held {
            ticket,
            kids,
            tally,
        })),
        Ok(Given::Void) => Ok(Redemption::Void),
        Err(_) => Err(RunFault::NotOut),
    }
}
