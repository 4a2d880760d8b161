//! What the committer does.
ghost use Rattle.std.specs.Prelude.{◌≡◌, ◌+◌, ◌<◌, ◌≤◌, ◌^◌, length, IfOk, IfErr, OnOk, OnErr};
ghost use Rattle.std.specs.List.{AllByRecursion};
ghost use Rattle.crossbeam_queue.specs.Passes.{view};
ghost use Rattle.hd_desk.specs.Passes.{IsOutside};
ghost use Rattle.hd_image.specs.declared.entry.TheConstants.{MAX_GROUP};
ghost use Rattle.hd_journal.specs.Journal.{device_of, kids_of};
ghost use Rattle.hd_journal.specs.Moments.{IsSettled};
ghost use Rattle.hd_threads.specs.Faults.{of_journal};
ghost use Rattle.hd_threads.specs.Growing.{JournalGrows};
ghost use Rattle.hd_threads.specs.Shared.{IsGroupAt};
ghost use Rattle.hd_threads.specs.Committing.{HasRun, IsInStep, IsJournalKept, StopsRound};
ghost use Rattle.hd_threads.specs.Surviving.{IsLegalLog};
ghost use Rattle.hd_threads.specs.Outside.{IsOutsideAgain};

use crate::SharedBook;
use crate::fault::{RunFault, of_journal};
use crate::halting::halt;
use hd_base::NoMemory;
use hd_book::{Flushed, Group, NotOut, Room, Rooms};
use hd_desk::{Lock, Pass};
use hd_journal::Journal;
use hd_store::Store;
use hd_task::Kid;
use std::ops::Range;
use std::sync::Wait;
use std::sync::ledger::{Ledger, Share};

/// What a round of the committer did.
#[derive(Clone, Debug, PartialEq, Eq, Drop)]
pub enum Round {
    /// The entries with these numbers, one at least, are appended, and acknowledged.
    Flushed(Range<u64>),
    /// Nothing is appended.
    Idle,
}

/// Takes room for a group from `rooms`; if there is none, halts the book in a turn of its own.
///
/// # Errors
/// - `NoMemory`: there is none.
#[tactic(auto, using(crate::proofs::Outside::outside_itself))]
fn room_for<'t, L: Ledger, A: Ledger, R: Wait>(
    rt: &R,
    lock: &Lock<SharedBook<'t, L, A>>,
    pass: &mut Pass<SharedBook<'t, L, A>>,
    rooms: &mut Rooms,
) -> Result<Room, NoMemory>
    requires { IsOutside lock.now.place pass.old }
    ensures pass { IsOutsideAgain lock.now.place pass.old pass.new }
{
    match rooms.take() {
        Ok(room) => Ok(room),
        Err(error) => {
            halt(rt, lock, pass);
            Err(error)
        }
    }
}

/// Takes the next group out of the book, if one is due.
///
/// # Errors
/// - The room again, if none is.
fn take_group<'t, L: Ledger, A: Ledger, R: Wait>(
    rt: &R,
    lock: &Lock<SharedBook<'t, L, A>>,
    pass: &mut Pass<SharedBook<'t, L, A>>,
    share: &mut Share<A>,
    room: Room,
) -> Result<Group, Room>
    requires pass { IsOutside lock.now.place pass.old }
    requires whole { share.old.parts ≡ A.parts }
    ensures pass { IsOutsideAgain lock.now.place pass.old pass.new }
    ensures group { IfOk result (IsGroupAt (view pass.new).seen.log share.old.amount) }
    ensures share { share.new.parts ≡ share.old.parts }
    ensures amount { share.new.amount ≡ share.old.amount }
{
    let mut book = lock.enter(rt, pass);
    let taken = book.take_pending(share, room);
    lock.leave(rt, pass, book);
    taken
}

/// Acknowledges a group that was appended: the list of its pairs. A book that does not have it out
/// is halted.
///
/// # Errors
/// - `NotOut`: it is not the group that is out.
fn acknowledge<'t, L: Ledger, A: Ledger, R: Wait>(
    rt: &R,
    lock: &Lock<SharedBook<'t, L, A>>,
    pass: &mut Pass<SharedBook<'t, L, A>>,
    share: &mut Share<A>,
    flushed: Flushed,
) -> Result<Vec<Kid>, NotOut>
    requires pass { IsOutside lock.now.place pass.old }
    requires some { 0 < share.old.parts }
    ensures pass { IsOutsideAgain lock.now.place pass.old pass.new }
    ensures share { share.new.parts ≡ share.old.parts }
    ensures counted { OnOk result (share.new.amount ≡ share.old.amount + length flushed.kids) }
    ensures uncounted { OnErr result (share.new.amount ≡ share.old.amount) }
    ensures kids { IfOk result (λ kids. kids.items ≡ flushed.kids) }
    ensures legal { IsLegalLog (view pass.new).seen.task (view pass.new).seen.log }
{
    let mut book = lock.enter(rt, pass);
    let done = book.acknowledge(share, flushed);
    lock.leave(rt, pass, book);
    done
}

/// Hands back a group that was not appended, with which the book is halted.
fn hand_back<'t, L: Ledger, A: Ledger, R: Wait>(
    rt: &R,
    lock: &Lock<SharedBook<'t, L, A>>,
    pass: &mut Pass<SharedBook<'t, L, A>>,
    group: Group,
)
    requires pass { IsOutside lock.now.place pass.old }
    ensures pass { IsOutsideAgain lock.now.place pass.old pass.new }
    ensures legal { IsLegalLog (view pass.new).seen.task (view pass.new).seen.log }
{
    let mut book = lock.enter(rt, pass);
    book.hand_back(group);
    lock.leave(rt, pass, book);
}

/// Law: does nothing: an action is a number of four bytes.
fn is_four_bytes(_action: u32)
    ensures { _action < 2 ^ 32 }
{}

/// Does nothing but look at each pair.
fn are_four_bytes(kids: &[Kid])
    ensures { AllByRecursion (λ kid. kid.action < 2 ^ 32) kids.now }
{
    let mut rest = kids;
    while let [kid, after @ ..] = rest {
        is_four_bytes(kid.action);
        rest = after;
    }
}

/// Returns a group that was not appended, as it is. What its type says of it is known after: how
/// many pairs it has at most, and that their actions are numbers of four bytes. So it may stand on
/// the device all the same. Only a search that ends by a fault comes here.
fn with_known_limits(group: Group) -> Group
    ensures group { result ≡ group }
    ensures most { length group.kids ≤ MAX_GROUP }
    ensures actions { AllByRecursion (λ kid. kid.action < 2 ^ 32) group.kids }
{
    let (first, kids) = group.parts();
    are_four_bytes(kids.as_slice());
    Group::of(first, kids)
}

/// Appends the group that is out, outside the lock, and acknowledges it; where that fails, the
/// group is handed back, or the book is halted.
///
/// # Errors
/// - Why it is not appended, or `NotOut` where it is not the group that is out.
fn append_group<'t, L: Ledger, A: Ledger, S: Store, R: Wait>(
    rt: &R,
    lock: &Lock<SharedBook<'t, L, A>>,
    pass: &mut Pass<SharedBook<'t, L, A>>,
    share: &mut Share<A>,
    rooms: &mut Rooms,
    journal: &mut Journal<S>,
    group: Group,
) -> Result<Round, RunFault>
    requires pass { IsOutside lock.now.place pass.old }
    requires some { 0 < share.old.parts }
    requires step { IsInStep (view pass.old).seen.log share.old.amount journal.old }
    requires group { IsGroupAt (view pass.old).seen.log share.old.amount group }
    ensures pass { IsOutsideAgain lock.now.place pass.old pass.new }
    ensures share { share.new.parts ≡ share.old.parts }
    ensures counted { OnOk result (share.new.amount ≡ length (kids_of journal.new)) }
    ensures ran { IfOk result (HasRun (kids_of journal.old) (kids_of journal.new)) }
    ensures journal { OnOk result (JournalGrows journal.old journal.new) }
    ensures told { IfErr result (StopsRound journal.old journal.new share.new.amount) }
    ensures kept { IsJournalKept (view pass.old).seen.task (view pass.new).seen.log
        journal.old journal.new }
    ensures settled { OnOk result (IsSettled (device_of journal.new)) }
{
    let start = journal.entries().len() as u64;
    match journal.append(group) {
        Ok(flushed) => match acknowledge(rt, lock, pass, share, flushed) {
            Ok(kids) => {
                rooms.reuse(kids);
                Ok(Round::Flushed(start..journal.entries().len() as u64))
            }
            Err(_) => Err(RunFault::NotOut),
        },
        Err((group, error)) => {
            hand_back(rt, lock, pass, with_known_limits(group));
            Err(of_journal(error))
        }
    }
}

/// Returns one round of the committer: takes the next group out of the book under the lock, if one
/// is due, appends it to the journal outside the lock, and acknowledges it under the lock. What the
/// group is put into is asked for before the lock is taken, also if none is due, and kept for
/// the next round: so no memory is taken under the lock, and none is given back there but where the
/// group is not appended.
///
/// The journal's list is a beginning of the log that the pass has seen, and the entries that are
/// acknowledged are just those of the journal: so it is before a round, and so it is after one,
/// unless that answers `NotOut`. A group that goes out is whole batches.
///
/// # Errors
/// - `NoMemory`: there is no room for a group: none goes out.
/// - `Device`, `Failed` or `NoMemory` where the journal does not take it: it is handed back,
///   nothing is appended.
/// - `NotOut`: the journal can't take it, or the book does not have it out any more. After each of
///   them the book is halted.
#[tactic(auto, using(crate::proofs::Begins::begins_along, crate::proofs::Begins::begins_itself))]
pub fn committer_round<'t, L: Ledger, A: Ledger, S: Store, R: Wait>(
    rt: &R,
    lock: &Lock<SharedBook<'t, L, A>>,
    pass: &mut Pass<SharedBook<'t, L, A>>,
    share: &mut Share<A>,
    rooms: &mut Rooms,
    journal: &mut Journal<S>,
) -> Result<Round, RunFault>
    requires pass { IsOutside lock.now.place pass.old }
    requires whole { share.old.parts ≡ A.parts }
    requires some { 0 < A.parts }
    requires step { IsInStep (view pass.old).seen.log share.old.amount journal.old }
    ensures pass { IsOutsideAgain lock.now.place pass.old pass.new }
    ensures share { share.new.parts ≡ share.old.parts }
    ensures counted { OnOk result (share.new.amount ≡ length (kids_of journal.new)) }
    ensures ran { IfOk result (HasRun (kids_of journal.old) (kids_of journal.new)) }
    ensures journal { OnOk result (JournalGrows journal.old journal.new) }
    ensures told { IfErr result (StopsRound journal.old journal.new share.new.amount) }
    // Where the journal has not failed, and nothing is pending on its device: what a stop leaves at
    // any moment of the round has all that was in the journal before it, so all that was
    // acknowledged then. What a read gives after it has all that the journal lists.
    ensures kept { IsJournalKept (view pass.old).seen.task (view pass.new).seen.log
        journal.old journal.new }
    ensures settled { IsSettled (device_of journal.old)
        → OnOk result (IsSettled (device_of journal.new)) }
{
    let room = room_for(rt, lock, pass, rooms)?;
    match take_group(rt, lock, pass, share, room) {
        Ok(group) => append_group(rt, lock, pass, share, rooms, journal, group),
        Err(room) => {
            rooms.put_back(room);
            Ok(Round::Idle)
        }
    }
}
