//! A worker's place in a search that is played.
ghost use Rattle.std.specs.Prelude.{◌≡◌, ◌≢◌, ◌⊎◌, ◌<◌, ◌≤◌, [], true, false, map, length, slice_get, Some, None, OnOk, OnErr, IfOk, IfErr, IfSome, IfNone};
ghost use Rattle.std.specs.List.{AllByRecursion};
ghost use Rattle.hd_task.specs.declared.plan.TheConstants.{ROOT_PARENT};
ghost use Rattle.hd_hmax.specs.Rounds.{hmax};
ghost use Rattle.hd_entries.specs.Settling.{IsOutcomeOfTask};
ghost use Rattle.hd_entries.specs.Holding.{parcel_of, IsParcelOf};
ghost use Rattle.hd_book.specs.Refusing.{commit_refusal_to, IsCommitRefusalTo};
ghost use Rattle.hd_book.specs.Redeeming.{IsReleasedOf};
ghost use Rattle.hd_book.specs.Steps.{after_commit, ticket_after};
ghost use Rattle.hd_worker.specs.Lookup.{IsLookupOf};
ghost use Rattle.hd_turns.specs.Calls.{Expands, after_numbering, after_sending};
ghost use Rattle.hd_world.specs.Moves.{is_dropped};
ghost use Rattle.hd_world.specs.Order.{HasRoomForTickets};
ghost use Rattle.hd_replay.specs.declared.fault.ReplayFault.TheVariants as faults;
ghost use Rattle.hd_replay.specs.Seats.{seat_with, seat_popped, box_popped, with_taken, seat_posted, box_posted, ends_with, committed_in, kids_released, worker_redeemed, ticket_again, seat_redeemed, book_redeemed};

use crate::fault::ReplayFault;
use hd_base::NoMemory;
use hd_book::{Book, CommitRefusal, MAX_TICKETS, Parcels, Redeemed, Refusal, Ticket};
use hd_desk::MAILBOX_PLACES;
use hd_node::{Batch, Parcel};
use hd_task::ROOT_PARENT;
use hd_worker::{Lookup, Worker};
use std::alloc::{AllocError, Global};
use std::collections::VecDeque;
use std::marker::Model;
use std::sync::ledger::{Ledger, Share};

/// A worker, the parcel in its hand, its tickets, the oldest first, and the bound that the book
/// had after its last commit.
///
/// It must be ended: its tickets can't be let go.
#[must_use]
pub(crate) struct Seat<'t> {
    pub(crate) worker: Worker<'t>,
    pub(crate) hand: Option<Parcel<'t>>,
    pub(crate) tickets: VecDeque<Ticket>,
    pub(crate) told: Option<u64>,
}

impl<'t> Model for Seat<'t> {
    ghost use Rattle.std.specs.Prelude.{◌≡◌, option_map, IfSome};
    ghost use Rattle.std.specs.Coded.{codes};
    ghost use denote.Signature.{static_lft};
    ghost use Rattle.hd_task.specs.contracts.task.Task as tasks;
    ghost use Rattle.hd_node.specs.contracts.batch.Outcome as outcome_rows;
    ghost use Rattle.hd_entries.specs.Holding.{parcel_of};
    ghost use Rattle.hd_world.specs.Seats.{Seat};

    ghost Value = { Seat };

    ghost coded = { Prim.hlevel (
      codes,
      tasks.the_row.coded,
      (outcome_rows.the_row static_lft).coded,
    ) };

    ghost view = { λ s. record {
      worker = s.worker;
      hand = option_map parcel_of s.hand;
      tickets = s.tickets.items;
      told = s.told;
    } };

    // The parcel in its hand is of its task.
    ghost invariant = { λ s. IfSome s.hand (λ p. p.task ≡ s.worker.task) };
}

/// Returns the fault that a refusal ends a run with; none where the batch is dropped.
fn ends(refusal: CommitRefusal) -> Option<ReplayFault>
    ensures { result ≡ ends_with refusal }
{
    match refusal {
        CommitRefusal::Halted => Some(ReplayFault::Full),
        CommitRefusal::Refused(refusal) => match refusal {
            Refusal::Full => Some(ReplayFault::Full),
            Refusal::NoMemory => Some(ReplayFault::NoMemory),
            Refusal::UnknownParent
            | Refusal::NotAKid
            | Refusal::SettledBefore
            | Refusal::StateDiffers
            | Refusal::NotDominated
            | Refusal::BelowBound => None,
        },
    }
}

/// Commits `batch`, and returns its ticket. `None` means that it is refused for what it says, and
/// dropped.
///
/// # Errors
/// - `Full`: the book takes no more, or `NoMemory`.
fn enter<'t, L: Ledger>(
    book: &mut Book<'t, L>,
    share: &mut Share<L>,
    worker: &mut Worker<'t>,
    batch: Batch<'t>,
) -> Result<Option<Ticket>, ReplayFault>
    requires part { 0 < share.old.parts }
    requires of_task { AllByRecursion (IsOutcomeOfTask book.old.state.task) batch.outcomes }
    requires numbered { book.old.most < ROOT_PARENT }
    requires given { worker.old.given ≢ [] }
    ensures parts { share.new.parts ≡ share.old.parts }
    ensures task { book.new.state.task ≡ book.old.state.task }
    ensures worker_task { worker.new.task ≡ worker.old.task }
    ensures ticket { IfOk result (λ r. IfSome r
        (λ k. k ≡ ticket_after batch.entry.outcomes book.old)) }
    ensures accepted { IfOk result (λ r. IfSome r
        (λ _. commit_refusal_to book.old batch.entry.outcomes ≡ None)) }
    ensures book { IfOk result (λ r. IfSome r
        (λ _. book.new ≡ after_commit batch.entry.outcomes book.old)) }
    ensures numbered { IfOk result (λ r. IfSome r
        (λ _. worker.new ≡ after_numbering (length book.old.state.entries) worker.old)) }
    ensures dropped { IfOk result (λ r. IfNone r ((why : _)
        × (commit_refusal_to book.old batch.entry.outcomes ≡ Some why) × (is_dropped why ≡ true))) }
    ensures same { IfOk result (λ r. IfNone r (book.new ≡ book.old)) }
    ensures lost { IfOk result (λ r. IfNone r
        (worker.new ≡ after_numbering ROOT_PARENT worker.old)) }
    ensures fault { IfErr result (λ fault. (fault ≡ faults.NoMemory)
        ⊎ ((fault ≡ faults.Full) × ((why : _)
        × (commit_refusal_to book.old batch.entry.outcomes ≡ Some why)
        × (is_dropped why ≡ false)))) }
{
    let first = book.counts().entries;
    match book.commit(share, batch) {
        Ok(ticket) => {
            worker.committed(first);
            Ok(Some(ticket))
        }
        Err(refused) => {
            let (_batch, refusal) = refused;
            match ends(refusal) {
                Some(fault) => Err(fault),
                None => {
                    worker.committed(ROOT_PARENT);
                    Ok(None)
                }
            }
        }
    }
}

/// Gives a worker what its ticket is redeemed for; returns the ticket if it can't be redeemed yet.
fn receive<'t, L: Ledger>(
    book: &Book<'t, L>,
    worker: &mut Worker<'t>,
    redeemed: Redeemed<Parcels<'t>>,
) -> Option<Ticket>
    requires of_task { IsReleasedOf worker.old.task redeemed }
    requires room { length (kids_released redeemed) ≤ worker.old.room }
    ensures worker { worker.new ≡ worker_redeemed worker.old redeemed.entry }
    ensures again { result ≡ ticket_again redeemed.entry }
{
    match redeemed {
        Redeemed::Released(receipt, parcels) => {
            let _ = book.present(receipt);
            worker.released(parcels);
            None
        }
        Redeemed::NotYet(ticket) => Some(ticket),
        Redeemed::Void => None,
    }
}

/// Spends a ticket of a book that is halted.
fn spend<L: Ledger>(book: &mut Book<'_, L>, ticket: Ticket)
    requires { book.old.batches.halted ≡ true }
    ensures { book.new.batches.halted ≡ true }
{
    match book.redeem(ticket) {
        Ok(Redeemed::Released(receipt, parcels)) => {
            drop(parcels);
            let _ = book.present(receipt);
        }
        Ok(Redeemed::NotYet(_ticket)) => unreachable!(),
        Ok(Redeemed::Void) => {}
        Err(_) => {}
    }
}

impl<'t> Seat<'t> {
    /// Returns the place of a worker that holds nothing yet.
    pub(crate) fn of(alloc: Global, worker: Worker<'t>) -> Seat<'t>
        ensures { result ≡ seat_with worker.entry }
    {
        Seat {
            worker,
            hand: None,
            tickets: VecDeque::new(alloc),
            told: None,
        }
    }

    /// Pops the first parcel of `mailbox` into the hand, if that is empty.
    pub(crate) fn pop(&mut self, mailbox: &mut VecDeque<Parcel<'t>>)
        requires of_task { AllByRecursion (IsParcelOf self.old.worker.task) mailbox.old.items }
        ensures seat { self.new ≡ seat_popped self.old (map parcel_of mailbox.old.items) }
        ensures mailbox { map parcel_of mailbox.new.items
            ≡ box_popped self.old (map parcel_of mailbox.old.items) }
        ensures of_task { AllByRecursion (IsParcelOf self.old.worker.task) mailbox.new.items }
    {
        if self.hand.is_none() {
            self.hand = mailbox.pop_front();
        }
    }

    /// Makes the parcel in the hand, if any, the worker's last open node.
    ///
    /// # Errors
    /// - `NoMemory`: there is no room for it: it is in the hand still.
    pub(crate) fn take(&mut self) -> Result<(), NoMemory>
        ensures ok { OnOk result (self.new ≡ with_taken self.old self.old.hand) }
        ensures err { OnErr result (self.new ≡ self.old) }
    {
        let Some(parcel) = self.hand.take() else {
            return Ok(());
        };
        match self.worker.take(parcel) {
            Ok(()) => Ok(()),
            Err((parcel, error)) => {
                self.hand = Some(parcel);
                Err(error)
            }
        }
    }

    /// Expands the worker's open node at `place` to an outcome, if there is one.
    ///
    /// # Errors
    /// - `NoMemory`: there is no room for it: the node is open still.
    pub(crate) fn expand(&mut self, lookup: &mut Lookup<'t>, place: usize) -> Result<(), NoMemory>
        requires { IsLookupOf self.old.worker.task lookup.old }
        ensures lookup { IsLookupOf self.old.worker.task lookup.new }
        ensures expands { OnOk result (Expands self.old.worker.task (hmax self.old.worker.task)
            place self.old.worker self.new.worker) }
        ensures rest { self.new ≡ record self.old { worker = self.new.worker } }
        ensures err { OnErr result (self.new ≡ self.old) }
    {
        self.worker.expand(lookup, place)
    }

    /// Commits the worker's first outcomes, if it has any and may hold another ticket.
    /// A batch that is refused for what it says is dropped.
    ///
    /// # Errors
    /// - `Full`: the book takes no more, or `NoMemory`.
    pub(crate) fn commit<L: Ledger>(
        &mut self,
        book: &mut Book<'t, L>,
        share: &mut Share<L>,
    ) -> Result<(), ReplayFault>
        requires part { 0 < share.old.parts }
        requires of_task { self.old.worker.task ≡ book.old.state.task }
        requires numbered { book.old.most < ROOT_PARENT }
        requires given { self.old.worker.given ≡ [] }
        ensures parts { share.new.parts ≡ share.old.parts }
        ensures task { book.new.state.task ≡ book.old.state.task }
        ensures ok { OnOk result (committed_in book.old self.old ≡ Some (book.new, self.new)) }
        ensures fault { IfErr result (λ fault. (fault ≡ faults.NoMemory)
            ⊎ ((fault ≡ faults.Full) × (committed_in book.old self.old ≡ None))) }
    {
        if self.tickets.len() >= MAX_TICKETS {
            return Ok(());
        }
        self.tickets.reserve(1)?;
        let Some(batch) = self.worker.next_batch()? else {
            return Ok(());
        };
        match enter(book, share, &mut self.worker, batch)? {
            Some(ticket) => {
                self.told = book.bound();
                self.tickets.push_back_reserved(ticket);
            }
            None => {}
        }
        Ok(())
    }

    /// Redeems the worker's oldest ticket: what it releases is open, or in the outbox.
    pub(crate) fn redeem<L: Ledger>(&mut self, book: &mut Book<'t, L>)
        requires of_task { self.old.worker.task ≡ book.old.state.task }
        requires room { HasRoomForTickets book.old self.old }
        ensures task { book.new.state.task ≡ book.old.state.task }
        ensures seat { self.new ≡ seat_redeemed book.old self.old self.old.tickets }
        ensures book { book.new ≡ book_redeemed book.old self.old.tickets }
    {
        let Some(ticket) = self.tickets.pop_front() else {
            return;
        };
        match book.redeem(ticket) {
            Ok(redeemed) => {
                if let Some(ticket) = receive(book, &mut self.worker, redeemed) {
                    self.tickets.push_front_reserved(ticket);
                }
            }
            Err(_) => {}
        }
    }

    /// Removes and returns the outbox's next parcel, and keeps room for it to come back.
    pub(crate) fn next_out(&mut self) -> Option<Parcel<'t>>
        ensures sent { IfSome result (λ p. slice_get self.old.worker.outbox 0
            ≡ Some (parcel_of p)) }
        ensures of_task { IfSome result (λ p. p.task ≡ self.old.worker.task) }
        ensures rest { IfSome result (λ _. self.new
            ≡ record self.old { worker = after_sending self.old.worker }) }
        ensures none { IfNone result (self.old.worker.outbox ≡ []) }
        ensures same { IfNone result (self.new ≡ self.old) }
    {
        self.worker.next_out()
    }

    /// Puts `parcel`, which left the outbox last, into `mailbox`, or back if that is full.
    ///
    /// # Errors
    /// - `NoMemory`: the mailbox can't grow: the parcel comes back.
    pub(crate) fn post(
        &mut self,
        mailbox: &mut VecDeque<Parcel<'t>>,
        parcel: Parcel<'t>,
    ) -> Result<(), NoMemory>
        requires lent { self.old.worker.lent ≡ true }
        requires of_task { parcel.task ≡ self.old.worker.task }
        requires all { AllByRecursion (IsParcelOf self.old.worker.task) mailbox.old.items }
        ensures seat { OnOk result (self.new ≡ seat_posted self.old (parcel_of parcel.entry)
            (map parcel_of mailbox.old.items)) }
        ensures mailbox { OnOk result (map parcel_of mailbox.new.items
            ≡ box_posted (parcel_of parcel.entry) (map parcel_of mailbox.old.items)) }
        ensures all { AllByRecursion (IsParcelOf self.old.worker.task) mailbox.new.items }
    {
        if mailbox.len() >= MAILBOX_PLACES {
            self.worker.put_back(parcel);
            return Ok(());
        }
        match mailbox.push_back(parcel) {
            Ok(()) => Ok(()),
            Err(refused) => {
                self.worker.put_back(refused.value);
                Err(AllocError)
            }
        }
    }

    /// Spends the worker's tickets in `book`, and drops the rest.
    pub(crate) fn end<L: Ledger>(self, book: &mut Book<'t, L>)
        requires { book.old.batches.halted ≡ true }
        ensures { book.new.batches.halted ≡ true }
    {
        let Seat {
            worker,
            hand,
            mut tickets,
            told: _,
        } = self;
        drop(worker);
        drop(hand);
        while let Some(ticket) = tickets.pop_front() {
            spend(book, ticket);
        }
        tickets.destroy_empty();
    }
}
