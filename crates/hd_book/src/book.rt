//! The book of a search.
use crate::content::BookContent;
use crate::{
    CommitRefusal, Counts, Flushed, Group, NotOut, Parcels, Receipt, Redeemed, Refusal, Room,
    Ticket, Verdict,
};
use hd_entries::{Entries, HashedRow, Listener};
use hd_node::{Batch, Parcel};
use hd_task::{Departure, Kid, NoMemory, Plan, Task};
use std::alloc::Global;
use std::marker::Model;
use std::ops::Range;
use std::sync::ledger::{self, Blank, Ledger, Share};

/// The book of a search: it accepts no batch that is not justified, gives tickets for those that it
/// accepts, and hands their entries out in groups. `L` counts its commits.
///
/// It is one pointer wide.
#[derive(Drop)]
pub struct Book<'t, L: Ledger> {
    content: Box<BookContent<'t>>,
    made: ledger::Book<L>,
}

impl<'t, L: Ledger> Model for Book<'t, L> {
    ghost use Rattle.std.specs.Prelude.{◌≡◌, length};
    ghost use Rattle.hd_book.specs.View.{BookView};
    ghost use Rattle.hd_task.specs.contracts.task.Task as tasks;
    ghost use Rattle.std.specs.Coded.{codes};

    ghost Value = { BookView };

    ghost coded = { Prim.hlevel (codes, tasks.the_row.coded) };

    ghost view = { λ b. b.content.value };

    // The ledger counts the batches.
    ghost invariant = { λ b. b.made.total ≡ length b.content.value.batches.tickets };
}

impl<'t, L: Ledger> Book<'t, L> {
    ghost use Rattle.std.specs.Prelude.{◌≡◌, ◌+◌, ◌<◌, ◌≤◌, ◌^◌, ◌&&◌, [], None, Some, length, map, slice_get, option_map, is_ok, is_some, IfOk, IfErr, IfSome, OnOk, OnErr};
    ghost use Rattle.std.specs.List.{AllByRecursion};
    ghost use Rattle.hd_task.specs.declared.plan.TheConstants.{ROOT_PARENT};
    ghost use Rattle.hd_task.specs.Plans.{node};
    ghost use Rattle.hd_task.specs.Expansions.{bound_of, departures_of};
    ghost use Rattle.hd_entries.specs.Settling.{IsOutcomeOfTask, IsBookKept, expansions, entry_node};
    ghost use Rattle.hd_base.specs.Lists.{BeginsWith};
    ghost use Rattle.hd_entries.specs.Holding.{posted_count};
    ghost use Rattle.hd_entries.specs.Resuming.{first_fault, IsFaultOf, IsOpenAt};
    ghost use Rattle.hd_entries.specs.Answers.{is_over, IsCoveredBook, IsAnswerOf, IsBoundPlanOf, IsValidPlan, IsTrueAnswer};
    ghost use Rattle.hd_book.specs.Queue.{is_due, is_idle, are_acknowledged};
    ghost use Rattle.hd_book.specs.TicketRedeeming.{redeemed_for};
    ghost use Rattle.hd_book.specs.View.{counts_of};
    ghost use Rattle.hd_book.specs.Steps.{new_book, resumed_book, after_commit, ticket_after, after_take, after_flush, after_hand_back, after_redeem, after_halt};
    ghost use Rattle.hd_book.specs.Groups.{next_group, is_group_out};
    ghost use Rattle.hd_book.specs.Refusing.{commit_refusal_to, IsCommitRefusalTo};
    ghost use Rattle.hd_book.specs.Redeeming.{IsReleasedOf, IsReleasedIn};

    /// Returns a book of these parts, whose ledger is new, with the share that is the whole of it.
    fn open(blank: Blank, content: Box<BookContent<'t>>) -> (Book<'t, L>, Share<L>)
        requires name { blank.name ≡ L.name }
        requires parts { blank.parts ≡ L.parts }
        requires none { content.value.batches.tickets ≡ [] }
        ensures book { result.0 ≡ content.entry.value }
        ensures share { (result.1.parts ≡ L.parts) × (result.1.amount ≡ 0) }
    {
        let (made, share) = blank.open::<L>();
        (Book { content, made }, share)
    }

    /// Returns the book of a search that has not begun, which may hold `most` entries: the root is
    /// posted. With it comes a share of the ledger that counts its commits, which is the whole of
    /// it.
    ///
    /// # Errors
    /// - `NoMemory`: there is no room for it.
    pub fn new(
        alloc: Global,
        blank: Blank,
        task: &'t Task,
        most: u64,
    ) -> Result<(Book<'t, L>, Share<L>), NoMemory>
        requires name { blank.name ≡ L.name }
        requires parts { blank.parts ≡ L.parts }
        requires most { most < ROOT_PARENT }
        ensures book { IfOk result (λ r. r.0 ≡ new_book task.now most) }
        ensures share { IfOk result (λ r. (r.1.parts ≡ L.parts) × (r.1.amount ≡ 0)) }
    {
        let entries = Entries::new(alloc, task, most)?;
        let content = Box::new(alloc, BookContent::of(alloc, entries))?;
        Ok(Book::open(blank, content))
    }

    /// Returns the book with exactly these entries, with its share as in [`Book::new`]: all entries
    /// are acknowledged, no other successor is settled, nothing is committed yet. The listener
    /// hears how far it is.
    ///
    /// # Errors
    /// - `Full` with the number 0 if there are more entries than `most`; else the number of the
    ///   first entry that can't be the next one after those before it, with `UnknownParent`,
    ///   `NotAKid` or `SettledBefore`; or `NoMemory`, never in place of `Full`.
    pub fn resume<H: Listener>(
        alloc: Global,
        blank: Blank,
        task: &'t Task,
        entries: &[Kid],
        heard: &H,
        most: u64,
    ) -> Result<(Book<'t, L>, Share<L>), (u64, Refusal)>
        requires name { blank.name ≡ L.name }
        requires parts { blank.parts ≡ L.parts }
        requires most { most < ROOT_PARENT }
        ensures book { IfOk result (λ r. r.0 ≡ resumed_book task.now most entries.now) }
        ensures share { IfOk result (λ r. (r.1.parts ≡ L.parts) × (r.1.amount ≡ 0)) }
        ensures accepted { OnOk result (first_fault task.now [] entries.now ≡ None) }
        ensures refused { IfErr result (λ e. IsFaultOf task.now most entries.now e.0 e.1) }
    {
        let entries = Entries::resume(alloc, task, entries, heard, most)?;
        match Box::new(alloc, BookContent::of(alloc, entries)) {
            Ok(content) => Ok(Book::open(blank, content)),
            Err(_) => Err((0, Refusal::NoMemory)),
        }
    }

    /// Returns the parcel of the successor that was posted at a place, if it is not settled, as
    /// [`Entries::open_at`] does.
    ///
    /// # Errors
    /// - `NoMemory`: there is no room for its state.
    pub fn open_at(&self, place: u64) -> Result<Option<Parcel<'t>>, NoMemory>
        requires { place < posted_count self.now.state }
        ensures { IfOk result (IsOpenAt self.now.state place) }
    {
        self.content.entries.open_at(place)
    }

    /// Takes a batch: its expansions become entries, its successors are settled, and the ticket is
    /// redeemed for the successors of its expansions. The share counts one commit more. A batch
    /// without expansions is acknowledged at once.
    ///
    /// # Errors
    /// - The batch, and why it is refused: it is as it was, and so are the book and the share. In
    ///   this order: `Halted`, `Full`, then for each outcome in order `UnknownParent`, `NotAKid`,
    ///   `SettledBefore`, `StateDiffers`, `NotDominated`, `BelowBound`.
    /// - `NoMemory` may come in place of each but the first two, and of the ticket.
    pub fn commit(
        &mut self,
        share: &mut Share<L>,
        batch: Batch<'t>,
    ) -> Result<Ticket, (Batch<'t>, CommitRefusal)>
        requires part { 0 < share.old.parts }
        requires of_task { AllByRecursion (IsOutcomeOfTask self.old.state.task) batch.outcomes }
        ensures task { self.new.state.task ≡ self.old.state.task }
        ensures begins { BeginsWith self.new.state.entries self.old.state.entries }
        ensures accepted { OnOk result (commit_refusal_to self.old batch.entry.outcomes ≡ None) }
        ensures ticket { IfOk result (λ k. k ≡ ticket_after batch.entry.outcomes self.old) }
        ensures from { IfOk result (λ k. k.first ≡ length self.old.state.entries) }
        ensures to { IfOk result (λ k. k.end ≡ length self.new.state.entries) }
        ensures committed { OnOk result
            (self.new ≡ after_commit batch.entry.outcomes self.old) }
        ensures counted { OnOk result ((share.new.amount ≡ share.old.amount + 1)
            × (share.new.parts ≡ share.old.parts)) }
        ensures refused { IfErr result (λ e. (e.0 ≡ batch.entry)
            × IsCommitRefusalTo self.old batch.entry.outcomes e.1) }
        ensures err { OnErr result ((self.new ≡ self.old) × (share.new ≡ share.old)) }
    {
        match self.content.commit(batch) {
            Ok(ticket) => {
                self.made.add(share, 1);
                Ok(ticket)
            }
            Err(refused) => Err(refused),
        }
    }

    /// Puts the next group out, to be appended to a journal, and returns it in `room`.
    /// It is whole batches in the order of their commits, from the oldest on, as many as fit into a
    /// group. The call does not allocate.
    ///
    /// # Errors
    /// - The room again, if nothing waits, or a group is out: nothing has changed.
    pub fn take_pending(&mut self, room: Room) -> Result<Group, Room>
        ensures task { self.new.state.task ≡ self.old.state.task }
        ensures begins { BeginsWith self.new.state.entries self.old.state.entries }
        ensures due { is_ok result ≡ is_due self.old.batches.queue }
        ensures group { IfOk result (λ g. Some g ≡ next_group self.old) }
        ensures none { OnErr result (next_group self.old ≡ None) }
        ensures taken { self.new ≡ after_take self.old }
    {
        self.content.take_pending(room)
    }

    /// Acknowledges the entries of the group that is out: they are appended. The list of its pairs
    /// comes back, to be used again ([`crate::Rooms`]), or let go where the book is not locked any
    /// more. It does not allocate.
    ///
    /// # Errors
    /// - `NotOut`: this group is not the one that is out: what said that it was appended is spent,
    ///   and nothing has changed.
    pub fn acknowledge(&mut self, flushed: Flushed) -> Result<Vec<Kid>, NotOut>
        ensures task { self.new.state.task ≡ self.old.state.task }
        ensures begins { BeginsWith self.new.state.entries self.old.state.entries }
        ensures out { is_ok result ≡ is_group_out self.old flushed }
        ensures kids { IfOk result (λ kids. kids.items ≡ flushed.kids) }
        ensures flushed { OnOk result (self.new ≡ after_flush self.old) }
        ensures err { OnErr result (self.new ≡ self.old) }
    {
        self.content.acknowledge(flushed)
    }

    /// Hands back the group that is out: its batches wait again, before the others, and the book is
    /// halted. It does not allocate.
    ///
    /// # Errors
    /// - `NotOut`: this group is not the one that is out: it is spent, and nothing has changed.
    pub fn hand_back(&mut self, group: Group) -> Result<(), NotOut>
        ensures task { self.new.state.task ≡ self.old.state.task }
        ensures begins { BeginsWith self.new.state.entries self.old.state.entries }
        ensures out { is_ok result ≡ is_group_out self.old group }
        ensures handed_back { OnOk result (self.new ≡ after_hand_back self.old) }
        ensures err { OnErr result (self.new ≡ self.old) }
    {
        self.content.hand_back(group)
    }

    /// Redeems a ticket: for the successors of its batch's expansions, with a receipt, where the
    /// batch is acknowledged; else for nothing, where the book is halted; else the ticket comes
    /// back. It does not allocate.
    ///
    /// # Errors
    /// - `NotOut`: no such ticket is out: the ticket is spent, and nothing has changed.
    pub fn redeem(&mut self, ticket: Ticket) -> Result<Redeemed<Parcels<'t>>, NotOut>
        ensures task { self.new.state.task ≡ self.old.state.task }
        ensures begins { BeginsWith self.new.state.entries self.old.state.entries }
        ensures given { result ≡ redeemed_for self.old.batches ticket }
        ensures of_task { IfOk result (IsReleasedOf self.old.state.task) }
        ensures released { IfOk result (IsReleasedIn self.old.state ticket) }
        ensures redeemed { OnOk result (self.new ≡ after_redeem ticket self.old) }
        ensures err { OnErr result (self.new ≡ self.old) }
    {
        self.content.redeem(ticket)
    }

    /// Spends a receipt: the numbers of its entries. It does not allocate.
    ///
    /// # Errors
    /// - `NotOut`: these are not acknowledged; none always are. The receipt is spent.
    pub fn present(&self, receipt: Receipt) -> Result<Range<u64>, NotOut>
        ensures acknowledged { is_ok result
            ≡ are_acknowledged self.now.batches.queue receipt.first receipt.end }
        ensures range { IfOk result (λ r. (r.start ≡ receipt.first) × (r.end ≡ receipt.end)) }
    {
        self.content.tickets.present(receipt)
    }

    /// Halts: from now on each commit is refused. It does not allocate.
    pub fn halt(&mut self)
        ensures task { self.new.state.task ≡ self.old.state.task }
        ensures begins { BeginsWith self.new.state.entries self.old.state.entries }
        ensures halted { self.new ≡ after_halt self.old }
    {
        self.content.halt();
    }

    /// Reports whether each commit is refused.
    pub fn is_halted(&self) -> bool
        ensures { result ≡ self.now.batches.halted }
    {
        self.content.tickets.is_halted()
    }

    /// Reports whether nothing waits to be appended, and no group is out.
    pub fn is_idle(&self) -> bool
        ensures { result ≡ is_idle self.now.batches.queue }
    {
        self.content.tickets.is_idle()
    }

    /// Returns how far the search has come. It does not allocate.
    pub fn counts(&self) -> Counts
        ensures counts { result ≡ counts_of self.now }
        ensures kept { IsBookKept self.now.state }
        ensures entries_few { result.entries ≤ self.now.most }
        ensures acknowledged_few { result.acknowledged ≤ result.entries }
        ensures commits_few { result.commits ≤ result.settled }
        ensures settled_few { result.settled ≤ result.posted }
        ensures posted_few { result.posted < 2 ^ 61 }
    {
        self.content.counts()
    }

    /// Returns the task.
    pub fn task(&self) -> &'t Task
        ensures { result.now ≡ self.now.state.task }
    {
        self.content.entries.task()
    }

    /// Returns the successor of the entry with this number, if there is such an entry.
    pub fn entry(&self, number: u64) -> Option<Kid>
        ensures { result ≡ slice_get self.now.state.entries number }
    {
        self.content.entries.entry(number)
    }

    /// Returns where the plan of entry `number` leads and what it costs, if there is such an entry.
    pub fn node(&self, number: u64) -> Option<(HashedRow<'_>, u64)>
        ensures { option_map (λ r. node r.0 r.1) result
            ≡ entry_node self.now.state number }
    {
        self.content.entries.node(number)
    }

    /// Returns the least cost of an entry at which the goal holds, if there is one.
    pub fn bound(&self) -> Option<u64>
        ensures { result ≡ bound_of self.now.state.task (expansions self.now.state) }
    {
        self.content.entries.bound()
    }

    /// Returns the first departure from the range that was met, if there is one.
    pub fn departure(&self) -> Option<Departure>
        ensures { result ≡ slice_get
            (departures_of self.now.state.task (expansions self.now.state)) 0 }
    {
        self.content.entries.departure()
    }

    /// Returns the plan of the bound, if there is a bound: that of the least-numbered entry at
    /// which the goal holds at this cost. It is valid.
    ///
    /// # Errors
    /// - `NoMemory`: there is no room for the plan.
    pub fn extract(&self) -> Result<Option<Plan>, NoMemory>
        ensures plan { IfOk result (IsBoundPlanOf self.now.state.task (expansions self.now.state)) }
        ensures valid { IfOk result (IsValidPlan self.now.state.task) }
    {
        self.content.entries.extract()
    }

    /// Returns the answer, once all is settled, nothing waits to be appended, and no group is out.
    ///
    /// # Errors
    /// - `NoMemory`: there is no room for a plan.
    pub fn verdict(&self) -> Result<Option<Verdict>, NoMemory>
        ensures over { IfOk result (λ v. is_some v
            ≡ (is_over self.now.state && is_idle self.now.batches.queue)) }
        ensures covered { IfOk result (λ v. IfSome v (λ _. IsCoveredBook self.now.state)) }
        ensures answer { IfOk result (λ v. IfSome v (IsAnswerOf self.now.state)) }
        ensures is_true { IfOk result (λ v. IfSome v (IsTrueAnswer self.now.state.task)) }
    {
        self.content.verdict()
    }

    /// Changes nothing. What all shares of the ledger count in sum is the number of the batches
    /// that were accepted: no share counts more, and the one that has all parts counts just that.
    pub fn audit(&mut self, share: &mut Share<L>)
        ensures same { self.new ≡ self.old }
        ensures share { (share.new.parts ≡ share.old.parts)
            × (share.new.amount ≡ share.old.amount) }
        ensures bound { share.old.amount ≤ length self.old.batches.tickets }
        ensures whole { share.old.parts ≡ L.parts
            → share.old.amount ≡ length self.old.batches.tickets }
    {
        self.made.audit(share);
    }
}
