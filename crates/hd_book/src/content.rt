//! The parts of a book.
ghost use Rattle.std.specs.Prelude.{◌≡◌, ◌+◌, ◌-◌, ◌<◌, ◌≤◌, ◌^◌, ◌++◌, ◌&&◌, true, false, None, Some, length, drop, slice_get, vec_len, vec_capacity, is_ok, is_some, IfOk, IfErr, IfSome, OnOk, OnErr};
ghost use Rattle.std.specs.List.{AllByRecursion};
ghost use Rattle.hd_tables.specs.Kids.{same_kid};
ghost use Rattle.hd_entries.specs.Settling.{IsOutcomeOfTask, IsBookKept};
ghost use Rattle.hd_base.specs.Lists.{BeginsWith};
ghost use Rattle.hd_entries.specs.Refusing.{has_room};
ghost use Rattle.hd_entries.specs.Answers.{is_over, IsCoveredBook, IsAnswerOf, IsTrueAnswer};
ghost use Rattle.hd_book.specs.Queue.{is_due, is_idle};
ghost use Rattle.hd_book.specs.TicketRedeeming.{redeemed_for};
ghost use Rattle.hd_book.specs.View.{book_of, counts_of};
ghost use Rattle.hd_book.specs.Steps.{with_no_batches, after_commit, ticket_after, after_take, after_flush, after_hand_back, after_redeem, after_halt};
ghost use Rattle.hd_book.specs.Groups.{entries_between, is_kid, begins_with, next_group, is_group_out};
ghost use Rattle.hd_book.specs.Refusing.{commit_refusal_to, IsCommitRefusalTo};
ghost use Rattle.hd_book.specs.Redeeming.{IsReleasedOf, IsReleasedIn};

use crate::tickets::Tickets;
use crate::{
    CommitRefusal, Counts, Flushed, Group, NotOut, Parcels, Redeemed, Refusal, Room, Ticket,
    Verdict,
};
use hd_entries::Entries;
use hd_node::Batch;
use hd_task::{Kid, NoMemory};
use std::alloc::Global;
use std::marker::Model;

/// The parts of a book: its entries, and the tickets and groups of its batches.
#[derive(Debug, Drop)]
pub(crate) struct BookContent<'t> {
    pub(crate) entries: Entries<'t>,
    pub(crate) tickets: Tickets<Parcels<'t>>,
}

impl<'t> Model for BookContent<'t> {
    ghost use Rattle.hd_book.specs.View.{BookView, book_of};
    ghost use Rattle.hd_book.specs.Keeping.{IsBookHeld};
    ghost use Rattle.hd_task.specs.contracts.task.Task as tasks;
    ghost use Rattle.std.specs.Coded.{codes};

    ghost Value = { BookView };

    ghost coded = { Prim.hlevel (codes, tasks.the_row.coded) };

    ghost view = { λ c. book_of c.entries c.tickets.batches };

    ghost invariant = { λ c. IsBookHeld (book_of c.entries c.tickets.batches) };
}

/// Reports whether two successors are the same pair.
fn is_same(one: &Kid, other: &Kid) -> bool
    ensures { result ≡ same_kid one.now other.now }
{
    one.parent == other.parent && one.action == other.action
}

/// Reports whether the entry with this number is this successor.
fn is_entry(entries: &Entries, number: u64, kid: &Kid) -> bool
    ensures is_kid { result ≡ is_kid kid.now (slice_get entries.now.state.entries number) }
    ensures within { result ≡ true → number < length entries.now.state.entries }
{
    match entries.entry(number) {
        Some(entry) => is_same(kid, &entry),
        None => false,
    }
}

/// Reports whether the entries from a number on begin with these successors.
fn begin_with(entries: &Entries, first: u64, kids: &[Kid]) -> bool
    ensures begins { result ≡ begins_with kids.now (drop first entries.now.state.entries) }
    ensures fits { result ≡ true → first + length kids.now < 2 ^ 64 }
{
    let count = entries.len();
    let mut number = first;
    for kid in kids {
        if number >= count {
            return false;
        }
        if !is_entry(entries, number, kid) {
            return false;
        }
        number += 1;
    }
    true
}

/// Pushes the successors of the entries from `first` on and below `end` to a `Vec` that has room.
fn push_entries(kids: &mut Vec<Kid>, entries: &Entries, first: u64, end: u64)
    requires order { first ≤ end }
    requires within { end ≤ length entries.now.state.entries }
    requires room { vec_len kids.old + (end - first) ≤ vec_capacity kids.old }
    ensures { kids.new.items
        ≡ kids.old.items ++ entries_between entries.now.state.entries first end }
{
    for number in first..end {
        match entries.entry(number) {
            Some(kid) => kids.push_reserved(kid),
            None => unreachable!(),
        }
    }
}

/// Makes room for the ticket of a batch; or refuses it, where the book is halted. Whether the
/// entries have room is asked only if there is no memory: else their own commit asks it.
fn make_room<'t>(
    entries: &Entries<'t>,
    tickets: &mut Tickets<Parcels<'t>>,
    batch: &Batch<'t>,
) -> Result<(), CommitRefusal>
    ensures same { tickets.new.batches ≡ tickets.old.batches }
    ensures going { OnOk result (tickets.old.batches.halted ≡ false) }
    ensures room { OnOk result (tickets.new.room ≡ true) }
    ensures refused { IfErr result
        (IsCommitRefusalTo (book_of entries.now tickets.old.batches) batch.now.outcomes) }
{
    if tickets.is_halted() {
        return Err(CommitRefusal::Halted);
    }
    if tickets.reserve().is_ok() {
        return Ok(());
    }
    if entries.has_room(batch) {
        Err(CommitRefusal::Refused(Refusal::NoMemory))
    } else {
        Err(CommitRefusal::Refused(Refusal::Full))
    }
}

impl<'t> BookContent<'t> {
    /// Returns these entries, which are all acknowledged, and no batches yet.
    pub(crate) fn of(alloc: Global, entries: Entries<'t>) -> BookContent<'t>
        ensures { result ≡ with_no_batches entries.entry }
    {
        let acknowledged = entries.len();
        BookContent {
            entries,
            tickets: Tickets::new(alloc, acknowledged),
        }
    }

    /// Takes a batch, or refuses it, as [`crate::Book::commit`] says.
    pub(crate) fn commit(&mut self, batch: Batch<'t>) -> Result<Ticket, (Batch<'t>, CommitRefusal)>
        requires { AllByRecursion (IsOutcomeOfTask self.old.state.task) batch.outcomes }
        ensures task { self.new.state.task ≡ self.old.state.task }
        ensures begins { BeginsWith self.new.state.entries self.old.state.entries }
        ensures accepted { OnOk result (commit_refusal_to self.old batch.entry.outcomes ≡ None) }
        ensures ticket { IfOk result (λ k. k ≡ ticket_after batch.entry.outcomes self.old) }
        ensures from { IfOk result (λ k. k.first ≡ length self.old.state.entries) }
        ensures to { IfOk result (λ k. k.end ≡ length self.new.state.entries) }
        ensures committed { OnOk result
            (self.new ≡ after_commit batch.entry.outcomes self.old) }
        ensures refused { IfErr result (λ e. (e.0 ≡ batch.entry)
            × IsCommitRefusalTo self.old batch.entry.outcomes e.1) }
        ensures err { OnErr result (self.new ≡ self.old) }
    {
        if let Err(refusal) = make_room(&self.entries, &mut self.tickets, &batch) {
            return Err((batch, refusal));
        }
        let (settled, posted) = (self.entries.settled(), self.entries.posted());
        prove!(settled <= posted);
        let before = self.entries.len();
        match self.entries.commit(&batch) {
            Ok(()) => {
                let count = self.entries.len() - before;
                let released = Parcels::of(self.entries.task(), before, batch);
                Ok(self.tickets.enter(count, released))
            }
            Err(refusal) => Err((batch, CommitRefusal::Refused(refusal))),
        }
    }

    /// Puts the next group out and returns it, as [`crate::Book::take_pending`] says.
    pub(crate) fn take_pending(&mut self, room: Room) -> Result<Group, Room>
        ensures due { is_ok result ≡ is_due self.old.batches.queue }
        ensures group { IfOk result (λ g. Some g ≡ next_group self.old) }
        ensures none { OnErr result (next_group self.old ≡ None) }
        ensures taken { self.new ≡ after_take self.old }
    {
        match self.tickets.take() {
            Some(range) => {
                let mut kids = room.into_vec();
                push_entries(&mut kids, &self.entries, range.start, range.end);
                Ok(Group::of(range.start, kids))
            }
            None => Err(room),
        }
    }

    /// Acknowledges the group that is out, as [`crate::Book::acknowledge`] says.
    pub(crate) fn acknowledge(&mut self, flushed: Flushed) -> Result<Vec<Kid>, NotOut>
        ensures out { is_ok result ≡ is_group_out self.old flushed }
        ensures kids { IfOk result (λ kids. kids.items ≡ flushed.kids) }
        ensures flushed { OnOk result (self.new ≡ after_flush self.old) }
        ensures err { OnErr result (self.new ≡ self.old) }
    {
        let (first, kids) = flushed.parts();
        if !begin_with(&self.entries, first, &kids) {
            return Err(NotOut);
        }
        match self.tickets.acknowledge(first, first + kids.len() as u64) {
            Ok(()) => Ok(kids),
            Err(error) => Err(error),
        }
    }

    /// Hands back the group that is out, as [`crate::Book::hand_back`] says.
    pub(crate) fn hand_back(&mut self, group: Group) -> Result<(), NotOut>
        ensures out { is_ok result ≡ is_group_out self.old group }
        ensures handed_back { OnOk result (self.new ≡ after_hand_back self.old) }
        ensures err { OnErr result (self.new ≡ self.old) }
    {
        let (first, kids) = group.parts();
        if !begin_with(&self.entries, first, &kids) {
            return Err(NotOut);
        }
        self.tickets.hand_back(first, first + kids.len() as u64)
    }

    /// Redeems a ticket, as [`crate::Book::redeem`] says.
    pub(crate) fn redeem(&mut self, ticket: Ticket) -> Result<Redeemed<Parcels<'t>>, NotOut>
        ensures given { result ≡ redeemed_for self.old.batches ticket }
        ensures of_task { IfOk result (IsReleasedOf self.old.state.task) }
        ensures released { IfOk result (IsReleasedIn self.old.state ticket) }
        ensures redeemed { OnOk result (self.new ≡ after_redeem ticket self.old) }
        ensures err { OnErr result (self.new ≡ self.old) }
    {
        self.tickets.redeem(ticket)
    }

    /// Halts: from now on each commit is refused.
    pub(crate) fn halt(&mut self)
        ensures { self.new ≡ after_halt self.old }
    {
        self.tickets.halt();
    }

    /// Returns how far the search has come.
    pub(crate) fn counts(&self) -> Counts
        ensures counts { result ≡ counts_of self.now }
        ensures kept { IsBookKept self.now.state }
        ensures entries_few { result.entries ≤ self.now.most }
        ensures acknowledged_few { result.acknowledged ≤ result.entries }
        ensures commits_few { result.commits ≤ result.settled }
        ensures settled_few { result.settled ≤ result.posted }
        ensures posted_few { result.posted < 2 ^ 61 }
    {
        Counts {
            entries: self.entries.len(),
            posted: self.entries.posted(),
            settled: self.entries.settled(),
            acknowledged: self.tickets.acknowledged(),
            commits: self.tickets.commits(),
        }
    }

    /// Returns the answer, once all is settled and all entries are acknowledged.
    pub(crate) fn verdict(&self) -> Result<Option<Verdict>, NoMemory>
        ensures over { IfOk result (λ v. is_some v
            ≡ (is_over self.now.state && is_idle self.now.batches.queue)) }
        ensures covered { IfOk result (λ v. IfSome v (λ _. IsCoveredBook self.now.state)) }
        ensures answer { IfOk result (λ v. IfSome v (IsAnswerOf self.now.state)) }
        ensures is_true { IfOk result (λ v. IfSome v (IsTrueAnswer self.now.state.task)) }
    {
        if !self.tickets.is_idle() {
            return Ok(None);
        }
        self.entries.verdict()
    }
}
