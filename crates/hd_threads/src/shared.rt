//! The book that threads share.
ghost use Rattle.std.specs.Prelude.{◌≡◌, ◌+◌, ◌<◌, ◌≤◌, ◌^◌, ◌&&◌, None, true, false, length, is_ok, is_some, IfOk, IfErr, IfSome, OnOk, OnErr};
ghost use Rattle.std.specs.List.{AllByRecursion};
ghost use Rattle.hd_task.specs.Expansions.{bound_of};
ghost use Rattle.hd_entries.specs.Settling.{IsOutcomeOfTask, IsBookKept, expansions};
ghost use Rattle.hd_entries.specs.Answers.{is_over, IsCoveredBook, IsAnswerOf, IsBoundPlanOf, IsValidPlan, IsTrueAnswer};
ghost use Rattle.hd_book.specs.Queue.{is_due, is_idle};
ghost use Rattle.hd_book.specs.View.{counts_of};
ghost use Rattle.hd_book.specs.Groups.{is_group_out};
ghost use Rattle.hd_book.specs.Refusing.{commit_refusal_to, IsCommitRefusalTo};
ghost use Rattle.hd_book.specs.Steps.{after_commit, ticket_after, after_take, after_flush, after_hand_back, after_redeem, after_halt};
ghost use Rattle.hd_book.specs.TicketRedeeming.{redeemed_for};
ghost use Rattle.hd_threads.specs.Shared.{GoesOn, IsGroupAt, IsGivenOf, IsGivenFrom, given_by};

use hd_book::{
    Book, CommitRefusal, Counts, Flushed, Group, NotOut, Parcels, Redeemed, Room, Ticket, Verdict,
};
use hd_desk::Locked;
use hd_node::Batch;
use hd_task::{Kid, NoMemory, Plan, Task};
use std::marker::Model;
use std::sync::ledger::{self, Blank, Ledger, Share};

/// What is given for a ticket.
#[must_use]
#[derive(Debug)]
pub enum Given<'t> {
    /// Its batch is acknowledged: the parcels that it releases.
    Parcels(Parcels<'t>),
    /// Its batch waits to be appended.
    NotYet(Ticket),
    /// The book is halted: nothing.
    Void,
}

/// That the book was halted. Only [`SharedBook::halt`] makes one.
#[derive(Debug, Drop)]
pub struct Halted {
    _made: (),
}

/// The book of a search, as it lies in the lock. `A` counts the entries that are acknowledged: who
/// has all shares of it, as the committer does, knows how many these are, and no one else can
/// acknowledge any.
///
/// It is one pointer wide.
#[derive(Drop)]
pub struct SharedBook<'t, L: Ledger, A: Ledger> {
    book: Book<'t, L>,
    appended: ledger::Book<A>,
}

impl<'t, L: Ledger, A: Ledger> Model for SharedBook<'t, L, A> {
    ghost use Rattle.std.specs.Prelude.{◌≡◌};
    ghost use Rattle.hd_book.specs.View.{BookView};
    ghost use Rattle.hd_task.specs.contracts.task.Task as tasks;
    ghost use Rattle.std.specs.Coded.{codes};

    ghost Value = { BookView };

    ghost coded = { Prim.hlevel (codes, tasks.the_row.coded) };

    ghost view = { λ b. b.book };

    // The ledger counts the entries that are acknowledged.
    ghost invariant = { λ b. b.appended.total ≡ b.book.batches.queue.acknowledged };
}

impl<'t, L: Ledger, A: Ledger> Locked for SharedBook<'t, L, A> {
    type Task = Task;

    type Item = Kid;

    ghost task = { λ b. b.state.task };

    ghost log = { λ b. b.state.entries };
}

impl<'t, L: Ledger, A: Ledger> SharedBook<'t, L, A> {
    /// Returns a book that is to be shared, with the share that is the whole of the ledger of what
    /// is acknowledged.
    pub fn of(blank: Blank, book: Book<'t, L>) -> (SharedBook<'t, L, A>, Share<A>)
        requires name { blank.name ≡ A.name }
        requires parts { blank.parts ≡ A.parts }
        requires some { 0 < A.parts }
        ensures book { result.0 ≡ book.entry }
        ensures parts { result.1.parts ≡ A.parts }
        ensures amount { result.1.amount ≡ book.entry.batches.queue.acknowledged }
    {
        let (mut appended, mut share) = blank.open::<A>();
        appended.add(&mut share, book.counts().acknowledged);
        (SharedBook { book, appended }, share)
    }

    /// Returns the next group, which goes out, as [`Book::take_pending`] does. It begins where
    /// `share` says that the acknowledged entries end.
    ///
    /// # Errors
    /// - The room again, if nothing waits, or a group is out: nothing has changed.
    pub fn take_pending(&mut self, share: &mut Share<A>, room: Room) -> Result<Group, Room>
        requires whole { share.old.parts ≡ A.parts }
        ensures goes_on { GoesOn self.old self.new }
        ensures due { is_ok result ≡ is_due self.old.batches.queue }
        ensures group { IfOk result (IsGroupAt self.new.state.entries share.old.amount) }
        ensures taken { self.new ≡ after_take self.old }
        ensures parts { share.new.parts ≡ share.old.parts }
        ensures amount { share.new.amount ≡ share.old.amount }
    {
        let SharedBook { book, appended } = self;
        appended.audit(share);
        book.take_pending(room)
    }

    /// Acknowledges the entries of the group that is out, as [`Book::acknowledge`] does: the list
    /// of its pairs. The share counts them.
    ///
    /// # Errors
    /// - `NotOut`: this group is not the one that is out: what said that it was appended is spent,
    ///   and the book is halted.
    #[tactic(auto, using(crate::proofs::Steps::goes_on_same))]
    pub fn acknowledge(
        &mut self,
        share: &mut Share<A>,
        flushed: Flushed,
    ) -> Result<Vec<Kid>, NotOut>
        requires some { 0 < share.old.parts }
        ensures goes_on { GoesOn self.old self.new }
        ensures out { is_ok result ≡ is_group_out self.old flushed }
        ensures kids { IfOk result (λ kids. kids.items ≡ flushed.kids) }
        ensures flushed { OnOk result (self.new ≡ after_flush self.old) }
        ensures err { OnErr result (self.new ≡ after_halt self.old) }
        ensures parts { share.new.parts ≡ share.old.parts }
        ensures counted { OnOk result (share.new.amount ≡ share.old.amount + length flushed.kids) }
        ensures uncounted { OnErr result (share.new.amount ≡ share.old.amount) }
        ensures kept { IsBookKept self.new.state }
    {
        let SharedBook { book, appended } = self;
        let before = book.counts().acknowledged;
        match book.acknowledge(flushed) {
            Ok(kids) => {
                appended.add(share, book.counts().acknowledged - before);
                Ok(kids)
            }
            Err(error) => {
                book.halt();
                Err(error)
            }
        }
    }

    /// Hands back the group that is out, as [`Book::hand_back`] does, with which the book is
    /// halted; another group is spent, and the book is halted too.
    #[tactic(auto, using(crate::proofs::Steps::goes_on_same))]
    pub fn hand_back(&mut self, group: Group)
        ensures goes_on { GoesOn self.old self.new }
        ensures handed_back { is_group_out self.old group ≡ true
            → self.new ≡ after_hand_back self.old }
        ensures halted { is_group_out self.old group ≡ false → self.new ≡ after_halt self.old }
        ensures kept { IsBookKept self.new.state }
    {
        match self.book.hand_back(group) {
            Ok(()) => {}
            Err(_) => self.book.halt(),
        }
        // The clauses of `counts` say what each book keeps.
        let _ = self.book.counts();
    }

    /// Halts the book, of which the result tells: each later commit is refused. It does not
    /// allocate.
    pub fn halt(&mut self) -> Halted
        ensures goes_on { GoesOn self.old self.new }
        ensures halted { self.new ≡ after_halt self.old }
    {
        self.book.halt();
        Halted { _made: () }
    }

    /// Takes a batch, as [`Book::commit`] does. A book that refuses one is halted.
    ///
    /// # Errors
    /// - Why it is refused, as there; the batch is dropped.
    #[tactic(auto, using(crate::proofs::Steps::goes_on_same))]
    pub fn commit(
        &mut self,
        share: &mut Share<L>,
        batch: Batch<'t>,
    ) -> Result<Ticket, CommitRefusal>
        requires part { 0 < share.old.parts }
        requires of_task { AllByRecursion (IsOutcomeOfTask self.old.state.task) batch.outcomes }
        ensures goes_on { GoesOn self.old self.new }
        ensures accepted { OnOk result (commit_refusal_to self.old batch.entry.outcomes ≡ None) }
        ensures ticket { IfOk result (λ k. k ≡ ticket_after batch.entry.outcomes self.old) }
        ensures from { IfOk result (λ k. k.first ≡ length self.old.state.entries) }
        ensures to { IfOk result (λ k. k.end ≡ length self.new.state.entries) }
        ensures committed { OnOk result
            (self.new ≡ after_commit batch.entry.outcomes self.old) }
        ensures counted { OnOk result (share.new.amount ≡ share.old.amount + 1) }
        ensures parts { share.new.parts ≡ share.old.parts }
        ensures refused { IfErr result (IsCommitRefusalTo self.old batch.entry.outcomes) }
        ensures err { OnErr result (self.new ≡ after_halt self.old) }
        ensures uncounted { OnErr result (share.new.amount ≡ share.old.amount) }
    {
        match self.book.commit(share, batch) {
            Ok(ticket) => Ok(ticket),
            Err((_, refusal)) => {
                self.book.halt();
                Err(refusal)
            }
        }
    }

    /// Redeems a ticket, as [`Book::redeem`] does, and presents the receipt.
    ///
    /// # Errors
    /// - `NotOut`: no such ticket is out: it is spent, and the book is halted.
    #[tactic(auto, using(crate::proofs::Steps::goes_on_same, crate::proofs::Redeeming::receipt_acknowledged))]
    pub fn redeem(&mut self, ticket: Ticket) -> Result<Given<'t>, NotOut>
        ensures goes_on { GoesOn self.old self.new }
        ensures given { result ≡ given_by (redeemed_for self.old.batches ticket) }
        ensures of_task { IfOk result (IsGivenOf self.old.state.task) }
        ensures released { IfOk result
            (IsGivenFrom self.old.state.task self.old.state.entries ticket) }
        ensures redeemed { OnOk result (self.new ≡ after_redeem ticket self.old) }
        ensures err { OnErr result (self.new ≡ after_halt self.old) }
    {
        match self.book.redeem(ticket) {
            Ok(Redeemed::Released(receipt, parcels)) => match self.book.present(receipt) {
                Ok(_) => Ok(Given::Parcels(parcels)),
                Err(error) => {
                    self.book.halt();
                    Err(error)
                }
            },
            Ok(Redeemed::NotYet(ticket)) => Ok(Given::NotYet(ticket)),
            Ok(Redeemed::Void) => Ok(Given::Void),
            Err(error) => {
                self.book.halt();
                Err(error)
            }
        }
    }

    /// Halts the book, and spends a ticket; what it releases is dropped.
    #[tactic(auto, using(crate::proofs::Steps::goes_on_same))]
    pub fn give_up(&mut self, ticket: Ticket)
        ensures goes_on { GoesOn self.old self.new }
    {
        self.book.halt();
        match self.book.redeem(ticket) {
            Ok(Redeemed::Released(receipt, parcels)) => {
                drop(parcels);
                let _ = self.book.present(receipt);
            }
            Ok(Redeemed::Void) => {}
            Ok(Redeemed::NotYet(_ticket)) => unreachable!(),
            Err(_) => {}
        }
    }

    /// Returns how many batches the book has taken, which is what all parts of the count's share
    /// amount to.
    pub fn audit(&mut self, share: &mut Share<L>) -> u64
        requires whole { share.old.parts ≡ L.parts }
        ensures same { self.new ≡ self.old }
        ensures parts { share.new.parts ≡ share.old.parts }
        ensures kept { share.new.amount ≡ share.old.amount }
        ensures commits { result ≡ length self.old.batches.tickets }
        ensures amount { result ≡ share.old.amount }
    {
        self.book.audit(share);
        self.book.counts().commits
    }

    /// Returns how far the search has come.
    pub fn counts(&self) -> Counts
        ensures counts { result ≡ counts_of self.now }
        ensures kept { IsBookKept self.now.state }
        ensures entries_few { result.entries ≤ self.now.most }
        ensures acknowledged_few { result.acknowledged ≤ result.entries }
        ensures commits_few { result.commits ≤ result.settled }
        ensures settled_few { result.settled ≤ result.posted }
        ensures posted_few { result.posted < 2 ^ 61 }
    {
        self.book.counts()
    }

    /// Returns the least cost of an entry at which the goal holds, if there is one.
    pub fn bound(&self) -> Option<u64>
        ensures { result ≡ bound_of self.now.state.task (expansions self.now.state) }
    {
        self.book.bound()
    }

    /// Reports whether each commit is refused.
    pub fn is_halted(&self) -> bool
        ensures { result ≡ self.now.batches.halted }
    {
        self.book.is_halted()
    }

    /// Returns the answer, as [`Book::verdict`] says it.
    ///
    /// # Errors
    /// - `NoMemory`: there is no room for a plan.
    pub fn verdict(&self) -> Result<Option<Verdict>, NoMemory>
        ensures over { IfOk result (λ v. is_some v
            ≡ (is_over self.now.state && is_idle self.now.batches.queue)) }
        ensures covered { IfOk result (λ v. IfSome v (λ _. IsCoveredBook self.now.state)) }
        ensures answer { IfOk result (λ v. IfSome v (IsAnswerOf self.now.state)) }
        ensures is_true { IfOk result (λ v. IfSome v (IsTrueAnswer self.now.state.task)) }
    {
        self.book.verdict()
    }

    /// Returns the plan of the bound, if there is a bound, as [`Book::extract`] gives it.
    ///
    /// # Errors
    /// - `NoMemory`: there is no room for the plan.
    pub fn extract(&self) -> Result<Option<Plan>, NoMemory>
        ensures plan { IfOk result (IsBoundPlanOf self.now.state.task (expansions self.now.state)) }
        ensures valid { IfOk result (IsValidPlan self.now.state.task) }
    {
        self.book.extract()
    }
}
