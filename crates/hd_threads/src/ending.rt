//! When a search is over, and what its book says then.
ghost use Rattle.std.specs.Prelude.{◌≡◌, ◌<◌, length, IfOk, IfErr, IfSome, OnOk};
ghost use Rattle.crossbeam_queue.specs.Passes.{view};
ghost use Rattle.hd_desk.specs.Passes.{IsOutside};
ghost use Rattle.hd_base.specs.Lists.{BeginsWith};
ghost use Rattle.hd_journal.specs.Journal.{device_of, kids_of};
ghost use Rattle.hd_journal.specs.Moments.{IsSettled};
ghost use Rattle.hd_threads.specs.Growing.{JournalGrows};
ghost use Rattle.hd_threads.specs.Committing.{IsInStep, IsJournalKept, StopsLater};
ghost use Rattle.hd_threads.specs.Faults.{IsOfAnswer};
ghost use Rattle.hd_threads.specs.Ending.{is_reached, outcome_of, plan_in, cost_by, IsSearchOutcome, IsTrueOutcome, IsCountedBy};
ghost use Rattle.hd_threads.specs.Outside.{IsOutsideAgain};

use crate::SharedBook;
use crate::committing::{Round, committer_round};
use crate::fault::RunFault;
use crate::gate::{Gate, Standing};
use crate::pausing::Pause;
use crate::waking::Bells;
use hd_book::{Counts, Rooms, Verdict};
use hd_desk::{Lock, Pass};
use hd_journal::Journal;
use hd_store::Store;
use hd_task::{Departure, Plan};
use std::alloc::Global;
use std::sync::Wait;
use std::sync::ledger::{Ledger, Share};

/// What a search by threads answers.
#[derive(Debug, Drop)]
pub enum Outcome {
    /// The plan is valid, and no valid plan costs less.
    Optimal(Plan),
    /// No plan is valid.
    NoPlan,
    /// A number left the range at this departure, the first; with the best plan that was found, if
    /// there is one.
    RangeLeft(Departure, Option<Plan>),
    /// There are as many entries as the limit says; with the best plan that was found, if there is
    /// one.
    Stopped(Option<Plan>),
}

/// What a search by threads ends with: its answer, what the answer's plan costs, if it has one, and
/// how far the search came.
#[derive(Debug, Drop)]
pub struct Concluded {
    pub outcome: Outcome,
    pub cost: Option<u64>,
    pub counts: Counts,
}

/// Returns what is reported of a verdict.
fn outcome_of(verdict: Verdict) -> Outcome
    ensures { result ≡ outcome_of verdict }
{
    match verdict {
        Verdict::Optimal(plan) => Outcome::Optimal(plan),
        Verdict::NoPlan => Outcome::NoPlan,
        Verdict::RangeLeft(departure, plan) => Outcome::RangeLeft(departure, plan),
    }
}

/// Reports whether a limit is given, and so many entries reach it.
pub(crate) fn is_reached(limit: Option<u64>, count: u64) -> bool
    ensures { result ≡ is_reached limit count }
{
    match limit {
        Some(most) => most <= count,
        None => false,
    }
}

/// Reports whether a search is over: its book is halted, or each entry is acknowledged, and all is
/// settled, or there are as many entries as the limit says.
pub fn is_over<'t, L: Ledger, A: Ledger, R: Wait>(
    rt: &R,
    lock: &Lock<SharedBook<'t, L, A>>,
    pass: &mut Pass<SharedBook<'t, L, A>>,
    limit: Option<u64>,
) -> bool
    requires { IsOutside lock.now.place pass.old }
    ensures pass { IsOutsideAgain lock.now.place pass.old pass.new }
{
    let book = lock.enter(rt, pass);
    let counts = book.counts();
    let ended = counts.settled == counts.posted || is_reached(limit, counts.entries);
    let written = counts.acknowledged == counts.entries;
    let over = book.is_halted() || ended && written;
    lock.leave(rt, pass, book);
    over
}

/// Reports the gate how the search stands, if it asks, and the best plan, if it asks for that.
#[tactic(auto, using(crate::proofs::Outside::outside_along))]
fn tell<'t, L: Ledger, A: Ledger, R: Wait, G: Gate>(
    rt: &R,
    lock: &Lock<SharedBook<'t, L, A>>,
    pass: &mut Pass<SharedBook<'t, L, A>>,
    gate: &G,
)
    requires { IsOutside lock.now.place pass.old }
    ensures pass { IsOutsideAgain lock.now.place pass.old pass.new }
{
    if !gate.asks_committer() {
        return;
    }
    let book = lock.enter(rt, pass);
    let (counts, bound) = (book.counts(), book.bound());
    lock.leave(rt, pass, book);
    gate.hear_committer(Standing { counts, bound });
    if let Some(bound) = bound {
        tell_plan(rt, lock, pass, gate, bound);
    }
}

/// Reports the gate the best plan that was found, if it asks for that of a bound. The plan is taken
/// under the lock, and reported outside of it; if there is no room for it, it is not.
fn tell_plan<'t, L: Ledger, A: Ledger, R: Wait, G: Gate>(
    rt: &R,
    lock: &Lock<SharedBook<'t, L, A>>,
    pass: &mut Pass<SharedBook<'t, L, A>>,
    gate: &G,
    bound: u64,
)
    requires { IsOutside lock.now.place pass.old }
    ensures pass { IsOutsideAgain lock.now.place pass.old pass.new }
{
    if !gate.asks_plan(bound) {
        return;
    }
    let book = lock.enter(rt, pass);
    let plan = book.extract();
    let cost = book.bound();
    lock.leave(rt, pass, book);
    if let (Ok(Some(plan)), Some(cost)) = (plan, cost) {
        gate.hear_plan(plan, cost);
    }
}

/// What the committer is to do, round after round.
#[derive(Drop)]
pub struct CommitterRole<'g, G: Gate> {
    /// What groups are put into is allocated by it.
    pub alloc: Global,
    /// The search is over once the book has so many entries.
    pub limit: Option<u64>,
    /// What it reports how the search stands.
    pub gate: &'g G,
    /// By which it is woken, and wakes workers.
    pub bells: &'g Bells,
}

/// Takes rounds of the committer until the search is over and a further round finds nothing to
/// append; it waits longer and longer while there is nothing. A book that is halted takes no more
/// batches, so then all its entries are appended. Before each round the gate is told how the search
/// stands, if it asks.
///
/// # Errors
/// - Those of a round.
pub fn commit_all<'t, L: Ledger, A: Ledger, S: Store, R: Wait, G: Gate>(
    rt: &R,
    lock: &Lock<SharedBook<'t, L, A>>,
    pass: &mut Pass<SharedBook<'t, L, A>>,
    share: &mut Share<A>,
    journal: &mut Journal<S>,
    role: &CommitterRole<'_, G>,
) -> Result<(), RunFault>
    requires pass { IsOutside lock.now.place pass.old }
    requires whole { share.old.parts ≡ A.parts }
    requires some { 0 < A.parts }
    requires step { IsInStep (view pass.old).seen.log share.old.amount journal.old }
    ensures pass { IsOutsideAgain lock.now.place pass.old pass.new }
    ensures share { share.new.parts ≡ share.old.parts }
    ensures counted { OnOk result (share.new.amount ≡ length (kids_of journal.new)) }
    ensures journal { OnOk result (JournalGrows journal.old journal.new) }
    ensures told { IfErr result (StopsLater journal.old journal.new) }
    // As of a round, of what was in the journal before the first.
    ensures kept { IsJournalKept (view pass.old).seen.task (view pass.new).seen.log
        journal.old journal.new }
    ensures settled { IsSettled (device_of journal.old)
        → OnOk result (IsSettled (device_of journal.new)) }
{
    let mut rooms = Rooms::new(role.alloc);
    let mut pause = Pause::new();
    let mut over = false;
    for _round in rt.forever() {
        tell(rt, lock, pass, role.gate);
        match committer_round(rt, lock, pass, share, &mut rooms, journal)? {
            Round::Flushed(_) => {
                role.bells.ring_holders();
                pause.reset(role.bells.of_committer());
            }
            Round::Idle => {
                if over {
                    return Ok(());
                }
                over = is_over(rt, lock, pass, role.limit);
                if !over {
                    pause.wait(rt, role.bells.of_committer(), false);
                }
            }
        }
    }
    unreachable!()
}

/// Returns what a book says that is at its end, where the journal has its entries.
///
/// # Errors
/// - `NotOut`: it is not at its end, or the journal does not have its entries.
/// - `NoMemory`: there is no room for a plan.
fn said_by<L: Ledger, A: Ledger, S: Store>(
    book: &SharedBook<'_, L, A>,
    journal: &Journal<S>,
    limit: Option<u64>,
) -> Result<Concluded, RunFault>
    requires begins { BeginsWith book.now.state.entries (kids_of journal.now) }
    ensures answer { IfOk result (λ e.
        IsSearchOutcome book.now.state.task limit (kids_of journal.now) e.outcome) }
    ensures truth { IfOk result (λ e. IsTrueOutcome book.now.state.task e.outcome) }
    ensures cost { IfOk result (λ e. e.cost ≡ cost_by book.now.state.task (plan_in e.outcome)) }
    ensures counts { IfOk result (λ e. IsCountedBy (kids_of journal.now) e.outcome e.counts) }
    ensures told { IfErr result IsOfAnswer }
{
    let counts = book.counts();
    let written = journal.entries().len() as u64;
    if counts.entries != written || counts.acknowledged != written {
        return Err(RunFault::NotOut);
    }
    let cost = book.bound();
    if let Some(verdict) = book.verdict()? {
        return Ok(Concluded {
            outcome: outcome_of(verdict),
            cost,
            counts,
        });
    }
    if !is_reached(limit, counts.entries) {
        return Err(RunFault::NotOut);
    }
    let outcome = Outcome::Stopped(book.extract()?);
    Ok(Concluded {
        outcome,
        cost,
        counts,
    })
}

/// Returns what the book says under the lock, at the end of a search, where the journal has its
/// entries: just those, all of them acknowledged.
///
/// # Errors
/// - `NotOut`: the search is not at its end, or the journal does not have the book's entries.
/// - `NoMemory`: there is no room for a plan.
pub fn answer<'t, L: Ledger, A: Ledger, S: Store, R: Wait>(
    rt: &R,
    lock: &Lock<SharedBook<'t, L, A>>,
    pass: &mut Pass<SharedBook<'t, L, A>>,
    journal: &Journal<S>,
    limit: Option<u64>,
) -> Result<Concluded, RunFault>
    requires pass { IsOutside lock.now.place pass.old }
    requires begins { BeginsWith (view pass.old).seen.log (kids_of journal.now) }
    ensures pass { IsOutsideAgain lock.now.place pass.old pass.new }
    ensures answer { IfSome (view pass.old).seen.task (λ t. IfOk result (λ e.
        IsSearchOutcome t limit (kids_of journal.now) e.outcome)) }
    ensures truth { IfSome (view pass.old).seen.task (λ t. IfOk result (λ e.
        IsTrueOutcome t e.outcome)) }
    ensures cost { IfSome (view pass.old).seen.task (λ t. IfOk result (λ e.
        e.cost ≡ cost_by t (plan_in e.outcome))) }
    ensures counts { IfOk result (λ e. IsCountedBy (kids_of journal.now) e.outcome e.counts) }
    ensures told { IfErr result IsOfAnswer }
{
    let book = lock.enter(rt, pass);
    let said = said_by(&book, journal, limit);
    lock.leave(rt, pass, book);
    said
}
