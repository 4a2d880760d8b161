//! What the committer does while the workers' threads run.
ghost use Rattle.std.specs.Prelude.{◌≡◌, false, true, is_some};
ghost use Rattle.hd_desk.specs.Passes.{IsOutside};
ghost use Rattle.hd_threads.specs.Outside.{IsOutsideAgain};
ghost use Rattle.hd_search.specs.Committing.{CanRun, HasEnded};

use crate::opening::CommitterPlace;
use hd_journal::Journal;
use hd_store::Store;
use hd_threads::{CommitterRole, Desk, Gate, Halted, RunFault, commit_all, halt};
use std::sync::Wait;
use std::sync::ledger::Ledger;

/// What is done beside the threads of a scope. A closure that holds a `&mut` says nothing of it
/// afterwards, one that holds a value of a type parameter says what that type's call gives.
pub(crate) trait Beside {
    type Output;

    /// What the call needs.
    ghost can_run: { Self → Type 0 };

    /// What it gives.
    ghost run_gives: { Self → Self.Output → Type 0 };

    /// What it gives too where a thread was not started.
    ghost run_halts: { Self.Output → Type 0 };

    /// Returns what is done, where all threads were started; or what is done where they were not.
    fn run(self, started: bool) -> Self::Output
        requires { can_run self }
        ensures gives { run_gives self result }
        ensures halts { started ≡ false → run_halts result };
}

/// The committer, with the journal, and the gate that is told how the search stands.
#[derive(Drop)]
pub(crate) struct Committer<'d, 't, 'j, L: Ledger, A: Ledger, S: Store, G: Gate, R: Wait> {
    pub(crate) rt: &'d R,
    pub(crate) desk: &'d Desk<'t, L, A>,
    pub(crate) place: CommitterPlace<'t, L, A>,
    pub(crate) journal: &'j mut Journal<S>,
    pub(crate) role: CommitterRole<'d, G>,
}

/// What the committer gives back when it has ended.
#[derive(Drop)]
pub(crate) struct Ended<'t, 'j, L: Ledger, A: Ledger, S: Store> {
    pub(crate) journal: &'j mut Journal<S>,
    pub(crate) place: CommitterPlace<'t, L, A>,
    pub(crate) done: Result<(), RunFault>,
    /// That the book was halted before the rounds, where a thread was not started.
    pub(crate) halted: Option<Halted>,
}

/// Halts the book, unless all threads were started; reports whether it did.
#[tactic(auto, using(crate::proofs::Stopping::outside_still))]
fn halt_unless<'t, L: Ledger, A: Ledger, R: Wait>(
    rt: &R,
    desk: &Desk<'t, L, A>,
    place: &mut CommitterPlace<'t, L, A>,
    started: bool,
) -> Option<Halted>
    requires { IsOutside desk.now.lock.place place.old.pass }
    ensures pass { IsOutsideAgain desk.now.lock.place place.old.pass place.new.pass }
    ensures share { place.new.share ≡ place.old.share }
    ensures halted { started ≡ false → is_some result ≡ true }
{
    if started {
        return None;
    }
    Some(halt(rt, &desk.lock, &mut place.pass))
}

/// Takes the committer's rounds to the end of the search. Where the threads did not all start,
/// halts the book first, of which the first part of the result tells. The second is the fault of a
/// round, if one ended by a fault. In the end the workers hear that the search is over.
#[tactic(auto, using(crate::proofs::Stopping::along, crate::proofs::Stopping::survives_along))]
fn commit_beside<'t, L: Ledger, A: Ledger, S: Store, G: Gate, R: Wait>(
    rt: &R,
    desk: &Desk<'t, L, A>,
    place: &mut CommitterPlace<'t, L, A>,
    journal: &mut Journal<S>,
    role: &CommitterRole<'_, G>,
    started: bool,
) -> (Option<Halted>, Result<(), RunFault>)
    requires { CanRun A.parts desk.now place.old journal.old }
    ensures ended { HasEnded desk.now place.old journal.old place.new journal.new result.1 }
    ensures halted { started ≡ false → is_some result.0 ≡ true }
{
    let halted = halt_unless(rt, desk, place, started);
    let done = commit_all(
        rt,
        &desk.lock,
        &mut place.pass,
        &mut place.share,
        journal,
        role,
    );
    desk.bells.end();
    (halted, done)
}

impl<'d, 't, 'j, L: Ledger, A: Ledger, S: Store, G: Gate, R: Wait> Beside
    for Committer<'d, 't, 'j, L, A, S, G, R> {
    type Output = Ended<'t, 'j, L, A, S>;

    ghost can_run = { λ c. CanRun A.parts c.desk.now c.place c.journal.now };

    ghost run_gives = { λ c e. (e.journal.ghost_name ≡ c.journal.ghost_name)
        × HasEnded c.desk.now c.place c.journal.now e.place e.journal.now e.done };

    ghost run_halts = { λ e. is_some e.halted ≡ true };

    fn run(self, started: bool) -> Ended<'t, 'j, L, A, S> {
        let Committer {
            rt,
            desk,
            place,
            journal,
            role,
        } = self;
        let mut place = place;
        let (halted, done) = commit_beside(rt, desk, &mut place, journal, &role, started);
        Ended {
            journal,
            place,
            done,
            halted,
        }
    }
}
