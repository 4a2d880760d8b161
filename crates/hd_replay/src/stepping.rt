//! The moves of a run that do not end it.
ghost use Rattle.std.specs.Prelude.{◌≡◌, List, ℕ, None, OnOk};
ghost use Rattle.hd_task.specs.declared.task.Task.{Task};
ghost use Rattle.hd_world.specs.Moves.{TurnsTo};
ghost use Rattle.hd_world.specs.Stops.{File};
ghost use Rattle.hd_replay.specs.Held.{IsSoundRun};
ghost use Rattle.hd_replay.specs.Journals.{Runs, Goes, stop_in};

use crate::fault::ReplayFault;
use crate::run::Run;
use hd_journal::Journal;
use hd_store::MemoryDisk;
use hd_world::{Move, StopAt};
use std::sync::ledger::Ledger;

/// Makes the move `next`, if it touches no disk and is possible; else changes nothing.
///
/// # Errors
/// - `Full`: the book takes no more entries, or `NoMemory`.
fn turn<L: Ledger>(run: &mut Run<'_, L>, next: Move) -> Result<(), ReplayFault>
    requires sound { IsSoundRun run.old }
    ensures { OnOk result (TurnsTo run.old.book.state.task run.old next run.new) }
{
    match next {
        Move::Pop { worker } => {
            run.pop(worker as usize);
            Ok(())
        }
        Move::Take { worker } => run.take(worker as usize),
        Move::Expand { worker, place } => run.expand(worker as usize, place as usize),
        Move::Commit { worker } => run.commit(worker as usize),
        Move::Redeem { worker } => {
            run.redeem(worker as usize);
            Ok(())
        }
        Move::Push { worker } => run.push(worker as usize),
        Move::Offer { worker } => {
            run.offer(worker as usize);
            Ok(())
        }
        Move::Load { worker } => {
            run.load(worker as usize);
            Ok(())
        }
        Move::Pull => run.pull(),
        Move::Ack => {
            run.ack();
            Ok(())
        }
        Move::Resume { .. } | Move::Flush | Move::Stop(_) => Ok(()),
    }
}

/// Returns the stop that a move is, if it falls in one of the calls that append what was pulled, or
/// before them.
pub(crate) fn stop_in<L: Ledger>(run: &Run<'_, L>, next: Move) -> Option<StopAt>
    ensures { result ≡ stop_in run.now.group next }
{
    let calls = if run.has_pulled() { 4 } else { 0 };
    match next {
        Move::Stop(at) if at.call <= calls => Some(at),
        _ => None,
    }
}

/// Makes the move `next`, which does not end the run; one that is not possible changes nothing.
///
/// # Errors
/// - `Full` or `NoMemory`, or what the journal answers.
pub(crate) fn step<L: Ledger>(
    run: &mut Run<'_, L>,
    journal: &mut Journal<MemoryDisk>,
    next: Move,
) -> Result<(), ReplayFault>
    requires runs { (t : Task) × (digest : List ℕ) × (f : File)
        × Runs t digest f journal.old run.old }
    requires no_stop { stop_in run.old.group next ≡ None }
    ensures { (t : Task) (digest : List ℕ) (f : File) → Runs t digest f journal.old run.old
        → OnOk result (Goes t digest f run.old next journal.new run.new) }
{
    match next {
        Move::Flush => run.flush(journal),
        next => turn(run, next),
    }
}
