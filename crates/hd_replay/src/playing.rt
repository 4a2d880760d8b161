//! Schedules played, from one resumption to the next.
ghost use Rattle.std.specs.Prelude.{◌≡◌, ◌+◌, ◌≤◌, ◌<◌, ◌∷◌, List, [], ℕ, None, length, drop, IfOk};
ghost use Rattle.hd_task.specs.declared.task.Task.{Task};
ghost use Rattle.hd_zobrist.specs.declared.owners.TheConstants.{MAX_WORKERS};
ghost use Rattle.hd_world.specs.declared.moves.Move.TheVariants.{Resume};
ghost use Rattle.hd_store.specs.MemoryDisk.{IsStarted};
ghost use Rattle.hd_world.specs.Stops.{File};
ghost use Rattle.hd_world.specs.World.{Stopped as Rests, Running, MayResume, recovered};
ghost use Rattle.hd_replay.specs.Journals.{Runs, StandsAs, calls_in};
ghost use Rattle.hd_replay.specs.Playing.{IsEndOf, IsEndedBy, EndsTo, PlaysTo};

use crate::ending::{end, stop};
use crate::fault::ReplayFault;
use crate::opening::{OpenedJournal, open, open_for};
use crate::report::Report;
use crate::run::Run;
use crate::saying::says_of;
use crate::starting::run_of;
use crate::stepping::{step, stop_in};
use hd_journal::{DIGEST_LEN, Journal};
use hd_store::MemoryDisk;
use hd_task::Task;
use hd_world::{Move, StopAt};
use std::alloc::Global;
use std::sync::ledger::{Blank, Ledger};

/// What moves come to.
#[derive(Drop)]
pub(crate) enum Played {
    /// A stop fell, and left this disk, after so many moves.
    Stopped(MemoryDisk, usize),
    /// All are made, and a search runs: the disk that it leaves, and its report.
    Ended(MemoryDisk, Report),
    /// A call of the parts did not go well.
    Failed(ReplayFault),
}

/// Returns the report of a run, and the disk that it leaves.
///
/// # Errors
/// - `NoMemory`: there is no room for a plan.
fn report<L: Ledger>(
    run: Run<'_, L>,
    journal: Journal<MemoryDisk>,
) -> Result<(MemoryDisk, Report), ReplayFault>
    ensures { (t : Task) (digest : List ℕ) (f : File) → Runs t digest f journal run.entry
        → IfOk result (λ r. IsEndOf t digest f run.entry r.0 r.1) }
{
    let counts = run.book.counts();
    let said = says_of(&run.book);
    end(run);
    let disk = journal.into_store();
    let bytes = disk.bytes().len() as u64;
    match said {
        Ok(verdict) => Ok((
            disk,
            Report {
                expansions: counts.entries,
                acknowledged: counts.acknowledged,
                bytes,
                verdict,
            },
        )),
        Err(error) => {
            drop(disk);
            Err(ReplayFault::from(error))
        }
    }
}

/// Returns what a run comes to at the end of moves.
fn ended<L: Ledger>(run: Run<'_, L>, journal: Journal<MemoryDisk>) -> Played
    ensures { (t : Task) (digest : List ℕ) (f : File) → Runs t digest f journal run.entry
        → EndsTo t digest f run.entry result }
{
    match report(run, journal) {
        Ok((disk, report)) => Played::Ended(disk, report),
        Err(fault) => Played::Failed(fault),
    }
}

/// Returns the move of this number.
pub(crate) fn move_at(moves: &[Move], number: usize) -> Move
    requires { number < length moves.now }
    ensures { drop number moves.now ≡ result ∷ drop (number + 1) moves.now }
{
    moves[number]
}

/// Returns the moves from this number on.
pub(crate) fn moves_from(moves: &[Move], number: usize) -> &[Move]
    requires { number ≤ length moves.now }
    ensures { result.now ≡ drop number moves.now }
{
    &moves[number..]
}

/// Plays moves of a run, up to a stop or to their end.
fn play<L: Ledger>(
    alloc: Global,
    digest: &[u8; DIGEST_LEN],
    run: Run<'_, L>,
    journal: Journal<MemoryDisk>,
    moves: &[Move],
) -> Played
    requires runs { (t : Task) × (f : File) × Runs t digest.now f journal run }
    ensures { (t : Task) (f : File) → Runs t digest.now f journal run.entry
        → PlaysTo t digest.now (Running f run.entry) moves.now moves.now result }
{
    let mut run = run;
    let mut journal = journal;
    for number in 0..moves.len() {
        let next = move_at(moves, number);
        if let Some(at) = stop_in(&run, next) {
            return match stop(alloc, digest, run, journal, at) {
                Ok(disk) => Played::Stopped(disk, number + 1),
                Err(fault) => Played::Failed(fault),
            };
        }
        if let Err(fault) = step(&mut run, &mut journal, next) {
            end(run);
            drop(journal);
            return Played::Failed(fault);
        }
    }
    ended(run, journal)
}

/// Plays moves over a journal, from its entries on.
fn play_over<L: Ledger>(
    blank: Blank,
    alloc: Global,
    task: &Task,
    digest: &[u8; DIGEST_LEN],
    journal: Journal<MemoryDisk>,
    workers: usize,
    moves: &[Move],
) -> Played
    requires name { blank.name ≡ L.name }
    requires parts { blank.parts ≡ L.parts }
    requires part { 0 < L.parts }
    requires some { 1 ≤ workers }
    requires few { workers ≤ MAX_WORKERS }
    requires stands { (f : File) × StandsAs digest.now f journal }
    ensures { (f : File) → StandsAs digest.now f journal
        → PlaysTo task.now digest.now (recovered task.now digest.now workers f)
        moves.now moves.now result }
{
    match run_of::<L>(blank, alloc, task, &journal, workers) {
        Ok(run) => play(alloc, digest, run, journal, moves),
        Err(fault) => Played::Failed(fault),
    }
}

/// Plays a resumption with so many workers, and the moves after it, up to a stop or to their end.
pub(crate) fn play_from<L: Ledger>(
    blank: Blank,
    alloc: Global,
    task: &Task,
    digest: &[u8; DIGEST_LEN],
    disk: MemoryDisk,
    workers: u32,
    until: Option<StopAt>,
    moves: &[Move],
) -> Played
    requires name { blank.name ≡ L.name }
    requires parts { blank.parts ≡ L.parts }
    requires part { 0 < L.parts }
    requires may { MayResume workers until }
    requires starts { (content : List ℕ) × IsStarted disk content }
    ensures { (content : List ℕ) → IsStarted disk content
        → PlaysTo task.now digest.now (Rests content) (Resume workers until ∷ moves.now)
        moves.now result }
{
    match open_for(alloc, digest, disk, until) {
        Ok(OpenedJournal::Whole(journal)) => {
            play_over::<L>(blank, alloc, task, digest, journal, workers as usize, moves)
        }
        Ok(OpenedJournal::Cut(disk)) => Played::Stopped(disk, 0),
        Err(fault) => Played::Failed(fault),
    }
}

/// Plays a resumption with one worker, and nothing after it: the report, and the disk.
///
/// # Errors
/// - `NoMemory`, or what the journal answers, or why no search goes on from its entries.
pub(crate) fn play_last<L: Ledger>(
    blank: Blank,
    alloc: Global,
    task: &Task,
    digest: &[u8; DIGEST_LEN],
    disk: MemoryDisk,
) -> Result<(MemoryDisk, Report), ReplayFault>
    requires name { blank.name ≡ L.name }
    requires parts { blank.parts ≡ L.parts }
    requires part { 0 < L.parts }
    ensures { (content : List ℕ) → IsStarted disk content
        → IfOk result (λ r. IsEndedBy task.now digest.now (Rests content)
        (Resume 1 None ∷ []) r.0 r.1) }
{
    let journal = open(alloc, digest, disk)?;
    let run = run_of::<L>(blank, alloc, task, &journal, 1)?;
    report(run, journal)
}
