//! The call that plays a schedule.
ghost use Rattle.std.specs.Prelude.{◌≡◌, ◌∷◌, ◌⊎◌, List, [], ℕ, IfOk, IfSome, IfNone, OnErr};
ghost use Rattle.hd_world.specs.declared.moves.Move.TheVariants.{Resume};
ghost use Rattle.hd_store.specs.Device.{content_of};
ghost use Rattle.hd_store.specs.MemoryDisk.{device_of, IsStarted, IsStoppedDevice};
ghost use Rattle.hd_world.specs.Filling.{Filled};
ghost use Rattle.hd_world.specs.World.{Stopped as Rests, MayResume};
ghost use Rattle.hd_replay.specs.Playing.{DoesNothing, IsReported, PlaysTo};

use crate::fault::ReplayFault;
use crate::playing::{Played, move_at, moves_from, play_from, play_last};
use crate::report::Report;
use crate::settling::restarted;
use hd_journal::DIGEST_LEN;
use hd_store::MemoryDisk;
use hd_task::Task;
use hd_world::{Move, StopAt};
use hd_zobrist::MAX_WORKERS;
use std::alloc::Global;
use std::marker::Brand;
use std::sync::ledger::Blank;

/// Returns `workers` and `stop`, if a resumption with them is possible.
fn possible(workers: u32, stop: Option<StopAt>) -> Option<(u32, Option<StopAt>)>
    ensures workers { IfSome result (λ r. r.0 ≡ workers) }
    ensures stop { IfSome result (λ r. r.1 ≡ stop) }
    ensures may { IfSome result (λ r. MayResume r.0 r.1) }
    ensures none { IfNone result (MayResume workers stop → ⊥) }
{
    if workers == 0 || workers as usize > MAX_WORKERS {
        return None;
    }
    match stop {
        Some(at) => {
            if at.call == 0 {
                None
            } else {
                Some((workers, Some(at)))
            }
        }
        None => Some((workers, None)),
    }
}

/// Returns the workers of a resumption that is possible, and where it stops. None where a move does
/// nothing while nothing runs.
fn resumption_in(next: Move) -> Option<(u32, Option<StopAt>)>
    ensures some { IfSome result (λ r. next ≡ Resume r.0 r.1) }
    ensures may { IfSome result (λ r. MayResume r.0 r.1) }
    ensures none { IfNone result (DoesNothing next) }
{
    match next {
        Move::Resume { workers, stop } => match possible(workers, stop) {
            Some(resumption) => Some(resumption),
            None => None,
        },
        _ => None,
    }
}

/// Plays the first of some moves while nothing runs; where it is a resumption, also those after
/// it, up to a stop or to their end.
fn play_next(
    alloc: Global,
    task: &Task,
    digest: &[u8; DIGEST_LEN],
    disk: MemoryDisk,
    next: Move,
    moves: &[Move],
) -> Played
    requires starts { (content : List ℕ) × IsStarted disk content }
    ensures { (content : List ℕ) → IsStarted disk content
        → PlaysTo task.now digest.now (Rests content) (next ∷ moves.now) moves.now result }
{
    match resumption_in(next) {
        Some((workers, until)) => play_from::<Brand>(
            Blank::new(1),
            alloc,
            task,
            digest,
            disk,
            workers,
            until,
            moves,
        ),
        None => Played::Stopped(disk, 0),
    }
}

/// Plays a schedule on a disk that was started again: its report, and the disk.
///
/// # Errors
/// - Those of [`replay`].
fn play_all(
    alloc: Global,
    task: &Task,
    digest: &[u8; DIGEST_LEN],
    disk: MemoryDisk,
    moves: &[Move],
) -> Result<(MemoryDisk, Report), ReplayFault>
    requires starts { (content : List ℕ) × IsStarted disk content }
    ensures { (content : List ℕ) → IsStarted disk content
        → IfOk result (λ r. IsReported task.now digest.now content moves.now
        (content_of (device_of r.0)) r.1) }
{
    let mut held = disk;
    let mut at = 0;
    while at < moves.len() {
        let next = move_at(moves, at);
        let rest = moves_from(moves, at + 1);
        match play_next(alloc, task, digest, held, next, rest) {
            Played::Stopped(left, count) => {
                held = left;
                at += 1 + count;
            }
            Played::Ended(left, report) => return Ok((left, report)),
            Played::Failed(fault) => return Err(fault),
        }
    }
    play_last::<Brand>(Blank::new(1), alloc, task, digest, held)
}

/// Plays a schedule on a disk, if nothing runs at first: what stands at its end. One that ends
/// while nothing runs is followed by a resumption with one worker. What was on the disk and not
/// sure reads 0 at first. After a report nothing is planned of the disk, and it counts no failure.
///
/// # Errors
/// - `NoMemory`.
/// - `Full`: the entries would be more than a journal may have.
/// - `Journal`, `Recovery`: what the journal answers of what was on the disk, or why no search
///   resumes from its entries. From an empty disk neither comes (tested).
pub fn replay(
    alloc: Global,
    task: &Task,
    digest: &[u8; DIGEST_LEN],
    disk: &mut MemoryDisk,
    moves: &[Move],
) -> Result<Report, ReplayFault>
    // What is on the disk, where each byte that is not sure reads 0, is what the schedule begins
    // with.
    ensures reported { (content : List ℕ) → Filled (device_of disk.old) 0 content
        → IfOk result (IsReported task.now digest.now content moves.now
        (content_of (device_of disk.new))) }
    // So it begins with nothing on an empty disk.
    ensures empty { IsStarted disk.old [] → IfOk result (IsReported task.now digest.now []
        moves.now (content_of (device_of disk.new))) }
    // After an error the disk is as it was, or as a stop leaves it: no byte that was sure is lost.
    ensures err { OnErr result ((device_of disk.new ≡ device_of disk.old)
        ⊎ IsStoppedDevice (device_of disk.old) 0 (device_of disk.new)) }
{
    let held = restarted(alloc, disk)?;
    let (left, report) = play_all(alloc, task, digest, held, moves)?;
    *disk = left;
    Ok(report)
}
