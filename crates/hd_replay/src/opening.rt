//! How a resumption opens the journal on a disk.
ghost use Rattle.std.specs.Prelude.{◌≡◌, ◌≤◌, List, ℕ, Some, None, IfOk, IfSome};
ghost use Rattle.hd_store.specs.MemoryDisk.{IsStarted};
ghost use Rattle.hd_world.specs.Stops.{File};
ghost use Rattle.hd_replay.specs.Journals.{StandsAs};
ghost use Rattle.hd_replay.specs.Opening.{OpensBefore, IsOpenedBy};

use crate::fault::{ReplayFault, told_of_journal};
use crate::settling::settled;
use hd_journal::{DIGEST_LEN, Journal, JournalError};
use hd_store::MemoryDisk;
use hd_world::StopAt;
use std::alloc::Global;

/// What an opening comes to.
#[derive(Drop)]
pub(crate) enum OpenedJournal {
    /// The journal is open.
    Whole(Journal<MemoryDisk>),
    /// A stop fell in one of its calls, and left this disk.
    Cut(MemoryDisk),
}

/// Opens the journal on a disk.
///
/// # Errors
/// - What the journal answers.
pub(crate) fn open(
    alloc: Global,
    digest: &[u8; DIGEST_LEN],
    disk: MemoryDisk,
) -> Result<Journal<MemoryDisk>, ReplayFault>
    ensures { (content : List ℕ) → IsStarted disk content
        → IfOk result (OpensBefore digest.now content None) }
{
    match Journal::open(alloc, disk, digest) {
        Ok(journal) => Ok(journal),
        Err((_, error)) => Err(told_of_journal(error)),
    }
}

/// Opens a journal again that was opened just now, so that nothing is planned any more for its
/// disk.
///
/// # Errors
/// - `NoMemory`, or what the journal answers.
fn open_again(
    alloc: Global,
    digest: &[u8; DIGEST_LEN],
    journal: Journal<MemoryDisk>,
) -> Result<Journal<MemoryDisk>, ReplayFault>
    ensures { (f : File) → StandsAs digest.now f journal → IfOk result (StandsAs digest.now f) }
{
    let disk = settled(alloc, journal.into_store(), 0)?;
    match Journal::open(alloc, disk, digest) {
        Ok(journal) => Ok(journal),
        Err((_, error)) => Err(told_of_journal(error)),
    }
}

/// Opens the journal on a disk, where the machine stops in one of the calls, if there are so many.
///
/// # Errors
/// - `NoMemory`, or what the journal answers.
fn open_until(
    alloc: Global,
    digest: &[u8; DIGEST_LEN],
    disk: MemoryDisk,
    at: StopAt,
) -> Result<OpenedJournal, ReplayFault>
    requires { 1 ≤ at.call }
    ensures { (content : List ℕ) → IsStarted disk content
        → IfOk result (IsOpenedBy digest.now content (Some at)) }
{
    let mut disk = disk;
    disk.stop_at(u64::from(at.call));
    match Journal::open(alloc, disk, digest) {
        Ok(journal) => Ok(OpenedJournal::Whole(open_again(alloc, digest, journal)?)),
        Err((disk, JournalError::Device)) => Ok(OpenedJournal::Cut(settled(alloc, disk, at.byte)?)),
        Err((_, error)) => Err(told_of_journal(error)),
    }
}

/// Opens the journal on a disk; where a stop is named, the machine stops in that call of it, if
/// there are so many.
///
/// # Errors
/// - `NoMemory`, or what the journal answers.
pub(crate) fn open_for(
    alloc: Global,
    digest: &[u8; DIGEST_LEN],
    disk: MemoryDisk,
    stop: Option<StopAt>,
) -> Result<OpenedJournal, ReplayFault>
    requires { IfSome stop (λ at. 1 ≤ at.call) }
    ensures { (content : List ℕ) → IsStarted disk content
        → IfOk result (IsOpenedBy digest.now content stop) }
{
    match stop {
        Some(at) => open_until(alloc, digest, disk, at),
        None => Ok(OpenedJournal::Whole(open(alloc, digest, disk)?)),
    }
}
