//! How a run ends: all but the disk is lost, and each ticket and group is spent.
ghost use Rattle.std.specs.Prelude.{◌≡◌, ◌≤◌, List, ℕ, true, IfOk};
ghost use Rattle.hd_task.specs.declared.task.Task.{Task};
ghost use Rattle.hd_world.specs.Stops.{File};
ghost use Rattle.hd_replay.specs.Journals.{Runs, StandsAs, Stopping, StopsAs, calls_in};
ghost use Rattle.hd_replay.specs.Playing.{IsStop};

use crate::fault::{ReplayFault, told_of_journal};
use crate::run::{Out, Run};
use crate::seat::Seat;
use crate::settling::settled;
use hd_book::Book;
use hd_journal::{DIGEST_LEN, Group, Journal, JournalError};
use hd_store::MemoryDisk;
use hd_world::StopAt;
use std::alloc::Global;
use std::sync::ledger::Ledger;

/// Spends the group in `out`, if there is one.
fn end_out(out: Out) {
    match out {
        Out::Nothing => {}
        Out::Pulled(group) => drop(group.parts()),
        Out::Flushed(flushed) => drop(flushed.parts()),
    }
}

/// Ends each of `seats`: spends its tickets in `book`, and drops the rest.
fn end_seats<'t, L: Ledger>(book: &mut Book<'t, L>, seats: Vec<Seat<'t>>)
    requires { book.old.batches.halted ≡ true }
{
    let mut seats = seats;
    while let Some(seat) = seats.pop() {
        seat.end(book);
    }
    seats.destroy_empty();
}

/// Ends `run`: spends the group that is out and all tickets, and drops the rest.
pub(crate) fn end<L: Ledger>(run: Run<'_, L>) {
    let Run {
        mut book,
        share,
        lookup,
        seats,
        mailboxes,
        bound: _,
        out,
        rooms: _,
    } = run;
    end_out(out);
    book.halt();
    end_seats(&mut book, seats);
    drop(book);
    drop(share);
    drop(lookup);
    drop(mailboxes);
}

/// Returns the journal that stands on a disk, where the machine will stop in a call.
///
/// # Errors
/// - `NoMemory`, or what the journal answers.
fn open_until(
    alloc: Global,
    digest: &[u8; DIGEST_LEN],
    journal: Journal<MemoryDisk>,
    at: StopAt,
) -> Result<Journal<MemoryDisk>, ReplayFault>
    requires { 1 ≤ at.call }
    ensures { (f : File) → StandsAs digest.now f journal
        → IfOk result (Stopping digest.now f at.call) }
{
    let mut disk = settled(alloc, journal.into_store(), at.byte)?;
    disk.stop_at(u64::from(at.call));
    match Journal::open(alloc, disk, digest) {
        Ok(journal) => Ok(journal),
        Err((_, error)) => Err(told_of_journal(error)),
    }
}

/// Returns the disk that is left if the machine stops in one of the calls that append `group`.
///
/// # Errors
/// - `NoMemory`, or what the journal answers.
fn append_until(
    alloc: Global,
    journal: Journal<MemoryDisk>,
    group: Group,
    byte: u8,
) -> Result<MemoryDisk, ReplayFault>
    ensures { (digest : List ℕ) (f : File) (call : ℕ) → 1 ≤ call → call ≤ 4
        → Stopping digest f call journal
        → IfOk result (StopsAs digest f group call byte) }
{
    let mut journal = journal;
    match journal.append(group) {
        Ok(flushed) => {
            drop(flushed.parts());
            Ok(settled(alloc, journal.into_store(), byte)?)
        }
        Err((group, JournalError::Device)) => {
            drop(group.parts());
            Ok(settled(alloc, journal.into_store(), byte)?)
        }
        Err((group, error)) => {
            drop(group.parts());
            Err(told_of_journal(error))
        }
    }
}

/// Returns a stop in a call that appends a group to a journal: what it leaves.
///
/// # Errors
/// - `NoMemory`, or what the journal answers.
fn stop_within(
    alloc: Global,
    digest: &[u8; DIGEST_LEN],
    journal: Journal<MemoryDisk>,
    group: Group,
    at: StopAt,
) -> Result<MemoryDisk, ReplayFault>
    requires some { 1 ≤ at.call }
    requires few { at.call ≤ 4 }
    ensures { (f : File) → StandsAs digest.now f journal
        → IfOk result (StopsAs digest.now f group at.call at.byte) }
{
    match open_until(alloc, digest, journal, at) {
        Ok(journal) => append_until(alloc, journal, group, at.byte),
        Err(fault) => {
            drop(group.parts());
            Err(fault)
        }
    }
}

/// Returns a stop, in a call of an append if one is named: what it leaves.
///
/// # Errors
/// - `NoMemory`, or what the journal answers.
pub(crate) fn stop<L: Ledger>(
    alloc: Global,
    digest: &[u8; DIGEST_LEN],
    run: Run<'_, L>,
    journal: Journal<MemoryDisk>,
    at: StopAt,
) -> Result<MemoryDisk, ReplayFault>
    requires falls { at.call ≤ calls_in run.group }
    ensures { (t : Task) (f : File) → Runs t digest.now f journal run.entry
        → IfOk result (IsStop digest.now f run.entry at) }
{
    let mut run = run;
    let out = run.take_out();
    end(run);
    if at.call == 0 {
        end_out(out);
        return Ok(settled(alloc, journal.into_store(), at.byte)?);
    }
    match out {
        Out::Pulled(group) => stop_within(alloc, digest, journal, group, at),
        out => {
            end_out(out);
            Ok(settled(alloc, journal.into_store(), at.byte)?)
        }
    }
}
