//! Probes of a section's book.
ghost use Rattle.std.specs.Prelude.{◌≡◌, ◌<◌, true};
ghost use Rattle.std.specs.List.{AllByRecursion};
ghost use Rattle.hd_entries.specs.Settling.{IsOutcomeOfTask};

use crate::desk::Desk;
use crate::journal::group_in;
use crate::readings::read;
use crate::texts::{add, kid_text, told};
use hd_book::{Book, Group, NotOut, Redeemed, Room, Ticket};
use hd_journal::Journal;
use hd_node::{Batch, Child, Outcome};
use hd_store::MemoryDisk;
use hd_task::Kid;
use std::alloc::{AllocError, Global};
use std::ops::Range;
use std::sync::ledger::{Ledger, Share};

/// Commits a batch and holds its ticket: the numbers of its entries, or the refusal.
pub fn commit<'t, L: Ledger>(
    alloc: Global,
    book: &mut Book<'t, L>,
    share: &mut Share<L>,
    held: &mut Vec<Ticket>,
    batch: Batch<'t>,
) -> Result<Option<String>, AllocError>
    requires of_task { AllByRecursion (IsOutcomeOfTask book.old.state.task) batch.outcomes }
    requires part { 0 < share.old.parts }
    ensures task { book.new.state.task ≡ book.old.state.task }
    ensures part { 0 < share.new.parts }
{
    if held.len() >= held.capacity() {
        return Ok(None);
    }
    match book.commit(share, batch) {
        Ok(ticket) => {
            let range = ticket.range();
            held.push_reserved(ticket);
            Ok(Some(format!(in alloc; "entries {}..{}", range.start, range.end)?))
        }
        Err((batch, refusal)) => {
            drop(batch);
            Ok(Some(format!(in alloc; "{refusal}")?))
        }
    }
}

// ---- groups

/// Appends a group to the journal and acknowledges it, or hands it back.
fn append<L: Ledger>(
    alloc: Global,
    book: &mut Book<L>,
    journal: &mut Journal<MemoryDisk>,
    group: Group,
) -> Result<Option<String>, AllocError>
    ensures { book.new.state.task ≡ book.old.state.task }
{
    let first = journal.entries().len();
    match journal.append(group) {
        Ok(flushed) => match book.acknowledge(flushed) {
            Ok(kids) => {
                drop(kids);
                let end = journal.entries().len();
                Ok(Some(format!(in alloc; "entries {first}..{end}")?))
            }
            Err(NotOut) => told(alloc, "38 NotOut"),
        },
        Err((group, error)) => {
            let _ = book.hand_back(group);
            Ok(Some(format!(in alloc; "{error}, handed back")?))
        }
    }
}

/// Takes the group that waits, appends it and acknowledges it: the numbers of its entries.
fn flush<L: Ledger>(book: &mut Book<L>, desk: &mut Desk) -> Result<Option<String>, AllocError>
    ensures task { book.new.state.task ≡ book.old.state.task }
    ensures same { desk.new.task.now ≡ desk.old.task.now }
{
    let alloc = desk.alloc;
    let Some(journal) = desk.journal.as_mut() else {
        return Ok(None);
    };
    let room = Room::new(alloc)?;
    match book.take_pending(room) {
        Ok(group) => append(alloc, book, journal, group),
        Err(room) => {
            drop(room);
            told(alloc, "nothing waits")
        }
    }
}

/// Hands back another group, if there is one, in the place of the one that is out, and then that.
fn exchange<L: Ledger>(book: &mut Book<L>, group: Group, other: Option<Group>) -> &'static str
    ensures { book.new.state.task ≡ book.old.state.task }
{
    let refused = match other {
        Some(other) => book.hand_back(other).is_err(),
        None => false,
    };
    let back = book.hand_back(group).is_ok();
    match (refused, back) {
        (true, true) => "38 NotOut",
        (false, true) => "handed back",
        _ => "lost",
    }
}

/// Takes the group that waits, and hands it back, after another one that `text` may name.
fn hand_back<L: Ledger>(
    alloc: Global,
    book: &mut Book<L>,
    text: &str,
) -> Result<Option<String>, AllocError>
    ensures { book.new.state.task ≡ book.old.state.task }
{
    let room = Room::new(alloc)?;
    let other = group_in(alloc, text)?;
    match book.take_pending(room) {
        Ok(group) => told(alloc, exchange(book, group, other)),
        Err(room) => {
            drop(room);
            if let Some(other) = other {
                let _ = other.parts();
            }
            told(alloc, "nothing waits")
        }
    }
}

// ---- tickets

/// Spends a ticket of a book that is halted.
fn give_up<L: Ledger>(book: &mut Book<L>, ticket: Ticket)
    requires { book.old.batches.halted ≡ true }
    ensures task { book.new.state.task ≡ book.old.state.task }
    ensures halted { book.new.batches.halted ≡ true }
{
    match book.redeem(ticket) {
        Ok(Redeemed::Released(receipt, parcels)) => {
            drop(parcels);
            let _ = book.present(receipt);
        }
        Ok(Redeemed::Void) => {}
        Ok(Redeemed::NotYet(_ticket)) => unreachable!(),
        Err(_) => {}
    }
}

/// Halts the book, and spends all tickets that are held.
pub fn end<L: Ledger>(book: &mut Book<L>, held: Vec<Ticket>) {
    let mut held = held;
    book.halt();
    while let Some(ticket) = held.pop() {
        give_up(book, ticket);
    }
    held.destroy_empty();
}

/// Puts a ticket back to its place.
fn put_back<L: Ledger>(book: &mut Book<L>, held: &mut Vec<Ticket>, place: usize, ticket: Ticket)
    ensures { book.new.state.task ≡ book.old.state.task }
{
    if held.len() >= held.capacity() || place > held.len() {
        book.halt();
        give_up(book, ticket);
        return;
    }
    held.push_reserved(ticket);
    let part = &mut held[place..];
    part.rotate_right(1);
}

/// Adds the successors of an entry, with their costs.
fn add_children(
    alloc: Global,
    list: &mut String,
    entry: u64,
    children: &[Child],
) -> Result<(), AllocError> {
    for child in children {
        let kid = Kid {
            parent: entry,
            action: child.action(),
        };
        let kid = kid_text(alloc, kid)?;
        let text = format!(in alloc; "{kid} cost {}", child.cost())?;
        add(list, text.as_str())?;
    }
    Ok(())
}

/// Writes what a ticket releases: its entries, and their successors with their costs. The first of
/// the expansions among the outcomes is the entry of number `first`.
fn released(
    alloc: Global,
    range: Result<Range<u64>, NotOut>,
    first: u64,
    outcomes: &[Outcome],
) -> Result<Option<String>, AllocError> {
    let Ok(range) = range else {
        return told(alloc, "38 NotOut");
    };
    let mut list = format!(in alloc; "entries {}..{}", range.start, range.end)?;
    let mut entry = first;
    for outcome in outcomes {
        if let Outcome::Expanded(expansion) = outcome {
            add_children(alloc, &mut list, entry, expansion.children())?;
            entry = entry.saturating_add(1);
        }
    }
    Ok(Some(list))
}

/// Redeems the ticket at a place of those that are held. One that comes back stands there again.
fn redeem<L: Ledger>(
    alloc: Global,
    book: &mut Book<L>,
    held: &mut Vec<Ticket>,
    place: usize,
) -> Result<Option<String>, AllocError>
    ensures { book.new.state.task ≡ book.old.state.task }
{
    if place >= held.len() {
        return Ok(None);
    }
    let ticket = held.remove(place);
    match book.redeem(ticket) {
        Ok(Redeemed::Released(receipt, parcels)) => {
            let range = book.present(receipt);
            let (first, outcomes) = parcels.into_outcomes();
            released(alloc, range, first, &outcomes)
        }
        Ok(Redeemed::NotYet(ticket)) => {
            put_back(book, held, place, ticket);
            told(alloc, "not yet")
        }
        Ok(Redeemed::Void) => told(alloc, "void"),
        Err(NotOut) => told(alloc, "38 NotOut"),
    }
}

/// Does what needs no batch: `flush`, `return`, `redeem N`, `halt`, or a reading.
pub fn act<L: Ledger>(
    book: &mut Book<L>,
    desk: &mut Desk,
    verb: &str,
    rest: &str,
) -> Result<Option<String>, AllocError>
    ensures task { book.new.state.task ≡ book.old.state.task }
    ensures same { desk.new.task.now ≡ desk.old.task.now }
{
    let alloc = desk.alloc;
    match verb {
        "flush" => flush(book, desk),
        "return" => hand_back(alloc, book, rest),
        "redeem" => match rest.parse::<usize>() {
            Ok(place) => redeem(alloc, book, &mut desk.held, place),
            Err(_) => Ok(None),
        },
        "halt" => {
            book.halt();
            told(alloc, "halted")
        }
        _ => read(alloc, book, verb, rest),
    }
}
