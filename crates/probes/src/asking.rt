//! Who answers a question, and the book of a section.
ghost use Rattle.std.specs.Prelude.{◌≡◌, ◌<◌};
ghost use Rattle.hd_task.specs.declared.plan.TheConstants.{ROOT_PARENT};

use crate::book::{act, commit, end};
use crate::desk::{Desk, Setting, desk_of};
use crate::journal::ask_journal;
use crate::outcomes::batch_of;
use crate::playing::{Line, verb_of};
use crate::states::ask_state;
use crate::tally::Tally;
use crate::texts::{add, kid_text, kids_of};
use crate::together::ask_together;
use crate::tokens::beginnings;
use hd_book::Book;
use hd_entries::Unheard;
use hd_task::{Kid, ROOT_PARENT, Task};
use std::alloc::{AllocError, Global};
use std::marker::Brand;
use std::sync::ledger::{Blank, Ledger, Share};

// ---- resumed books

/// Writes how many successors a resumed book has generated, and those that are left with their
/// costs.
fn left_text<L: Ledger>(alloc: Global, book: &Book<L>) -> Result<String, AllocError> {
    let posted = book.counts().posted;
    let mut list = format!(in alloc; "posted {posted}")?;
    for place in 0..posted {
        if let Some(parcel) = book.open_at(place)? {
            let kid = kid_text(alloc, parcel.kid())?;
            let text = format!(in alloc; "{kid} cost {}", parcel.cost())?;
            add(&mut list, text.as_str())?;
        }
    }
    Ok(list)
}

/// Resumes a book from entries: what is left, or the refusal with the number of the first bad
/// entry.
fn resumed<L: Ledger>(
    blank: Blank,
    alloc: Global,
    task: &Task,
    most: u64,
    kids: &[Kid],
) -> Result<String, AllocError>
    requires name { blank.name ≡ L.name }
    requires parts { blank.parts ≡ L.parts }
    requires most { most < ROOT_PARENT }
{
    match Book::<L>::resume(alloc, blank, task, kids, &Unheard, most) {
        Ok((book, share)) => {
            let text = left_text(alloc, &book);
            drop(share);
            drop(book);
            text
        }
        Err((number, refusal)) => format!(in alloc; "{refusal} at {number}"),
    }
}

/// Answers `resume MOST: KIDS`.
fn resume(alloc: Global, task: &Task, text: &str) -> Result<Option<String>, AllocError> {
    let Some((most, kids)) = text.split_once(": ") else {
        return Ok(None);
    };
    match (most.parse::<u64>(), kids_of(alloc, kids)?) {
        (Ok(most), Some(kids)) if most < ROOT_PARENT => {
            Ok(Some(resumed::<Brand>(Blank::new(1), alloc, task, most, &kids)?))
        }
        _ => Ok(None),
    }
}

// ---- sections

/// Answers a question: of the book, of a state, of the journal, or of the domain.
fn ask<'t, L: Ledger>(
    book: &mut Book<'t, L>,
    share: &mut Share<L>,
    desk: &mut Desk<'t>,
    question: &str,
) -> Result<Option<String>, AllocError>
    requires task { book.old.state.task ≡ desk.old.task.now }
    requires part { 0 < share.old.parts }
    ensures task { book.new.state.task ≡ book.old.state.task }
    ensures part { 0 < share.new.parts }
    ensures same { desk.new.task.now ≡ desk.old.task.now }
{
    let (verb, rest) = verb_of(question);
    match verb {
        "commit" => match batch_of(desk.alloc, desk.task, rest)? {
            Some(batch) => commit(desk.alloc, book, share, &mut desk.held, batch),
            None => Ok(None),
        },
        "hash" | "packed" | "estimate" | "goal" | "owner" | "apply" => {
            ask_state(desk.alloc, desk.task, verb, rest)
        }
        "together" => ask_together(desk.alloc, desk.task, rest),
        "bytes" | "append" | "open" | "disk" => ask_journal(desk, verb, rest),
        "resume" => resume(desk.alloc, desk.task, rest),
        "beginnings" => beginnings(desk.alloc, desk.domain, rest),
        _ => act(book, desk, verb, rest),
    }
}

/// Asks the question of each line, and judges the answer.
fn ask_all<'t, L: Ledger>(
    book: &mut Book<'t, L>,
    share: &mut Share<L>,
    desk: &mut Desk<'t>,
    lines: &[Line],
    tally: &mut Tally,
) -> Result<(), AllocError>
    requires task { book.old.state.task ≡ desk.old.task.now }
    requires part { 0 < share.old.parts }
{
    for line in lines {
        let (question, wanted) = line.parts();
        let got = ask(book, share, desk, question)?;
        tally.judge_answer(line, wanted, &got)?;
    }
    Ok(())
}

/// Plays lines with a book, and spends the tickets that are held then.
fn play_with<'t, L: Ledger>(
    book: &mut Book<'t, L>,
    share: &mut Share<L>,
    desk: Desk<'t>,
    lines: &[Line],
    tally: &mut Tally,
) -> Result<(), AllocError>
    requires task { book.old.state.task ≡ desk.task.now }
    requires part { 0 < share.old.parts }
{
    let mut desk = desk;
    let played = ask_all(book, share, &mut desk, lines, tally);
    let Desk {
        alloc: _,
        task: _,
        domain: _,
        digest: _,
        journal,
        held,
    } = desk;
    drop(journal);
    end(book, held);
    played
}

/// Plays lines with a fresh book and a fresh journal.
fn play<L: Ledger>(
    blank: Blank,
    alloc: Global,
    setting: &Setting,
    lines: &[Line],
    tally: &mut Tally,
) -> Result<(), AllocError>
    requires name { blank.name ≡ L.name }
    requires parts { blank.parts ≡ L.parts }
    requires some { 0 < L.parts }
    requires most { setting.now.most < ROOT_PARENT }
{
    let (mut book, mut share) = Book::<L>::new(alloc, blank, setting.task, setting.most)?;
    let desk = desk_of(alloc, setting)?;
    play_with(&mut book, &mut share, desk, lines, tally)
}

/// Plays the lines of a section with a task.
pub fn ask_of_task(
    alloc: Global,
    setting: &Setting,
    lines: &[Line],
    tally: &mut Tally,
) -> Result<(), AllocError>
    requires { setting.now.most < ROOT_PARENT }
{
    play::<Brand>(Blank::new(1), alloc, setting, lines, tally)
}
