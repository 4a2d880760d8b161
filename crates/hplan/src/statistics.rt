//! The lines of `--stats`: a name, `: ` and a number each, in an order that stays.

use crate::account::{Account, JournalNumbers, PlanNumbers, SearchNumbers, Times};
use crate::host::Host;
use hd_search::rate_of;
use std::fmt;
use std::io::Write;

/// A number, if there is one.
#[derive(Clone, Copy)]
struct OrNone(Option<u64>);

impl fmt::Display for OrNone {
    fn fmt<W: fmt::Write>(&self, f: &mut fmt::Formatter<W>) -> fmt::Result {
        match self.0 {
            Some(number) => write!(f, "{number}"),
            None => write!(f, "none"),
        }
    }
}

/// Milliseconds, in seconds.
#[derive(Clone, Copy)]
struct Seconds(u64);

impl fmt::Display for Seconds {
    fn fmt<W: fmt::Write>(&self, f: &mut fmt::Formatter<W>) -> fmt::Result {
        write!(f, "{}.{:03}", self.0 / 1000, self.0 % 1000)
    }
}

/// Writes a line. One that can't be written changes no answer.
fn tell<E: Write, D: fmt::Display + Drop>(err: &mut E, name: &str, value: D) {
    let _ = writeln!(err, "{name}: {value}");
}

/// Writes what became of a search's nodes.
fn tell_nodes<E: Write>(err: &mut E, search: &SearchNumbers) {
    let work = search.all_work();
    tell(err, "entries", search.entries);
    tell(err, "entries before", search.before);
    tell(err, "generated", search.posted);
    tell(err, "settled", search.settled);
    tell(err, "duplicates", work.tally.duplicates);
    tell(err, "pruned", work.tally.pruned);
    tell(err, "dead ends", work.tally.dead);
    tell(err, "reopened", work.reopened);
    tell(err, "evaluated", work.evaluated);
}

/// Writes what a plan costs, and its length.
fn tell_plan<E: Write>(err: &mut E, plan: Option<PlanNumbers>) {
    let (cost, length) = match plan {
        Some(plan) => (Some(plan.cost), Some(plan.length)),
        None => (None, None),
    };
    tell(err, "cost", OrNone(cost));
    tell(err, "length", OrNone(length));
}

/// Writes how large a journal is.
fn tell_journal<E: Write>(err: &mut E, journal: Option<JournalNumbers>) {
    let (entries, groups, bytes) = match journal {
        Some(journal) => (
            Some(journal.entries),
            Some(journal.groups),
            Some(journal.bytes),
        ),
        None => (None, None, None),
    };
    tell(err, "journal entries", OrNone(entries));
    tell(err, "journal groups", OrNone(groups));
    tell(err, "journal bytes", OrNone(bytes));
}

/// Writes how many workers there were, and how many entries each made.
fn tell_workers<E: Write>(err: &mut E, search: &SearchNumbers) {
    tell(err, "workers", search.works.len());
    for (number, work) in search.works.iter().enumerate() {
        let entries = work.tally.expanded;
        let _ = writeln!(err, "entries of worker {number}: {entries}");
    }
}

/// Writes how long the parts before a search took.
fn tell_texts<E: Write>(err: &mut E, times: Times) {
    tell(err, "seconds of reading", Seconds(times.reading));
    tell(err, "seconds of checking", Seconds(times.checking));
    tell(err, "seconds of grounding", Seconds(times.grounding));
    tell(err, "seconds of recovering", Seconds(times.recovering));
}

/// Writes the numbers of `solve` or `resume`, if its search began.
pub(crate) fn tell_search<E: Write, H: Host>(err: &mut E, account: &Account<'_, H>) {
    let Some(search) = &account.search else {
        return;
    };
    let times = account.times;
    let made = search.entries.saturating_sub(search.before);
    tell_nodes(err, search);
    tell_plan(err, account.plan);
    tell_journal(err, account.journal);
    tell_workers(err, search);
    tell_texts(err, times);
    tell(err, "seconds of searching", Seconds(times.searching));
    tell(err, "entries a second", rate_of(made, times.searching));
    tell(err, "memory kB", OrNone(account.host().most_kilobytes()));
}

/// Writes the numbers of `certify`, if there was a journal.
pub(crate) fn tell_certificate<E: Write, H: Host>(err: &mut E, account: &Account<'_, H>) {
    if account.journal.is_some() {
        tell_plan(err, account.plan);
        tell_journal(err, account.journal);
        tell_texts(err, account.times);
        tell(err, "memory kB", OrNone(account.host().most_kilobytes()));
    }
}
