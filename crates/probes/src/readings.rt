//! Probes of what a book reports.
use crate::texts::{kid_text, told};
use hd_book::{Book, Verdict};
use hd_task::{DepartsBy, Kid, Plan};
use std::alloc::{AllocError, Global};
use std::sync::ledger::Ledger;

/// Writes a plan: the numbers of its actions.
fn plan_text(alloc: Global, plan: &Plan) -> Result<String, AllocError> {
    let mut list = String::new(alloc);
    for action in plan.as_slice() {
        list.push_str(format!(in alloc; " {}", action.0)?.as_str())?;
    }
    Ok(list)
}

/// Writes a book's verdict.
fn verdict_text(alloc: Global, verdict: &Option<Verdict>) -> Result<Option<String>, AllocError> {
    match verdict {
        None => told(alloc, "none"),
        Some(Verdict::NoPlan) => told(alloc, "no plan"),
        Some(Verdict::Optimal(plan)) => {
            let plan = plan_text(alloc, plan)?;
            Ok(Some(format!(in alloc; "optimal{plan}")?))
        }
        Some(Verdict::RangeLeft(departure, plan)) => {
            let plan = match plan {
                Some(plan) => plan_text(alloc, plan)?,
                None => String::new(alloc),
            };
            let entry = departure.entry;
            match departure.by {
                DepartsBy::Goal => Ok(Some(format!(in alloc; "range left {entry} goal{plan}")?)),
                DepartsBy::Action(action) => {
                    Ok(Some(format!(in alloc; "range left {entry} {action}{plan}")?))
                }
            }
        }
    }
}

/// Writes a book's counts.
fn counts_text<L: Ledger>(alloc: Global, book: &Book<L>) -> Result<Option<String>, AllocError> {
    let counts = book.counts();
    let (entries, posted, settled) = (counts.entries, counts.posted, counts.settled);
    let (acknowledged, commits) = (counts.acknowledged, counts.commits);
    Ok(Some(format!(in alloc;
        "entries {entries}, posted {posted}, settled {settled}, acknowledged {acknowledged}, commits {commits}"
    )?))
}

/// Writes the successor of an entry, if there is such an entry.
fn entry_text(alloc: Global, kid: Option<Kid>) -> Result<Option<String>, AllocError> {
    match kid {
        Some(kid) => Ok(Some(kid_text(alloc, kid)?)),
        None => told(alloc, "none"),
    }
}

/// Returns what a book reports: `counts`, `state`, `bound`, `verdict` or `entry N`.
pub fn read<L: Ledger>(
    alloc: Global,
    book: &Book<L>,
    verb: &str,
    rest: &str,
) -> Result<Option<String>, AllocError> {
    match verb {
        "counts" => counts_text(alloc, book),
        "state" => match (book.is_idle(), book.is_halted()) {
            (true, false) => told(alloc, "idle"),
            (false, false) => told(alloc, "waiting"),
            (true, true) => told(alloc, "idle, halted"),
            (false, true) => told(alloc, "waiting, halted"),
        },
        "bound" => match book.bound() {
            Some(cost) => Ok(Some(format!(in alloc; "{cost}")?)),
            None => told(alloc, "none"),
        },
        "verdict" => {
            let verdict = book.verdict()?;
            verdict_text(alloc, &verdict)
        }
        "entry" => match rest.parse::<u64>() {
            Ok(number) => entry_text(alloc, book.entry(number)),
            Err(_) => Ok(None),
        },
        _ => Ok(None),
    }
}
