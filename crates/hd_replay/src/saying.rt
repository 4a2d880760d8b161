//! What the book of a run says at the end of a schedule.
ghost use Rattle.std.specs.Prelude.{IfOk};
ghost use Rattle.hd_entries.specs.Answers.{IsAnswerOf, IsTrueAnswer};
ghost use Rattle.hd_replay.specs.Reporting.{IsSaidOf, IsSaidFor, IsTrueSaid, IsTrueIfSaid};

use crate::report::Says;
use hd_base::NoMemory;
use hd_book::Book;
use hd_entries::Verdict;
use std::sync::ledger::Ledger;

/// Returns what is said for an answer of a book.
fn said_for<L: Ledger>(book: &Book<'_, L>, verdict: Verdict) -> Says
    requires answer { IsAnswerOf book.now.state verdict }
    requires truth { IsTrueAnswer book.now.state.task verdict }
    ensures said { IsSaidFor book.now.state verdict result }
    ensures truth { IsTrueSaid book.now.state.task result }
{
    match verdict {
        Verdict::Optimal(_) => match book.bound() {
            Some(cost) => Says::Optimal(cost),
            None => unreachable!(),
        },
        Verdict::NoPlan => Says::NoPlan,
        Verdict::RangeLeft(departure, _) => Says::RangeLeft(departure.entry),
    }
}

/// Returns what a book answers, if it is at its end.
///
/// # Errors
/// - `NoMemory`: there is no room for a plan.
pub(crate) fn says_of<L: Ledger>(book: &Book<'_, L>) -> Result<Option<Says>, NoMemory>
    ensures said { IfOk result (IsSaidOf book.now) }
    ensures truth { IfOk result (IsTrueIfSaid book.now.state.task) }
{
    match book.verdict()? {
        Some(verdict) => Ok(Some(said_for(book, verdict))),
        None => Ok(None),
    }
}
