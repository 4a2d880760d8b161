//! What a person is told of a fault, behind its line.

use crate::fault::Fault;
use crate::given::Given;
use crate::places::Places;
use crate::reasons::explain;
use crate::trouble::{Failure, Tried, Trouble};
use hd_base::NoMemory;
use hd_ground::GroundError;
use hd_hints::{push_check_hint, push_line_hint, push_read_hint};
use hd_journal::JournalError;
use hd_plan::{PlanError, PlanTextError};
use hd_replay::{ReplayFault, ScheduleError};
use hd_texts::TaskFault;
use hd_threads::RunFault;
use std::alloc::{AllocError, Global};
use std::fmt::Write;
use std::io::ErrorKind;

/// What is said of a defect of the program.
const DEFECT: &str = "a defect of hplan, which gives no answer: report it, with the texts\n";

/// Appends what to do where a fluent has no first value.
fn push_undefined(out: &mut String, fluent: &str) -> Result<(), NoMemory> {
    write!(
        out,
        "{fluent} has no first value: give it one in `:init`, as `(= {fluent} 0)`\n"
    )
}

/// Appends what to do where an action costs less than 0.
fn push_negative(out: &mut String, action: &str) -> Result<(), NoMemory> {
    write!(
        out,
        "{action} costs less than 0 in each state: count losses in place of gains\n"
    )
}

/// Appends what to do where a task can't be grounded.
fn push_ground(out: &mut String, error: &GroundError) -> Result<(), NoMemory> {
    match error {
        GroundError::TooMany => {
            out.push_str(
                "over 2^20 actions or atoms, 2^16 fluents or 2^32 amounts: narrow the types of parameters\n",
            )
        }
        GroundError::Undefined(fluent) => push_undefined(out, fluent.as_str()),
        GroundError::NegativeCost(action) => push_negative(out, action.as_str()),
        GroundError::NoMemory => Err(AllocError),
    }
}

/// Appends where a fault of two texts stands, and what to do.
fn push_task(
    alloc: Global,
    out: &mut String,
    given: &Given<'_>,
    fault: &TaskFault,
) -> Result<(), NoMemory> {
    match fault {
        TaskFault::Read(source, error) => {
            let (name, text) = (given.name_of(*source), given.text_of(*source));
            push_read_hint(alloc, out, name, *source, text, error)
        }
        TaskFault::Check(source, fault) => {
            let (name, text) = (given.name_of(*source), given.text_of(*source));
            push_check_hint(out, name, *source, text, fault)
        }
        TaskFault::Ground(error) => push_ground(out, error),
        TaskFault::NoMemory => Err(AllocError),
    }
}

/// Appends the line of a third text that is bad.
fn push_bad_line(
    out: &mut String,
    given: &Given<'_>,
    line: u64,
    sentence: &str,
) -> Result<(), NoMemory> {
    let name = given.names.third.unwrap_or("");
    push_line_hint(out, name, &given.third, line, sentence)
}

/// Appends why a plan is not valid, or what to do.
fn push_plan(
    alloc: Global,
    out: &mut String,
    given: &Given<'_>,
    error: &PlanError,
) -> Result<(), NoMemory> {
    match error {
        PlanError::Undefined(fluent) => push_undefined(out, fluent.as_str()),
        PlanError::NegativeCost(action) => push_negative(out, action.as_str()),
        PlanError::NoSuchAction(_) => Ok(()),
        PlanError::NotApplicable(_) | PlanError::Departs(_) | PlanError::GoalUnmet => {
            match explain(alloc, &given.domain, &given.problem, &given.third)? {
                Some(reason) => {
                    out.push_str(reason.as_str())?;
                    out.push_str("\n")
                }
                None => Ok(()),
            }
        }
        PlanError::NoMemory => Err(AllocError),
    }
}

/// Appends a file's name and a sentence of it.
fn push_of_file(out: &mut String, name: Option<&str>, sentence: &str) -> Result<(), NoMemory> {
    if let Some(name) = name {
        out.push_str(name)?;
        out.push_str(": ")?;
    }
    out.push_str(sentence)?;
    out.push_str("\n")
}

/// Appends that the journal has no room for more entries.
fn push_full(out: &mut String, given: &Given<'_>) -> Result<(), NoMemory> {
    push_of_file(
        out,
        given.names.journal,
        "no room for more entries: `migrate` it to version 2, or make the task smaller",
    )
}

/// Appends that a group or an entry of the journal is wrong.
fn push_damaged(out: &mut String, given: &Given<'_>, at: u64) -> Result<(), NoMemory> {
    let name = given.names.journal.unwrap_or("the journal");
    write!(
        out,
        "{name}: a group or an entry at byte {at} is wrong: copy the file again, or keep what is before it by `migrate --salvage`\n"
    )
}

/// Returns which file fails, what can't be done with it, and why.
fn failing<'r, P: Places>(
    given: &Given<'r>,
    output: Option<ErrorKind>,
    places: &P,
) -> (&'r str, &'static str, Trouble) {
    if let Some(unread) = given.unread {
        return (unread.name, "read", Trouble::Call(unread.kind));
    }
    if let Some(kind) = output {
        return ("standard output", "written", Trouble::Call(kind));
    }
    let from = given.names.journal.unwrap_or("a stream");
    let plan = given.names.plan_file.unwrap_or("a plan");
    match (places.last_failure(), given.names.to) {
        (
            Some(
                Failure {
                    tried: Tried::Replace,
                    trouble,
                },
            ),
            _,
        ) => (plan, "written", trouble),
        (
            Some(
                Failure {
                    tried: Tried::Read,
                    trouble,
                },
            ),
            _,
        ) => (from, "read", trouble),
        (Some(Failure { trouble, .. }), Some(to)) => (to, "written", trouble),
        (Some(Failure { trouble, .. }), None) => (from, "used", trouble),
        (None, Some(to)) => (to, "used", Trouble::ReadToo),
        (None, None) => (from, "used", Trouble::Unknown),
    }
}

/// Appends which file fails, and why.
fn push_device<P: Places>(
    out: &mut String,
    given: &Given<'_>,
    output: Option<ErrorKind>,
    places: &P,
) -> Result<(), NoMemory> {
    let (name, tried, trouble) = failing(given, output, places);
    let reason = trouble.text();
    write!(out, "{name} can't be {tried}: {reason}\n")
}

/// Appends what to do where a journal can't be begun, or gone on with.
fn push_journal<P: Places>(
    out: &mut String,
    given: &Given<'_>,
    output: Option<ErrorKind>,
    places: &P,
    error: JournalError,
) -> Result<(), NoMemory> {
    let name = given.names.journal;
    match error {
        JournalError::NotAJournal => push_of_file(out, name, "no journal: correct the name"),
        JournalError::OtherTask => {
            push_of_file(
                out,
                name,
                "begun with other texts: give those, byte for byte",
            )
        }
        JournalError::Damaged(at) => push_damaged(out, given, at),
        JournalError::Device => push_device(out, given, output, places),
        JournalError::JournalExists => match given.names.to {
            Some(to) => push_of_file(out, Some(to), "not empty: give another name"),
            None => push_of_file(out, name, "not empty: `resume` it, or give another name"),
        },
        JournalError::Failed | JournalError::NotOut => out.push_str(DEFECT),
        JournalError::NoMemory => Err(AllocError),
    }
}

/// Appends what to do where a search has ended without an answer.
fn push_search<P: Places>(
    out: &mut String,
    given: &Given<'_>,
    output: Option<ErrorKind>,
    places: &P,
    fault: RunFault,
) -> Result<(), NoMemory> {
    match fault {
        RunFault::Full => push_full(out, given),
        RunFault::Damaged(at) => push_damaged(out, given, at),
        RunFault::Device => push_device(out, given, output, places),
        RunFault::Failed | RunFault::NotOut => out.push_str(DEFECT),
        RunFault::NoMemory => Err(AllocError),
    }
}

/// Appends an explanation of a fault: lines that end with a line feed, or nothing where its line
/// says all.
fn push_explanation<P: Places>(
    alloc: Global,
    out: &mut String,
    given: &Given<'_>,
    output: Option<ErrorKind>,
    places: &P,
    fault: &Fault,
) -> Result<(), NoMemory> {
    match fault {
        Fault::Task(fault) => push_task(alloc, out, given, fault),
        Fault::PlanText(PlanTextError::BadLine(line)) => {
            let sentence = "; a line is one action `(name object ..)`, or a comment after `;`";
            push_bad_line(out, given, *line, sentence)
        }
        Fault::Schedule(ScheduleError::BadLine(line)) => {
            push_bad_line(out, given, *line, "; the line is no move")
        }
        Fault::Plan(error) => push_plan(alloc, out, given, error),
        Fault::Device => push_device(out, given, output, places),
        Fault::Journal(error) => push_journal(out, given, output, places, *error),
        Fault::Search(fault) => push_search(out, given, output, places, *fault),
        Fault::Replay(ReplayFault::Full) => push_full(out, given),
        Fault::Replay(_) => out.push_str(DEFECT),
        Fault::NoThread => out.push_str("the system starts no thread: use fewer workers\n"),
        Fault::PlanText(PlanTextError::NoMemory)
        | Fault::Schedule(ScheduleError::NoMemory)
        | Fault::NoMemory => Err(AllocError),
    }
}

/// Returns what a person is told of a fault behind its line, if there is memory for it.
pub fn explanation_of<P: Places>(
    alloc: Global,
    given: &Given<'_>,
    output: Option<ErrorKind>,
    places: &P,
    fault: &Fault,
) -> Option<String> {
    let mut out = String::new(alloc);
    match push_explanation(alloc, &mut out, given, output, places, fault) {
        Ok(()) => Some(out),
        Err(_) => None,
    }
}
