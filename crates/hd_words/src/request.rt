//! What a command line asks for.
ghost use Rattle.std.specs.Prelude.{◌≤◌, IfOk, IfSome};
ghost use Rattle.hd_words.specs.Request.{IsSearchOf, IsWithin, IsWorkers};

use crate::error::WordsError;
use crate::line::command_line;
use clap::error::ErrorKind;
use clap::{ArgMatches, Error};
use std::alloc::{AllocError, Global};

/// The greatest number of workers.
pub const MAX_WORKERS: u32 = 64;

/// The greatest number of expansions that a search may be asked to stop at.
pub const MAX_LIMIT: u64 = 1_099_511_627_774;

/// The greatest number of seconds between two lines about a search: a day.
pub const MAX_INTERVAL: u64 = 86_400;

/// How a search goes: by how many workers, at how many expansions it stops, if at any, how often it
/// reports how it stands, and whether it reports its numbers at its end.
#[derive(Clone, Copy, Debug, PartialEq, Eq)]
pub struct Search {
    /// From 1 to [`MAX_WORKERS`].
    pub workers: u32,
    /// From 1 to [`MAX_LIMIT`].
    pub limit: Option<u64>,
    /// How many seconds pass between two lines on standard error about how it stands, from 1 to
    /// [`MAX_INTERVAL`]; if none, it reports nothing.
    pub progress: Option<u64>,
    /// Whether its numbers are reported at its end.
    pub stats: bool,
}

/// What a command line asks for.
#[derive(Debug, PartialEq, Eq, Drop)]
pub enum Request {
    /// To find a plan of least cost.
    Solve {
        /// The name of the file with the domain.
        domain: String,
        /// The name of the file with the problem.
        problem: String,
        /// The name of the file to keep the search in; in memory if none.
        journal: Option<String>,
        /// How it goes.
        search: Search,
        /// The name of the file that the best plan so far is written to, if one is.
        plan: Option<String>,
    },
    /// To go on with a search that was stopped.
    Resume {
        /// The name of the file with the domain.
        domain: String,
        /// The name of the file with the problem.
        problem: String,
        /// The name of the file that the search is kept in.
        journal: String,
        /// How it goes.
        search: Search,
        /// The name of the file that the best plan so far is written to, if one is.
        plan: Option<String>,
    },
    /// To tell what a journal shows by itself.
    Certify {
        /// The name of the file with the domain.
        domain: String,
        /// The name of the file with the problem.
        problem: String,
        /// The name of the journal's file.
        journal: String,
        /// Whether its numbers are reported at the end.
        stats: bool,
    },
    /// To write a journal's entries to another file.
    Migrate {
        /// The name of the file with the domain.
        domain: String,
        /// The name of the file with the problem.
        problem: String,
        /// The name of the journal's file.
        journal: String,
        /// The name of the file that they are written to.
        to: String,
        /// Whether those before the damage of a journal are kept.
        salvage: bool,
    },
    /// To tell of a journal, whatever its task.
    Inspect {
        /// The name of the journal's file.
        journal: String,
    },
    /// To tell of a journal, and of the search of a task in it.
    Survey {
        /// The name of the file with the domain.
        domain: String,
        /// The name of the file with the problem.
        problem: String,
        /// The name of the journal's file.
        journal: String,
    },
    /// To print the actions that a task has.
    Ground {
        /// The name of the file with the domain.
        domain: String,
        /// The name of the file with the problem.
        problem: String,
    },
    /// To tell whether a plan is valid, and its cost.
    Validate {
        /// The name of the file with the domain.
        domain: String,
        /// The name of the file with the problem.
        problem: String,
        /// The name of the file with the plan.
        plan: String,
        /// Whether what its steps do is to be told too.
        trace: bool,
    },
    /// To play a schedule of the search of a task.
    Replay {
        /// The name of the file with the domain.
        domain: String,
        /// The name of the file with the problem.
        problem: String,
        /// The name of the file with the schedule.
        schedule: String,
    },
}

/// What a command line asks for, and whether an error is to be explained.
#[derive(Debug, PartialEq, Eq, Drop)]
pub struct Asked {
    pub request: Request,
    /// Lines behind an error's line are to explain it.
    pub explain: bool,
}

/// Returns what `clap` answers in place of matches: its text, and where it goes.
fn refusal_of(alloc: Global, error: Error) -> WordsError {
    if error.kind() == ErrorKind::OutOfMemory {
        return WordsError::NoMemory;
    }
    match format!(in alloc; "{error}") {
        Ok(text) if error.use_stderr() => WordsError::Fault(text),
        Ok(text) => WordsError::Shown(text),
        Err(_) => WordsError::NoMemory,
    }
}

/// Returns a number of workers, if it is one of 1 to 64.
fn workers_in(found: &ArgMatches<'_>) -> Option<u32>
    ensures { IfSome result IsWorkers }
{
    let workers = found.get_one::<u32>("workers")?;
    if workers < 1 || workers > MAX_WORKERS {
        return None;
    }
    Some(workers)
}

/// Returns the number that an option gives, where it does, if it is from 1 to `most`.
fn number_in(found: &ArgMatches<'_>, name: &str, most: u64) -> Option<Option<u64>>
    ensures { IfSome result (λ n. IfSome n (λ n. (1 ≤ n) × (n ≤ most))) }
{
    match found.get_one::<u64>(name) {
        None => Some(None),
        Some(number) if number < 1 || number > most => None,
        Some(number) => Some(Some(number)),
    }
}

/// Returns how a search is to go, if its numbers are within their ranges.
fn search_in(found: &ArgMatches<'_>) -> Option<Search>
    ensures { IfSome result IsSearchOf }
{
    let workers = workers_in(found)?;
    let limit = number_in(found, "limit", MAX_LIMIT)?;
    let progress = number_in(found, "progress", MAX_INTERVAL)?;
    Some(Search {
        workers,
        limit,
        progress,
        stats: found.get_flag("stats"),
    })
}

/// Returns a text that may be there, as one of its own.
fn owned(alloc: Global, text: Option<&str>) -> Result<Option<String>, AllocError> {
    match text {
        Some(text) => Ok(Some(String::from_str(alloc, text)?)),
        None => Ok(None),
    }
}

/// Returns the request to solve, if its number of workers is one of 1 to 64.
fn solve_request(
    alloc: Global,
    domain: &str,
    problem: &str,
    found: &ArgMatches<'_>,
) -> Result<Option<Request>, AllocError>
    ensures { IfOk result (λ found. IfSome found IsWithin) }
{
    let Some(search) = search_in(found) else {
        return Ok(None);
    };
    Ok(Some(Request::Solve {
        domain: String::from_str(alloc, domain)?,
        problem: String::from_str(alloc, problem)?,
        journal: owned(alloc, found.get_str("journal"))?,
        search,
        plan: owned(alloc, found.get_str("plan"))?,
    }))
}

/// Returns the request to resume, if its journal is named, and its numbers are within their ranges.
fn resume_request(
    alloc: Global,
    domain: &str,
    problem: &str,
    found: &ArgMatches<'_>,
) -> Result<Option<Request>, AllocError>
    ensures { IfOk result (λ found. IfSome found IsWithin) }
{
    let (Some(journal), Some(search)) = (found.get_str("journal"), search_in(found)) else {
        return Ok(None);
    };
    Ok(Some(Request::Resume {
        domain: String::from_str(alloc, domain)?,
        problem: String::from_str(alloc, problem)?,
        journal: String::from_str(alloc, journal)?,
        search,
        plan: owned(alloc, found.get_str("plan"))?,
    }))
}

/// Returns the request to certify, if its journal is named.
fn certify_request(
    alloc: Global,
    domain: &str,
    problem: &str,
    found: &ArgMatches<'_>,
) -> Result<Option<Request>, AllocError>
    ensures { IfOk result (λ found. IfSome found IsWithin) }
{
    let Some(journal) = found.get_str("journal") else {
        return Ok(None);
    };
    Ok(Some(Request::Certify {
        domain: String::from_str(alloc, domain)?,
        problem: String::from_str(alloc, problem)?,
        journal: String::from_str(alloc, journal)?,
        stats: found.get_flag("stats"),
    }))
}

/// Returns the request to migrate, if both files are named.
fn migrate_request(
    alloc: Global,
    domain: &str,
    problem: &str,
    found: &ArgMatches<'_>,
) -> Result<Option<Request>, AllocError>
    ensures { IfOk result (λ found. IfSome found IsWithin) }
{
    let (Some(journal), Some(to)) = (found.get_str("journal"), found.get_str("to")) else {
        return Ok(None);
    };
    Ok(Some(Request::Migrate {
        domain: String::from_str(alloc, domain)?,
        problem: String::from_str(alloc, problem)?,
        journal: String::from_str(alloc, journal)?,
        to: String::from_str(alloc, to)?,
        salvage: found.get_flag("salvage"),
    }))
}

/// Returns the request to validate, if its plan is named.
fn validate_request(
    alloc: Global,
    domain: &str,
    problem: &str,
    found: &ArgMatches<'_>,
) -> Result<Option<Request>, AllocError>
    ensures { IfOk result (λ found. IfSome found IsWithin) }
{
    let Some(plan) = found.get_str("plan") else {
        return Ok(None);
    };
    Ok(Some(Request::Validate {
        domain: String::from_str(alloc, domain)?,
        problem: String::from_str(alloc, problem)?,
        plan: String::from_str(alloc, plan)?,
        trace: found.get_flag("trace"),
    }))
}

/// Returns the request to play a schedule, if that is named.
fn replay_request(
    alloc: Global,
    domain: &str,
    problem: &str,
    schedule: Option<&str>,
) -> Result<Option<Request>, AllocError>
    ensures { IfOk result (λ found. IfSome found IsWithin) }
{
    let Some(schedule) = schedule else {
        return Ok(None);
    };
    Ok(Some(Request::Replay {
        domain: String::from_str(alloc, domain)?,
        problem: String::from_str(alloc, problem)?,
        schedule: String::from_str(alloc, schedule)?,
    }))
}

/// Returns the request to inspect, if its journal is named, and both files of a task or neither.
fn inspect_request(alloc: Global, found: &ArgMatches<'_>) -> Result<Option<Request>, AllocError>
    ensures { IfOk result (λ found. IfSome found IsWithin) }
{
    let Some(journal) = owned(alloc, found.get_str("journal"))? else {
        return Ok(None);
    };
    match (found.get_str("domain"), found.get_str("problem")) {
        (Some(domain), Some(problem)) => Ok(Some(Request::Survey {
            domain: String::from_str(alloc, domain)?,
            problem: String::from_str(alloc, problem)?,
            journal,
        })),
        (None, None) => Ok(Some(Request::Inspect { journal })),
        _ => Ok(None),
    }
}

/// Returns the request of the command of this name, if its files are named.
fn named_request(
    alloc: Global,
    name: &str,
    found: &ArgMatches<'_>,
) -> Result<Option<Request>, AllocError>
    ensures { IfOk result (λ found. IfSome found IsWithin) }
{
    if name == "inspect" {
        return inspect_request(alloc, found);
    }
    let (Some(domain), Some(problem)) = (found.get_str("domain"), found.get_str("problem")) else {
        return Ok(None);
    };
    match name {
        "solve" => solve_request(alloc, domain, problem, found),
        "resume" => resume_request(alloc, domain, problem, found),
        "certify" => certify_request(alloc, domain, problem, found),
        "migrate" => migrate_request(alloc, domain, problem, found),
        "ground" => Ok(Some(Request::Ground {
            domain: String::from_str(alloc, domain)?,
            problem: String::from_str(alloc, problem)?,
        })),
        "validate" => validate_request(alloc, domain, problem, found),
        "replay" => replay_request(alloc, domain, problem, found.get_str("schedule")),
        _ => Ok(None),
    }
}

/// Returns what `clap`'s matches ask for, if they are a request.
fn asked_of(alloc: Global, matches: &ArgMatches<'_>) -> Result<Option<Asked>, AllocError>
    ensures { IfOk result (λ found. IfSome found (λ asked. IsWithin asked.request)) }
{
    let Some((name, below)) = matches.subcommand() else {
        return Ok(None);
    };
    match named_request(alloc, name, below)? {
        Some(request) => Ok(Some(Asked {
            request,
            explain: below.get_flag("explain"),
        })),
        None => Ok(None),
    }
}

/// Reads the words of a command line, of which the first is the program's name.
///
/// # Errors
/// - The text to show, where the words ask for help or the version; the text of the fault, where
///   they are no request; or `NoMemory`.
pub fn read_words<'a>(alloc: Global, words: &'a [String]) -> Result<Asked, WordsError>
    ensures { IfOk result (λ asked. IsWithin asked.request) }
{
    let command = command_line(alloc)?;
    match command.try_get_matches_from(words) {
        Ok(matches) => match asked_of(alloc, &matches)? {
            Some(asked) => Ok(asked),
            None => Err(WordsError::Fault(String::from_str(
                alloc,
                "error: both texts of a task or neither, 1 to 64 workers, and a limit of 1 at least are wanted\n",
            )?)),
        },
        Err(error) => Err(refusal_of(alloc, error)),
    }
}
