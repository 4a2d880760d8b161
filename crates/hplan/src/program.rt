//! The program: from the words of a command line to an exit status.
ghost use Rattle.std.specs.Prelude.{◌≡◌, Err, Ok, MatchResult};
ghost use Rattle.hd_words.specs.Request.{IsWithin, IsWorkers};
ghost use Rattle.hplan.specs.Requests.{AsksNoSearch, AsksOfJournal};
ghost use Rattle.hplan.specs.Status.{status_of_ending, status_of_certificate};
ghost use Rattle.hplan.specs.declared.program.TheConstants.{DONE, REFUSED};

use crate::account::Account;
use crate::certifying::certify;
use crate::engine::{solve, solve_kept};
use crate::fault::{Fault, device_fault};
use crate::given::Given;
use crate::grounding::ground;
use crate::hinting::explanation_of;
use crate::host::{Host, System};
use crate::inspecting::inspect;
use crate::kept::Start;
use crate::migrating::{Extent, migrate};
use crate::noted::Noted;
use crate::output::write_out;
use crate::places::{Places, SystemFiles};
use crate::replaying::replay;
use crate::statistics::{tell_certificate, tell_search};
use crate::streams::HeldStreams;
use crate::surveying::survey;
use crate::told::Ending;
use crate::tracing::trace;
use crate::trouble::Trouble;
use crate::validating::validate;
use hd_plan::{Watched, put};
use hd_texts::Source;
use hd_words::{Asked, Request, Search, WordsError, read_words};
use std::alloc::Global;
use std::fs::File;
use std::io::{Eprint, Write};
use std::rt::{Env, Files};
use std::sync::Wait;
use std::thread::Threads;
use std::time::Clock;
use std::{env, io};

/// The exit status of an answer, and of help.
const DONE: u8 = 0;

/// The exit status of a refusal, and of a journal that shows no verdict.
const REFUSED: u8 = 1;

/// The exit status of a faulty command line.
const MISUSED: u8 = 2;

/// The exit status if there is no plan.
const NO_PLAN: u8 = 10;

/// The exit status where a number left the range.
const RANGE_LEFT: u8 = 11;

/// The exit status where the search has stopped at its limit.
const STOPPED: u8 = 12;

/// What a person is told where memory ran out.
const NO_MEMORY: &[u8; 89] =
    b"it says nothing of the task: use more memory, or a smaller task; then `resume` a journal\n";

/// Reports a fault, on one line.
fn refuse<E: Write>(err: &mut E, fault: &Fault) -> u8
    ensures { result ≡ REFUSED }
{
    let _ = writeln!(err, "hplan: {fault}");
    REFUSED
}

/// Reports how an answer ends.
fn tell<E: Write>(err: &mut E, ending: &Ending) -> u8
    ensures { result ≡ status_of_ending ending.now }
{
    match ending {
        Ending::Optimal => DONE,
        Ending::NoPlan => {
            let _ = put(err, b"no plan\n");
            NO_PLAN
        }
        Ending::RangeLeft(text) => {
            let _ = put(err, text.as_slice());
            let _ = put(err, b"\n");
            RANGE_LEFT
        }
        Ending::Stopped => {
            let _ = put(err, b"stopped at the limit\n");
            STOPPED
        }
    }
}

/// Writes a text, whole.
fn show<O: Write>(out: &mut O, text: &str) -> Result<(), Fault> {
    write_out(&mut Watched::of(&mut *out), text.as_bytes())?;
    flush(out)
}

/// Has what was written reach its end.
fn flush<O: Write>(out: &mut O) -> Result<(), Fault> {
    match out.flush() {
        Ok(()) => Ok(()),
        Err(error) => Err(device_fault(error)),
    }
}

/// Reports whether the file that the best plan is written to is one of the others, by whatever
/// name. Of a journal that is not there yet `solve_kept` reports.
fn is_taken<P: Places>(
    places: &P,
    given: &Given<'_>,
    journal: Option<(&str, Start)>,
    plan: &str,
) -> bool {
    let is_journal = match journal {
        Some((name, _)) => name == plan || places.is_one_file(plan, name),
        None => false,
    };
    is_journal
        || places.is_one_file(plan, given.name_of(Source::Domain))
        || places.is_one_file(plan, given.name_of(Source::Problem))
}

/// Tries whether the file for the best plan, if one is named, can be had.
///
/// # Errors
/// - It can't be, which is noted; or lack of memory.
fn try_plan_file<P: Places>(
    places: &P,
    given: &Given<'_>,
    journal: Option<(&str, Start)>,
    plan: Option<&str>,
) -> Result<(), Fault> {
    let Some(plan) = plan else {
        return Ok(());
    };
    if is_taken(places, given, journal, plan) {
        places.note_plan(Trouble::ReadToo);
        return Err(Fault::Device);
    }
    match places.try_replace(plan) {
        Ok(()) => Ok(()),
        Err(error) => Err(device_fault(error)),
    }
}

/// Writes the plan of the task of two texts. The search is kept in the file of a journal, if one is
/// named.
fn solve_files<P: Places, O: Write, R: Threads + Wait + Sync + Eprint + Clock, H: Host + Sync>(
    rt: &R,
    alloc: Global,
    places: &mut P,
    given: &Given<'_>,
    journal: Option<(&str, Start)>,
    how: Search,
    account: &mut Account<'_, H>,
    out: &mut O,
) -> Result<Ending, Fault>
    requires { IsWorkers how.workers }
{
    try_plan_file(places, given, journal, account.plan_file)?;
    let (domain, problem) = (&given.domain, &given.problem);
    let watched = &mut Watched::of(&mut *out);
    let ended = match journal {
        Some((name, start)) => solve_kept(
            rt, alloc, places, name, start, domain, problem, how, account, watched,
        ),
        None => solve(rt, alloc, domain, problem, how, account, watched),
    };
    let ending = ended?;
    flush(out)?;
    Ok(ending)
}

/// Returns the exit status of a search; how it ends is reported.
fn status_of_search<E: Write>(err: &mut E, ended: Result<Ending, Fault>) -> Result<u8, Fault>
    ensures { MatchResult ended (λ ending. result ≡ Ok (status_of_ending ending))
        (λ fault. result ≡ Err fault) }
{
    match ended {
        Ok(ending) => Ok(tell(err, &ending)),
        Err(fault) => Err(fault),
    }
}

/// Writes the actions of the task of two texts.
fn ground_files<O: Write>(alloc: Global, given: &Given<'_>, out: &mut O) -> Result<(), Fault> {
    let (domain, problem) = (&given.domain, &given.problem);
    ground(alloc, domain, problem, &mut Watched::of(&mut *out))?;
    flush(out)
}

/// Reports what a journal shows of the task of two texts. Whether it shows a verdict is answered.
fn certify_files<P: Places, H: Host, O: Write>(
    alloc: Global,
    places: &mut P,
    given: &Given<'_>,
    journal: &str,
    account: &mut Account<'_, H>,
    out: &mut O,
) -> Result<bool, Fault> {
    let (domain, problem) = (&given.domain, &given.problem);
    let watched = &mut Watched::of(&mut *out);
    let is_certified = certify(alloc, places, journal, domain, problem, account, watched)?;
    flush(out)?;
    Ok(is_certified)
}

/// Returns the exit status of what a journal shows.
fn status_of_certificate(certified: Result<bool, Fault>) -> Result<u8, Fault>
    ensures { MatchResult certified (λ answer. result ≡ Ok (status_of_certificate answer))
        (λ fault. result ≡ Err fault) }
{
    match certified {
        Ok(true) => Ok(DONE),
        Ok(false) => Ok(REFUSED),
        Err(fault) => Err(fault),
    }
}

/// Reports whether the file to write a journal to is one of those that are read, by whatever name.
/// Of the old journal's own name `migrate` reports.
fn is_read_too<P: Places>(places: &P, texts: (&str, &str), from: &str, to: &str) -> bool {
    places.is_one_file(to, texts.0)
        || places.is_one_file(to, texts.1)
        || (to != from && places.is_one_file(to, from))
}

/// Writes the entries of the journal of two texts to a file, which has to be another than the three
/// that are read.
fn migrate_files<P: Places, O: Write>(
    alloc: Global,
    places: &mut P,
    given: &Given<'_>,
    journals: (&str, &str),
    extent: Extent,
    out: &mut O,
) -> Result<(), Fault> {
    let (from, to) = journals;
    let texts = (
        given.name_of(Source::Domain),
        given.name_of(Source::Problem),
    );
    if is_read_too(places, texts, from, to) {
        return Err(Fault::Device);
    }
    let (domain, problem) = (&given.domain, &given.problem);
    let watched = &mut Watched::of(&mut *out);
    migrate(alloc, places, from, to, domain, problem, extent, watched)?;
    flush(out)
}

/// Reports of the journal in a file.
fn inspect_file<P: Places, O: Write>(
    alloc: Global,
    places: &mut P,
    journal: &str,
    out: &mut O,
) -> Result<(), Fault> {
    inspect(alloc, places, journal, &mut Watched::of(&mut *out))?;
    flush(out)
}

/// Reports of the journal of two texts, and of the search in it.
fn survey_files<P: Places, O: Write>(
    alloc: Global,
    places: &mut P,
    given: &Given<'_>,
    journal: &str,
    out: &mut O,
) -> Result<(), Fault> {
    let (domain, problem) = (&given.domain, &given.problem);
    let watched = &mut Watched::of(&mut *out);
    survey(alloc, places, journal, domain, problem, watched)?;
    flush(out)
}

/// Writes the verdict on the plan in the third text.
fn judge<O: Write>(alloc: Global, given: &Given<'_>, out: &mut O) -> Result<(), Fault> {
    let (domain, problem, plan) = (&given.domain, &given.problem, &given.third);
    validate(alloc, domain, problem, plan, &mut Watched::of(&mut *out))?;
    flush(out)
}

/// Writes the verdict on the plan in the third text, and then what its steps do, also if the plan
/// is not valid. If that can't be written, this is the fault.
fn judge_and_trace<O: Write>(alloc: Global, given: &Given<'_>, out: &mut O) -> Result<(), Fault> {
    let text = trace(alloc, &given.domain, &given.problem, &given.third)?;
    match judge(alloc, given, out) {
        Ok(()) => show(out, text.as_str()),
        Err(Fault::Plan(error)) => match show(out, text.as_str()) {
            Ok(()) => Err(Fault::Plan(error)),
            Err(fault) => {
                drop(error);
                Err(fault)
            }
        },
        Err(fault) => Err(fault),
    }
}

/// Writes what the schedule in the third text comes to.
fn replay_files<O: Write>(alloc: Global, given: &Given<'_>, out: &mut O) -> Result<(), Fault> {
    let (domain, problem, schedule) = (&given.domain, &given.problem, &given.third);
    let watched = &mut Watched::of(&mut *out);
    replay(alloc, domain, problem, schedule, watched)?;
    flush(out)
}

/// Returns the exit status of a command that is done or refused.
fn status_of(done: Result<(), Fault>) -> Result<u8, Fault>
    ensures { MatchResult done (λ _. result ≡ Ok DONE) (λ fault. result ≡ Err fault) }
{
    match done {
        Ok(()) => Ok(DONE),
        Err(fault) => Err(fault),
    }
}

/// Writes the plan of an answer to its file, if both are there. If that can't be written, this is
/// reported, unless it was before.
fn write_plan_file<P: Places, E: Write, H: Host>(
    alloc: Global,
    places: &mut P,
    account: &Account<'_, H>,
    err: &mut E,
) {
    let Some(name) = account.plan_file else {
        return;
    };
    let is_written = match &account.plan_text {
        Some(text) => places.replace(alloc, name, text.as_slice()).is_ok(),
        None => !account.is_plan_lost,
    };
    if !is_written && !account.plan_failed {
        let _ = writeln!(err, "the plan can't be written to {name}");
    }
}

/// Returns the exit status of a search over a journal, if one is named: a new one, or the one that
/// is there. Its plan is written to a file too, if one is named, and its numbers are reported, if
/// that is asked for.
fn answer_search<P: Places, O: Write, E: Write, R: Threads + Wait + Sync + Eprint + Clock>(
    rt: &R,
    alloc: Global,
    places: &mut P,
    given: &Given<'_>,
    journal: Option<(&str, Start)>,
    search: Search,
    out: &mut O,
    err: &mut E,
) -> Result<u8, Fault>
    requires { IsWorkers search.workers }
{
    let plan = given.names.plan_file;
    let host = places.host();
    let mut account = Account::begin(&host, given.began, search.stats, plan);
    let ended = solve_files(rt, alloc, places, given, journal, search, &mut account, out);
    write_plan_file(alloc, places, &account, err);
    let status = status_of_search(err, ended);
    if search.stats {
        tell_search(err, &account);
    }
    status
}

/// Returns the exit status of what a journal shows; its numbers are reported, if that is asked for.
fn answer_certificate<P: Places, O: Write, E: Write>(
    alloc: Global,
    places: &mut P,
    given: &Given<'_>,
    journal: &str,
    stats: bool,
    out: &mut O,
    err: &mut E,
) -> Result<u8, Fault> {
    let host = places.host();
    let mut account = Account::begin(&host, given.began, stats, None);
    let certified = certify_files(alloc, places, given, journal, &mut account, out);
    let is_told = stats && certified.is_ok();
    let status = status_of_certificate(certified);
    if is_told {
        tell_certificate(err, &account);
    }
    status
}

/// Does what a request asks of a journal.
fn answer_of_journal<P: Places, O: Write, E: Write>(
    alloc: Global,
    request: &Request,
    given: &Given<'_>,
    places: &mut P,
    out: &mut O,
    err: &mut E,
) -> Result<u8, Fault>
    requires { AsksOfJournal request.now }
{
    match request {
        Request::Certify { journal, stats, .. } => {
            answer_certificate(alloc, places, given, journal.as_str(), *stats, out, err)
        }
        Request::Migrate {
            journal,
            to,
            salvage,
            ..
        } => {
            let journals = (journal.as_str(), to.as_str());
            let extent = if *salvage {
                Extent::UpToDamage
            } else {
                Extent::Whole
            };
            status_of(migrate_files(alloc, places, given, journals, extent, out))
        }
        Request::Inspect { journal } => {
            status_of(inspect_file(alloc, places, journal.as_str(), out))
        }
        Request::Survey { journal, .. } => {
            status_of(survey_files(alloc, places, given, journal.as_str(), out))
        }
        Request::Solve { .. }
        | Request::Resume { .. }
        | Request::Ground { .. }
        | Request::Validate { .. }
        | Request::Replay { .. } => unreachable!(),
    }
}

/// Does what a request asks that is no search.
fn answer_of_files<P: Places, O: Write, E: Write>(
    alloc: Global,
    request: &Request,
    given: &Given<'_>,
    places: &mut P,
    out: &mut O,
    err: &mut E,
) -> Result<u8, Fault>
    requires { AsksNoSearch request.now }
{
    match request {
        Request::Solve { .. } | Request::Resume { .. } => unreachable!(),
        Request::Certify { .. }
        | Request::Migrate { .. }
        | Request::Inspect { .. }
        | Request::Survey { .. } => answer_of_journal(alloc, request, given, places, out, err),
        Request::Ground { .. } => status_of(ground_files(alloc, given, out)),
        Request::Validate { trace: true, .. } => status_of(judge_and_trace(alloc, given, out)),
        Request::Validate { .. } => status_of(judge(alloc, given, out)),
        Request::Replay { .. } => status_of(replay_files(alloc, given, out)),
    }
}

/// Does what a request asks.
fn answer<P: Places, O: Write, E: Write, R: Threads + Wait + Sync + Eprint + Clock>(
    rt: &R,
    alloc: Global,
    request: &Request,
    given: &Given<'_>,
    places: &mut P,
    out: &mut O,
    err: &mut E,
) -> Result<u8, Fault>
    requires { IsWithin request.now }
{
    match request {
        Request::Solve {
            journal,
            search,
            ..
        } => {
            let journal = match journal {
                Some(name) => Some((name.as_str(), Start::New)),
                None => None,
            };
            answer_search(rt, alloc, places, given, journal, *search, out, err)
        }
        Request::Resume {
            journal,
            search,
            ..
        } => {
            let journal = Some((journal.as_str(), Start::Kept));
            answer_search(rt, alloc, places, given, journal, *search, out, err)
        }
        Request::Certify { .. }
        | Request::Migrate { .. }
        | Request::Inspect { .. }
        | Request::Survey { .. }
        | Request::Ground { .. }
        | Request::Validate { .. }
        | Request::Replay { .. } => answer_of_files(alloc, request, given, places, out, err),
    }
}

/// Appends what a person is told of a fault behind its line, if there is memory for it.
fn tell_explanation<P: Places, E: Write>(
    alloc: Global,
    given: &Given<'_>,
    output: Option<io::ErrorKind>,
    places: &P,
    fault: &Fault,
    err: &mut E,
) {
    if matches!(fault, Fault::NoMemory) {
        let _ = put(err, NO_MEMORY);
        return;
    }
    if let Some(text) = explanation_of(alloc, given, output, places, fault) {
        let _ = put(err, text.as_bytes());
    }
}

/// Does what is asked, and answers the exit status. A fault is reported, and explained if a person
/// reads it, or if that is asked for too.
fn respond<P: Places, O: Write, E: Write, R: Threads + Wait + Sync + Eprint + Clock>(
    rt: &R,
    alloc: Global,
    asked: &Asked,
    to_person: bool,
    places: &mut P,
    out: &mut O,
    err: &mut E,
) -> u8
    requires { IsWithin asked.now.request }
{
    let mut noted = Noted::of(&mut *out);
    let began = places.host().milliseconds();
    let mut given = Given::of(alloc, &asked.request, began);
    let answered = match given.read(alloc, places) {
        Ok(()) => answer(rt, alloc, &asked.request, &given, places, &mut noted, err),
        Err(fault) => Err(fault),
    };
    match answered {
        Ok(status) => status,
        Err(fault) => {
            let status = refuse(err, &fault);
            if asked.explain || to_person {
                tell_explanation(alloc, &given, noted.fault(), places, &fault, err);
            }
            status
        }
    }
}

/// Runs the words of a command line, of which the first is the program's name, and answers the
/// exit status. Explains a fault to a person also if that is not asked for.
fn run<P: Places, O: Write, E: Write, R: Threads + Wait + Sync + Eprint + Clock>(
    rt: &R,
    alloc: Global,
    words: &[String],
    to_person: bool,
    places: &mut P,
    out: &mut O,
    err: &mut E,
) -> u8 {
    match read_words(alloc, words) {
        Ok(asked) => respond(rt, alloc, &asked, to_person, places, out, err),
        Err(WordsError::Shown(text)) => match show(out, text.as_str()) {
            Ok(()) => DONE,
            Err(fault) => refuse(err, &fault),
        },
        Err(WordsError::Fault(text)) => {
            let _ = put(err, text.as_bytes());
            MISUSED
        }
        Err(WordsError::NoMemory) => refuse(err, &Fault::NoMemory),
    }
}

/// Runs the words of a command line, of which the first is the program's name, and answers the
/// exit status.
///
/// The status is 0 for a plan, the actions of a task, a valid plan, a journal that shows a
/// verdict, was migrated or was inspected, a schedule that was played, the help and the version,
/// 1 for a fault and a journal that shows no verdict, 2 for a faulty command line, 10 where there
/// is no plan, 11 where a number left the range and 12 where the search has stopped at its limit.
///
/// What was asked for goes to `out`, and everything else to `err`. Faults are looked for in this
/// order: the command line; the domain's file, the problem's, the plan's or the schedule's; the
/// domain's text, the problem's; their names, types and metric; the grounding (not to validate);
/// the plan's or the schedule's text; the journal; the work itself. With `--explain` lines behind
/// a fault's line explain it.
pub fn command<P: Places, O: Write, E: Write, R: Threads + Wait + Sync + Eprint + Clock>(
    rt: &R,
    alloc: Global,
    words: &[String],
    places: &mut P,
    out: &mut O,
    err: &mut E,
) -> u8 {
    run(rt, alloc, words, false, places, out, err)
}

/// Returns the words of the command line.
fn words_of<R: Env + AllocGlobal>(rt: &R) -> io::Result<Vec<String>> {
    Ok(env::args(rt)?.collect(rt.alloc())?)
}

/// Runs the program with the system's words and files, and answers the exit status.
///
/// Before anything else, takes the places of closed streams, so that no file gets one of them. If
/// `to_person`, as at a terminal, faults are explained without `--explain`.
pub fn start<
    R: Env + Files<File = File> + Threads + Wait + Sync + Eprint + Clock + AllocGlobal + System,
    O: Write,
    E: Write,
>(rt: &R, to_person: bool, out: &mut O, err: &mut E) -> u8 {
    match HeldStreams::hold(rt) {
        Ok(held) => {
            let status = run_words(rt, to_person, out, err);
            drop(held);
            status
        }
        Err(error) => refuse(err, &device_fault(error)),
    }
}

/// Runs the program with the system's words and files, where no stream is closed any more.
fn run_words<
    R: Env + Files<File = File> + Threads + Wait + Sync + Eprint + Clock + AllocGlobal + System,
    O: Write,
    E: Write,
>(rt: &R, to_person: bool, out: &mut O, err: &mut E) -> u8 {
    match words_of(rt) {
        Ok(words) => {
            let places = &mut SystemFiles::beside(rt, to_person);
            run(rt, rt.alloc(), &words, to_person, places, out, err)
        }
        Err(error) if error.kind() == io::ErrorKind::InvalidData => {
            let _ = put(err, b"error: the command line is not text\n");
            MISUSED
        }
        Err(error) => refuse(err, &device_fault(error)),
    }
}
