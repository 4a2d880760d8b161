//! What `clap` is reported of the command line.

use clap::{Arg, ArgAction, Command};
use std::alloc::{AllocError, Global};

/// The name of the program, whatever its file is called.
const NAME: &str = "hplan";

/// What `--version` says after the name: the version, the versions of journals, and the toolchain
/// that has proved the program.
const VERSION: &str = "\
1.0.0
journals: writes version 2, reads versions 1 and 2
toolchain: rattle-kit-13f";

/// What the help of `solve` ends with.
const SOLVE_HELP: &str = "\
Reads both files, searches, and prints the plan that it finds: an action on each
line, then the cost. All else goes to standard error.

With --journal the search is kept in FILE, which must be new or empty. After a
stop at any moment, `resume` continues from FILE.

With --plan the best plan so far is in FILE, also after a stop, with its cost
and whether it is shown optimal. FILE must be none of the other files.

Exit status:
  0   an optimal plan: it is valid, and no valid plan costs less
  10  `no plan`: no valid plan exists
  11  `range left`: a number left the range from -10^15 to 10^15; a plan that is
      printed is valid, but another may cost less
  12  `stopped at the limit`: a plan that is printed is valid, but another may
      cost less; with a journal, `resume` continues
  1   an error, on one line; if the output failed, a part of the plan may have
      been printed
  2   the command line is wrong";

/// What the help of `resume` ends with.
const RESUME_HELP: &str = "\
Continues the search that `solve --journal` began with the same two files, and
answers as `solve` does. What was being written at the stop is in FILE as a
whole, or not at all. If FILE holds a whole search, nothing is searched again.

Exit status:
  0, 10, 11, 12  as of `solve`
  1   an error, on one line: FILE is not there, belongs to other files, is
      damaged or in use; or as of `solve`
  2   the command line is wrong";

/// What the help of `certify` ends with.
const CERTIFY_HELP: &str = "\
Prints the verdict that a journal of the same two files shows by itself, no
matter who made it: `certified optimal; cost = N`, `certified no plan`, or
`not certified` if the search has not ended or a number left the range. FILE is
only read.

Exit status:
  0   the verdict is certified: it is true of all plans
  1   `not certified`; or an error, on one line: FILE is not there, belongs to
      other files, or is damaged
  2   the command line is wrong";

/// What the help of `migrate` ends with.
const MIGRATE_HELP: &str = "\
Copies all entries of a journal of the same two files to a new journal, of
version 2, which can have more entries. Prints `migrated N`. FILE is only read.

With --salvage a journal that is damaged from a gate on, as by a copy that was
cut, is copied up to there, and a second line `dropped from byte P` has the
place. An entry that is no step of the search is still an error.

Exit status:
  0   all N entries are in NEW, and `resume` can continue from it
  1   an error, on one line: FILE is not there, belongs to other files or is
      damaged, or NEW is not empty; or writing failed, and NEW holds the first
      of the entries, or none
  2   the command line is wrong";

/// What the help of `inspect` ends with.
const INSPECT_HELP: &str = "\
Describes a journal, also while a search writes it: its version, the digest of
the task's two texts, its entries and groups, and the bytes of an incomplete
group at its end. With both files of the task it also reports how far the search
has come: generated and settled nodes, the least cost plus estimate of a node
that is not settled, the cheapest plan, the first number that left the range,
and how many entries have each depth, each cost, and each cost plus estimate.
FILE is only read.

Exit status:
  0   the file is described
  1   an error, on one line: the file is not there, is no journal, or is damaged
  2   the command line is wrong";

/// What the help of `ground` ends with.
const GROUND_HELP: &str = "\
Reads both files, and prints how many actions, atoms and fluents the task has,
then each action after its number.

Exit status:
  0   the task is printed
  1   an error, on one line; if the output failed, a part may have been printed
  2   the command line is wrong";

/// What the help of `validate` ends with.
const VALIDATE_HELP: &str = "\
Reads the three files, and prints `valid; cost = N` if the plan is valid. Each
line of PLAN is an action as `(name object ..)`, or a comment after `;`.

With --trace it then prints each step up to the first error: its number, its
action and the cost so far, then each effect on a line: the atoms that it
deletes, those that it adds, and the fluents with old and new values.

Exit status:
  0   the plan is valid, at the printed cost
  1   an error, on one line, of a file or of the plan. At 20, 21 and 23 the plan
      is not valid. At 15 and 22 it may be: a fluent has no first value, or a
      number leaves the range of hplan
  2   the command line is wrong";

/// What the help of `replay` ends with.
const REPLAY_HELP: &str = "\
Plays the moves in SCHEDULE, one on each line, on the search of the two files:
steps of workers, flushes, stops at any moment, resumptions. The journal is in
memory, and empty at first. If nothing runs at the end, one worker resumes. Then
four lines are printed: `expansions N`, `acknowledged N`, `bytes N` of the
journal, and `verdict none`, `verdict optimal COST`, `verdict no-plan` or
`verdict range-left ENTRY`. The same files give the same lines each time.

Exit status:
  0   the schedule is played, whatever the verdict
  1   an error, on one line; `19 BadLine(N)`: line N is no move
  2   the command line is wrong";

/// Returns an argument that has to be given, by its place.
fn file<'a>(alloc: Global, id: &'a str, name: &'a str, help: &'a str) -> Arg<'a> {
    Arg::new(alloc, id)
        .value_name(name)
        .help(help)
        .required(true)
}

/// Returns the number of workers, 4 where it is not given.
fn workers<'a>(alloc: Global) -> Arg<'a> {
    Arg::new(alloc, "workers")
        .long("workers")
        .value_name("N")
        .help("How many threads search, 1 to 64")
        .value_parser(clap::value_parser!(u32).range(1..=64))
        .default_value("4")
}

/// Returns the number of expansions that the search stops at; none where it is not given.
fn limit<'a>(alloc: Global) -> Arg<'a> {
    Arg::new(alloc, "limit")
        .long("limit")
        .value_name("N")
        .help("Stop at N expanded nodes, those before a `resume` included")
        .value_parser(clap::value_parser!(u64).range(1..=1_099_511_627_774))
}

/// Returns how many seconds pass between two lines about the search: 1 where no number is given,
/// and no line where the option is not.
fn progress<'a>(alloc: Global) -> Arg<'a> {
    Arg::new(alloc, "progress")
        .long("progress")
        .value_name("SECONDS")
        .help("Print a line about the search each second, or each SECONDS")
        .value_parser(clap::value_parser!(u64).range(1..=86_400))
        .num_args(0..=1)
        .require_equals(true)
        .default_missing_value("1")
}

/// Reports whether the numbers of a command are reported at its end.
fn stats<'a>(alloc: Global) -> Arg<'a> {
    Arg::new(alloc, "stats")
        .long("stats")
        .help("Print statistics at the end")
        .action(ArgAction::SetTrue)
}

/// Returns the file that the best plan so far is written to; none where it is not given.
fn plan_file<'a>(alloc: Global) -> Arg<'a> {
    Arg::new(alloc, "plan")
        .long("plan")
        .value_name("FILE")
        .help("Write each better plan to FILE when it is found")
}

/// Reports whether an error is explained.
fn explain<'a>(alloc: Global) -> Arg<'a> {
    Arg::new(alloc, "explain")
        .long("explain")
        .help("Explain an error on the lines behind it")
        .action(ArgAction::SetTrue)
}

/// Returns a command that reads a domain and a problem, and may explain an error.
fn of_task<'a>(alloc: Global, name: &'a str) -> Result<Command<'a>, AllocError> {
    Command::new(alloc, name)
        .arg(file(alloc, "domain", "DOMAIN", "The file with the domain"))?
        .arg(file(alloc, "problem", "PROBLEM", "The file with the problem"))?
        .arg(explain(alloc))
}

/// Returns the file that a search is kept in.
fn journal<'a>(alloc: Global, help: &'a str, required: bool) -> Arg<'a> {
    Arg::new(alloc, "journal")
        .long("journal")
        .value_name("FILE")
        .help(help)
        .required(required)
}

/// Returns `solve DOMAIN PROBLEM [--explain] [--journal FILE] [--workers N] [--limit N]
/// [--progress[=SECONDS]] [--stats] [--plan FILE]`.
fn solve<'a>(alloc: Global) -> Result<Command<'a>, AllocError> {
    of_task(alloc, "solve")?
        .about("Prints an optimal plan")
        .after_help(SOLVE_HELP)
        .arg(journal(
            alloc,
            "The file to keep the search in; without it, memory",
            false,
        ))?
        .arg(workers(alloc))?
        .arg(limit(alloc))?
        .arg(progress(alloc))?
        .arg(stats(alloc))?
        .arg(plan_file(alloc))
}

/// Returns `resume DOMAIN PROBLEM [--explain] --journal FILE [--workers N] [--limit N]
/// [--progress[=SECONDS]] [--stats] [--plan FILE]`.
fn resume<'a>(alloc: Global) -> Result<Command<'a>, AllocError> {
    of_task(alloc, "resume")?
        .about("Continues a search that was stopped")
        .after_help(RESUME_HELP)
        .arg(journal(alloc, "The file that the search is kept in", true))?
        .arg(workers(alloc))?
        .arg(limit(alloc))?
        .arg(progress(alloc))?
        .arg(stats(alloc))?
        .arg(plan_file(alloc))
}

/// Returns `certify DOMAIN PROBLEM [--explain] --journal FILE [--stats]`.
fn certify<'a>(alloc: Global) -> Result<Command<'a>, AllocError> {
    of_task(alloc, "certify")?
        .about("Prints the verdict that a journal shows")
        .after_help(CERTIFY_HELP)
        .arg(journal(alloc, "The file that the search is kept in", true))?
        .arg(stats(alloc))
}

/// Reports whether what stands before the damage of a journal is kept.
fn salvage<'a>(alloc: Global) -> Arg<'a> {
    Arg::new(alloc, "salvage")
        .long("salvage")
        .help("Keeps the entries before the gate that `34 Damaged` names, and drops the rest")
        .action(ArgAction::SetTrue)
}

/// Returns `migrate DOMAIN PROBLEM [--explain] --journal OLD --to NEW [--salvage]`.
fn migrate<'a>(alloc: Global) -> Result<Command<'a>, AllocError> {
    of_task(alloc, "migrate")?
        .about("Copies a journal to a new one of version 2")
        .after_help(MIGRATE_HELP)
        .arg(journal(alloc, "The file that the search is kept in", true))?
        .arg(
            Arg::new(alloc, "to")
                .long("to")
                .value_name("NEW")
                .help("The new journal: a new or empty file")
                .required(true),
        )?
        .arg(salvage(alloc))
}

/// Returns an argument that may be given, by its place.
fn file_if<'a>(alloc: Global, id: &'a str, name: &'a str, help: &'a str) -> Arg<'a> {
    Arg::new(alloc, id).value_name(name).help(help)
}

/// Returns `inspect [DOMAIN PROBLEM] --journal FILE [--explain]`.
fn inspect<'a>(alloc: Global) -> Result<Command<'a>, AllocError> {
    Command::new(alloc, "inspect")
        .arg(file_if(alloc, "domain", "DOMAIN", "The file with the domain"))?
        .arg(file_if(alloc, "problem", "PROBLEM", "The file with the problem"))?
        .about("Describes a journal")
        .after_help(INSPECT_HELP)
        .arg(journal(alloc, "The file that the search is kept in", true))?
        .arg(explain(alloc))
}

/// Returns `ground DOMAIN PROBLEM [--explain]`.
fn ground<'a>(alloc: Global) -> Result<Command<'a>, AllocError> {
    Ok(
        of_task(alloc, "ground")?
            .about("Prints the ground actions of a task")
            .after_help(GROUND_HELP),
    )
}

/// Reports whether what the steps of a plan do is printed.
fn trace<'a>(alloc: Global) -> Arg<'a> {
    Arg::new(alloc, "trace")
        .long("trace")
        .help("Print what each step does, up to the first error")
        .action(ArgAction::SetTrue)
}

/// Returns `validate DOMAIN PROBLEM PLAN [--explain] [--trace]`.
fn validate<'a>(alloc: Global) -> Result<Command<'a>, AllocError> {
    of_task(alloc, "validate")?
        .about("Checks a plan, and prints its cost")
        .after_help(VALIDATE_HELP)
        .arg(file(alloc, "plan", "PLAN", "The file with the plan"))?
        .arg(trace(alloc))
}

/// Returns `replay DOMAIN PROBLEM [--explain] SCHEDULE`.
fn replay<'a>(alloc: Global) -> Result<Command<'a>, AllocError> {
    of_task(alloc, "replay")?
        .about("Plays a schedule of a search, with stops at any moment")
        .after_help(REPLAY_HELP)
        .arg(file(alloc, "schedule", "SCHEDULE", "The file with the schedule"))
}

/// Returns a command with one more below it, if that could be made.
fn with<'a>(
    command: Command<'a>,
    below: Result<Command<'a>, AllocError>,
) -> Result<Command<'a>, AllocError> {
    match below {
        Ok(below) => command.subcommand(below),
        Err(error) => {
            drop(command);
            Err(error)
        }
    }
}

/// Returns the program without its commands.
fn program<'a>(alloc: Global) -> Result<Command<'a>, AllocError> {
    Ok(
        Command::new(alloc, NAME)
            .bin_name(NAME)?
            .about("A planner for numeric planning tasks written in PDDL")
            .version(VERSION)
            .subcommand_required(true)
            .arg_required_else_help(true),
    )
}

/// Returns the whole command line.
pub fn command_line<'a>(alloc: Global) -> Result<Command<'a>, AllocError> {
    let line = program(alloc)?;
    let line = with(line, solve(alloc))?;
    let line = with(line, resume(alloc))?;
    let line = with(line, certify(alloc))?;
    let line = with(line, migrate(alloc))?;
    let line = with(line, inspect(alloc))?;
    let line = with(line, ground(alloc))?;
    let line = with(line, validate(alloc))?;
    with(line, replay(alloc))
}
