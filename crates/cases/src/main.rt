//! Plays files of test cases: command lines of hplan, over files in memory or of the system.
//!
//! A case gives the exit status, both outputs and the files that it wants; docs/CASES.md has the
//! form. `cases FILE..` plays these files. Without arguments it plays the files that `data/all`
//! lists. Each play that fails prints one line. The file `stdout` pins how many plays pass.
//! Start at `src/playing.rt`, then `src/stage.rt` and `src/running.rt`.
#![tactic(auto)]

mod files;
mod host;
mod loops;
mod output;
mod parts;
mod playing;
mod running;
mod stage;
mod stop;
mod texts;

use crate::host::Host;
use crate::playing::{Case, Score};
use std::process::ExitCode;
use std::rt::Env;
use std::{env, fs, io};

/// Plays the cases of a text.
fn play_text(rt: &impl Host, file: &str, text: &str) -> Score {
    let mut pieces = text.split("\n== ");
    let before = pieces.next().unwrap_or("");
    let mut number: u64 = before.lines().count() as u64;
    let mut score = Score::default();
    for body in pieces {
        number = number.saturating_add(1);
        let case = Case {
            file,
            before,
            body,
            number,
        };
        score = score.with(case.play(rt));
        number = number.saturating_add((body.lines().count() as u64).saturating_sub(1));
    }
    score
}

/// Plays the cases of a file, and prints its score.
fn play_file(rt: &impl Host, file: &str) -> io::Result<Score> {
    let text = fs::read_to_string(rt, file)?;
    let mut score = play_text(rt, file, text.as_str());
    if score.passed == 0 && score.failed == 0 {
        // (a file in which no case is found)
        score.failed = 1;
    }
    let (passed, failed) = (score.passed, score.failed);
    println!(rt; "{file}: {passed} passed, {failed} failed")?;
    Ok(score)
}

/// Plays the files of these names.
fn play_files(rt: &impl Host, names: &[String]) -> io::Result<Score> {
    let mut score = Score::default();
    for name in names {
        score = score.with(play_file(rt, name.as_str())?);
    }
    Ok(score)
}

/// Returns the names of the files that are to be played.
fn names_of(rt: &(impl Host + Env)) -> io::Result<Vec<String>> {
    let names = env::args(rt)?.skip(1).collect::<Vec<String>>(rt.alloc())?;
    if !names.is_empty() {
        return Ok(names);
    }
    let mut names = Vec::new(rt.alloc());
    let list = fs::read_to_string(rt, "all")?;
    for name in list.as_str().lines() {
        names.push(String::from_str(rt.alloc(), name)?)?;
    }
    Ok(names)
}

fn main(rt: HostRuntime) -> io::Result<ExitCode> {
    let names = names_of(&rt)?;
    let score = play_files(&rt, &names)?;
    let (passed, failed) = (score.passed, score.failed);
    println!(&rt; "{passed} passed, {failed} failed")?;
    Ok(if failed == 0 && passed > 0 {
        ExitCode::SUCCESS
    } else {
        ExitCode::FAILURE
    })
}
