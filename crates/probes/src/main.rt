//! Plays probes: small questions to the libraries, with the answers that are wanted.
//!
//! A probe is a line `QUESTION => ANSWER` of a text file. A line `task NAME` starts a fresh book
//! and a fresh journal of the task in `tasks/`, for the lines below it. Lines before the first task
//! need none. Empty lines and lines that begin with `#` are skipped. The arguments name the files;
//! without any, the file `all` names them, one a line. Start at `src/playing.rt`, then
//! `src/asking.rt`.
#![tactic(auto)]

mod asking;
mod book;
mod desk;
mod journal;
mod mail;
mod outcomes;
mod playing;
mod readings;
mod shared;
mod states;
mod tally;
mod texts;
mod together;
mod tokens;

ghost use Rattle.std.specs.Prelude.{◌<◌};

use crate::mail::mailbox;
use crate::playing::{Line, named, play_texts, verb_of};
use crate::shared::{best_first, bounds};
use crate::tally::Tally;
use crate::tokens::tokens_in;
use std::alloc::AllocError;
use std::fs::File;
use std::process::ExitCode;
use std::rt::{Env, Files};
use std::sync::Wait;
use std::{env, fs, io};

/// Answers a question that needs no task: `tokens ..`, `bound ..`, `best ..` or `mailbox ..`.
fn ask<R: Files<File = File> + Wait + AllocGlobal>(
    rt: &R,
    question: &str,
) -> Result<Option<String>, AllocError> {
    let (verb, rest) = verb_of(question);
    match verb {
        "tokens" => tokens_in(rt.alloc(), rest),
        "bound" => bounds(rt.alloc(), rest),
        "best" => best_first(rt.alloc(), rest),
        "mailbox" => mailbox(rt, rt.alloc(), rest),
        _ => Ok(None),
    }
}

/// Plays lines that stand before the first task.
fn play_plain<R: Files<File = File> + Wait + AllocGlobal>(
    rt: &R,
    lines: &[Line],
    tally: &mut Tally,
) -> Result<(), AllocError> {
    for line in lines {
        let (question, wanted) = line.parts();
        let got = ask(rt, question)?;
        tally.judge_answer(line, wanted, &got)?;
    }
    Ok(())
}

/// Plays a section: the lines from a task on, or those before the first one.
fn play_section<R: Files<File = File> + Wait + AllocGlobal>(
    rt: &R,
    lines: &[Line],
    tally: &mut Tally,
) -> io::Result<()> {
    let [first, rest @ ..] = lines else {
        return Ok(());
    };
    let Some(text) = first.text.strip_prefix("task ") else {
        return Ok(play_plain(rt, lines, tally)?);
    };
    let (name, most) = named(text);
    let domain = fs::read(rt, format!(in rt.alloc(); "tasks/{name}.domain")?)?;
    let problem = fs::read(rt, format!(in rt.alloc(); "tasks/{name}.problem")?)?;
    Ok(play_texts(rt.alloc(), [&domain, &problem], most, rest, tally)?)
}

/// Plays the probes of a file's text.
fn play_text<R: Files<File = File> + Wait + AllocGlobal>(
    rt: &R,
    file: &str,
    text: &str,
    tally: &mut Tally,
) -> io::Result<()> {
    let mut lines = Vec::new(rt.alloc());
    for (place, text) in text.lines().enumerate() {
        if text.is_empty() || text.starts_with("#") {
            continue;
        }
        if text.starts_with("task ") {
            play_section(rt, &lines, tally)?;
            lines.clear();
        }
        lines.push(Line {
            file,
            number: place.saturating_add(1),
            text,
        })?;
    }
    play_section(rt, &lines, tally)
}

/// Plays the probes of a file.
fn play_file<R: Files<File = File> + Wait + AllocGlobal>(
    rt: &R,
    name: &str,
    tally: &mut Tally,
) -> io::Result<()> {
    let bytes = fs::read(rt, name)?;
    match str::from_utf8(&bytes) {
        Ok(text) => play_text(rt, name, text, tally),
        Err(_) => Ok(tally.fail(name, 0, "a text", "other bytes")?),
    }
}

/// Plays the files that the file `all` names.
fn play_all<R: Files<File = File> + Wait + AllocGlobal>(
    rt: &R,
    tally: &mut Tally,
) -> io::Result<()> {
    let bytes = fs::read(rt, "all")?;
    match str::from_utf8(&bytes) {
        Ok(text) => {
            for name in text.lines() {
                play_file(rt, name, tally)?;
            }
            Ok(())
        }
        Err(_) => Ok(tally.fail("all", 0, "a text", "other bytes")?),
    }
}

/// Plays the files that the arguments name.
fn play<R: Env + Files<File = File> + Wait + AllocGlobal>(
    rt: &R,
    tally: &mut Tally,
) -> io::Result<()> {
    let names: Vec<String> = env::args(rt)?.skip(1).collect(rt.alloc())?;
    if names.is_empty() {
        return play_all(rt, tally);
    }
    for name in &names {
        play_file(rt, name.as_str(), tally)?;
    }
    Ok(())
}

/// Plays all, and prints what failed and how many probes passed.
fn report<R: Env + Files<File = File> + Wait + AllocGlobal + Print>(rt: &R) -> io::Result<bool> {
    let mut tally = Tally::new(rt.alloc());
    let played = play(rt, &mut tally);
    print!(rt; "{}", tally.told.as_str())?;
    if played.is_err() {
        println!(rt; "a file cannot be read, or memory ran out")?;
    }
    println!(rt; "{} passed, {} failed", tally.passed, tally.failed)?;
    Ok(played.is_ok() && tally.failed == 0)
}

fn main(rt: HostRuntime) -> ExitCode {
    match report(&rt) {
        Ok(true) => ExitCode::SUCCESS,
        _ => ExitCode::FAILURE,
    }
}
