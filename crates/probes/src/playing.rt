//! Lines of probes, and sections with a task.
ghost use Rattle.std.specs.Prelude.{◌<◌};
ghost use Rattle.hd_task.specs.declared.plan.TheConstants.{ROOT_PARENT};

use crate::asking::ask_of_task;
use crate::desk::Setting;
use crate::tally::Tally;
use hd_task::ROOT_PARENT;
use hd_texts::{digest_of, task_of};
use std::alloc::{AllocError, Global};

/// A line of a file.
#[derive(Clone, Copy)]
pub struct Line<'a> {
    pub file: &'a str,
    /// Its number, from 1.
    pub number: usize,
    pub text: &'a str,
}

impl<'a> Line<'a> {
    /// Returns the question and the answer that is wanted.
    pub fn parts(&self) -> (&'a str, &'a str) {
        match self.text.split_once(" => ") {
            Some((question, wanted)) => (question, wanted),
            None => (self.text, "an answer"),
        }
    }
}

/// Splits a question into its first word and the rest.
pub fn verb_of(question: &str) -> (&str, &str) {
    match question.split_once(' ') {
        Some((verb, rest)) => (verb, rest),
        None => (question, ""),
    }
}

/// Returns a task's name and the most entries that its book may hold: `NAME` or `NAME most N`.
pub fn named(text: &str) -> (&str, u64)
    ensures { result.1 < ROOT_PARENT }
{
    let most = ROOT_PARENT - 1;
    let Some((name, number)) = text.split_once(" most ") else {
        return (text, most);
    };
    match number.parse::<u64>() {
        Ok(number) if number < most => (name, number),
        _ => (name, most),
    }
}

/// Plays lines with the task of two texts.
pub fn play_texts(
    alloc: Global,
    texts: [&[u8]; 2],
    most: u64,
    lines: &[Line],
    tally: &mut Tally,
) -> Result<(), AllocError>
    requires { most < ROOT_PARENT }
{
    let [domain, problem] = texts;
    match task_of(alloc, domain, problem) {
        Ok(task) => {
            let setting = Setting {
                task: &task,
                domain,
                digest: digest_of(domain, problem),
                most,
            };
            let played = ask_of_task(alloc, &setting, lines, tally);
            drop(task);
            played
        }
        Err(fault) => {
            let told = format!(in alloc; "{fault}")?;
            tally.fail("tasks", 0, "a task", told.as_str())
        }
    }
}
