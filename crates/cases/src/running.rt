//! Runs of command lines, and what is wanted of them.

use crate::files::CaseFiles;
use crate::host::Host;
use crate::output::{Output, Room};
use crate::stop::{Stop, failed, unread};
use crate::texts::{add_line, bytes_of, shown};
use hplan::{SystemFiles, command};
use std::alloc::{AllocError, Global};
use std::io::ErrorKind;

/// What a run has left.
#[derive(Drop)]
pub struct Found {
    status: u8,
    out: Vec<u8>,
    err: Vec<u8>,
}

/// What is wanted on one of the outputs.
#[derive(Drop)]
enum Text {
    /// This text.
    Exact(Vec<u8>),
    /// Any text.
    Any,
    /// A plan of this cost.
    Cost(String),
}

/// An answer that is right.
#[derive(Drop)]
struct Answer {
    status: u8,
    out: Text,
    err: Text,
}

/// A run, and the answers that are right.
#[derive(Drop)]
pub struct Run {
    words: Vec<String>,
    found: Found,
    room: usize,
    answers: Vec<Answer>,
}

/// The room of an output that takes all.
pub const ROOMY: Room = Room {
    bytes: usize::MAX,
    fault: ErrorKind::Other,
};

/// Adds a word, if it is not the empty text between two blanks.
fn add_word(alloc: Global, words: &mut Vec<String>, text: &str) -> Result<(), Stop> {
    let bytes = match text {
        "" => return Ok(()),
        "\"\"" => Vec::new(alloc),
        _ => bytes_of(alloc, text)?,
    };
    match String::from_utf8(bytes) {
        Ok(word) => Ok(words.push(word)?),
        Err(_) => unread(alloc, "a word"),
    }
}

/// Returns the words of a command line, after the program's name.
fn words_of(alloc: Global, line: &str) -> Result<Vec<String>, Stop> {
    let mut words = Vec::new(alloc);
    words.push(String::from_str(alloc, "hplan")?)?;
    for text in line.split(' ') {
        add_word(alloc, &mut words, text)?;
    }
    Ok(words)
}

/// Notes the names of files that a run may make: the words after `--journal`, `--to` and `--plan`.
fn note_made(alloc: Global, files: &mut CaseFiles, words: &[String]) -> Result<(), Stop> {
    let mut names = false;
    for word in words {
        if names {
            files.note(alloc, word.as_str())?;
        }
        names = matches!(word.as_str(), "--journal" | "--to" | "--plan");
    }
    Ok(())
}

/// Runs a command line over the files of a case.
fn found_by(rt: &impl Host, files: &mut CaseFiles, words: &[String], room: Room) -> Found {
    let alloc = rt.alloc();
    let mut out = Output::of(alloc, room);
    let mut err = Vec::new(alloc);
    let status = if files.is_system {
        let mut places = SystemFiles::new(rt);
        command(rt, alloc, words, &mut places, &mut out, &mut err)
    } else {
        command(rt, alloc, words, &mut files.shelf, &mut out, &mut err)
    };
    Found {
        status,
        out: out.taken,
        err,
    }
}

impl Answer {
    /// Returns the answer of this status, with nothing on both outputs.
    fn of(alloc: Global, status: u8) -> Answer {
        Answer {
            status,
            out: Text::Exact(Vec::new(alloc)),
            err: Text::Exact(Vec::new(alloc)),
        }
    }
}

/// Reads an exit status.
fn status_of(alloc: Global, text: &str) -> Result<u8, Stop> {
    match text.trim().parse::<u8>() {
        Ok(status) => Ok(status),
        Err(_) => unread(alloc, "a status"),
    }
}

/// Runs a line of words and the status that is wanted.
pub fn run_line(
    rt: &impl Host,
    files: &mut CaseFiles,
    line: &str,
    room: Room,
) -> Result<Run, Stop> {
    let alloc = rt.alloc();
    let Some((line, status)) = line.rsplit_once(" -> ") else {
        return unread(alloc, "a run without a status");
    };
    let mut answers = Vec::new(alloc);
    answers.push(Answer::of(alloc, status_of(alloc, status)?))?;
    let words = words_of(alloc, line)?;
    note_made(alloc, files, &words)?;
    files.keep(rt);
    Ok(Run {
        found: found_by(rt, files, &words, room),
        words,
        room: room.bytes,
        answers,
    })
}

/// Returns the beginning of a text that has room.
fn beginning(text: &[u8], room: usize) -> &[u8] {
    text.split_at(text.len().min(room)).0
}

impl Text {
    /// Returns whether a text is as wanted, of which only so many bytes have room.
    fn is(&self, found: &[u8], room: usize) -> bool {
        match self {
            Text::Exact(text) => beginning(text, room) == found,
            Text::Any | Text::Cost(_) => true,
        }
    }

    /// Adds a line.
    fn add_line(&mut self, alloc: Global, line: &str) -> Result<(), Stop> {
        match self {
            Text::Exact(text) => add_line(alloc, text, line),
            _ => failed(alloc, "a line beside any text"),
        }
    }

    /// Adds what is wanted to a message.
    fn tell(&self, alloc: Global, words: &mut String) -> Result<(), AllocError> {
        match self {
            Text::Exact(text) => {
                let text = shown(alloc, text)?;
                write!(words, " \"{text}\"")
            }
            Text::Any => words.push_str(" anything"),
            Text::Cost(cost) => {
                let cost = cost.as_str();
                write!(words, " a plan of cost {cost}")
            }
        }
    }
}

impl Answer {
    /// Returns whether a run has this answer, but for the cost of a plan.
    fn is(&self, found: &Found, room: usize) -> bool {
        self.status == found.status
            && self.out.is(&found.out, room)
            && self.err.is(&found.err, usize::MAX)
    }

    /// Adds the answer to a message.
    fn tell(&self, alloc: Global, words: &mut String) -> Result<(), AllocError> {
        let status = self.status;
        write!(words, " {status}")?;
        self.out.tell(alloc, words)?;
        self.err.tell(alloc, words)
    }
}

impl Run {
    /// Fails by what the run has left.
    fn fail(&self, alloc: Global) -> Result<(), Stop> {
        let mut words = String::from_str(alloc, "wanted")?;
        for (number, answer) in self.answers.iter().enumerate() {
            words.push_str(if number == 0 { "" } else { " or" })?;
            answer.tell(alloc, &mut words)?;
        }
        let status = self.found.status;
        let out = shown(alloc, &self.found.out)?;
        let err = shown(alloc, &self.found.err)?;
        write!(words, "; found {status} \"{out}\" \"{err}\"")?;
        Err(Stop::Failed(words))
    }

    /// Returns whether `validate` calls the plan that the run printed valid, at this cost.
    fn has_cost(&self, rt: &impl Host, files: &mut CaseFiles, cost: &str) -> Result<bool, Stop> {
        let alloc = rt.alloc();
        let last = format!(in alloc; "; cost = {cost}\n")?;
        let [_, _, domain, problem, ..] = self.words.as_slice() else {
            return Ok(false);
        };
        files.put(rt, ".plan", Vec::from_slice(alloc, &self.found.out)?)?;
        let (domain, problem) = (domain.as_str(), problem.as_str());
        let line = format!(in alloc; "validate {domain} {problem} .plan")?;
        let judged = found_by(rt, files, &words_of(alloc, line.as_str())?, ROOMY);
        let valid = format!(in alloc; "valid; cost = {cost}\n")?;
        Ok(
            self.found.out.as_slice().ends_with(last.as_bytes())
                && judged.out.as_slice() == valid.as_bytes(),
        )
    }

    /// Compares what the run has left with the answers that are right.
    pub fn check(&self, rt: &impl Host, files: &mut CaseFiles) -> Result<(), Stop> {
        let alloc = rt.alloc();
        let found = &self.found;
        let Some(answer) = self.answers.iter().find(|it| it.is(found, self.room)) else {
            return self.fail(alloc);
        };
        match &answer.out {
            Text::Cost(cost) if !self.has_cost(rt, files, cost.as_str())? => self.fail(alloc),
            _ => Ok(()),
        }
    }

    /// Takes a line of what is wanted.
    pub fn want(&mut self, alloc: Global, word: &str, rest: &str) -> Result<(), Stop> {
        let Some(answer) = self.answers.last_mut() else {
            return failed(alloc, "no answer to add to");
        };
        match word {
            ">" => return answer.out.add_line(alloc, rest),
            "!" => return answer.err.add_line(alloc, rest),
            "cost" => answer.out = Text::Cost(String::from_str(alloc, rest)?),
            ">*" => answer.out = Text::Any,
            "!*" => answer.err = Text::Any,
            _ => {
                let status = match rest {
                    "" => answer.status,
                    _ => status_of(alloc, rest)?,
                };
                self.answers.push(Answer::of(alloc, status))?;
            }
        }
        Ok(())
    }
}
