//! The files that a request names, and the bytes of those that it reads first.

use crate::fault::{Fault, device_fault};
use crate::places::Places;
use hd_texts::Source;
use hd_words::Request;
use std::alloc::Global;
use std::io::ErrorKind;

/// The names of the files of a request.
#[derive(Clone, Copy, Debug)]
pub struct Names<'r> {
    pub domain: Option<&'r str>,
    pub problem: Option<&'r str>,
    /// The plan, or the schedule.
    pub third: Option<&'r str>,
    pub journal: Option<&'r str>,
    /// The journal that is written, beside the one that is read.
    pub to: Option<&'r str>,
    /// The file that the best plan is written to.
    pub plan_file: Option<&'r str>,
}

/// A text of a request that can't be read.
#[derive(Clone, Copy, Debug)]
pub struct Unread<'r> {
    pub name: &'r str,
    pub kind: ErrorKind,
}

/// The texts of a request.
#[derive(Drop)]
pub struct Given<'r> {
    pub names: Names<'r>,
    pub domain: Vec<u8>,
    pub problem: Vec<u8>,
    /// The plan's bytes, or the schedule's.
    pub third: Vec<u8>,
    /// The first of them that can't be read.
    pub unread: Option<Unread<'r>>,
    /// When reading them began, by the machine's clock, in milliseconds.
    pub began: u64,
}

/// Returns the names of a request of two texts and a journal, if it has one.
fn names_of_task<'r>(domain: &'r str, problem: &'r str, journal: Option<&'r str>) -> Names<'r> {
    Names {
        domain: Some(domain),
        problem: Some(problem),
        third: None,
        journal,
        to: None,
        plan_file: None,
    }
}

/// Returns the names of a request of three texts.
fn names_of_three<'r>(domain: &'r str, problem: &'r str, third: &'r str) -> Names<'r> {
    Names {
        domain: Some(domain),
        problem: Some(problem),
        third: Some(third),
        journal: None,
        to: None,
        plan_file: None,
    }
}

/// Returns the name of a file that may be named.
fn named(name: &Option<String>) -> Option<&str> {
    match name {
        Some(name) => Some(name.as_str()),
        None => None,
    }
}

/// Returns the names of a request to search.
fn names_of_search<'r>(
    domain: &'r str,
    problem: &'r str,
    journal: Option<&'r str>,
    plan: &'r Option<String>,
) -> Names<'r> {
    Names {
        plan_file: named(plan),
        ..names_of_task(domain, problem, journal)
    }
}

/// Returns the names of the files of a request.
fn names_of(request: &Request) -> Names<'_> {
    match request {
        Request::Solve {
            domain,
            problem,
            journal,
            plan,
            ..
        } => names_of_search(domain.as_str(), problem.as_str(), named(journal), plan),
        Request::Resume {
            domain,
            problem,
            journal,
            plan,
            ..
        } => {
            let journal = Some(journal.as_str());
            names_of_search(domain.as_str(), problem.as_str(), journal, plan)
        }
        Request::Certify {
            domain,
            problem,
            journal,
            ..
        }
        | Request::Survey {
            domain,
            problem,
            journal,
        } => names_of_task(domain.as_str(), problem.as_str(), Some(journal.as_str())),
        Request::Migrate {
            domain,
            problem,
            journal,
            to,
            ..
        } => Names {
            domain: Some(domain.as_str()),
            problem: Some(problem.as_str()),
            third: None,
            journal: Some(journal.as_str()),
            to: Some(to.as_str()),
            plan_file: None,
        },
        Request::Inspect { journal } => Names {
            domain: None,
            problem: None,
            third: None,
            journal: Some(journal.as_str()),
            to: None,
            plan_file: None,
        },
        Request::Ground { domain, problem } => {
            names_of_task(domain.as_str(), problem.as_str(), None)
        }
        Request::Validate {
            domain,
            problem,
            plan,
            ..
        } => names_of_three(domain.as_str(), problem.as_str(), plan.as_str()),
        Request::Replay {
            domain,
            problem,
            schedule,
        } => names_of_three(domain.as_str(), problem.as_str(), schedule.as_str()),
    }
}

impl<'r> Given<'r> {
    /// Returns the files of a request, of which none is read yet.
    pub fn of(alloc: Global, request: &'r Request, began: u64) -> Given<'r> {
        Given {
            names: names_of(request),
            domain: Vec::new(alloc),
            problem: Vec::new(alloc),
            third: Vec::new(alloc),
            unread: None,
            began,
        }
    }

    /// Returns the bytes of a file, if one is named.
    fn read_one<P: Places>(
        &mut self,
        alloc: Global,
        places: &mut P,
        name: Option<&'r str>,
    ) -> Result<Vec<u8>, Fault> {
        let Some(name) = name else {
            return Ok(Vec::new(alloc));
        };
        match places.read(alloc, name) {
            Ok(bytes) => Ok(bytes),
            Err(error) => {
                let kind = error.kind();
                self.unread = Some(Unread { name, kind });
                Err(device_fault(error))
            }
        }
    }

    /// Reads the texts: the domain's, the problem's, the plan's or the schedule's.
    pub fn read<P: Places>(&mut self, alloc: Global, places: &mut P) -> Result<(), Fault> {
        self.domain = self.read_one(alloc, places, self.names.domain)?;
        self.problem = self.read_one(alloc, places, self.names.problem)?;
        self.third = self.read_one(alloc, places, self.names.third)?;
        Ok(())
    }

    /// Returns the name of a text.
    pub fn name_of(&self, source: Source) -> &'r str {
        let name = match source {
            Source::Domain => self.names.domain,
            Source::Problem => self.names.problem,
        };
        name.unwrap_or("")
    }

    /// Returns the bytes of a text.
    pub fn text_of(&self, source: Source) -> &[u8] {
        match source {
            Source::Domain => &self.domain,
            Source::Problem => &self.problem,
        }
    }
}
