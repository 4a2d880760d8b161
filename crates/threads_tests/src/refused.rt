//! A search that is refused memory, and the search that resumes from its journal.
//!
//! Two workers search to a limit, and then to the end, over a journal in memory. If a part is
//! refused memory, the next part opens the journal's bytes. It must find and keep the journal's
//! entries. `rt try --test --fail-alloc N` refuses the `N`-th allocation.
use crate::devices::begin_with;
use crate::tasks::{DIGEST, N, N_PROBLEM};
use hd_journal::{Entry, Journal, JournalError};
use hd_search::{OpenGate, Outcome, ThreadsFault, run};
use hd_store::MemoryDisk;
use hd_task::Task;
use hd_texts::task_of;
use hd_threads::RunFault;
use std::alloc::Global;
use std::sync::Wait;
use std::thread::Threads;

/// How many entries the first part stops at.
const LIMIT: u64 = 2;

/// More parts than a search has of which one is refused memory.
const PARTS: usize = 4;

/// What is not as it should be.
type Wrong = &'static str;

/// How a part ended.
#[derive(Clone, Copy)]
enum End {
    /// It was refused memory.
    Refused,
    /// There are as many entries as the limit says.
    Stopped,
    /// There is a plan of this length.
    Plan(usize),
}

/// What a part leaves: the disk, the entries of the journal on it, if there was memory to copy
/// them, and how it ended.
#[derive(Drop)]
struct Left {
    disk: MemoryDisk,
    entries: Option<Vec<Entry>>,
    end: End,
}

/// Returns how a search over a journal ended.
fn end_over<R: Threads + Wait + Sync>(
    rt: &R,
    alloc: Global,
    task: &Task,
    journal: &mut Journal<MemoryDisk>,
    limit: Option<u64>,
) -> Result<End, Wrong> {
    match run(rt, alloc, task, journal, 2, 64, limit, &OpenGate) {
        Ok(concluded) => match concluded.outcome {
            Outcome::Optimal(plan) => Ok(End::Plan(plan.as_slice().len())),
            Outcome::Stopped(_) => Ok(End::Stopped),
            Outcome::NoPlan | Outcome::RangeLeft(..) => Err("another answer"),
        },
        // A thread that does not start for lack of memory is no other than one that does not
        // start.
        Err(ThreadsFault::Run(RunFault::NoMemory) | ThreadsFault::NoThread) => Ok(End::Refused),
        Err(ThreadsFault::Run(_)) => Err("another fault"),
    }
}

/// Opens the journal on a disk, which has these entries if they are known, and searches on.
fn part_over<R: Threads + Wait + Sync>(
    rt: &R,
    alloc: Global,
    task: &Task,
    disk: MemoryDisk,
    before: Option<Vec<Entry>>,
    limit: Option<u64>,
) -> Result<Left, Wrong> {
    let mut journal = match Journal::open(alloc, disk, &DIGEST) {
        Ok(journal) => journal,
        Err((disk, JournalError::NoMemory)) => {
            return Ok(Left {
                disk,
                entries: before,
                end: End::Refused,
            });
        }
        Err(_) => return Err("the journal is refused"),
    };
    if let Some(before) = &before {
        if journal.entries() != before.as_slice() {
            return Err("other entries are read than there were");
        }
    }
    let end = end_over(rt, alloc, task, &mut journal, limit)?;
    if let Some(before) = &before {
        if !begin_with(journal.entries(), before.as_slice()) {
            return Err("entries are lost");
        }
    }
    let entries = Vec::from_slice(alloc, journal.entries()).ok();
    Ok(Left {
        disk: journal.into_store(),
        entries,
        end,
    })
}

/// Returns the task, also where it was refused memory the first time.
fn task_in(alloc: Global) -> Result<Task, Wrong> {
    for _time in 0..2 {
        if let Ok(task) = task_of(alloc, N.as_bytes(), N_PROBLEM.as_bytes()) {
            return Ok(task);
        }
    }
    Err("there is no task")
}

/// Returns how long the plan is that two workers find, part by part.
fn plan_len<R: Threads + Wait + Sync>(rt: &R, alloc: Global) -> Result<usize, Wrong> {
    let task = task_in(alloc)?;
    let mut left = Left {
        disk: MemoryDisk::new(alloc),
        entries: Some(Vec::new(alloc)),
        end: End::Refused,
    };
    let mut limit = Some(LIMIT);
    for _part in 0..PARTS {
        left = part_over(rt, alloc, &task, left.disk, left.entries, limit)?;
        match left.end {
            End::Plan(len) => return Ok(len),
            End::Stopped => limit = None,
            End::Refused => {}
        }
    }
    Err("there is no end")
}

#[test]
fn two_parts_of_a_search_find_the_plan(rt: HostRuntime) {
    assert!(rt; plan_len(&rt, rt.alloc()) == Ok(3));
}
