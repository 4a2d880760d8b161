//! Who asks the threads of a search how it stands, and reports it.
use crate::line::{PlanLine, ProgressLine, RebuildingLine, rate_of};
use crate::machine::Machine;
use hd_book::Counts;
use hd_threads::{Gate, Standing, Tally, Work};
use std::alloc::{AllocError, Global};
use std::fmt::Display;
use std::io::Eprint;
use std::sync::Wait;
use std::sync::atomic::{AtomicBool, AtomicU64, Ordering};
use std::time::{Clock, Instant};

/// How long before a line the workers are asked how they stand, in milliseconds.
const ASKED_BEFORE: u64 = 100;

/// What stands for no number.
const NOTHING: u64 = u64::MAX;

/// What a worker has told.
#[derive(Debug, Drop)]
struct WorkerWord {
    /// Whether it is asked.
    asked: AtomicBool,
    /// The least cost plus estimate of its open nodes when it was asked last, or `NOTHING`.
    least: AtomicU64,
    /// What it did, once it has ended.
    work: WorkWord,
}

/// What a worker did, in numbers that threads share.
#[derive(Debug, Drop)]
struct WorkWord {
    expanded: AtomicU64,
    duplicates: AtomicU64,
    pruned: AtomicU64,
    dead: AtomicU64,
    reopened: AtomicU64,
    evaluated: AtomicU64,
}

impl WorkWord {
    /// Returns no work.
    fn none() -> WorkWord {
        WorkWord {
            expanded: AtomicU64::new(0),
            duplicates: AtomicU64::new(0),
            pruned: AtomicU64::new(0),
            dead: AtomicU64::new(0),
            reopened: AtomicU64::new(0),
            evaluated: AtomicU64::new(0),
        }
    }

    /// Keeps what a worker did.
    fn keep(&self, work: Work) {
        let tally = work.tally;
        self.expanded.store(tally.expanded, Ordering::Relaxed);
        self.duplicates.store(tally.duplicates, Ordering::Relaxed);
        self.pruned.store(tally.pruned, Ordering::Relaxed);
        self.dead.store(tally.dead, Ordering::Relaxed);
        self.reopened.store(work.reopened, Ordering::Relaxed);
        self.evaluated.store(work.evaluated, Ordering::Relaxed);
    }

    /// Returns what a worker did.
    fn work(&self) -> Work {
        let tally = Tally {
            expanded: self.expanded.load(Ordering::Relaxed),
            duplicates: self.duplicates.load(Ordering::Relaxed),
            pruned: self.pruned.load(Ordering::Relaxed),
            dead: self.dead.load(Ordering::Relaxed),
        };
        Work {
            tally,
            reopened: self.reopened.load(Ordering::Relaxed),
            evaluated: self.evaluated.load(Ordering::Relaxed),
        }
    }
}

/// How the search stood when the committer told it last.
#[derive(Debug, Drop)]
struct Last {
    entries: AtomicU64,
    posted: AtomicU64,
    settled: AtomicU64,
    acknowledged: AtomicU64,
    commits: AtomicU64,
    /// `NOTHING` if no plan was found.
    bound: AtomicU64,
}

/// A gate of a search that reports on standard error how it stands, at even intervals, and each
/// better plan when it is found. The workers are asked for their least cost plus estimate a tenth
/// of a second before a line, and who does not answer by then is reported as of the last time.
/// To a terminal one line is rewritten, else each is a line of its own.
///
/// It also keeps how the search stood last, and what each worker did, for whoever reports that at
/// its end.
#[derive(Drop)]
pub struct Watch<'r, R: Eprint + Clock, M: Machine> {
    rt: &'r R,
    machine: &'r M,
    began: Option<Instant>,
    /// How long after a line the next one is reported, in milliseconds; no line where not.
    every: Option<u64>,
    /// One line is rewritten.
    rewrites: bool,
    words: Vec<WorkerWord>,
    last: Last,
    /// When the last line was told, in milliseconds since the search began, and how many entries
    /// there were.
    told_at: AtomicU64,
    told_entries: AtomicU64,
}

impl<'r, R: Eprint + Clock, M: Machine> Watch<'r, R, M> {
    /// Returns the watch of a search that begins now, by `workers` workers, with `entries` entries,
    /// which count as none of those that it makes. It reports each `seconds`, or no line. If the
    /// clock can't be read, the last line alone is reported.
    ///
    /// # Errors
    /// - `AllocError`: there is no room for what workers tell.
    pub fn begin(
        rt: &'r R,
        machine: &'r M,
        alloc: Global,
        workers: usize,
        entries: u64,
        seconds: Option<u64>,
    ) -> Result<Watch<'r, R, M>, AllocError> {
        let mut words = Vec::with_capacity(alloc, workers)?;
        for _worker in 0..workers {
            words.push(WorkerWord {
                asked: AtomicBool::new(false),
                least: AtomicU64::new(NOTHING),
                work: WorkWord::none(),
            })?;
        }
        let last = Last {
            entries: AtomicU64::new(entries),
            posted: AtomicU64::new(0),
            settled: AtomicU64::new(0),
            acknowledged: AtomicU64::new(0),
            commits: AtomicU64::new(0),
            bound: AtomicU64::new(NOTHING),
        };
        Ok(Watch {
            rt,
            machine,
            began: Instant::now(rt).ok(),
            every: every_of(seconds),
            rewrites: machine.is_terminal(),
            words,
            last,
            told_at: AtomicU64::new(0),
            told_entries: AtomicU64::new(entries),
        })
    }

    /// Returns how many milliseconds ago the search began.
    fn milliseconds(&self) -> u64 {
        match self.began {
            Some(began) => match began.elapsed(self.rt) {
                Ok(passed) => u64::try_from(passed.as_millis()).unwrap_or(u64::MAX),
                Err(_) => 0,
            },
            None => 0,
        }
    }

    /// Returns how far the search had come when the committer told it last.
    pub fn counts(&self) -> Counts {
        Counts {
            entries: self.last.entries.load(Ordering::Relaxed),
            posted: self.last.posted.load(Ordering::Relaxed),
            settled: self.last.settled.load(Ordering::Relaxed),
            acknowledged: self.last.acknowledged.load(Ordering::Relaxed),
            commits: self.last.commits.load(Ordering::Relaxed),
        }
    }

    /// Returns what the worker of this number did, if there is one and it has ended; else nothing.
    pub fn work(&self, worker: usize) -> Work {
        match self.words.get(worker) {
            Some(word) => word.work.work(),
            None => WorkWord::none().work(),
        }
    }

    /// Returns the least of what the workers have told, where something is open.
    fn least(&self, open: u64) -> Option<u64> {
        if open == 0 {
            return None;
        }
        let mut least = NOTHING;
        for word in &self.words {
            least = least.min(word.least.load(Ordering::Relaxed));
        }
        if least == NOTHING { None } else { Some(least) }
    }

    /// Asks each worker.
    fn ask(&self) {
        for word in &self.words {
            word.asked.store(true, Ordering::Relaxed);
        }
    }

    /// Remembers how the search stands.
    fn remember(&self, standing: Standing) {
        let Standing { counts, bound } = standing;
        let last = &self.last;
        last.entries.store(counts.entries, Ordering::Relaxed);
        last.posted.store(counts.posted, Ordering::Relaxed);
        last.settled.store(counts.settled, Ordering::Relaxed);
        last.acknowledged
            .store(counts.acknowledged, Ordering::Relaxed);
        last.commits.store(counts.commits, Ordering::Relaxed);
        last.bound
            .store(bound.unwrap_or(NOTHING), Ordering::Relaxed);
    }

    /// Returns the line of how the search stood last, at this time, and so long after the line
    /// before, in milliseconds.
    fn line(&self, now: u64, since: u64) -> ProgressLine {
        let Counts {
            entries,
            posted,
            settled,
            acknowledged,
            commits: _,
        } = self.counts();
        let open = posted.saturating_sub(settled);
        let bound = self.last.bound.load(Ordering::Relaxed);
        let more = entries.saturating_sub(self.told_entries.load(Ordering::Relaxed));
        ProgressLine {
            entries,
            rate: rate_of(more, since),
            open,
            bound: if bound == NOTHING { None } else { Some(bound) },
            least: self.least(open),
            acknowledged,
            seconds: now / 1000,
            memory: self.machine.megabytes().unwrap_or(0),
        }
    }

    /// Prints a line that the next one takes the place of, where one line is rewritten: it is not
    /// wrapped, so it stays one row. One that can't be printed is no reason to end a search.
    fn print<D: Display + Drop>(&self, line: D) {
        let _ = if self.rewrites {
            eprint!(self.rt; "\r\x1b[?7l{line}\x1b[K\x1b[?7h")
        } else {
            eprintln!(self.rt; "{line}")
        };
    }

    /// Prints a line that stays.
    fn print_for_good<D: Display + Drop>(&self, line: D) {
        let _ = if self.rewrites {
            eprintln!(self.rt; "\r{line}\x1b[K")
        } else {
            eprintln!(self.rt; "{line}")
        };
    }

    /// Returns the line of how the search stood last, and counts from it on.
    fn next_line(&self, now: u64, since: u64) -> ProgressLine {
        let line = self.line(now, since);
        self.told_at.store(now, Ordering::Relaxed);
        self.told_entries.store(line.entries, Ordering::Relaxed);
        line
    }

    /// Returns how many milliseconds have passed since the line before.
    fn since(&self, now: u64) -> u64 {
        now.saturating_sub(self.told_at.load(Ordering::Relaxed))
    }

    /// Reports a plan that costs less than the one before it.
    fn tell_plan(&self, bound: Option<u64>, now: u64) {
        let Some(cost) = bound else {
            return;
        };
        if cost < self.last.bound.load(Ordering::Relaxed) {
            self.print_for_good(PlanLine {
                cost,
                seconds: now / 1000,
            });
        }
    }

    /// Reports how the search stood at its end, if lines are reported.
    pub fn end(&self) {
        if self.every.is_some() {
            let now = self.milliseconds();
            self.print_for_good(self.next_line(now, self.since(now)));
        }
    }
}

/// Returns how many milliseconds are between two lines.
fn every_of(seconds: Option<u64>) -> Option<u64> {
    match seconds {
        Some(seconds) => Some(seconds.saturating_mul(1000)),
        None => None,
    }
}

impl<'r, R: Eprint + Clock, M: Machine> Gate for Watch<'r, R, M> {
    fn before<W: Wait>(&self, _rt: &W, _worker: usize, _nth: u64) {}

    fn after<W: Wait>(&self, _rt: &W, _worker: usize, _nth: u64) {}

    fn asks_worker(&self, worker: usize) -> bool {
        match self.words.get(worker) {
            Some(word) => word.asked.load(Ordering::Relaxed),
            None => false,
        }
    }

    fn hear_worker(&self, worker: usize, least: Option<u128>) {
        if let Some(word) = self.words.get(worker) {
            let least = match least {
                Some(least) => u64::try_from(least).unwrap_or(NOTHING),
                None => NOTHING,
            };
            word.least.store(least, Ordering::Relaxed);
            word.asked.store(false, Ordering::Relaxed);
        }
    }

    /// Always: what the committer reports before its last round is how the search ends.
    fn asks_committer(&self) -> bool {
        true
    }

    fn hear_committer(&self, standing: Standing) {
        let Some(every) = self.every else {
            self.remember(standing);
            return;
        };
        let now = self.milliseconds();
        self.tell_plan(standing.bound, now);
        self.remember(standing);
        let since = self.since(now);
        if since >= every {
            self.print(self.next_line(now, since));
        } else if since.saturating_add(ASKED_BEFORE) >= every {
            self.ask();
        }
    }

    /// Always, since it is once.
    fn asks_work(&self) -> bool {
        true
    }

    fn hear_work(&self, worker: usize, work: Work) {
        if let Some(word) = self.words.get(worker) {
            word.work.keep(work);
        }
    }

    fn hear_rebuilding(&self, done: u64, all: u64) {
        let Some(every) = self.every else {
            return;
        };
        let now = self.milliseconds();
        if done == 0 || self.since(now) >= every {
            self.print(RebuildingLine { done, all });
            self.told_at.store(now, Ordering::Relaxed);
        }
    }
}
