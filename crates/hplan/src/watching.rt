//! Who hears the threads of a search for a user.

use crate::account::{Account, SearchNumbers, plan_file_text};
use crate::host::Host;
use crate::naming::steps_of;
use hd_base::NoMemory;
use hd_search::{Gate, Standing, Watch, Work};
use hd_task::{Plan, Task};
use std::alloc::Global;
use std::io::Eprint;
use std::sync::Wait;
use std::sync::atomic::{AtomicBool, AtomicU64, Ordering};
use std::time::Clock;

/// What stands for no number.
const NOTHING: u64 = u64::MAX;

/// A gate that has lines printed by a [`Watch`], writes each better plan to a file, and notes
/// when the search went on from its entries. A plan is written once its entry is acknowledged. So
/// after a stop the next run knows a plan that costs no more.
#[derive(Drop)]
pub(crate) struct Watching<'w, R: Eprint + Clock, H: Host> {
    rt: &'w R,
    alloc: Global,
    task: &'w Task,
    host: &'w H,
    watch: Watch<'w, R, H>,
    plan_file: Option<&'w str>,
    /// The cost of the plan in that file, or `NOTHING`.
    best: AtomicU64,
    /// The least cost that was heard of, or `NOTHING`; and how many entries there were then.
    heard: AtomicU64,
    heard_at: AtomicU64,
    /// The file could not be written.
    failed: AtomicBool,
    /// When the search went on from its entries, in milliseconds of the machine, or `NOTHING`.
    opened_at: AtomicU64,
}

impl<'w, R: Eprint + Clock, H: Host> Watching<'w, R, H> {
    /// Returns the gate of a search of a task, for an account.
    pub(crate) fn of(
        rt: &'w R,
        alloc: Global,
        task: &'w Task,
        watch: Watch<'w, R, H>,
        account: &Account<'w, H>,
    ) -> Watching<'w, R, H> {
        Watching {
            rt,
            alloc,
            task,
            host: account.host(),
            watch,
            plan_file: account.plan_file,
            best: AtomicU64::new(NOTHING),
            heard: AtomicU64::new(NOTHING),
            heard_at: AtomicU64::new(0),
            failed: AtomicBool::new(false),
            opened_at: AtomicU64::new(NOTHING),
        }
    }

    /// Notes how many entries there are when a better plan is heard of: its own is one of them.
    fn note_bound(&self, standing: Standing) {
        let Some(bound) = standing.bound else {
            return;
        };
        if bound < self.heard.load(Ordering::Relaxed) {
            self.heard.store(bound, Ordering::Relaxed);
            self.heard_at
                .store(standing.counts.entries, Ordering::Relaxed);
        }
    }

    /// Returns the text of a plan that is not shown to be optimal.
    ///
    /// # Errors
    /// - `NoMemory`: there is no room for it.
    fn text_of(&self, plan: &Plan, cost: u64) -> Result<Vec<u8>, NoMemory> {
        let steps = steps_of(self.alloc, self.task, plan)?;
        plan_file_text(self.alloc, steps.as_slice(), cost, false)
    }

    /// Writes a plan to the file. That it can't be written is reported once, and is no reason to
    /// end a search.
    fn put(&self, name: &str, text: &[u8]) {
        if self.host.put(name, text).is_err() && !self.failed.load(Ordering::Relaxed) {
            self.failed.store(true, Ordering::Relaxed);
            let _ = eprintln!(self.rt; "the plan can't be written to {name}");
        }
    }

    /// Returns what was counted of a search that had so many entries before it. If there is no room
    /// for what each worker did, that is missing.
    fn numbers(&self, workers: usize, before: u64) -> SearchNumbers {
        let counts = self.watch.counts();
        let mut works = Vec::new(self.alloc);
        for worker in 0..workers {
            if works.push(self.watch.work(worker)).is_err() {
                break;
            }
        }
        SearchNumbers {
            before,
            entries: counts.entries,
            posted: counts.posted,
            settled: counts.settled,
            works,
        }
    }

    /// Ends a search by so many workers that had so many entries before it, for its account. One
    /// that did not go on from its entries has no numbers.
    pub(crate) fn end(&self, workers: usize, before: u64, account: &mut Account<'_, H>) {
        self.watch.end();
        let opened_at = match self.opened_at.load(Ordering::Relaxed) {
            NOTHING => None,
            milliseconds => Some(milliseconds),
        };
        account.end_search(opened_at);
        if opened_at.is_some() {
            account.search = Some(self.numbers(workers, before));
        }
        account.plan_failed = self.failed.load(Ordering::Relaxed);
    }
}

impl<R: Eprint + Clock, H: Host> Gate for Watching<'_, R, H> {
    fn before<W: Wait>(&self, _rt: &W, _worker: usize, _nth: u64) {}

    fn after<W: Wait>(&self, _rt: &W, _worker: usize, _nth: u64) {}

    fn asks_worker(&self, worker: usize) -> bool {
        self.watch.asks_worker(worker)
    }

    fn hear_worker(&self, worker: usize, least: Option<u128>) {
        self.watch.hear_worker(worker, least);
    }

    fn asks_committer(&self) -> bool {
        self.watch.asks_committer()
    }

    fn hear_committer(&self, standing: Standing) {
        if self.opened_at.load(Ordering::Relaxed) == NOTHING {
            self.opened_at
                .store(self.host.milliseconds(), Ordering::Relaxed);
        }
        self.note_bound(standing);
        self.watch.hear_committer(standing);
    }

    fn asks_plan(&self, bound: u64) -> bool {
        let acknowledged = self.watch.counts().acknowledged;
        self.plan_file.is_some()
            && bound < self.best.load(Ordering::Relaxed)
            && self.heard_at.load(Ordering::Relaxed) <= acknowledged
    }

    fn hear_plan(&self, plan: Plan, cost: u64) {
        let Some(name) = self.plan_file else {
            return;
        };
        // One that was found since is not acknowledged yet.
        if cost < self.heard.load(Ordering::Relaxed) {
            return;
        }
        // Without room for its text it is tried again, as the committer takes its next round.
        if let Ok(text) = self.text_of(&plan, cost) {
            self.best.store(cost, Ordering::Relaxed);
            self.put(name, text.as_slice());
        }
    }

    fn asks_work(&self) -> bool {
        self.watch.asks_work()
    }

    fn hear_work(&self, worker: usize, work: Work) {
        self.watch.hear_work(worker, work);
    }

    fn hear_rebuilding(&self, done: u64, all: u64) {
        self.watch.hear_rebuilding(done, all);
    }
}
