//! How a thread that waits for long is woken.
//!
//! It says so, and whoever has something for it wakes it. Nothing rests on this but how long a
//! search takes: a thread that nobody wakes looks again by itself.
use hd_base::NoMemory;
use std::alloc::Global;
use std::sync::Wait;
use std::sync::atomic::{AtomicBool, AtomicU64, Ordering};
use std::thread::Parker;
use std::time::Duration;

/// The thread has something to do, or has waited for a short while only.
const AWAKE: u64 = 0;

/// It waits, and holds no ticket.
const WAITS: u64 = 1;

/// It waits, and holds tickets.
const WAITS_FOR_TICKETS: u64 = 2;

/// What one thread sleeps on, and whether it waits.
#[derive(Drop)]
pub struct Bell {
    parker: Parker,
    state: AtomicU64,
}

impl Bell {
    /// Returns the bell of a thread that does not wait.
    fn new() -> Bell {
        Bell {
            parker: Parker::new(),
            state: AtomicU64::new(AWAKE),
        }
    }

    /// Notes that the thread waits no longer.
    pub(crate) fn rise(&self) {
        self.state.store(AWAKE, Ordering::SeqCst);
    }

    /// Notes that the thread waits, and by `holds` whether it holds tickets. It is to look once
    /// more before it sleeps.
    pub(crate) fn lie_down(&self, holds: bool) {
        let state = if holds { WAITS_FOR_TICKETS } else { WAITS };
        self.state.store(state, Ordering::SeqCst);
    }

    /// Sleeps until the bell is rung, and no longer than `length`. It may return early.
    pub(crate) fn sleep<R: Wait>(&self, rt: &R, length: Duration) {
        self.parker.park_timeout(rt, length);
    }

    /// Wakes the thread, if it waits.
    fn ring(&self) {
        if self.state.load(Ordering::SeqCst) != AWAKE {
            self.parker.unpark();
        }
    }

    /// Wakes the thread, if it waits and holds tickets.
    fn ring_for_tickets(&self) {
        if self.state.load(Ordering::SeqCst) == WAITS_FOR_TICKETS {
            self.parker.unpark();
        }
    }
}

/// The bells of the threads of a search, and whether it is over.
#[derive(Drop)]
pub struct Bells {
    workers: Vec<Bell>,
    committer: Bell,
    over: AtomicBool,
}

impl Bells {
    /// Returns the bells of `workers` workers and the committer, in a search that is not over.
    ///
    /// # Errors
    /// - `NoMemory`: there is no room for a bell for each.
    pub fn new(alloc: Global, workers: usize) -> Result<Bells, NoMemory> {
        let mut bells = Vec::with_capacity(alloc, workers)?;
        for _worker in 0..workers {
            bells.push(Bell::new())?;
        }
        Ok(Bells {
            workers: bells,
            committer: Bell::new(),
            over: AtomicBool::new(false),
        })
    }

    /// Returns the bell of a worker; that of the committer where there is no such worker.
    pub(crate) fn of_worker(&self, worker: usize) -> &Bell {
        match self.workers.get(worker) {
            Some(bell) => bell,
            None => &self.committer,
        }
    }

    /// Returns the bell of the committer.
    pub(crate) fn of_committer(&self) -> &Bell {
        &self.committer
    }

    /// Wakes a worker, which has got a parcel.
    pub(crate) fn ring_worker(&self, worker: usize) {
        self.of_worker(worker).ring();
    }

    /// Wakes the workers that hold tickets, some of which may be redeemed now.
    pub(crate) fn ring_holders(&self) {
        for bell in self.workers.iter() {
            bell.ring_for_tickets();
        }
    }

    /// Wakes the committer, which has something to append.
    pub(crate) fn ring_committer(&self) {
        self.committer.ring();
    }

    /// Notes that the search is over, and wakes all workers.
    pub fn end(&self) {
        self.over.store(true, Ordering::SeqCst);
        for bell in self.workers.iter() {
            bell.ring();
        }
    }

    /// Reports whether the search is over.
    pub(crate) fn is_over(&self) -> bool {
        self.over.load(Ordering::SeqCst)
    }
}
