//! Gates that wait and count.
ghost use Rattle.std.specs.Prelude.{◌≤◌};

use crate::tasks::{G, G_PROBLEM, Says, journal_on, said, task};
use hd_search::{Gate, run};
use hd_store::MemoryDisk;
use std::sync::Wait;
use std::sync::atomic::{AtomicU64, Ordering};
use std::test::Fail;
use std::thread::Parker;
use std::time::Duration;

/// Turns of a millisecond, at most.
const TURNS: u64 = 10_000;

/// Waits until a word is no more 0: whether it came to that.
fn wait_for<R: Wait>(rt: &R, word: &AtomicU64) -> bool {
    for _ in 0..TURNS {
        if word.load(Ordering::SeqCst) != 0 {
            return true;
        }
        Parker::new().park_timeout(rt, Duration::from_millis(1));
    }
    false
}

/// Worker 0's second node and worker 1's first wait for each other; how often one waited in vain.
#[derive(Drop)]
struct Meeting {
    second: AtomicU64,
    first: AtomicU64,
    missed: AtomicU64,
}

impl Meeting {
    fn meet<R: Wait>(&self, rt: &R, here: &AtomicU64, there: &AtomicU64) {
        here.store(1, Ordering::SeqCst);
        if !wait_for(rt, there) {
            self.missed.fetch_add(1, Ordering::SeqCst);
        }
    }
}

impl Gate for Meeting {
    fn before<R: Wait>(&self, rt: &R, worker: usize, nth: u64) {
        match (worker, nth) {
            (0, 2) => self.meet(rt, &self.second, &self.first),
            (1, 1) => self.meet(rt, &self.first, &self.second),
            _ => {}
        }
    }

    fn after<R: Wait>(&self, _rt: &R, _worker: usize, _nth: u64) {}
}

#[test]
fn two_workers_expand_at_the_same_time(rt: HostRuntime) -> Result<(), Fail> {
    let alloc = rt.alloc();
    let task = task(&rt, alloc, G, G_PROBLEM);
    let gate = Meeting {
        second: AtomicU64::new(0),
        first: AtomicU64::new(0),
        missed: AtomicU64::new(0),
    };
    let mut journal = journal_on(alloc, MemoryDisk::new(alloc))?;
    match run(&rt, alloc, &task, &mut journal, 2, 1, None, &gate) {
        Ok(concluded) => assert_eq!(rt; said(&concluded.outcome), Says::Optimal(2)),
        Err(fault) => return Err(fault.into()),
    }
    assert_eq!(rt; gate.first.load(Ordering::SeqCst), 1);
    assert_eq!(rt; gate.second.load(Ordering::SeqCst), 1);
    assert_eq!(rt; gate.missed.load(Ordering::SeqCst), 0);
    Ok(())
}

const TEN: &str = "(define (domain g) (:predicates (a) (b) (c) (d) (e) (f) (g) (h) (i) (j))
  (:action put-a :parameters () :precondition (not (a)) :effect (a))
  (:action put-b :parameters () :precondition (not (b)) :effect (b))
  (:action put-c :parameters () :precondition (not (c)) :effect (c))
  (:action put-d :parameters () :precondition (not (d)) :effect (d))
  (:action put-e :parameters () :precondition (not (e)) :effect (e))
  (:action put-f :parameters () :precondition (not (f)) :effect (f))
  (:action put-g :parameters () :precondition (not (g)) :effect (g))
  (:action put-h :parameters () :precondition (not (h)) :effect (h))
  (:action put-i :parameters () :precondition (not (i)) :effect (i))
  (:action put-j :parameters () :precondition (not (j)) :effect (j)))";

const NEVER: &str = "(define (problem g1) (:domain g) (:init) (:goal (< 1 0)))";

/// Each worker's calls, which are counted; the first waits a hundred turns.
#[derive(Drop)]
struct Counting {
    inside: [AtomicU64; 4],
    calls: [AtomicU64; 4],
    faults: AtomicU64,
}

impl Gate for Counting {
    fn before<R: Wait>(&self, rt: &R, worker: usize, nth: u64) {
        if worker >= 4 {
            self.faults.fetch_add(1, Ordering::SeqCst);
            return;
        }
        if self.inside[worker].fetch_add(1, Ordering::SeqCst) != 0 {
            self.faults.fetch_add(1, Ordering::SeqCst);
        }
        if self.calls[worker]
            .fetch_add(1, Ordering::SeqCst)
            .wrapping_add(1)
            != nth
        {
            self.faults.fetch_add(1, Ordering::SeqCst);
        }
        if nth == 1 {
            for _ in 0..100u64 {
                Parker::new().park_timeout(rt, Duration::from_millis(1));
            }
        }
    }

    fn after<R: Wait>(&self, _rt: &R, worker: usize, nth: u64) {
        if worker >= 4 {
            return;
        }
        if self.calls[worker].load(Ordering::SeqCst) != nth {
            self.faults.fetch_add(1, Ordering::SeqCst);
        }
        self.inside[worker].store(0, Ordering::SeqCst);
    }
}

fn four() -> [AtomicU64; 4] {
    [
        AtomicU64::new(0),
        AtomicU64::new(0),
        AtomicU64::new(0),
        AtomicU64::new(0),
    ]
}

/// Returns the word of an even number, by SplitMix64.
fn word(k: u64) -> u64 {
    let z = k.wrapping_add(0x9E3779B97F4A7C15);
    let z = (z ^ (z >> 30)).wrapping_mul(0xBF58476D1CE4E5B9);
    let z = (z ^ (z >> 27)).wrapping_mul(0x94D049BB133111EB);
    z ^ (z >> 31)
}

/// Returns how many calls each of four workers makes: each set of atoms is settled as often as it
/// has atoms, the empty one once.
fn owned() -> [u64; 4] {
    let mut calls = [0u64; 4];
    for set in 0..1024u64 {
        let mut hash = 0u64;
        let mut size = 0u64;
        for atom in 0..10u64 {
            if (set >> atom) & 1 == 1 {
                hash ^= word(2 * atom);
                size = size.wrapping_add(1);
            }
        }
        let owner = (hash % 4) as usize;
        calls[owner] = calls[owner].wrapping_add(size.max(1));
    }
    calls
}

#[test]
fn each_worker_expands_what_it_owns(rt: HostRuntime) -> Result<(), Fail> {
    let alloc = rt.alloc();
    let task = task(&rt, alloc, TEN, NEVER);
    let gate = Counting {
        inside: four(),
        calls: four(),
        faults: AtomicU64::new(0),
    };
    let mut journal = journal_on(alloc, MemoryDisk::new(alloc))?;
    match run(&rt, alloc, &task, &mut journal, 4, 8, None, &gate) {
        Ok(concluded) => assert_eq!(rt; said(&concluded.outcome), Says::NoPlan),
        Err(fault) => return Err(fault.into()),
    }
    assert_eq!(rt; gate.faults.load(Ordering::SeqCst), 0);
    let owned = owned();
    let mut all = 0u64;
    for worker in 0..4 {
        let calls = gate.calls[worker].load(Ordering::SeqCst);
        assert_eq!(rt; calls, owned[worker]);
        all = all.wrapping_add(calls);
    }
    assert_eq!(rt; all, 5121);
    Ok(())
}
