//! The tasks of the tests, journals, and what searches say.
use hd_journal::{DIGEST_LEN, Journal};
use hd_search::Outcome;
use hd_store::MemoryDisk;
use hd_task::Task;
use hd_texts::task_of;
use std::alloc::Global;
use std::process::Abort;
use std::test::Fail;

/// Two atoms, each of which an action of its own makes true.
pub const G: &str = "(define (domain g) (:predicates (a) (b))
  (:action put-a :parameters () :precondition (not (a)) :effect (a))
  (:action put-b :parameters () :precondition (not (b)) :effect (b)))";

/// Both atoms are wanted.
pub const G_PROBLEM: &str = "(define (problem g1) (:domain g) (:init) (:goal (and (a) (b))))";

/// The way by `near` and `join` costs 3, and the one by `dear` 6.
pub const N: &str = "(define (domain n) (:requirements :negative-preconditions :action-costs)
  (:predicates (m) (k) (g)) (:functions (total-cost) - number)
  (:action dear :parameters () :precondition (not (m))
    :effect (and (m) (increase (total-cost) 5)))
  (:action near :parameters () :effect (and (k) (increase (total-cost) 1)))
  (:action join :parameters () :precondition (k)
    :effect (and (m) (not (k)) (increase (total-cost) 1)))
  (:action fin :parameters () :precondition (m)
    :effect (and (g) (increase (total-cost) 1))))";

/// `(g)` is wanted at the least cost.
pub const N_PROBLEM: &str = "(define (problem n1) (:domain n) (:init (= (total-cost) 0)) (:goal (g))
  (:metric minimize (total-cost)))";

/// The digest of each journal.
pub const DIGEST: [u8; DIGEST_LEN] = [7; DIGEST_LEN];

/// Returns the task of two texts, in which there is no fault.
pub fn task(rt: &impl Abort, alloc: Global, domain: &str, problem: &str) -> Task {
    match task_of(alloc, domain.as_bytes(), problem.as_bytes()) {
        Ok(task) => task,
        Err(_) => panic!(rt; "the texts have a task"),
    }
}

/// Opens the journal on a disk; it is made if there is none.
pub fn journal_on(alloc: Global, disk: MemoryDisk) -> Result<Journal<MemoryDisk>, Fail> {
    match Journal::open(alloc, disk, &DIGEST) {
        Ok(journal) => Ok(journal),
        Err((_, error)) => Err(error.into()),
    }
}

/// What a search says, by the length of its plan.
#[derive(Clone, Copy, Debug, PartialEq, Eq)]
pub enum Says {
    Optimal(usize),
    NoPlan,
    Other,
}

/// Returns what a search says.
pub fn said(outcome: &Outcome) -> Says {
    match outcome {
        Outcome::Optimal(plan) => Says::Optimal(plan.as_slice().len()),
        Outcome::NoPlan => Says::NoPlan,
        Outcome::RangeLeft(..) | Outcome::Stopped(_) => Says::Other,
    }
}
