//! The scope in which the threads of a search run.
ghost use Rattle.std.specs.Prelude.{◌≡◌, Err, IfErr};
ghost use Rattle.std.specs.Thread.{IsSync};
ghost use Rattle.hd_search.specs.Fault.{IsOfThreads};
ghost use Rattle.hd_search.specs.declared.fault.ThreadsFault.TheVariants.{NoThread};
ghost use Rattle.hd_search.specs.Opening.{AreAt};

use crate::ThreadsFault;
use crate::committing::Beside;
use crate::starting::{join_all, reported, start_all};
use hd_threads::{Desk, Gate, RunFault, Workplace};
use std::alloc::Global;
use std::sync::Wait;
use std::sync::ledger::Ledger;
use std::thread;
use std::thread::{Scope, Threads};

/// What is run in a scope: a thread for each place, and what is done beside them.
#[derive(Drop)]
pub(crate) struct ScopedSearch<'d, 't, L: Ledger, A: Ledger, G: Gate, R: Wait, W: Drop> {
    pub(crate) rt: &'d R,
    pub(crate) alloc: Global,
    pub(crate) desk: &'d Desk<'t, L, A>,
    pub(crate) places: Vec<Workplace<'t, L, A>>,
    pub(crate) together: usize,
    pub(crate) limit: Option<u64>,
    pub(crate) gate: &'d G,
    pub(crate) beside: W,
}

/// Starts the threads, does what is done beside them, and joins them.
#[tactic(auto, using(crate::proofs::Stopping::reported_told))]
fn run_inside<
    's,
    'e: 's,
    'd: 's,
    't: 'd,
    L: Ledger + Send + Sync,
    A: Ledger + Send + Sync,
    G: Gate + Sync,
    R: Threads + Wait + Sync,
    W: Beside<Output = T> + Drop,
    T,
>(
    scope: &'s Scope<'s, &'e ()>,
    search: ScopedSearch<'d, 't, L, A, G, R, W>,
) -> (T, Result<(), ThreadsFault>)
    requires can { W.can_run search.beside }
    requires at { AreAt search.desk.now search.places.items }
    ensures gives { W.run_gives search.entry.beside result.0 }
    ensures halted { result.1 ≡ Err NoThread → W.run_halts result.0 }
    ensures told { IfErr result.1 IsOfThreads }
{
    let ScopedSearch {
        rt,
        alloc,
        desk,
        places,
        together,
        limit,
        gate,
        beside,
    } = search;
    match start_all(rt, scope, alloc, desk, places, together, limit, gate) {
        Ok(threads) => {
            let given = beside.run(true);
            match join_all(rt, threads) {
                Ok(ends) => (given, reported(&ends)),
                Err(_) => (given, Err(ThreadsFault::Run(RunFault::NoMemory))),
            }
        }
        Err(fault) => (beside.run(false), Err(fault)),
    }
}

/// Runs a search: a thread for each place, and what is done beside them, until all have ended.
pub(crate) fn run_in_scope<
    'd,
    't: 'd,
    L: Ledger + Send + Sync,
    A: Ledger + Send + Sync,
    G: Gate + Sync,
    R: Threads + Wait + Sync,
    W: Beside<Output = T> + Drop,
    T,
>(rt: &R, search: ScopedSearch<'d, 't, L, A, G, R, W>) -> (T, Result<(), ThreadsFault>)
    requires can { W.can_run search.beside }
    requires at { AreAt search.desk.now search.places.items }
    ensures gives { W.run_gives search.entry.beside result.0 }
    ensures halted { result.1 ≡ Err NoThread → W.run_halts result.0 }
    ensures told { IfErr result.1 IsOfThreads }
{
    thread::scope(
        thread::scope_env(),
        rt,
        move |scope| -> (T, Result<(), ThreadsFault>)
            requires { IsSync R.row × IsSync G.row × W.can_run search.beside
                × AreAt search.desk.now search.places.items }
            ensures gives { W.run_gives search.entry.beside result.0 }
            ensures halted { result.1 ≡ Err NoThread → W.run_halts result.0 }
            ensures told { IfErr result.1 IsOfThreads }
        { run_inside(scope, search) },
    )
}
