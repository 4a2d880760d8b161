//! The call that reports of entries.
ghost use Rattle.std.specs.Prelude.{◌≡◌, ◌+◌, ◌<◌, ◌≤◌, ◌^◌, ℕ, [], None, length, map, take, get_or, slice_get, IfOk, IfErr, OnOk, if◌then◌else◌};
ghost use Rattle.std.specs.List.{AllByRecursion};
ghost use Rattle.hd_task.specs.declared.plan.TheConstants.{ROOT_PARENT};
ghost use Rattle.hd_entries.specs.Settling.{IsBookKept, entry_node, expansions};
ghost use Rattle.hd_entries.specs.Answers.{IsBoundPlanOf};
ghost use Rattle.hd_entries.specs.Holding.{posted_count};
ghost use Rattle.hd_task.specs.Expansions.{bound_of, departures_of};
ghost use Rattle.hd_entries.specs.Waiting.{IsAgain};
ghost use Rattle.hd_hmax.specs.Value.{estimated};
ghost use Rattle.hd_turns.specs.Totals.{total_of};
ghost use Rattle.hd_certify.specs.Covering.{AreAllClosed, IsSpared};
ghost use Rattle.hd_certify.specs.Error.{IsRecoverRefusal};
ghost use Rattle.hd_certify.specs.Survey.{IsSettledBy, IsSurveyOf, IsTableOf, Lessens, Tallies, costs_of, lesser};
ghost use Rattle.hd_certify.specs.Survey.{listed, node_total, short_total, total_at, totals_of};
ghost use Rattle.hd_certify.specs.Gathering.{AreGathered, IsMet, node_met};
ghost use Rattle.hd_base.specs.Lists.{BeginsWith};

use crate::covering::{TOGETHER, is_spared, open_between};
use crate::gathering::{Gathered, MetNode, gather};
use crate::surveyed::Survey;
use crate::tables::table_of;
use crate::{Entry, RecoverError};
use hd_base::NoMemory;
use hd_closed::ClosedList;
use hd_entries::Entries;
use hd_hmax::{EstimateValue, Hmax};
use hd_task::Task;
use std::alloc::Global;

/// Returns one more, where it is so.
fn counted_on(count: u64, is_so: bool) -> u64
    requires { count < 2 ^ 63 }
    ensures { result ≡ (if is_so then count + 1 else count) }
{
    if is_so { count + 1 } else { count }
}

/// Returns how many of these nodes are spared.
fn spared_of<'t>(
    entries: &Entries<'t>,
    closed: &mut ClosedList<'t>,
    estimates: &mut Hmax<'t>,
    nodes: &[MetNode],
) -> u64
    requires closed_task { closed.old.task ≡ entries.now.state.task }
    requires estimates_task { estimates.old.task ≡ entries.now.state.task }
    requires closed { AreAllClosed entries.now.state closed.old.closed }
    requires met { AllByRecursion (IsMet closed.old.states) nodes.now }
    requires few { length nodes.now < 2 ^ 63 }
    ensures same { closed.new ≡ closed.old }
    ensures estimates_task { estimates.new.task ≡ estimates.old.task }
    ensures tallies { Tallies (IsSpared entries.now.state)
        (map (node_met closed.old.states) nodes.now) 0 result }
    ensures few { result ≤ length nodes.now }
{
    let mut spared = 0;
    for met in nodes {
        let is_so = is_spared(entries, closed, estimates, *met);
        spared = counted_on(spared, is_so);
    }
    spared
}

/// Returns the lesser of two totals, if there are any.
fn lesser(one: Option<u128>, other: Option<u128>) -> Option<u128>
    ensures { result ≡ lesser one other }
{
    match (one, other) {
        (Some(one), Some(other)) => Some(one.min(other)),
        (Some(one), None) => Some(one),
        (None, other) => other,
    }
}

/// Returns a cost plus an estimate; none where the estimate is infinite.
fn total_of(cost: u64, value: EstimateValue) -> Option<u128>
    ensures { result ≡ total_of cost (estimated value) }
{
    match value {
        EstimateValue::Cost(estimate) => Some(estimate.saturating_add(u128::from(cost))),
        EstimateValue::Dead => None,
    }
}

/// Returns the cost plus estimate of a node, if that is finite.
fn total_at<'t>(closed: &mut ClosedList<'t>, estimates: &mut Hmax<'t>, met: MetNode) -> Option<u128>
    requires estimates_task { estimates.old.task ≡ closed.old.task }
    requires met { IsMet closed.old.states met }
    ensures same { closed.new ≡ closed.old }
    ensures estimates_task { estimates.new.task ≡ estimates.old.task }
    ensures total { result ≡ total_at closed.old.task (node_met closed.old.states met) }
{
    let value = closed.estimate(estimates, met.state);
    total_of(met.cost, value)
}

/// Returns the least cost plus estimate of these nodes, those aside that are spared.
fn least_of<'t>(
    entries: &Entries<'t>,
    closed: &mut ClosedList<'t>,
    estimates: &mut Hmax<'t>,
    nodes: &[MetNode],
) -> Option<u128>
    requires closed_task { closed.old.task ≡ entries.now.state.task }
    requires estimates_task { estimates.old.task ≡ entries.now.state.task }
    requires closed { AreAllClosed entries.now.state closed.old.closed }
    requires met { AllByRecursion (IsMet closed.old.states) nodes.now }
    ensures same { closed.new ≡ closed.old }
    ensures estimates_task { estimates.new.task ≡ estimates.old.task }
    ensures lessens { Lessens entries.now.state.task (IsSpared entries.now.state)
        (map (node_met closed.old.states) nodes.now) None result }
{
    let mut least = None;
    for met in nodes {
        if !is_spared(entries, closed, estimates, *met) {
            least = lesser(least, total_at(closed, estimates, *met));
        }
    }
    least
}

/// Returns a total, where it is finite and below 2^64.
fn short_total(total: Option<u128>) -> Option<u64>
    ensures { short_total total ≡ listed result }
{
    match total {
        Some(total) => u64::try_from(total).ok(),
        None => None,
    }
}

/// Returns the cost plus estimate of the node of an entry, where that is finite and below 2^64.
///
/// # Errors
/// - `NoMemory`: there is no room for its state.
fn entry_total<'t>(
    alloc: Global,
    entries: &Entries<'t>,
    closed: &mut ClosedList<'t>,
    estimates: &mut Hmax<'t>,
    number: u64,
) -> Result<Option<u64>, NoMemory>
    requires kept { IsBookKept entries.now.state }
    requires closed_task { closed.old.task ≡ entries.now.state.task }
    requires estimates_task { estimates.old.task ≡ entries.now.state.task }
    requires among { number < length entries.now.state.entries }
    ensures closed_task { closed.new.task ≡ closed.old.task }
    ensures begins { BeginsWith closed.new.states closed.old.states }
    ensures closed { closed.new.closed ≡ closed.old.closed }
    ensures estimates_task { estimates.new.task ≡ estimates.old.task }
    ensures total { IfOk result (λ total. listed total ≡ short_total
        (node_total entries.now.state.task (entry_node entries.now.state number))) }
{
    match entries.node(number) {
        Some((state, cost)) => {
            let own = state.copied(alloc)?;
            let place = closed.place_of(alloc, &own)?;
            let value = closed.estimate(estimates, place);
            Ok(short_total(total_of(cost, value)))
        }
        None => unreachable!(),
    }
}

/// Returns the costs plus estimates of the nodes of all entries, as far as they are finite and
/// below 2^64.
///
/// # Errors
/// - `NoMemory`.
fn totals_of<'t>(
    alloc: Global,
    entries: &Entries<'t>,
    closed: &mut ClosedList<'t>,
    estimates: &mut Hmax<'t>,
) -> Result<Vec<u64>, NoMemory>
    requires kept { IsBookKept entries.now.state }
    requires closed_task { closed.old.task ≡ entries.now.state.task }
    requires estimates_task { estimates.old.task ≡ entries.now.state.task }
    ensures closed_task { closed.new.task ≡ closed.old.task }
    ensures begins { BeginsWith closed.new.states closed.old.states }
    ensures closed { closed.new.closed ≡ closed.old.closed }
    ensures estimates_task { estimates.new.task ≡ estimates.old.task }
    ensures totals { IfOk result (λ v. v.items
        ≡ totals_of entries.now.state.task (expansions entries.now.state)) }
{
    let mut totals = Vec::new(alloc);
    for number in 0..entries.len() {
        if let Some(total) = entry_total(alloc, entries, closed, estimates, number)? {
            totals.push(total)?;
        }
    }
    Ok(totals)
}

/// How far a search is by its estimates.
#[derive(Debug, Drop)]
struct Reach {
    settled: u64,
    least: Option<u128>,
    totals: Vec<u64>,
}

/// Returns how far a search is by these estimates. All states are estimated in groups.
///
/// # Errors
/// - `NoMemory`.
fn reach_by<'t>(
    alloc: Global,
    gathered: &mut Gathered<'t>,
    estimates: &mut Hmax<'t>,
) -> Result<Reach, NoMemory>
    requires again { IsAgain gathered.old.entries.state }
    requires gathered { AreGathered gathered.old }
    requires estimates { estimates.old.task ≡ gathered.old.entries.state.task }
    ensures same { gathered.new.entries ≡ gathered.old.entries }
    ensures settled { IfOk result (λ r.
        IsSettledBy gathered.old.entries.state r.settled r.least) }
    ensures totals { IfOk result (λ r. r.totals.items ≡ totals_of
        gathered.old.entries.state.task (expansions gathered.old.entries.state)) }
{
    gathered.closed.estimate_from(estimates, 0);
    let (entries, closed) = (&gathered.entries, &mut gathered.closed);
    let totals = totals_of(alloc, entries, closed, estimates)?;
    let mut settled = gathered.entries.len();
    let mut least = None;
    let posted = gathered.entries.posted();
    let mut from = 0;
    while from < posted {
        let end = from + (posted - from).min(TOGETHER);
        let open = open_between(alloc, gathered, from, end)?;
        let (entries, closed) = (&gathered.entries, &mut gathered.closed);
        let spared = spared_of(entries, closed, estimates, open.as_slice());
        let here = least_of(entries, closed, estimates, open.as_slice());
        settled += spared;
        least = lesser(least, here);
        from = end;
    }
    Ok(Reach {
        settled,
        least,
        totals,
    })
}

/// Returns how far a search is by its estimates.
///
/// # Errors
/// - `NoMemory`.
fn reach_of(alloc: Global, gathered: &mut Gathered<'_>) -> Result<Reach, NoMemory>
    requires again { IsAgain gathered.old.entries.state }
    requires gathered { AreGathered gathered.old }
    ensures same { gathered.new.entries ≡ gathered.old.entries }
    ensures settled { IfOk result (λ r.
        IsSettledBy gathered.old.entries.state r.settled r.least) }
    ensures totals { IfOk result (λ r. r.totals.items ≡ totals_of
        gathered.old.entries.state.task (expansions gathered.old.entries.state)) }
{
    let mut estimates = Hmax::new(alloc, gathered.entries.task())?;
    let reach = reach_by(alloc, gathered, &mut estimates);
    drop(estimates);
    reach
}

/// Returns the length of the plan of the entry with this number, by those of the entries before it.
fn depth_of(entries: &Entries<'_>, before: &[u64], number: u64) -> u64
    requires kept { IsBookKept entries.now.state }
    requires before { before.now ≡ map length (take number (expansions entries.now.state)) }
    requires among { number < length entries.now.state.entries }
    ensures { result ≡ length (get_or (expansions entries.now.state) number []) }
{
    match entries.entry(number) {
        Some(kid) => match before.get(kid.parent as usize) {
            Some(depth) => depth.saturating_add(1),
            None => 0,
        },
        None => 0,
    }
}

/// Returns the lengths of the plans of all entries.
///
/// # Errors
/// - `NoMemory`.
fn depths_of(alloc: Global, entries: &Entries<'_>) -> Result<Vec<u64>, NoMemory>
    requires { IsBookKept entries.now.state }
    ensures { IfOk result (λ v. v.items ≡ map length (expansions entries.now.state)) }
{
    let mut depths = Vec::new(alloc);
    for number in 0..entries.len() {
        let depth = depth_of(entries, depths.as_slice(), number);
        depths.push(depth)?;
    }
    Ok(depths)
}

/// Returns what the plans of all entries cost.
///
/// # Errors
/// - `NoMemory`.
fn costs_of(alloc: Global, entries: &Entries<'_>) -> Result<Vec<u64>, NoMemory>
    requires { IsBookKept entries.now.state }
    ensures { IfOk result (λ v. v.items
        ≡ costs_of entries.now.state.task (expansions entries.now.state)) }
{
    let mut costs = Vec::new(alloc);
    for number in 0..entries.len() {
        match entries.node(number) {
            Some((_, cost)) => costs.push(cost)?,
            None => unreachable!(),
        }
    }
    Ok(costs)
}

/// Returns what entries tell of a search that is so far by its estimates.
///
/// # Errors
/// - `NoMemory`.
fn told_by(alloc: Global, entries: &Entries<'_>, reach: Reach) -> Result<Survey, NoMemory>
    requires kept { IsBookKept entries.now.state }
    ensures bound { IfOk result (λ s. s.bound
        ≡ bound_of entries.now.state.task (expansions entries.now.state)) }
    ensures plan { IfOk result (λ s.
        IsBoundPlanOf entries.now.state.task (expansions entries.now.state) s.plan) }
    ensures posted { IfOk result (λ s. s.posted ≡ posted_count entries.now.state) }
    ensures settled { IfOk result (λ s. s.settled ≡ reach.settled) }
    ensures least { IfOk result (λ s. s.least ≡ reach.least) }
    ensures departure { IfOk result (λ s. s.departure ≡ slice_get
        (departures_of entries.now.state.task (expansions entries.now.state)) 0) }
    ensures depths { IfOk result (λ s.
        IsTableOf (map length (expansions entries.now.state)) s.depths) }
    ensures costs { IfOk result (λ s. IsTableOf
        (costs_of entries.now.state.task (expansions entries.now.state)) s.costs) }
    ensures totals { IfOk result (λ s. IsTableOf reach.totals.items s.totals) }
{
    Ok(Survey {
        bound: entries.bound(),
        plan: entries.extract()?,
        posted: entries.posted(),
        settled: reach.settled,
        least: reach.least,
        departure: entries.departure(),
        depths: table_of(alloc, depths_of(alloc, entries)?)?,
        costs: table_of(alloc, costs_of(alloc, entries)?)?,
        totals: table_of(alloc, reach.totals)?,
    })
}

/// Returns what entries that were made again tell of a search: how far it is, and what it has found.
///
/// # Errors
/// - `NoMemory`.
fn told_in(alloc: Global, gathered: &mut Gathered<'_>) -> Result<Survey, NoMemory>
    requires again { IsAgain gathered.old.entries.state }
    requires gathered { AreGathered gathered.old }
    ensures bound { IfOk result (λ s. s.bound ≡ bound_of
        gathered.old.entries.state.task (expansions gathered.old.entries.state)) }
    ensures plan { IfOk result (λ s. IsBoundPlanOf gathered.old.entries.state.task
        (expansions gathered.old.entries.state) s.plan) }
    ensures posted { IfOk result (λ s. s.posted ≡ posted_count gathered.old.entries.state) }
    ensures settled { IfOk result (λ s.
        IsSettledBy gathered.old.entries.state s.settled s.least) }
    ensures departure { IfOk result (λ s. s.departure ≡ slice_get
        (departures_of gathered.old.entries.state.task
        (expansions gathered.old.entries.state)) 0) }
    ensures depths { IfOk result (λ s.
        IsTableOf (map length (expansions gathered.old.entries.state)) s.depths) }
    ensures costs { IfOk result (λ s. IsTableOf (costs_of gathered.old.entries.state.task
        (expansions gathered.old.entries.state)) s.costs) }
    ensures totals { IfOk result (λ s. IsTableOf (totals_of gathered.old.entries.state.task
        (expansions gathered.old.entries.state)) s.totals) }
{
    let reach = reach_of(alloc, gathered)?;
    told_by(alloc, &gathered.entries, reach)
}

/// Returns what these entries, of which there may be `most`, tell of a search of a task: how far it
/// is, and what it has found.
///
/// # Errors
/// - `Full`: there are more entries than `most`.
/// - `Damaged` with the place of the first that makes no legal list with those before it.
/// - `NoMemory`.
pub fn survey(
    alloc: Global,
    task: &Task,
    entries: &[Entry],
    most: u64,
) -> Result<Survey, RecoverError>
    requires { most < ROOT_PARENT }
    ensures within { OnOk result (length entries.now ≤ most) }
    ensures tells { IfOk result (IsSurveyOf task.now entries.now) }
    ensures refused { IfErr result (IsRecoverRefusal task.now most entries.now) }
{
    let mut gathered = gather(alloc, task, entries, most)?;
    let told = told_in(alloc, &mut gathered);
    drop(gathered);
    Ok(told?)
}
