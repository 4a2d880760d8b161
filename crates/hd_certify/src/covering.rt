//! Whether entries cover what they generate.
ghost use Rattle.std.specs.Prelude.{◌≡◌, ◌↔◌, ◌+◌, ◌<◌, ◌≤◌, ◌++◌, true, Some, length, map, IfOk, OnOk};
ghost use Rattle.std.specs.List.{AllByRecursion};
ghost use Rattle.hd_task.specs.declared.state.State.{State};
ghost use Rattle.hd_task.specs.Plans.{node};
ghost use Rattle.hd_hmax.specs.Value.{estimated};
ghost use Rattle.hd_entries.specs.Settling.{node_of, reaches};
ghost use Rattle.hd_entries.specs.Holding.{posted_count};
ghost use Rattle.hd_entries.specs.Resuming.{open_before};
ghost use Rattle.hd_entries.specs.Waiting.{IsAgain};
ghost use Rattle.hd_certify.specs.Covering.{AreAllClosed, AreAllSpared, IsSpared, Spares};
ghost use Rattle.hd_certify.specs.Gathering.{AreGathered, IsMet, node_met, nodes_met};

use crate::gathering::{Gathered, MetNode};
use hd_base::NoMemory;
use hd_closed::ClosedList;
use hd_entries::Entries;
use hd_hmax::{EstimateValue, Hmax};
use std::alloc::Global;

/// Reports whether a cost and an estimate reach a bound, or the estimate is infinite.
fn is_bounded(bound: Option<u64>, cost: u64, value: EstimateValue) -> bool
    ensures { (s : State) → result ≡ reaches bound (Some (node s cost)) (estimated value) }
{
    match (value, bound) {
        (EstimateValue::Dead, _) => true,
        (EstimateValue::Cost(_), None) => false,
        (EstimateValue::Cost(estimate), Some(limit)) => {
            u128::from(limit.saturating_sub(cost)) <= estimate
        }
    }
}

/// Reports whether a node need not be expanded: an entry has its state at no greater cost, or its
/// cost and its estimate reach the bound, or the estimate is infinite.
pub(crate) fn is_spared<'t>(
    entries: &Entries<'t>,
    closed: &mut ClosedList<'t>,
    estimates: &mut Hmax<'t>,
    met: MetNode,
) -> bool
    requires closed_task { closed.old.task ≡ entries.now.state.task }
    requires estimates_task { estimates.old.task ≡ entries.now.state.task }
    requires met { IsMet closed.old.states met }
    requires closed { AreAllClosed entries.now.state closed.old.closed }
    ensures same { closed.new ≡ closed.old }
    ensures estimates_task { estimates.new.task ≡ estimates.old.task }
    ensures spared { (result ≡ true)
        ↔ IsSpared entries.now.state (node_met closed.old.states met) }
{
    if closed.dominating(met.state, met.cost).is_some() {
        return true;
    }
    let value = closed.estimate(estimates, met.state);
    is_bounded(entries.bound(), met.cost, value)
}

/// Number of places whose nodes are looked at together. The first node that must be expanded ends
/// the look, so that later ones are not estimated.
pub(crate) const TOGETHER: u64 = 256;

/// Returns the nodes at the places from `from` up to `end` that are no entries'.
///
/// # Errors
/// - `NoMemory`: there is no room for one.
pub(crate) fn open_between(
    alloc: Global,
    gathered: &Gathered<'_>,
    from: u64,
    end: u64,
) -> Result<Vec<MetNode>, NoMemory>
    requires again { IsAgain gathered.now.entries.state }
    requires gathered { AreGathered gathered.now }
    requires order { from ≤ end }
    requires within { end ≤ posted_count gathered.now.entries.state }
    ensures open { IfOk result (λ ms. map (node_of gathered.now.entries.state)
        (open_before gathered.now.entries.state from)
        ++ nodes_met gathered.now.closed.states ms.items
        ≡ map (node_of gathered.now.entries.state)
        (open_before gathered.now.entries.state end)) }
    ensures met { IfOk result (λ ms. AllByRecursion (IsMet gathered.now.closed.states) ms.items) }
    ensures few { IfOk result (λ ms. from + length ms.items ≤ end) }
{
    let mut open = Vec::new(alloc);
    for place in from..end {
        if !gathered.entries.is_settled(place) {
            open.push(gathered.nodes[place as usize])?;
        }
    }
    Ok(open)
}

/// Adds a place, if there is one.
///
/// # Errors
/// - `NoMemory`: there is no room for it.
fn add(places: &mut Vec<u32>, place: Option<u32>) -> Result<(), NoMemory> {
    if let Some(place) = place {
        places.push(place)?;
    }
    Ok(())
}

/// Estimates in groups the states of those of the nodes that no expansion dominates.
///
/// # Errors
/// - `NoMemory`: there is no room for a list of them.
fn estimate_open<'t>(
    alloc: Global,
    closed: &mut ClosedList<'t>,
    estimates: &mut Hmax<'t>,
    nodes: &[MetNode],
) -> Result<(), NoMemory>
    requires task { estimates.old.task ≡ closed.old.task }
    requires met { AllByRecursion (IsMet closed.old.states) nodes.now }
    ensures same { closed.new ≡ closed.old }
    ensures task { estimates.new.task ≡ estimates.old.task }
{
    let mut places = Vec::new(alloc);
    for met in nodes {
        if closed.dominating(met.state, met.cost).is_none() {
            add(&mut places, u32::try_from(met.state).ok())?;
        }
    }
    closed.estimate_at(alloc, estimates, places.as_slice())
}

/// Reports whether none of these nodes must be expanded.
///
/// # Errors
/// - `NoMemory`.
fn all_spared<'t>(
    alloc: Global,
    entries: &Entries<'t>,
    closed: &mut ClosedList<'t>,
    estimates: &mut Hmax<'t>,
    nodes: &[MetNode],
) -> Result<bool, NoMemory>
    requires closed_task { closed.old.task ≡ entries.now.state.task }
    requires estimates_task { estimates.old.task ≡ entries.now.state.task }
    requires closed { AreAllClosed entries.now.state closed.old.closed }
    requires met { AllByRecursion (IsMet closed.old.states) nodes.now }
    ensures same { closed.new ≡ closed.old }
    ensures estimates_task { estimates.new.task ≡ estimates.old.task }
    ensures spared { IfOk result (AreAllSpared entries.now.state
        (map (node_met closed.old.states) nodes.now)) }
{
    estimate_open(alloc, closed, estimates, nodes)?;
    for met in nodes {
        if !is_spared(entries, closed, estimates, *met) {
            return Ok(false);
        }
    }
    Ok(true)
}

/// Reports whether no successor that is no entry need be expanded, by these estimates.
///
/// # Errors
/// - `NoMemory`.
fn are_spared_by<'t>(
    alloc: Global,
    gathered: &mut Gathered<'t>,
    estimates: &mut Hmax<'t>,
) -> Result<bool, NoMemory>
    requires again { IsAgain gathered.old.entries.state }
    requires gathered { AreGathered gathered.old }
    requires estimates { estimates.old.task ≡ gathered.old.entries.state.task }
    ensures same { gathered.new.entries ≡ gathered.old.entries }
    ensures spared { IfOk result (Spares gathered.old.entries.state) }
{
    let posted = gathered.entries.posted();
    let mut from = 0;
    while from < posted {
        let end = from + (posted - from).min(TOGETHER);
        let open = open_between(alloc, gathered, from, end)?;
        let (entries, closed) = (&gathered.entries, &mut gathered.closed);
        if !all_spared(alloc, entries, closed, estimates, open.as_slice())? {
            return Ok(false);
        }
        from = end;
    }
    Ok(true)
}

/// Reports whether no successor that is no entry need be expanded.
///
/// # Errors
/// - `NoMemory`.
pub(crate) fn are_spared(alloc: Global, gathered: &mut Gathered<'_>) -> Result<bool, NoMemory>
    requires again { IsAgain gathered.old.entries.state }
    requires gathered { AreGathered gathered.old }
    ensures same { gathered.new.entries ≡ gathered.old.entries }
    ensures spared { IfOk result (Spares gathered.old.entries.state) }
{
    let mut estimates = Hmax::new(alloc, gathered.entries.task())?;
    let spared = are_spared_by(alloc, gathered, &mut estimates);
    drop(estimates);
    spared
}
