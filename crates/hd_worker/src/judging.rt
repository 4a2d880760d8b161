//! How a node that is taken out is settled.
ghost use Rattle.std.specs.Prelude.{◌≡◌, ◌<◌, ◌^◌, ◌++◌, true, IfOk, IfSome, OnOk, OnErr};
ghost use Rattle.std.specs.List.{insert};
ghost use Rattle.hd_hmax.specs.Rounds.{hmax};
ghost use Rattle.hd_entries.specs.Holding.{parcel_of};
ghost use Rattle.hd_open.specs.Open.{IsGapOf};
ghost use Rattle.hd_worker.specs.Lookup.{IsLookupOf};
ghost use Rattle.hd_worker.specs.Nodes.{IsNodeOf, released_of};
ghost use Rattle.hd_turns.specs.Totals.{reaches_bound};
ghost use Rattle.hd_turns.specs.Settling.{IsOutcomeOf, closed_by};

use crate::lookup::Lookup;
use crate::node::WaitingNode;
use hd_base::NoMemory;
use hd_closed::ClosedList;
use hd_hmax::Estimate;
use hd_node::{By, Expansion, Hashed, Outcome, Parcel};
use hd_open::{OpenList, Waits};
use hd_pack::SpareBlocks;
use hd_task::Task;

/// Reports whether a total reaches a bound, or there is none.
fn is_reached(bound: Option<u64>, total: Option<u128>) -> bool
    ensures reached { result ≡ reaches_bound bound total }
    ensures small { IfSome total (λ _. IfSome bound (λ limit. limit < 2 ^ 64)) }
{
    match (total, bound) {
        (None, _) => true,
        (Some(_), None) => false,
        (Some(total), Some(limit)) => u128::from(limit) <= total,
    }
}

/// Returns the parcel of a node: its state is copied from the closed list.
///
/// # Errors
/// - `NoMemory`: there is no room for the state.
fn parcel_at<'t>(
    spare: &mut SpareBlocks,
    task: &'t Task,
    known: &ClosedList<'t>,
    node: &WaitingNode,
) -> Result<Parcel<'t>, NoMemory>
    requires of_task { known.now.task ≡ task.now }
    requires is_node { IsNodeOf task.now known.now.states node.now }
    ensures task { IfOk result (λ p. p.task ≡ task.now) }
    ensures released { IfOk result (λ p. parcel_of p ≡ released_of known.now.states node.now) }
{
    let place = node.state as usize;
    let state = known.state(place).packed(spare)?;
    let state = Hashed::known(state, known.hash(place));
    Ok(Parcel::known(task, node.kid(), state, node.cost))
}

/// Returns the outcome of a node: a duplicate where an expansion of its state costs no more; else
/// bounded where its cost and its estimate reach the bound that was seen last, or its estimate is
/// infinite; else its expansion.
///
/// # Errors
/// - `NoMemory`: there is no room for its state or its expansion.
fn outcome_of<'t>(
    spare: &mut SpareBlocks,
    task: &'t Task,
    known: &mut ClosedList<'t>,
    lookup: &mut Lookup<'t>,
    seen: Option<u64>,
    node: &WaitingNode,
) -> Result<Outcome<'t>, NoMemory>
    requires of_task { known.old.task ≡ task.now }
    requires lookup { IsLookupOf task.now lookup.old }
    requires is_node { IsNodeOf task.now known.old.states node.now }
    ensures lookup { IsLookupOf task.now lookup.new }
    ensures known { known.new ≡ known.old }
    ensures outcome { IfOk result (λ o. IsOutcomeOf task.now (hmax task.now) known.old.closed seen
        (released_of known.old.states node.now) o) }
{
    let place = node.state as usize;
    if let Some(by) = known.dominating(place, node.cost) {
        return Ok(Outcome::Duplicate(node.kid(), by));
    }
    let parcel = parcel_at(spare, task, known, node)?;
    if is_reached(seen, node.total()) {
        let value = known.estimate(&mut lookup.hmax, place);
        let (kid, state, _) = parcel.into_parts();
        let estimate = Estimate::of(task, state.into_state(), value);
        return Ok(Outcome::Bounded(kid, estimate));
    }
    match Expansion::of(spare, task, &lookup.words, &mut lookup.successors, parcel) {
        Ok(expansion) => Ok(Outcome::Expanded(expansion)),
        Err((_, error)) => Err(error),
    }
}

/// Settles a node that is taken out; its expansion is closed, and named by the place that its
/// outcome has.
///
/// # Errors
/// - `NoMemory`: there is no room for its state or its expansion; nothing is closed.
fn settle<'t>(
    spare: &mut SpareBlocks,
    task: &'t Task,
    known: &mut ClosedList<'t>,
    lookup: &mut Lookup<'t>,
    seen: Option<u64>,
    place: usize,
    node: &WaitingNode,
) -> Result<Outcome<'t>, NoMemory>
    requires of_task { known.old.task ≡ task.now }
    requires ready { known.old.ready ≡ true }
    requires lookup { IsLookupOf task.now lookup.old }
    requires is_node { IsNodeOf task.now known.old.states node.now }
    ensures lookup { IsLookupOf task.now lookup.new }
    ensures task { known.new.task ≡ known.old.task }
    ensures states { known.new.states ≡ known.old.states }
    ensures outcome { IfOk result (λ o. IsOutcomeOf task.now (hmax task.now) known.old.closed seen
        (released_of known.old.states node.now) o) }
    ensures closed { IfOk result (λ o. known.new.closed
        ≡ known.old.closed ++ closed_by place o) }
    ensures err { OnErr result (known.new ≡ known.old) }
{
    let outcome = outcome_of(spare, task, known, lookup, seen, node)?;
    if let Outcome::Expanded(_) = &outcome {
        known.close(node.state as usize, By::Here(place), node.cost);
    }
    Ok(outcome)
}

/// Settles the node that was taken out of the open nodes last.
///
/// # Errors
/// - `NoMemory`: there is no room for its state or its expansion: the node is open again, at its
///   place, and nothing is closed.
// An outcome is some 140 bytes: inlined, it is written where it stands, and moved once less.
#[inline(always)]
pub(crate) fn settle_taken<'t>(
    spare: &mut SpareBlocks,
    task: &'t Task,
    known: &mut ClosedList<'t>,
    nodes: &mut OpenList<WaitingNode>,
    lookup: &mut Lookup<'t>,
    seen: Option<u64>,
    place: usize,
    node: WaitingNode,
) -> Result<Outcome<'t>, NoMemory>
    requires of_task { known.old.task ≡ task.now }
    requires ready { known.old.ready ≡ true }
    requires lookup { IsLookupOf task.now lookup.old }
    requires is_node { IsNodeOf task.now known.old.states node }
    requires gap { IsGapOf node.total nodes.old.gap }
    ensures lookup { IsLookupOf task.now lookup.new }
    ensures task { known.new.task ≡ known.old.task }
    ensures states { known.new.states ≡ known.old.states }
    ensures outcome { IfOk result (λ o. IsOutcomeOf task.now (hmax task.now) known.old.closed seen
        (released_of known.old.states node) o) }
    ensures closed { IfOk result (λ o. known.new.closed
        ≡ known.old.closed ++ closed_by place o) }
    ensures nodes { OnOk result (nodes.new.nodes ≡ nodes.old.nodes) }
    ensures back { OnErr result (IfSome nodes.old.gap (λ g.
        nodes.new.nodes ≡ insert nodes.old.nodes g.0 node)) }
    ensures err { OnErr result (known.new ≡ known.old) }
{
    match settle(spare, task, known, lookup, seen, place, &node) {
        Ok(outcome) => Ok(outcome),
        Err(error) => {
            nodes.put_back(node);
            Err(error)
        }
    }
}
