//! How parcels that came become open nodes.
ghost use Rattle.std.specs.Prelude.{◌≡◌, ◌==◌, ◌+◌, ◌-◌, ◌<◌, ◌≤◌, ◌++◌, [], ◌∷◌, Some, drop, length, min, slice_get, IfOk, OnOk, OnErr};
ghost use Rattle.std.specs.List.{AllByRecursion};
ghost use Rattle.std.specs.VecDeque.{deque_len, deque_capacity};
ghost use Rattle.hd_entries.specs.Holding.{parcel_of, IsParcelOf};
ghost use Rattle.hd_base.specs.Lists.{BeginsWith};
ghost use Rattle.hd_worker.specs.Nodes.{AreMet, IsNodeOf, released_of, waiting_by};

use crate::deque::give_back;
use crate::node::{WaitingNode, total_of};
use crate::total::Total;
use hd_base::NoMemory;
use hd_closed::ClosedList;
use hd_hmax::Hmax;
use hd_node::Parcel;
use hd_open::OpenList;
use hd_pack::SpareBlocks;
use std::alloc::{AllocError, Global};
use std::collections::VecDeque;

/// Returns a place in the closed list, in 32 bits.
///
/// # Errors
/// - `NoMemory`: it has more.
fn place_in_32_bits(place: usize) -> Result<u32, NoMemory>
    ensures { IfOk result (λ narrow. narrow ≡ place) }
{
    match u32::try_from(place) {
        Ok(narrow) => Ok(narrow),
        Err(_) => Err(AllocError),
    }
}

/// Returns the node of a parcel with its estimate. The parcel's state is at this place of the
/// closed list.
///
/// # Errors
/// - `NoMemory`: there is no room for its total.
fn node_for<'t>(
    alloc: Global,
    known: &mut ClosedList<'t>,
    estimates: &mut Hmax<'t>,
    parcel: &Parcel<'t>,
    state: u32,
) -> Result<WaitingNode, NoMemory>
    requires there { slice_get known.old.states state ≡ Some parcel.now.state }
    requires estimates { estimates.old.task ≡ known.old.task }
    ensures same { known.new ≡ known.old }
    ensures estimates { estimates.new.task ≡ estimates.old.task }
    ensures is_node { IfOk result (IsNodeOf known.old.task known.new.states) }
    ensures released { IfOk result (λ n. released_of known.new.states n ≡ parcel_of parcel.now) }
{
    let (kid, cost) = (parcel.kid(), parcel.cost());
    let value = known.estimate(estimates, state as usize);
    let total = Total::of(alloc, total_of(cost, value))?;
    Ok(WaitingNode {
        parent: kid.parent,
        cost,
        total,
        action: kid.action,
        state,
    })
}

/// Puts the states of the first `most` parcels of `fresh` into the closed list, and estimates in
/// groups those that have no estimate. Returns where they stand.
///
/// # Errors
/// - `NoMemory`: there is no room for a state, or for a list of places. The states before it are in
///   the closed list.
fn meet_some<'t>(
    alloc: Global,
    known: &mut ClosedList<'t>,
    estimates: &mut Hmax<'t>,
    fresh: &VecDeque<Parcel<'t>>,
    most: usize,
) -> Result<Vec<u32>, NoMemory>
    requires estimates { estimates.old.task ≡ known.old.task }
    requires parcels { AllByRecursion (IsParcelOf known.old.task) fresh.now.items }
    ensures task { known.new.task ≡ known.old.task }
    ensures closed { known.new.closed ≡ known.old.closed }
    ensures begins { BeginsWith known.new.states known.old.states }
    ensures estimates { estimates.new.task ≡ estimates.old.task }
    ensures places { IfOk result (λ ks. AreMet known.new.states fresh.now.items ks.items) }
    ensures count { IfOk result (λ ks. length ks.items ≡ min most (length fresh.now.items)) }
{
    let count = most.min(fresh.len());
    let mut places = Vec::with_capacity(alloc, count)?;
    let before = known.len();
    for number in 0..count {
        let Some(parcel) = fresh.get(number) else {
            unreachable!();
        };
        let place = known.place_of(alloc, parcel.hashed())?;
        places.push(place_in_32_bits(place)?)?;
    }
    known.estimate_from(estimates, before);
    known.estimate_at(alloc, estimates, places.as_slice())?;
    Ok(places)
}

/// Opens `node`, that of the first parcel of `fresh`, after the others, and drops the parcel, but
/// for the block of its state.
///
/// # Errors
/// - `NoMemory`: there is no room for it; nothing has changed.
fn open_first<'t>(
    spare: &mut SpareBlocks,
    nodes: &mut OpenList<WaitingNode>,
    fresh: &mut VecDeque<Parcel<'t>>,
    node: WaitingNode,
) -> Result<(), NoMemory>
    requires { 0 < deque_len fresh.old }
    ensures nodes { OnOk result (nodes.new.nodes ≡ nodes.old.nodes ++ node ∷ []) }
    ensures rest { OnOk result (fresh.new.items ≡ drop 1 fresh.old.items) }
    ensures err { OnErr result (nodes.new.nodes ≡ nodes.old.nodes) }
    ensures parcels { OnErr result (fresh.new.items ≡ fresh.old.items) }
    ensures fewer { deque_len fresh.new ≤ deque_len fresh.old }
    ensures one_less { OnOk result (deque_len fresh.new + 1 ≡ deque_len fresh.old) }
    ensures capacity { deque_capacity fresh.new ≡ deque_capacity fresh.old }
{
    match nodes.push(node) {
        Ok(()) => {
            if let Some(parcel) = fresh.pop_front() {
                let (_, state, _) = parcel.into_parts();
                spare.keep(state.into_state());
            }
            Ok(())
        }
        Err((_, error)) => Err(error),
    }
}

/// Opens the nodes of the first `most` parcels of `fresh`, in their order, after the others;
/// returns whether all that came are open nodes now. Each is estimated, unless its state was
/// before: new states in groups first, and then what these leave out. Room for `room` parcels to
/// come is kept.
///
/// # Errors
/// - `NoMemory`: there is no room for a state, or for a node; those before it are open nodes.
pub(crate) fn open_some<'t>(
    spare: &mut SpareBlocks,
    known: &mut ClosedList<'t>,
    nodes: &mut OpenList<WaitingNode>,
    fresh: &mut VecDeque<Parcel<'t>>,
    room: usize,
    estimates: &mut Hmax<'t>,
    most: usize,
) -> Result<bool, NoMemory>
    requires room { deque_len fresh.old + room ≤ deque_capacity fresh.old }
    requires estimates { estimates.old.task ≡ known.old.task }
    requires nodes { AllByRecursion (IsNodeOf known.old.task known.old.states) nodes.old.nodes }
    requires parcels { AllByRecursion (IsParcelOf known.old.task) fresh.old.items }
    ensures task { known.new.task ≡ known.old.task }
    ensures closed { known.new.closed ≡ known.old.closed }
    ensures begins { BeginsWith known.new.states known.old.states }
    ensures estimates { estimates.new.task ≡ estimates.old.task }
    ensures nodes { AllByRecursion (IsNodeOf known.old.task known.new.states) nodes.new.nodes }
    ensures parcels { AllByRecursion (IsParcelOf known.old.task) fresh.new.items }
    ensures waiting { waiting_by known.new.states nodes.new.nodes fresh.new.items
        ≡ waiting_by known.old.states nodes.old.nodes fresh.old.items }
    ensures room { deque_len fresh.new + room ≤ deque_capacity fresh.new }
    ensures opened { OnOk result (length fresh.new.items ≡ length fresh.old.items - most) }
    ensures all { IfOk result (λ all. all ≡ (length fresh.new.items == 0)) }
{
    let alloc = spare.alloc();
    let places = meet_some(alloc, known, estimates, fresh, most)?;
    let mut rest = places.as_slice();
    while let [place, after @ ..] = rest {
        let Some(parcel) = fresh.front() else {
            break;
        };
        let node = node_for(alloc, known, estimates, parcel, *place)?;
        open_first(spare, nodes, fresh, node)?;
        rest = after;
    }
    let all = fresh.is_empty();
    give_back(fresh, room);
    Ok(all)
}

/// Opens the nodes of all parcels of `fresh`, as [`open_some`] does.
///
/// # Errors
/// - As there.
pub(crate) fn open_all<'t>(
    spare: &mut SpareBlocks,
    known: &mut ClosedList<'t>,
    nodes: &mut OpenList<WaitingNode>,
    fresh: &mut VecDeque<Parcel<'t>>,
    room: usize,
    estimates: &mut Hmax<'t>,
) -> Result<(), NoMemory>
    requires room { deque_len fresh.old + room ≤ deque_capacity fresh.old }
    requires estimates { estimates.old.task ≡ known.old.task }
    requires nodes { AllByRecursion (IsNodeOf known.old.task known.old.states) nodes.old.nodes }
    requires parcels { AllByRecursion (IsParcelOf known.old.task) fresh.old.items }
    ensures task { known.new.task ≡ known.old.task }
    ensures closed { known.new.closed ≡ known.old.closed }
    ensures begins { BeginsWith known.new.states known.old.states }
    ensures estimates { estimates.new.task ≡ estimates.old.task }
    ensures nodes { AllByRecursion (IsNodeOf known.old.task known.new.states) nodes.new.nodes }
    ensures parcels { AllByRecursion (IsParcelOf known.old.task) fresh.new.items }
    ensures waiting { waiting_by known.new.states nodes.new.nodes fresh.new.items
        ≡ waiting_by known.old.states nodes.old.nodes fresh.old.items }
    ensures room { deque_len fresh.new + room ≤ deque_capacity fresh.new }
    ensures all { OnOk result (fresh.new.items ≡ []) }
{
    if fresh.is_empty() {
        return Ok(());
    }
    let most = fresh.len();
    open_some(spare, known, nodes, fresh, room, estimates, most)?;
    Ok(())
}
