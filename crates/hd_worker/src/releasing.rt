//! Where the successors go that a batch has released.
ghost use Rattle.std.specs.Prelude.{◌≡◌, ◌+◌, ◌<◌, ◌≤◌, ◌^◌, ◌++◌, [], ◌∷◌, map, filter, length};
ghost use Rattle.std.specs.List.{AllByRecursion};
ghost use Rattle.std.specs.VecDeque.{deque_len, deque_capacity};
ghost use Rattle.hd_task.specs.Plans.{IsStateOf};
ghost use Rattle.hd_zobrist.specs.declared.owners.TheConstants.{MAX_WORKERS};
ghost use Rattle.hd_node.specs.Children.{ChildView};
ghost use Rattle.hd_entries.specs.Settling.{IsOutcomeOfTask, entry_of};
ghost use Rattle.hd_entries.specs.Growing.{kids_at};
ghost use Rattle.hd_entries.specs.Holding.{parcel_of, released_from, released_at, IsParcelOf};
ghost use Rattle.hd_turns.specs.Worker.{is_own, is_foreign};
ghost use Rattle.hd_worker.specs.Frontier.{opens};

use crate::deque::push_reserved;
use crate::frontier::Frontier;
use hd_entries::Parcels;
use hd_node::{Children, ExpansionParts, Outcome, Parcel};
use hd_zobrist::owner;
use std::collections::VecDeque;

/// The number of a worker, and how many workers there are.
#[derive(Clone, Copy)]
pub(crate) struct WorkerNumber {
    pub(crate) id: usize,
    pub(crate) workers: usize,
    ghost some: { 1 ≤ workers },
    ghost most: { workers ≤ MAX_WORKERS },
}

/// Reports whether a worker owns a parcel's state.
fn is_own(who: WorkerNumber, parcel: &Parcel<'_>) -> bool
    ensures { result ≡ is_own who.id who.workers (parcel_of parcel.now) }
{
    owner(parcel.hash(), who.workers) == who.id
}

/// Adds `parcel` to the open nodes if the worker owns its state, and to `outbox` if not. There is
/// room for it.
fn place<'t>(
    frontier: &mut Frontier<'t>,
    outbox: &mut VecDeque<Parcel<'t>>,
    who: WorkerNumber,
    parcel: Parcel<'t>,
)
    requires of_task { parcel.task ≡ frontier.old.task }
    requires room { 0 < frontier.old.room }
    requires outbox_room { deque_len outbox.old + frontier.old.room ≤ deque_capacity outbox.old }
    requires parcels { AllByRecursion (IsParcelOf frontier.old.task) outbox.old.items }
    ensures frontier { frontier.new
        ≡ opens (is_own who.id who.workers) (parcel_of parcel.entry ∷ []) frontier.old }
    ensures outbox { map parcel_of outbox.new.items ≡ map parcel_of outbox.old.items
        ++ filter (is_foreign who.id who.workers) (parcel_of parcel.entry ∷ []) }
    ensures parcels { AllByRecursion (IsParcelOf frontier.old.task) outbox.new.items }
    ensures fewer { deque_len outbox.new + frontier.new.room
        ≤ deque_len outbox.old + frontier.old.room }
    ensures capacity { deque_capacity outbox.new ≡ deque_capacity outbox.old }
{
    if is_own(who, &parcel) {
        frontier.receive(parcel);
    } else {
        frontier.give_up(1);
        push_reserved(outbox, parcel);
    }
}

/// Places the children of an entry as parcels, in their order. There is room for them.
fn place_children<'t>(
    frontier: &mut Frontier<'t>,
    outbox: &mut VecDeque<Parcel<'t>>,
    who: WorkerNumber,
    entry: u64,
    children: Children,
)
    requires of_task { AllByRecursion (λ (c : ChildView). IsStateOf frontier.old.task c.state)
        children }
    requires room { length children ≤ frontier.old.room }
    requires outbox_room { deque_len outbox.old + frontier.old.room ≤ deque_capacity outbox.old }
    requires parcels { AllByRecursion (IsParcelOf frontier.old.task) outbox.old.items }
    ensures frontier { frontier.new ≡ opens (is_own who.id who.workers)
        (map (released_from entry) children) frontier.old }
    ensures outbox { map parcel_of outbox.new.items ≡ map parcel_of outbox.old.items
        ++ filter (is_foreign who.id who.workers) (map (released_from entry) children) }
    ensures parcels { AllByRecursion (IsParcelOf frontier.old.task) outbox.new.items }
    ensures fewer { deque_len outbox.new + frontier.new.room
        ≤ deque_len outbox.old + frontier.old.room }
    ensures capacity { deque_capacity outbox.new ≡ deque_capacity outbox.old }
{
    let task = frontier.task();
    for child in children.into_vec() {
        place(frontier, outbox, who, Parcel::of_child(task, entry, child));
    }
}

/// Places the successors of an outcome. An expansion is the entry of number `entry`. There is room
/// for them. Returns the number of the next entry.
fn place_outcome<'t>(
    frontier: &mut Frontier<'t>,
    outbox: &mut VecDeque<Parcel<'t>>,
    who: WorkerNumber,
    entry: u64,
    outcome: Outcome<'t>,
) -> u64
    requires of_task { IsOutcomeOfTask frontier.old.task outcome }
    requires few { entry + 1 < 2 ^ 64 }
    requires room { kids_at outcome ≤ frontier.old.room }
    requires outbox_room { deque_len outbox.old + frontier.old.room ≤ deque_capacity outbox.old }
    requires parcels { AllByRecursion (IsParcelOf frontier.old.task) outbox.old.items }
    ensures next { result ≡ entry + length (entry_of outcome.entry) }
    ensures one { result ≤ entry + 1 }
    ensures frontier { frontier.new ≡ opens (is_own who.id who.workers)
        (released_at entry outcome.entry) frontier.old }
    ensures outbox { map parcel_of outbox.new.items ≡ map parcel_of outbox.old.items
        ++ filter (is_foreign who.id who.workers) (released_at entry outcome.entry) }
    ensures parcels { AllByRecursion (IsParcelOf frontier.old.task) outbox.new.items }
    ensures fewer { deque_len outbox.new + frontier.new.room
        ≤ deque_len outbox.old + frontier.old.room }
    ensures capacity { deque_capacity outbox.new ≡ deque_capacity outbox.old }
{
    match outcome {
        Outcome::Expanded(expansion) => {
            let ExpansionParts {
                state,
                children,
                ..
            } = expansion.into_parts();
            place_children(frontier, outbox, who, entry, children);
            frontier.keep(state.into_state());
            entry + 1
        }
        Outcome::Duplicate(_, _) => entry,
        Outcome::Bounded(_, estimate) => {
            frontier.keep(estimate.into_state());
            entry
        }
    }
}

/// Adds the `parcels` whose states the worker owns to the open nodes, in their order, and the
/// others to `outbox`. There is room for them.
pub(crate) fn place_all<'t>(
    frontier: &mut Frontier<'t>,
    outbox: &mut VecDeque<Parcel<'t>>,
    who: WorkerNumber,
    parcels: Parcels<'t>,
)
    requires of_task { parcels.task ≡ frontier.old.task }
    requires room { length parcels.kids ≤ frontier.old.room }
    requires outbox_room { deque_len outbox.old + frontier.old.room ≤ deque_capacity outbox.old }
    requires parcels { AllByRecursion (IsParcelOf frontier.old.task) outbox.old.items }
    ensures frontier { frontier.new
        ≡ opens (is_own who.id who.workers) parcels.entry.kids frontier.old }
    ensures outbox { map parcel_of outbox.new.items ≡ map parcel_of outbox.old.items
        ++ filter (is_foreign who.id who.workers) parcels.entry.kids }
    ensures parcels { AllByRecursion (IsParcelOf frontier.old.task) outbox.new.items }
    ensures fewer { deque_len outbox.new + frontier.new.room
        ≤ deque_len outbox.old + frontier.old.room }
    ensures capacity { deque_capacity outbox.new ≡ deque_capacity outbox.old }
{
    let (first, outcomes) = parcels.into_outcomes();
    let mut entry = first;
    for outcome in outcomes {
        entry = place_outcome(frontier, outbox, who, entry, outcome);
    }
}
