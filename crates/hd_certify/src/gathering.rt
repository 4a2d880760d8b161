//! How the entries of a journal are made again, and what is kept of the nodes that they generate.
ghost use Rattle.std.specs.Prelude.{◌≡◌, ◌+◌, ◌<◌, ◌≤◌, ◌++◌, ◌⊎◌, [], ◌∷◌, None, Some, map, length, IfOk, IfErr, OnOk};
ghost use Rattle.std.specs.List.{AllByRecursion};
ghost use Rattle.hd_base.specs.Lists.{BeginsWith};
ghost use Rattle.hd_task.specs.declared.plan.TheConstants.{ROOT_PARENT};
ghost use Rattle.hd_task.specs.Plans.{IsStateOf, node};
ghost use Rattle.hd_journal.specs.Journal.{kid_of};
ghost use Rattle.hd_node.specs.Children.{ChildView};
ghost use Rattle.hd_entries.specs.declared.refusal.Refusal.TheVariants as Refusal;
ghost use Rattle.hd_entries.specs.Resuming.{child_node, fault_at, first_fault, resumed};
ghost use Rattle.hd_entries.specs.Settling.{IsBookKept};
ghost use Rattle.hd_entries.specs.Waiting.{IsAgain};
ghost use Rattle.hd_certify.specs.Covering.{node_in};
ghost use Rattle.hd_certify.specs.Error.{IsRecoverRefusal};
ghost use Rattle.hd_certify.specs.Gathering.{AreGathered, IsMet, nodes_met};

use crate::resuming::{fault_at, kids_of};
use crate::{Entry, Kid, RecoverError};
use hd_base::NoMemory;
use hd_closed::ClosedList;
use hd_entries::{Entries, Refusal};
use hd_node::{By, Child, Hashed, Outline};
use hd_successors::Successors;
use hd_task::Task;
use std::alloc::Global;

/// A generated node: the place of its state in a closed list, and what its plan costs.
#[derive(Clone, Copy, Debug, PartialEq, Eq)]
pub(crate) struct MetNode {
    pub(crate) state: usize,
    pub(crate) cost: u64,
}

/// Entries that were made again, and all that they generate.
#[derive(Debug, Drop)]
pub(crate) struct Gathered<'t> {
    pub(crate) entries: Entries<'t>,
    /// The states that were generated, and the expansions of the entries, in order.
    pub(crate) closed: ClosedList<'t>,
    /// The generated nodes, in posting order.
    pub(crate) nodes: Vec<MetNode>,
}

/// Adds a generated node, with its state.
///
/// # Errors
/// - `NoMemory`: there is no room for it.
fn meet<'t>(
    alloc: Global,
    closed: &mut ClosedList<'t>,
    nodes: &mut Vec<MetNode>,
    state: &Hashed,
    cost: u64,
) -> Result<(), NoMemory>
    requires of_task { IsStateOf closed.old.task state.now }
    requires met { AllByRecursion (IsMet closed.old.states) nodes.old.items }
    ensures task { closed.new.task ≡ closed.old.task }
    ensures closed { closed.new.closed ≡ closed.old.closed }
    ensures met { AllByRecursion (IsMet closed.new.states) nodes.new.items }
    ensures nodes { OnOk result (nodes_met closed.new.states nodes.new.items
        ≡ nodes_met closed.old.states nodes.old.items ++ Some (node state.now cost) ∷ []) }
{
    let place = closed.place_of(alloc, state)?;
    nodes.push(MetNode { state: place, cost })?;
    Ok(())
}

/// Adds the nodes of an entry's children, with their states.
///
/// # Errors
/// - `NoMemory`: there is no room for one.
fn meet_all<'t>(
    alloc: Global,
    closed: &mut ClosedList<'t>,
    nodes: &mut Vec<MetNode>,
    children: &[Child],
) -> Result<(), NoMemory>
    requires of_task { AllByRecursion
        (λ (c : ChildView). IsStateOf closed.old.task c.state) children.now }
    requires met { AllByRecursion (IsMet closed.old.states) nodes.old.items }
    ensures task { closed.new.task ≡ closed.old.task }
    ensures closed { closed.new.closed ≡ closed.old.closed }
    ensures met { AllByRecursion (IsMet closed.new.states) nodes.new.items }
    ensures nodes { OnOk result (nodes_met closed.new.states nodes.new.items
        ≡ nodes_met closed.old.states nodes.old.items ++ map child_node children.now) }
{
    for child in children {
        meet(alloc, closed, nodes, child.hashed(), child.cost())?;
    }
    Ok(())
}

/// Closes the expansion of an entry of this number.
///
/// # Errors
/// - `NoMemory`: there is no room for it.
fn close_entry<'t>(
    alloc: Global,
    closed: &mut ClosedList<'t>,
    outline: &Outline<'t>,
    number: u64,
) -> Result<(), NoMemory>
    requires { outline.now.task ≡ closed.old.task }
    ensures task { closed.new.task ≡ closed.old.task }
    ensures begins { BeginsWith closed.new.states closed.old.states }
    ensures closed { OnOk result (map node_in closed.new.closed ≡ map node_in closed.old.closed
        ++ Some (node outline.now.state outline.now.cost) ∷ []) }
{
    closed.reserve()?;
    let place = closed.place_of(alloc, outline.hashed())?;
    closed.close(place, By::Entry(number), outline.cost());
    Ok(())
}

/// Makes a successor the next entry again.
///
/// # Errors
/// - Why it can't be the next entry, or `NoMemory`.
fn enter_next<'t>(
    alloc: Global,
    gathered: &mut Gathered<'t>,
    successors: &mut Successors<'t>,
    kid: Kid,
) -> Result<(), Refusal>
    requires again { IsAgain gathered.old.entries.state }
    requires gathered { AreGathered gathered.old }
    requires index { successors.old.task ≡ gathered.old.entries.state.task }
    requires room { length gathered.old.entries.state.entries < gathered.old.entries.most }
    ensures index { successors.new.task ≡ successors.old.task }
    ensures task { gathered.new.entries.state.task ≡ gathered.old.entries.state.task }
    ensures most { gathered.new.entries.most ≡ gathered.old.entries.most }
    ensures again { OnOk result (IsAgain gathered.new.entries.state) }
    ensures gathered { OnOk result (AreGathered gathered.new) }
    ensures entered { OnOk result (gathered.new.entries.state.entries
        ≡ gathered.old.entries.state.entries ++ kid ∷ []) }
    ensures free { OnOk result (fault_at gathered.old.entries.state.task
        gathered.old.entries.state.entries kid ≡ None) }
    ensures fault { IfErr result (λ r. (r ≡ Refusal.NoMemory)
        ⊎ (fault_at gathered.old.entries.state.task gathered.old.entries.state.entries kid
        ≡ Some r)) }
{
    let number = gathered.entries.len();
    let (outline, children) = gathered.entries.enter(alloc, successors, kid)?;
    close_entry(alloc, &mut gathered.closed, &outline, number)?;
    meet_all(
        alloc,
        &mut gathered.closed,
        &mut gathered.nodes,
        children.as_slice(),
    )?;
    Ok(())
}

/// Makes these successors the entries again, in order.
///
/// # Errors
/// - The number of the first that can't be the next entry, and why; or `NoMemory`.
fn enter_all<'t>(
    alloc: Global,
    gathered: &mut Gathered<'t>,
    successors: &mut Successors<'t>,
    kids: &[Kid],
) -> Result<(), (u64, Refusal)>
    requires again { IsAgain gathered.old.entries.state }
    requires gathered { AreGathered gathered.old }
    requires none { gathered.old.entries.state.entries ≡ [] }
    requires index { successors.old.task ≡ gathered.old.entries.state.task }
    requires room { length kids.now ≤ gathered.old.entries.most }
    ensures task { gathered.new.entries.state.task ≡ gathered.old.entries.state.task }
    ensures most { gathered.new.entries.most ≡ gathered.old.entries.most }
    ensures again { OnOk result (IsAgain gathered.new.entries.state) }
    ensures gathered { OnOk result (AreGathered gathered.new) }
    ensures entered { OnOk result (gathered.new.entries.state.entries ≡ kids.now) }
    ensures faultless { OnOk result (first_fault gathered.old.entries.state.task [] kids.now
        ≡ None) }
    ensures fault { IfErr result (λ e. (e.1 ≡ Refusal.NoMemory)
        ⊎ (first_fault gathered.old.entries.state.task [] kids.now ≡ Some e)) }
{
    for number in 0..kids.len() {
        match enter_next(alloc, gathered, successors, kids[number]) {
            Ok(()) => {}
            Err(refusal) => return Err((number as u64, refusal)),
        }
    }
    Ok(())
}

/// Generates the root.
///
/// # Errors
/// - `NoMemory`: there is no room for it.
fn meet_root(alloc: Global, gathered: &mut Gathered<'_>) -> Result<(), NoMemory>
    requires entries { gathered.old.entries ≡ resumed gathered.old.entries.state.task
        gathered.old.entries.most [] }
    requires task { gathered.old.closed.task ≡ gathered.old.entries.state.task }
    requires closed { gathered.old.closed.closed ≡ [] }
    requires nodes { gathered.old.nodes.items ≡ [] }
    ensures entries { gathered.new.entries ≡ gathered.old.entries }
    ensures gathered { OnOk result (AreGathered gathered.new) }
{
    match gathered.entries.open_at(0)? {
        Some(root) => meet(
            alloc,
            &mut gathered.closed,
            &mut gathered.nodes,
            root.hashed(),
            root.cost(),
        ),
        None => unreachable!(),
    }
}

/// Returns no entries, of which there may be `most`: the root is generated.
///
/// # Errors
/// - `NoMemory`: there is no room for it.
fn none<'t>(alloc: Global, task: &'t Task, most: u64) -> Result<Gathered<'t>, NoMemory>
    requires { most < ROOT_PARENT }
    ensures entries { IfOk result (λ g. g.entries ≡ resumed task.now most []) }
    ensures gathered { IfOk result (λ g. AreGathered g) }
{
    let mut gathered = Gathered {
        entries: Entries::new(alloc, task, most)?,
        closed: ClosedList::empty(alloc, task),
        nodes: Vec::new(alloc),
    };
    match meet_root(alloc, &mut gathered) {
        Ok(()) => Ok(gathered),
        Err(refused) => Err(refused),
    }
}

/// Makes these successors the entries again, in order, where there are none.
///
/// # Errors
/// - The number of the first that can't be the next entry, and why; or `NoMemory`.
fn enter_kids(
    alloc: Global,
    gathered: &mut Gathered<'_>,
    kids: &[Kid],
) -> Result<(), (u64, Refusal)>
    requires again { IsAgain gathered.old.entries.state }
    requires gathered { AreGathered gathered.old }
    requires none { gathered.old.entries.state.entries ≡ [] }
    requires room { length kids.now ≤ gathered.old.entries.most }
    ensures task { gathered.new.entries.state.task ≡ gathered.old.entries.state.task }
    ensures most { gathered.new.entries.most ≡ gathered.old.entries.most }
    ensures again { OnOk result (IsAgain gathered.new.entries.state) }
    ensures gathered { OnOk result (AreGathered gathered.new) }
    ensures entered { OnOk result (gathered.new.entries.state.entries ≡ kids.now) }
    ensures faultless { OnOk result (first_fault gathered.old.entries.state.task [] kids.now
        ≡ None) }
    ensures fault { IfErr result (λ e. (e.1 ≡ Refusal.NoMemory)
        ⊎ (first_fault gathered.old.entries.state.task [] kids.now ≡ Some e)) }
{
    let Ok(mut successors) = Successors::new(alloc, gathered.entries.task()) else {
        return Err((0, Refusal::NoMemory));
    };
    enter_all(alloc, gathered, &mut successors, kids)
}

/// Returns these successors as entries again, of which there may be `most`, with all that they
/// generate.
///
/// # Errors
/// - The number of the first that can't be the next entry, and why; or `NoMemory`.
fn gather_kids<'t>(
    alloc: Global,
    task: &'t Task,
    kids: &[Kid],
    most: u64,
) -> Result<Gathered<'t>, (u64, Refusal)>
    requires numbered { most < ROOT_PARENT }
    requires room { length kids.now ≤ most }
    ensures entries { IfOk result (λ g. g.entries ≡ resumed task.now most kids.now) }
    ensures gathered { IfOk result (λ g. AreGathered g) }
    ensures faultless { OnOk result (first_fault task.now [] kids.now ≡ None) }
    ensures fault { IfErr result (λ e. (e.1 ≡ Refusal.NoMemory)
        ⊎ (first_fault task.now [] kids.now ≡ Some e)) }
{
    let Ok(mut gathered) = none(alloc, task, most) else {
        return Err((0, Refusal::NoMemory));
    };
    match enter_kids(alloc, &mut gathered, kids) {
        Ok(()) => Ok(gathered),
        Err(fault) => Err(fault),
    }
}

/// Returns the entries made again, of which there may be `most`, with all that they generate.
///
/// # Errors
/// - `Full`: there are more entries than `most`.
/// - `Damaged` of the first that makes no legal list with those before it.
/// - `NoMemory`.
pub(crate) fn gather<'t>(
    alloc: Global,
    task: &'t Task,
    entries: &[Entry],
    most: u64,
) -> Result<Gathered<'t>, RecoverError>
    requires { most < ROOT_PARENT }
    ensures within { OnOk result (length entries.now ≤ most) }
    ensures entries { IfOk result (λ g. g.entries ≡ resumed task.now most (map kid_of entries.now)) }
    ensures faultless { OnOk result (first_fault task.now [] (map kid_of entries.now) ≡ None) }
    ensures gathered { IfOk result (λ g. AreGathered g) }
    ensures refused { IfErr result (IsRecoverRefusal task.now most entries.now) }
{
    if entries.len() as u64 > most {
        return Err(RecoverError::Full);
    }
    let kids = kids_of(alloc, entries)?;
    match gather_kids(alloc, task, kids.as_slice(), most) {
        Ok(gathered) => Ok(gathered),
        Err((number, refusal)) => Err(fault_at(entries, number, refusal)),
    }
}
