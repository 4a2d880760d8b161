//! What actions watch.
ghost use Rattle.std.specs.Prelude.{◌≡◌, ℕ, ◌≤◌, ◌++◌, [], ◌∷◌, List, true, IfOk, length};
ghost use Rattle.hd_task.specs.declared.condition.Literal.{Literal};
ghost use Rattle.hd_task.specs.declared.task.TheConstants.{MAX_ATOMS};
ghost use Rattle.hd_successors.specs.declared.watching.WatchedAtoms.TheVariants as WatchedAtoms;
ghost use Rattle.std.specs.List.{list_any};
ghost use Rattle.hd_successors.specs.Watching.{is_for, asks_for, IsWatchedBy};

use hd_base::{NoMemory, Sequence};
use hd_task::{Action, Condition, Literal};
use std::alloc::Global;

/// What an action watches.
#[derive(Clone, Copy, Debug, PartialEq, Eq)]
pub enum WatchedAtoms {
    /// Nothing: it may always apply.
    Always,
    /// Two atoms that its condition asks to be true, the same one twice where it asks for no other.
    /// One that the task lacks is false.
    Atoms(u32, u32),
}

/// What stands at first for the uses of an atom that is true in the initial state, until an action
/// is seen that makes it false: as it tells no state from another, it is watched last.
const STAYS: u32 = 1 << 31;

/// Returns how many actions ask for an atom; none where it is beyond the table.
fn uses_of(uses: &[u32], atom: u32) -> u32 {
    uses.get(atom as usize).copied().unwrap_or(0)
}

/// Counts what a condition asks for.
fn count_uses(uses: &mut [u32], condition: &Condition) {
    for literal in condition.literals.as_slice() {
        let atom = literal.atom as usize;
        if literal.positive && atom < uses.len() {
            uses[atom] = uses[atom].saturating_add(1);
        }
    }
}

/// Notes which atoms are true at first.
fn mark_initial(uses: &mut [u32], initial: &[bool]) {
    for atom in 0..uses.len() {
        if initial.get(atom).copied().unwrap_or(false) {
            uses[atom] = STAYS;
        }
    }
}

/// Notes that atoms become false.
fn unmark_deleted(uses: &mut [u32], deletes: &[u32]) {
    for atom in deletes {
        let atom = *atom as usize;
        if atom < uses.len() && uses[atom] >= STAYS {
            uses[atom] -= STAYS;
        }
    }
}

/// Returns how many literals of conditions ask for each atom; of one that is true in each state,
/// more than of any other.
fn all_uses(alloc: Global, actions: &[Action], initial: &[bool]) -> Result<Vec<u32>, NoMemory>
    ensures { IfOk result (λ v. length v.items ≡ length initial.now) }
{
    let mut uses = vec![in alloc; 0; initial.len()]?;
    mark_initial(uses.as_mut_slice(), initial);
    for action in actions {
        count_uses(uses.as_mut_slice(), &action.condition);
        unmark_deleted(uses.as_mut_slice(), action.deletes.as_slice());
    }
    Ok(uses)
}

/// Returns what to watch with one atom more that is asked to be true: of the three the two that
/// fewest ask for, the rarest first, the earlier of equal ones.
fn rarer_with(uses: &[u32], rare: u32, other: u32, atom: u32) -> WatchedAtoms
    ensures { (literals : List Literal) → asks_for literals (WatchedAtoms.Atoms rare other) ≡ true
        → list_any (is_for atom) literals ≡ true → asks_for literals result ≡ true }
{
    if uses_of(uses, atom) < uses_of(uses, rare) {
        WatchedAtoms::Atoms(atom, rare)
    } else if other == rare || uses_of(uses, atom) < uses_of(uses, other) {
        WatchedAtoms::Atoms(rare, atom)
    } else {
        WatchedAtoms::Atoms(rare, other)
    }
}

/// Returns what to watch with one literal more.
fn rarer(uses: &[u32], watch: WatchedAtoms, literal: Literal) -> WatchedAtoms
    ensures { (literals : List Literal) → asks_for literals watch ≡ true
        → asks_for (literals ++ literal ∷ []) result ≡ true }
{
    if !literal.positive {
        return watch;
    }
    match watch {
        WatchedAtoms::Always => WatchedAtoms::Atoms(literal.atom, literal.atom),
        WatchedAtoms::Atoms(rare, other) => rarer_with(uses, rare, other, literal.atom),
    }
}

/// Returns what an action of these literals watches: the two atoms that fewest ask for, of those
/// that it asks to be true; one that is true in each state comes last.
fn rarest(uses: &[u32], literals: &[Literal]) -> WatchedAtoms
    ensures { asks_for literals.now result ≡ true }
{
    let mut watch = WatchedAtoms::Always;
    for literal in literals {
        watch = rarer(uses, watch, *literal);
    }
    watch
}

/// Returns what each action watches.
fn each_rarest(
    alloc: Global,
    uses: &[u32],
    actions: &[Action],
) -> Result<Vec<WatchedAtoms>, NoMemory>
    ensures { IfOk result (λ v. IsWatchedBy actions.now v.items) }
{
    let mut watched = Vec::with_capacity(alloc, actions.len())?;
    for action in actions {
        watched.push(rarest(uses, action.condition.literals.as_slice()))?;
    }
    Ok(watched)
}

/// Returns what each of the actions of a task watches, which starts with these atoms.
///
/// # Errors
/// - `NoMemory`: there is no room for a number an atom and three an action.
pub(crate) fn watched_of(
    alloc: Global,
    actions: &[Action],
    initial: &[bool],
) -> Result<Sequence<WatchedAtoms>, NoMemory>
    ensures { IfOk result (IsWatchedBy actions.now) }
{
    let uses = all_uses(alloc, actions, initial)?;
    let watched = each_rarest(alloc, uses.as_slice(), actions)?;
    Ok(Sequence::from_vec(watched))
}
