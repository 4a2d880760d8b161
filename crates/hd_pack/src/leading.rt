//! Steps over packed states.
ghost use Rattle.std.specs.Prelude.{◌≡◌, ◌<◌, true, false, length, MatchOption, IfOk};
ghost use Rattle.std.specs.List.{fold, list_all};
ghost use Rattle.hd_task.specs.Effects.{effect_stays, state_after};
ghost use Rattle.hd_task.specs.Plans.{IsStateOf, node};
ghost use Rattle.hd_task.specs.Applying.{test_of, applied_of, fits_task};
ghost use Rattle.hd_task.specs.Stepping.{step_at};
ghost use Rattle.hd_zobrist.specs.Hash.{state_hash, changed, IsChangeOf};
ghost use Rattle.hd_pack.specs.Leading.{led_of, led_by, test_of_led, with_atom_value, with_value, with_effect_value};

use crate::{Packed, SpareBlocks};
use hd_base::{NoMemory, total_cost};
use hd_task::{Action, ActionId, Effect, GoalTest, Task, new_value, step_cost, test_of};
use hd_zobrist::{Change, Words};

/// Where an action leads from a packed state, at a plan of some cost.
#[derive(Debug, Drop)]
pub enum Led {
    /// Nowhere: its condition does not hold.
    No,
    /// A number leaves the range, or the plan's cost does.
    Departs,
    /// The state after it, the hash of that state, and the cost of the plan with it, which is in
    /// the range.
    Next(Packed, u64, u64),
}

/// Makes a change, and gives the hash after it.
#[inline(always)]
fn make(words: &Words, state: &mut Packed, hash: u64, change: Change) -> u64
    requires fits { IsChangeOf state.old change }
    requires is_hash { hash ≡ state_hash state.old }
    ensures state { state.new ≡ changed state.old change }
    ensures hash { result ≡ state_hash state.new }
{
    state.change(change);
    words.update(hash, &[change])
}

/// Makes an atom true or false, and gives the hash after it.
fn set_atom(words: &Words, state: &mut Packed, hash: u64, atom: u32, value: bool) -> u64
    requires is_hash { hash ≡ state_hash state.old }
    ensures state { state.new ≡ with_atom_value value state.old atom }
    ensures hash { result ≡ state_hash state.new }
{
    let before = state.atom(atom).unwrap_or(value);
    if before == value {
        return hash;
    }
    make(words, state, hash, Change::Atom(atom as usize))
}

/// Makes atoms true or false, and gives the hash after that.
fn set_atoms(words: &Words, state: &mut Packed, hash: u64, atoms: &[u32], value: bool) -> u64
    requires is_hash { hash ≡ state_hash state.old }
    ensures state { state.new ≡ fold (with_atom_value value) state.old atoms.now }
    ensures hash { result ≡ state_hash state.new }
{
    let mut hash = hash;
    for atom in atoms {
        hash = set_atom(words, state, hash, *atom, value);
    }
    hash
}

/// Gives a fluent a value, and gives the hash after it.
fn set_fluent(words: &Words, state: &mut Packed, hash: u64, fluent: u32, value: i64) -> u64
    requires is_hash { hash ≡ state_hash state.old }
    ensures state { state.new ≡ with_value state.old fluent value }
    ensures hash { result ≡ state_hash state.new }
{
    let before = state.fluent(fluent).unwrap_or(value);
    if before == value {
        return hash;
    }
    make(
        words,
        state,
        hash,
        Change::Fluent(fluent as usize, before, value),
    )
}

/// Gives fluents their new values, each by the values before the action, and gives the hash after
/// that; unless one leaves the range.
fn set_fluents(
    words: &Words,
    kid: &mut Packed,
    hash: u64,
    state: &Packed,
    effects: &[Effect],
) -> Option<u64>
    requires is_hash { hash ≡ state_hash kid.old }
    ensures { MatchOption result (list_all (effect_stays state.now.fluents) effects.now ≡ false)
        (λ h. (list_all (effect_stays state.now.fluents) effects.now ≡ true)
        × (kid.new ≡ fold (with_effect_value state.now.fluents) kid.old effects.now)
        × (h ≡ state_hash kid.new)) }
{
    let mut hash = hash;
    for effect in effects {
        let value = new_value(state, effect)?;
        hash = set_fluent(words, kid, hash, effect.fluent, value);
    }
    Some(hash)
}

/// Makes a copy of a state what an action makes of it, and gives the hash after that; unless a new
/// value leaves the range.
fn write_effects(
    task: &Task,
    words: &Words,
    kid: &mut Packed,
    hash: u64,
    state: &Packed,
    action: &Action,
) -> Option<u64>
    requires copy { kid.old ≡ state.now }
    requires is_hash { hash ≡ state_hash state.now }
    requires of_task { IsStateOf task.now state.now }
    requires fits { fits_task task.now action.now ≡ true }
    ensures { MatchOption result
        (list_all (effect_stays state.now.fluents) action.now.effects ≡ false)
        (λ h. (list_all (effect_stays state.now.fluents) action.now.effects ≡ true)
        × (kid.new ≡ state_after task.now state.now action.now)
        × (h ≡ state_hash kid.new)) }
{
    let hash = set_atoms(words, kid, hash, action.deletes.as_slice(), false);
    let hash = set_atoms(words, kid, hash, action.adds.as_slice(), true);
    set_fluents(words, kid, hash, state, action.effects.as_slice())
}

/// Returns where `action`, whose condition holds, leads from `state`.
#[inline(always)]
fn take_effect(
    spare: &mut SpareBlocks,
    task: &Task,
    words: &Words,
    state: &Packed,
    hash: u64,
    cost: u64,
    action: &Action,
) -> Result<Led, NoMemory>
    requires holds { test_of state.now action.now.condition ≡ GoalTest.Yes }
    requires of_task { IsStateOf task.now state.now }
    requires fits { fits_task task.now action.now ≡ true }
    requires is_hash { hash ≡ state_hash state.now }
    ensures { IfOk result (λ r. r ≡ led_by cost (applied_of task.now state.now action.now)) }
{
    let Some(step) = step_cost(task, state, action) else {
        return Ok(Led::Departs);
    };
    let Some(total) = total_cost(cost, step) else {
        return Ok(Led::Departs);
    };
    let mut kid = state.copied(spare)?;
    match write_effects(task, words, &mut kid, hash, state, action) {
        Some(hash) => Ok(Led::Next(kid, hash, total)),
        None => {
            spare.keep(kid);
            Ok(Led::Departs)
        }
    }
}

/// Where an action leads from a packed state, with the hash of the state after it and the plan's
/// cost: what [`hd_task::step`] answers of the state.
///
/// It takes a copy of the bytes, in a spare block if there is one, where the action's condition and
/// cost let it go on, and no memory else; and time in the action's own size.
///
/// # Errors
/// - `NoMemory`: there is no room for the bytes of the state after it.
// It stands in the innermost loop of an expansion, and its answer is some sixty bytes: inlined,
// most of them are never written.
#[inline(always)]
pub fn leads(
    spare: &mut SpareBlocks,
    task: &Task,
    words: &Words,
    state: &Packed,
    hash: u64,
    cost: u64,
    action: ActionId,
) -> Result<Led, NoMemory>
    requires known { action.0 < length task.now.actions }
    requires of_task { IsStateOf task.now state.now }
    requires is_hash { hash ≡ state_hash state.now }
    ensures { IfOk result (λ r. r ≡ led_of (step_at task.now (node state.now cost) action.0)) }
{
    let action = &task.actions.as_slice()[action.0 as usize];
    match test_of(state, &action.condition) {
        GoalTest::No => Ok(Led::No),
        GoalTest::Departs => Ok(Led::Departs),
        GoalTest::Yes => take_effect(spare, task, words, state, hash, cost, action),
    }
}

/// Reports whether all effects give their fluents values in the range.
fn effects_stay(state: &Packed, effects: &[Effect]) -> bool
    ensures { result ≡ list_all (effect_stays state.now.fluents) effects.now }
{
    for effect in effects {
        if new_value(state, effect).is_none() {
            return false;
        }
    }
    true
}

/// Reports whether `action`, whose condition holds, leads on from `state`, or departs.
fn test_effects(task: &Task, state: &Packed, cost: u64, action: &Action) -> GoalTest
    requires { test_of state.now action.now.condition ≡ GoalTest.Yes }
    ensures { result ≡ test_of_led (led_by cost (applied_of task.now state.now action.now)) }
{
    let Some(step) = step_cost(task, state, action) else {
        return GoalTest::Departs;
    };
    let Some(_total) = total_cost(cost, step) else {
        return GoalTest::Departs;
    };
    if effects_stay(state, action.effects.as_slice()) {
        GoalTest::Yes
    } else {
        GoalTest::Departs
    }
}

/// Reports whether an action leads on from a packed state, or departs, at a plan of some cost: what
/// [`leads`] answers, but for the state after it. It does not allocate.
pub fn test_step(task: &Task, state: &Packed, cost: u64, action: ActionId) -> GoalTest
    requires { action.0 < length task.now.actions }
    ensures { result ≡ test_of_led (led_of (step_at task.now (node state.now cost) action.0)) }
{
    let action = &task.actions.as_slice()[action.0 as usize];
    match test_of(state, &action.condition) {
        GoalTest::No => GoalTest::No,
        GoalTest::Departs => GoalTest::Departs,
        GoalTest::Yes => test_effects(task, state, cost, action),
    }
}
