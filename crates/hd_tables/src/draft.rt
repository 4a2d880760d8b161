//! A state that is written over.
ghost use Rattle.std.specs.Prelude.{◌≡◌, ◌+◌, ◌*◌, ◌/◌, ◌<◌, ◌≤◌, [], Some, true, false, FitsSigned, length, IfOk, OnOk, OnErr};
ghost use Rattle.std.specs.Int.{w64};
ghost use Rattle.std.specs.List.{fold, list_all};
ghost use Rattle.hd_task.specs.Effects.{effect_stays, state_after};
ghost use Rattle.hd_task.specs.Plans.{IsStateOf, node};
ghost use Rattle.hd_task.specs.Expansions.{is_applicable};
ghost use Rattle.hd_task.specs.Applying.{test_of, applied_of, fits_task};
ghost use Rattle.hd_task.specs.Stepping.{step_at};
ghost use Rattle.hd_task.specs.declared.applying.GoalTest.TheVariants as GoalTest;
ghost use Rattle.hd_zobrist.specs.Hash.{changed};
ghost use Rattle.hd_zobrist.specs.declared.change.Change.TheVariants as Change;
ghost use Rattle.hd_pack.specs.Packing.{flipped, replaced, unpacked, value_bytes, IsPacking};
ghost use Rattle.hd_pack.specs.Leading.{led_of, led_by, with_atom_value, with_value, with_effect_value};
ghost use Rattle.hd_tables.specs.Drafts.{IsLedTo};

use crate::row::{Row, bytes_for};
use hd_base::{NoMemory, total_cost};
use hd_pack::SplitBytes;
use hd_task::{Action, ActionId, Effect, Task, new_value, step_cost};
use std::alloc::Global;
use std::marker::Model;

/// A packed state in bytes of its own, which are written over again and again; contracts see it as
/// the state.
#[derive(Debug, Drop)]
pub struct Draft {
    atoms: usize,
    fluents: usize,
    bytes: Vec<u8>,
}

impl Model for Draft {
    ghost use Rattle.hd_task.specs.declared.state.State.{State};
    ghost use Rattle.hd_pack.specs.Packing.{unpacked};
    ghost use Rattle.hd_tables.specs.Rows.{IsWhole};

    ghost Value = { State };

    ghost view = { λ d. unpacked d.atoms d.bytes.items };

    ghost invariant = { λ d. IsWhole d.atoms d.fluents d.bytes.items };
}

/// Turns the atom of this number round.
fn flip_atom(bytes: &mut Vec<u8>, atom: usize)
    requires { atom / 8 < length bytes.old.items }
    ensures { bytes.new.items ≡ flipped bytes.old.items atom }
{
    bytes[atom / 8] ^= 1 << (atom % 8);
}

/// Returns the bytes of a value.
fn value_bytes(value: &i64) -> [u8; 8]
    ensures bytes { result ≡ value_bytes value.now }
    ensures fits { FitsSigned w64 value.now }
{
    value.cast_unsigned().to_le_bytes()
}

/// Replaces the eight bytes from a place on by those of a value.
fn put_value(bytes: &mut [u8], place: usize, value: &i64)
    requires { place + 8 ≤ length bytes.old }
    ensures bytes { bytes.new ≡ replaced place bytes.old (value_bytes value.now) }
    ensures length { length bytes.new ≡ length bytes.old }
    ensures fits { FitsSigned w64 value.now }
{
    bytes[place..place + 8].copy_from_slice(&value_bytes(value));
}

/// Makes bytes a copy of others. It takes memory only where these are more or fewer.
fn copy(alloc: Global, bytes: &mut Vec<u8>, others: &SplitBytes<'_>) -> Result<(), NoMemory>
    ensures ok { OnOk result (bytes.new.items ≡ others.now) }
    ensures err { OnErr result (bytes.new ≡ bytes.old) }
{
    if bytes.len() == others.len() {
        others.write_to(bytes.as_mut_slice());
    } else {
        *bytes = others.to_vec(alloc)?;
    }
    Ok(())
}

impl Draft {
    /// Returns the state that has no atoms and no fluents. It does not allocate.
    pub fn empty(alloc: Global) -> Draft
        ensures { result ≡ record { atoms = []; fluents = [] } }
    {
        Draft {
            atoms: 0,
            fluents: 0,
            bytes: Vec::new(alloc),
        }
    }

    /// Returns the state as it is now.
    pub fn row(&self) -> Row<'_>
        ensures { result ≡ self.now }
    {
        let bytes = SplitBytes::whole(self.bytes.as_slice());
        Row::of(self.atoms, self.fluents, bytes)
    }

    /// Returns the bytes, with how many atoms they are of.
    pub(crate) fn parts(&self) -> (usize, &[u8])
        ensures packing { IsPacking result.0 result.1.now }
        ensures state { unpacked result.0 result.1.now ≡ self.now }
    {
        (self.atoms, self.bytes.as_slice())
    }

    /// Makes it a copy of another state. It takes memory only where that has another number of
    /// bytes.
    ///
    /// # Errors
    /// - `NoMemory`: there is no room for the bytes: it is as it was.
    pub fn set(&mut self, alloc: Global, state: &Row<'_>) -> Result<(), NoMemory>
        ensures ok { OnOk result (self.new ≡ state.now) }
        ensures err { OnErr result (self.new ≡ self.old) }
    {
        let (atoms, fluents, bytes) = state.parts();
        copy(alloc, &mut self.bytes, bytes)?;
        self.atoms = atoms;
        self.fluents = fluents;
        Ok(())
    }

    /// Turns an atom round.
    fn flip(&mut self, atom: usize)
        requires { atom < length self.old.atoms }
        ensures { self.new ≡ changed self.old (Change.Atom atom) }
    {
        flip_atom(&mut self.bytes, atom);
    }

    /// Gives a fluent a value.
    fn put(&mut self, fluent: usize, value: &i64)
        requires { fluent < length self.old.fluents }
        ensures { self.new ≡ with_value self.old fluent value.now }
    {
        let bytes = self.bytes.as_mut_slice();
        put_value(bytes, bytes_for(self.atoms) + 8 * fluent, value);
    }

    /// Makes an atom true or false.
    fn set_atom(&mut self, atom: u32, value: bool)
        ensures { self.new ≡ with_atom_value value self.old atom }
    {
        let before = self.row().atom(atom).unwrap_or(value);
        if before == value {
            return;
        }
        self.flip(atom as usize);
    }

    /// Makes atoms true or false.
    fn set_atoms(&mut self, atoms: &[u32], value: bool)
        ensures { self.new ≡ fold (with_atom_value value) self.old atoms.now }
    {
        for atom in atoms {
            self.set_atom(*atom, value);
        }
    }

    /// Gives a fluent a value.
    fn set_fluent(&mut self, fluent: u32, value: i64)
        ensures { self.new ≡ with_value self.old fluent value }
    {
        let before = self.row().fluent(fluent).unwrap_or(value);
        if before == value {
            return;
        }
        self.put(fluent as usize, &value);
    }

    /// Gives fluents their new values, each by the values before the action; or says that one
    /// leaves the range.
    fn set_fluents(&mut self, before: &Row<'_>, effects: &[Effect]) -> bool
        ensures stays { result ≡ list_all (effect_stays before.now.fluents) effects.now }
        ensures written { result ≡ true
            → self.new ≡ fold (with_effect_value before.now.fluents) self.old effects.now }
    {
        for effect in effects {
            let Some(value) = new_value(before, effect) else {
                return false;
            };
            self.set_fluent(effect.fluent, value);
        }
        true
    }

    /// Makes a copy of a state what an action makes of it; or says that a new value leaves the
    /// range.
    fn write_effects(&mut self, task: &Task, before: &Row<'_>, action: &Action) -> bool
        requires copy { self.old ≡ before.now }
        requires of_task { IsStateOf task.now before.now }
        requires fits { fits_task task.now action.now ≡ true }
        ensures stays { result ≡ list_all (effect_stays before.now.fluents) action.now.effects }
        ensures written { result ≡ true → self.new ≡ state_after task.now before.now action.now }
    {
        self.set_atoms(action.deletes.as_slice(), false);
        self.set_atoms(action.adds.as_slice(), true);
        self.set_fluents(before, action.effects.as_slice())
    }

    /// Makes the draft the state that `action`, whose condition holds, leads to from `before`, and
    /// returns the plan's cost; none if that state or cost is out of range.
    fn take_effect(
        &mut self,
        alloc: Global,
        task: &Task,
        before: &Row<'_>,
        cost: u64,
        action: &Action,
    ) -> Result<Option<u64>, NoMemory>
        requires holds { test_of before.now action.now.condition ≡ GoalTest.Yes }
        requires of_task { IsStateOf task.now before.now }
        requires fits { fits_task task.now action.now ≡ true }
        ensures { IfOk result (λ r.
            IsLedTo (led_by cost (applied_of task.now before.now action.now)) r self.new) }
    {
        let Some(step) = step_cost(task, before, action) else {
            return Ok(None);
        };
        let Some(total) = total_cost(cost, step) else {
            return Ok(None);
        };
        self.set(alloc, before)?;
        if self.write_effects(task, before, action) {
            Ok(Some(total))
        } else {
            Ok(None)
        }
    }

    /// Makes it the state that an applicable action leads to from another, at a plan of some cost,
    /// and gives the plan's cost with it. The action's condition is not tested. It takes memory
    /// only where that state has another number of bytes, and time in the action's own size.
    ///
    /// # Errors
    /// - `NoMemory`: there is no room for the bytes.
    pub fn follow(
        &mut self,
        alloc: Global,
        task: &Task,
        before: &Row<'_>,
        cost: u64,
        action: ActionId,
    ) -> Result<u64, NoMemory>
        requires known { action.0 < length task.now.actions }
        requires of_task { IsStateOf task.now before.now }
        requires applicable { is_applicable task.now (Some (node before.now cost)) action.0 ≡ true }
        ensures { IfOk result (λ c. IsLedTo
            (led_of (step_at task.now (node before.now cost) action.0)) (Some c) self.new) }
    {
        let action = &task.actions.as_slice()[action.0 as usize];
        match self.take_effect(alloc, task, before, cost, action)? {
            Some(total) => Ok(total),
            None => unreachable!(),
        }
    }
}
