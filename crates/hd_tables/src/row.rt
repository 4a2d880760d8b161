//! A packed state that is read where its bytes stand.
ghost use Rattle.std.specs.Prelude.{◌≡◌, ℕ, ◌+◌, ◌*◌, ◌==◌, ◌<◌, ◌≤◌, ◌/◌, true, length, drop, slice_get, IfOk, IfSome};
ghost use Rattle.std.specs.Int.{w64, bit_at, cast_signed, from_le_bytes};
ghost use Rattle.std.specs.List.{range_with_len, AllByRecursion};
ghost use Rattle.hd_task.specs.declared.task.TheConstants.{MAX_ATOMS, MAX_FLUENTS};
ghost use Rattle.hd_task.specs.Conditions.{has_atom};
ghost use Rattle.hd_pack.specs.Packing.{atom_in, bytes_for, values_in, unpacked, same_packing};
ghost use Rattle.hd_tables.specs.Rows.{IsWhole};

use crate::Draft;
use hd_base::{NoMemory, Sequence};
use hd_pack::{Layout, Packed, SpareBlocks, SplitBytes};
use hd_task::{Reads, State};
use std::alloc::Global;
use std::marker::Model;

/// A packed state in bytes that stand elsewhere, which contracts see as the state.
#[derive(Debug, Drop)]
pub struct Row<'r> {
    atoms: usize,
    fluents: usize,
    bytes: SplitBytes<'r>,
}

impl<'r> Model for Row<'r> {
    ghost use Rattle.hd_task.specs.declared.state.State.{State};
    ghost use Rattle.hd_pack.specs.Packing.{unpacked};
    ghost use Rattle.hd_tables.specs.Rows.{IsWhole};

    ghost Value = { State };

    ghost view = { λ r. unpacked r.atoms r.bytes };

    ghost invariant = { λ r. IsWhole r.atoms r.fluents r.bytes };
}

/// Returns how many bytes so many atoms take.
pub(crate) fn bytes_for(atoms: usize) -> usize
    ensures { result ≡ bytes_for atoms }
{
    atoms.div_ceil(8)
}

/// Returns the atom of this number.
fn atom_in(bytes: &SplitBytes<'_>, atom: usize) -> bool
    requires { atom / 8 < length bytes.now }
    ensures { result ≡ atom_in bytes.now atom }
{
    (bytes.byte(atom / 8) >> (atom % 8)) % 2 == 1
}

/// Returns the value of this number that stands in the bytes from a place on, if there are so many.
#[inline(always)]
fn value_at(bytes: &SplitBytes<'_>, from: usize, number: u32) -> Option<i64>
    requires { from ≤ length bytes.now }
    ensures { result ≡ slice_get (values_in (drop from bytes.now)) number }
{
    let place = 8 * number as usize;
    if bytes.len() - from < place + 8 {
        return None;
    }
    let eight = bytes.eight(from + place);
    Some(u64::from_le_bytes(eight).cast_signed())
}

impl<'r> Row<'r> {
    /// Returns a packed state of this layout.
    pub fn of_packed(layout: Layout, state: &'r Packed) -> Row<'r>
        requires atoms { length state.now.atoms ≡ layout.atoms }
        requires fluents { length state.now.fluents ≡ layout.fluents }
        ensures { result ≡ state.now }
    {
        Row {
            atoms: layout.atoms(),
            fluents: layout.fluents(),
            bytes: SplitBytes::whole(state.bytes()),
        }
    }

    /// Returns the state of so many atoms and fluents that stands in bytes.
    pub(crate) fn of(atoms: usize, fluents: usize, bytes: SplitBytes<'r>) -> Row<'r>
        requires { IsWhole atoms fluents bytes }
        ensures { result ≡ unpacked atoms bytes.entry }
    {
        Row {
            atoms,
            fluents,
            bytes,
        }
    }

    /// Returns the bytes, with how many atoms and fluents they are of.
    pub(crate) fn parts(&self) -> (usize, usize, &SplitBytes<'r>)
        ensures whole { IsWhole result.0 result.1 result.2.now }
        ensures state { unpacked result.0 result.2.now ≡ self.now }
    {
        (self.atoms, self.fluents, &self.bytes)
    }

    /// Reports whether a draft is the same state.
    pub fn is_draft(&self, other: &Draft) -> bool
        ensures same { result ≡ same_packing self.now other.now }
        ensures states { result ≡ true → self.now ≡ other.now }
    {
        let (atoms, bytes) = other.parts();
        self.atoms == atoms && self.bytes.is(bytes)
    }

    /// Reports whether a packed state is the same.
    pub fn is_packed(&self, other: &Packed) -> bool
        ensures same { result ≡ same_packing self.now other.now }
        ensures states { result ≡ true → self.now ≡ other.now }
    {
        self.atoms == other.atoms() && self.bytes.is(other.bytes())
    }

    /// Returns the state in bytes of its own, in a spare block if there is one.
    ///
    /// # Errors
    /// - `NoMemory`: there is no room for them.
    pub fn packed(&self, spare: &mut SpareBlocks) -> Result<Packed, NoMemory>
        ensures { IfOk result (λ p. p ≡ self.now) }
    {
        Packed::of_bytes(spare, self.atoms, &self.bytes)
    }

    /// Returns eight atoms, a bit each, from the atom `8 * number` on.
    #[inline(always)]
    pub fn eight_atoms(&self, number: usize) -> u8
        requires { 8 * number + 8 ≤ length self.now.atoms }
        ensures { (k : ℕ) → k < 8 → (bit_at result k == 1) ≡ has_atom self.now (8 * number + k) }
    {
        self.bytes.byte(number)
    }

    /// Reports whether the atom of this number is true, if the state has it.
    #[inline(always)]
    pub(crate) fn atom(&self, atom: u32) -> Option<bool>
        ensures { result ≡ slice_get self.now.atoms atom }
    {
        let atom = atom as usize;
        if atom < self.atoms {
            Some(atom_in(&self.bytes, atom))
        } else {
            None
        }
    }

    /// Returns the value of the fluent of this number, if the state has it.
    #[inline(always)]
    pub(crate) fn fluent(&self, fluent: u32) -> Option<i64>
        ensures { result ≡ slice_get self.now.fluents fluent }
    {
        value_at(&self.bytes, bytes_for(self.atoms), fluent)
    }
}

impl<'r> Reads for Row<'r> {
    ghost seen = { λ s. s };

    fn has_atom(&self, atom: u32) -> bool {
        self.atom(atom).unwrap_or(false)
    }

    fn fluent_of(&self, fluent: u32) -> i64 {
        self.fluent(fluent).unwrap_or(0)
    }
}
