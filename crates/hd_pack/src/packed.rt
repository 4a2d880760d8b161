//! Packed states.
ghost use Rattle.std.specs.Prelude.{◌≡◌, ◌<◌, true, FitsSigned, IfOk, length, nat_eq, slice_get};
ghost use Rattle.std.specs.Int.{w64};
ghost use Rattle.std.specs.List.{AllByRecursion};
ghost use Rattle.std.specs.Hash as fed;
ghost use Rattle.std.specs.Cmp.{partial_equiv_from_equiv};
ghost use Rattle.hd_pack.specs.Packing.{packed_bytes, same_packing, unpacked, IsPacking};
ghost use Rattle.hd_pack.specs.Leading.{with_value};
ghost use Rattle.hd_zobrist.specs.Hash.{IsChangeOf, changed};
ghost use Rattle.hd_pack.specs.Laws.{same_equiv, same_alike};

use crate::bits::{Bytes, atom_in, atoms_in, bytes_for, flip_atom, push_atoms};
use crate::values::{push_values, put_value, value_at, values_in};
use crate::{Layout, SpareBlocks, SplitBytes};
use hd_base::{NoMemory, Sequence};
use hd_task::{Reads, State};
use hd_zobrist::Change;
use smallvec::SmallVec;
use std::alloc::Global;
use std::hash::{Hash, Hasher};
use std::marker::Model;

/// A state in few bytes, which contracts see as the state.
#[derive(Debug, Drop)]
pub struct Packed {
    atoms: usize,
    bytes: Bytes,
}

impl Model for Packed {
    ghost use Rattle.std.specs.Prelude.{◌≡◌};
    ghost use Rattle.hd_task.specs.declared.state.State.{State};
    ghost use Rattle.hd_pack.specs.Packing.{unpacked, IsPacking};

    ghost Value = { State };

    ghost view = { λ p. unpacked p.atoms p.bytes.items };

    ghost invariant = { λ p. IsPacking p.atoms p.bytes.items };
}

impl Packed {
    /// Returns a copy of a packing of so many atoms that stands elsewhere.
    ///
    /// # Errors
    /// - `NoMemory`: there is no room for the bytes.
    pub fn of_bytes(
        spare: &mut SpareBlocks,
        atoms: usize,
        bytes: &SplitBytes<'_>,
    ) -> Result<Packed, NoMemory>
        requires { IsPacking atoms bytes.now }
        ensures { IfOk result (λ p. p ≡ unpacked atoms bytes.now) }
    {
        let bytes = spare.copy_of_split(bytes)?;
        Ok(Packed { atoms, bytes })
    }

    /// Returns the bytes of the packing; each value in them has 64 bits.
    pub fn bytes(&self) -> &[u8]
        ensures bytes { result.now ≡ packed_bytes self.now }
        ensures fit { AllByRecursion (FitsSigned w64) self.now.fluents }
    {
        self.bytes.as_slice()
    }

    /// Gives the bytes up, in the memory that holds them.
    pub(crate) fn into_bytes(self) -> Bytes {
        let Packed { bytes, .. } = self;
        bytes
    }

    /// Returns how many atoms the state has.
    pub fn atoms(&self) -> usize
        ensures { result ≡ length self.now.atoms }
    {
        self.atoms
    }

    /// Returns a copy of the packing.
    ///
    /// # Errors
    /// - `NoMemory`: there is no room for the bytes.
    pub fn copied(&self, spare: &mut SpareBlocks) -> Result<Packed, NoMemory>
        ensures { IfOk result (λ p. p ≡ self.now) }
    {
        let bytes = spare.copy_of(self.bytes.as_slice())?;
        Ok(Packed {
            atoms: self.atoms,
            bytes,
        })
    }

    /// Reports whether the atom of this number is true, if the state has it. It reads one byte.
    pub fn atom(&self, atom: u32) -> Option<bool>
        ensures { result ≡ slice_get self.now.atoms atom }
    {
        let atom = atom as usize;
        if atom < self.atoms {
            Some(atom_in(self.bytes.as_slice(), atom))
        } else {
            None
        }
    }

    /// Returns the value of the fluent of this number, if the state has it. It reads eight bytes.
    pub fn fluent(&self, fluent: u32) -> Option<i64>
        ensures { result ≡ slice_get self.now.fluents fluent }
    {
        let values = self.bytes.as_slice().split_at(bytes_for(self.atoms)).1;
        value_at(values, fluent)
    }

    /// Turns an atom round.
    fn flip(&mut self, atom: usize)
        requires { atom < length self.old.atoms }
        ensures { self.new ≡ changed self.old (Change.Atom atom) }
    {
        flip_atom(&mut self.bytes, atom);
    }

    /// Gives a fluent a value.
    fn put(&mut self, fluent: usize, value: &i64)
        requires { fluent < length self.old.fluents }
        ensures { self.new ≡ with_value self.old fluent value.now }
    {
        let bytes = self.bytes.as_mut_slice();
        put_value(bytes, bytes_for(self.atoms) + 8 * fluent, value);
    }

    /// Makes a change. It does not allocate.
    #[inline(always)]
    pub fn change(&mut self, change: Change)
        requires fits { IsChangeOf self.old change }
        ensures { self.new ≡ changed self.old change }
    {
        match change {
            Change::Atom(atom) => self.flip(atom),
            Change::Fluent(fluent, _, after) => self.put(fluent, &after),
        }
    }
}

impl Reads for Packed {
    ghost seen = { λ s. s };

    fn has_atom(&self, atom: u32) -> bool {
        self.atom(atom).unwrap_or(false)
    }

    fn fluent_of(&self, fluent: u32) -> i64 {
        self.fluent(fluent).unwrap_or(0)
    }
}

/// Returns a state in few bytes. A layout of the state's numbers of atoms and fluents lets it take
/// memory once.
///
/// # Errors
/// - `NoMemory`: there is no room for the bytes.
pub fn pack(alloc: Global, layout: &Layout, state: &State) -> Result<Packed, NoMemory>
    ensures { IfOk result (λ p. p ≡ state.now) }
{
    let mut bytes = SmallVec::with_capacity(alloc, layout.bytes())?;
    push_atoms(&mut bytes, state.atoms.as_slice())?;
    push_values(&mut bytes, state.fluents.as_slice())?;
    Ok(Packed {
        atoms: state.atoms.len(),
        bytes,
    })
}

/// Returns the state of a packing. A layout of the state's numbers of atoms and fluents lets it
/// take memory once for each.
///
/// # Errors
/// - `NoMemory`: there is no room for the state.
#[tactic(auto, using(crate::proofs::Trips::bytes_enough))]
pub fn unpack(alloc: Global, layout: &Layout, packed: &Packed) -> Result<State, NoMemory>
    ensures { IfOk result (λ s. s ≡ packed.now) }
{
    let bytes = packed.bytes.as_slice();
    let atoms = atoms_in(alloc, bytes, packed.atoms, layout.atoms())?;
    let values = bytes.split_at(bytes_for(packed.atoms)).1;
    let fluents = values_in(alloc, values, layout.fluents())?;
    Ok(State {
        atoms: Sequence::from_vec(atoms),
        fluents: Sequence::from_vec(fluents),
    })
}

impl PartialEq for Packed {
    ghost eq = { same_packing };

    ghost laws = { partial_equiv_from_equiv same_equiv };

    fn eq(&self, other: &Self) -> bool
        ensures same { result ≡ same_packing self.now other.now }
        // The same packing is of the same state.
        ensures states { result ≡ true → self.now ≡ other.now }
    {
        self.atoms == other.atoms && self.bytes.as_slice() == other.bytes.as_slice()
    }
}

impl Eq for Packed {
    ghost laws = { same_equiv };
}

impl Hash for Packed {
    ghost hash_input = { λ s. fed.slice fed.u8 (packed_bytes s) };

    ghost respects_eq = { same_alike };

    fn hash<H: Hasher>(&self, state: &mut H) {
        self.bytes.as_slice().hash(state);
    }
}
