//! Words, and hashes by them.
ghost use Rattle.std.specs.Prelude.{◌≡◌, ℕ, Some, slice_get, IfOk, length};
ghost use Rattle.hd_task.specs.declared.state.State.{State};
ghost use Rattle.hd_zobrist.specs.Hash.{word, atom_word, place_word, fluent_word, state_hash, atoms_hash, fluents_hash, change_word, updated, LeadTo};

use crate::change::Change;
use hd_base::{NoMemory, Sequence};
use hd_task::{State, Task};
use rand_core::{Rng, SeedableRng};
use rand_xoshiro::SplitMix64;
use std::alloc::Global;
use std::marker::Model;

/// Returns the first word of SplitMix64 from a number.
fn word(number: u64) -> u64
    ensures { result ≡ word number }
{
    SplitMix64::seed_from_u64(number).next_u64()
}

/// Returns the word of an atom that is true.
fn atom_word(atom: usize) -> u64
    ensures { result ≡ atom_word atom }
{
    word(2u64.wrapping_mul(atom as u64))
}

/// Returns the word of a fluent's number.
fn place_word(fluent: usize) -> u64
    ensures { result ≡ place_word fluent }
{
    word(2u64.wrapping_mul(fluent as u64).wrapping_add(1))
}

/// Returns the words of the first atoms, as many as asked.
#[tactic(auto, using(crate::proofs::Wrapping::words_more))]
fn atom_words(alloc: Global, count: usize) -> Result<Vec<u64>, NoMemory>
    ensures words { IfOk result (λ v. (i w : ℕ) → slice_get v.items i ≡ Some w
        → w ≡ atom_word i) }
    ensures count { IfOk result (λ v. length v.items ≡ count) }
{
    let mut words = Vec::new(alloc);
    for atom in 0..count {
        words.push(atom_word(atom))?;
    }
    Ok(words)
}

/// Returns the words of the first fluents' numbers, as many as asked.
#[tactic(auto, using(crate::proofs::Wrapping::words_more))]
fn place_words(alloc: Global, count: usize) -> Result<Vec<u64>, NoMemory>
    ensures words { IfOk result (λ v. (j w : ℕ) → slice_get v.items j ≡ Some w
        → w ≡ place_word j) }
    ensures count { IfOk result (λ v. length v.items ≡ count) }
{
    let mut words = Vec::new(alloc);
    for fluent in 0..count {
        words.push(place_word(fluent))?;
    }
    Ok(words)
}

/// The words of a task's atoms and fluents, made once.
///
/// It hashes states of any task: what is beyond its tables is computed.
#[derive(Debug, Drop)]
pub struct Words {
    atoms: Sequence<u64>,
    fluents: Sequence<u64>,
}

impl Model for Words {
    ghost use Rattle.std.specs.Prelude.{ℕ, length};
    ghost use Rattle.hd_zobrist.specs.Tables.{AreTableWords};

    ghost Value = { ℕ × ℕ };

    ghost view = { λ w. (length w.atoms, length w.fluents) };

    ghost invariant = { λ w. AreTableWords w.atoms w.fluents };
}

impl Words {
    /// Returns the words of a task.
    ///
    /// # Errors
    /// - `NoMemory`: there is no room for eight bytes an atom and a fluent.
    pub fn new(alloc: Global, task: &Task) -> Result<Words, NoMemory>
        ensures { IfOk result (λ w. w
            ≡ (length task.now.initial.atoms, length task.now.initial.fluents)) }
    {
        let atoms = atom_words(alloc, task.initial.atoms.len())?;
        let fluents = match place_words(alloc, task.initial.fluents.len()) {
            Ok(fluents) => fluents,
            Err(error) => {
                drop(atoms);
                return Err(error);
            }
        };
        Ok(Words {
            atoms: Sequence::from_vec(atoms),
            fluents: Sequence::from_vec(fluents),
        })
    }

    /// Returns the word of an atom that is true.
    #[inline(always)]
    fn of_atom(&self, atom: usize) -> u64
        ensures { result ≡ atom_word atom }
    {
        match self.atoms.as_slice().get(atom) {
            Some(word) => *word,
            None => atom_word(atom),
        }
    }

    /// Returns the word of a fluent's number.
    fn of_place(&self, fluent: usize) -> u64
        ensures { result ≡ place_word fluent }
    {
        match self.fluents.as_slice().get(fluent) {
            Some(word) => *word,
            None => place_word(fluent),
        }
    }

    /// Returns the word of a fluent with its value.
    #[tactic(auto, unfolding(crate::specs::Hash::fluent_word))]
    fn of_fluent(&self, fluent: usize, value: &i64) -> u64
        ensures { result ≡ fluent_word fluent value.now }
    {
        word(self.of_place(fluent) ^ value.cast_unsigned())
    }

    /// Returns the exclusive or of the words of the atoms that are true.
    fn hash_of_atoms(&self, atoms: &[bool]) -> u64
        ensures { result ≡ atoms_hash 0 atoms.now }
    {
        let mut hash = 0;
        let mut number = 0;
        let mut rest = atoms;
        while let [first, after @ ..] = rest {
            if *first {
                hash ^= self.of_atom(number);
            }
            number += 1;
            rest = after;
        }
        hash
    }

    /// Returns the exclusive or of the words of the fluents with their values.
    #[tactic(auto, using(crate::proofs::Hashing::fluents_next))]
    fn hash_of_fluents(&self, fluents: &[i64]) -> u64
        ensures { result ≡ fluents_hash 0 fluents.now }
    {
        let mut hash = 0;
        let mut number = 0;
        let mut rest = fluents;
        while let [first, after @ ..] = rest {
            hash ^= self.of_fluent(number, first);
            number += 1;
            rest = after;
        }
        hash
    }

    /// Returns the hash of `state`. It does not allocate.
    #[tactic(auto, unfolding(crate::specs::Hash::state_hash))]
    pub fn hash(&self, state: &State) -> u64
        ensures { result ≡ state_hash state.now }
    {
        self.hash_of_atoms(state.atoms.as_slice()) ^ self.hash_of_fluents(state.fluents.as_slice())
    }

    /// Returns what a change does to a hash, by exclusive or.
    #[inline(always)]
    fn of_change(&self, change: Change) -> u64
        ensures { result ≡ change_word change }
    {
        match change {
            Change::Atom(atom) => self.of_atom(atom),
            Change::Fluent(fluent, before, after) => {
                self.of_fluent(fluent, &before) ^ self.of_fluent(fluent, &after)
            }
        }
    }

    /// Returns a hash with what changes do to it.
    #[inline(always)]
    fn updated(&self, old_hash: u64, changes: &[Change]) -> u64
        ensures { result ≡ updated old_hash changes.now }
    {
        let mut hash = old_hash;
        for change in changes {
            hash ^= self.of_change(*change);
        }
        hash
    }

    /// The hash after changes, from the one before them. It does not allocate.
    ///
    /// Where the changes are those between two states, one after the other, and the old hash is
    /// that of the one, this is that of the other.
    // Most callers have one change, of a known kind: all but that falls away where it is inlined.
    #[inline(always)]
    #[tactic(auto, using(crate::proofs::Hashing::hash_after))]
    pub fn update(&self, old_hash: u64, changes: &[Change]) -> u64
        ensures words { result ≡ updated old_hash changes.now }
        ensures hash { (from to : State) → old_hash ≡ state_hash from
            → LeadTo from changes.now to → result ≡ state_hash to }
    {
        self.updated(old_hash, changes)
    }
}
