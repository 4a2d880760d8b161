//! Tables of the atoms that are true and of the values of fluents.
ghost use Rattle.std.specs.Prelude.{◌≡◌, false, None, Some, if◌then◌else◌, IfOk, OnOk};
ghost use Rattle.hd_lifted.specs.declared.schema.Ground.{Ground};
ghost use Rattle.hd_lifted.specs.States.{same, is_listed, first_value};
ghost use Rattle.hd_judge.specs.Tables.{truth_in, value_in};

use hd_base::{NoMemory, Seed, Tuple};
use hd_lifted::{Ground, InitialValue};
use indexmap::IndexMap;
use smallvec::SmallVec;
use std::alloc::Global;

/// Which atoms are true.
#[derive(Drop)]
pub(crate) struct Truths {
    pub(crate) truths: IndexMap<Ground, bool, Seed>,
}

/// The values of fluents: one that is not in the table has none.
#[derive(Drop)]
pub(crate) struct Numbers {
    pub(crate) numbers: IndexMap<Ground, i64, Seed>,
}

/// Where a plan leads: the atoms that are true, the values of fluents, and what it has cost.
/// Contracts speak of `reached_in`.
#[derive(Drop)]
pub struct Place {
    pub(crate) truths: Truths,
    pub(crate) numbers: Numbers,
    pub(crate) cost: u64,
}

/// Returns the same ground form in memory of its own.
///
/// # Errors
/// - Lack of memory, where it has more than four objects.
pub fn copy_of(alloc: Global, form: &Ground) -> Result<Ground, NoMemory>
    ensures { IfOk result (λ g. g ≡ form.now) }
{
    let objects = SmallVec::from_slice(alloc, form.objects.as_slice())?;
    Ok(Ground {
        symbol: form.symbol,
        objects: Tuple::from_small_vec(objects),
    })
}

impl Truths {
    /// Reports whether an atom is true.
    pub(crate) fn get(&self, atom: &Ground) -> bool
        ensures { result ≡ truth_in self.now atom.now }
    {
        self.truths.get(atom).copied().unwrap_or(false)
    }

    /// Makes `atom` true or false, as `truth` says.
    pub(crate) fn set(&mut self, atom: Ground, truth: bool) -> Result<(), NoMemory>
        ensures { OnOk result ((g : Ground) → truth_in self.new g
            ≡ (if same atom g then truth else truth_in self.old g)) }
    {
        self.truths.insert(atom, truth)?;
        Ok(())
    }

    /// Returns a table that hashes by `seed`, in which the atoms of `listed` alone are true.
    pub(crate) fn listed(alloc: Global, seed: Seed, listed: &[Ground]) -> Result<Truths, NoMemory>
        ensures { IfOk result (λ table. (g : Ground) → truth_in table g ≡ is_listed listed.now g) }
    {
        let mut table = Truths {
            truths: IndexMap::with_hasher(alloc, seed),
        };
        for atom in listed {
            table.set(copy_of(alloc, atom)?, true)?;
        }
        Ok(table)
    }
}

impl Numbers {
    /// Returns the value of a fluent, if it has one.
    pub(crate) fn get(&self, fluent: &Ground) -> Option<i64>
        ensures { result ≡ value_in self.now fluent.now }
    {
        self.numbers.get(fluent).copied()
    }

    /// Sets the value of `fluent` to `value`.
    pub(crate) fn set(&mut self, fluent: Ground, value: i64) -> Result<(), NoMemory>
        ensures { OnOk result ((g : Ground) → value_in self.new g
            ≡ (if same fluent g then Some value else value_in self.old g)) }
    {
        self.numbers.insert(fluent, value)?;
        Ok(())
    }

    /// Returns the first of the values that are listed for each fluent, in a table that hashes by
    /// the seed.
    pub(crate) fn listed(
        alloc: Global,
        seed: Seed,
        listed: &[InitialValue],
    ) -> Result<Numbers, NoMemory>
        ensures { IfOk result (λ table. (g : Ground)
            → value_in table g ≡ first_value listed.now g) }
    {
        let mut table = Numbers {
            numbers: IndexMap::with_hasher(alloc, seed),
        };
        let mut left = listed.len();
        // The first one is put in last, so that it stays.
        while left > 0 {
            left -= 1;
            let last = &listed[left];
            table.set(copy_of(alloc, &last.fluent)?, last.value)?;
        }
        Ok(table)
    }
}
