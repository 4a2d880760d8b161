//! The new values and the cost that a step gives, beside the values before it.
ghost use Rattle.std.specs.Prelude.{◌≡◌, Some, None, pos, if◌then◌else◌, OnOk};
ghost use Rattle.hd_lifted.specs.declared.schema.Ground.{Ground};
ghost use Rattle.hd_lifted.specs.States.{same};
ghost use Rattle.hd_judge.specs.Effects.{new_value_in};

use crate::table::Numbers;
use hd_base::{NoMemory, Seed};
use hd_lifted::Ground;
use indexmap::IndexMap;
use std::alloc::Global;

/// New values of fluents, and the sum of the costs so far. On the way they may be out of the range.
#[derive(Drop)]
pub(crate) struct Changes {
    pub(crate) values: IndexMap<Ground, i128, Seed>,
    pub(crate) cost: i128,
}

impl Changes {
    /// Returns no new values and no costs, in a table that hashes as that of the old values.
    pub(crate) fn beside(alloc: Global, numbers: &Numbers) -> Changes
        ensures values { (g : Ground) → new_value_in result g ≡ None }
        ensures cost { result.cost ≡ pos 0 }
    {
        let seed = *numbers.numbers.hasher();
        Changes {
            values: IndexMap::with_hasher(alloc, seed),
            cost: 0,
        }
    }

    /// Returns the new value of a fluent, if it has one.
    pub(crate) fn get(&self, fluent: &Ground) -> Option<i128>
        ensures { result ≡ new_value_in self.now fluent.now }
    {
        self.values.get(fluent).copied()
    }

    /// Sets the new value of `fluent` to `value`.
    pub(crate) fn set(&mut self, fluent: Ground, value: i128) -> Result<(), NoMemory>
        ensures value { OnOk result ((g : Ground) → new_value_in self.new g
            ≡ (if same fluent g then Some value else new_value_in self.old g)) }
        ensures cost { self.new.cost ≡ self.old.cost }
    {
        self.values.insert(fluent, value)?;
        Ok(())
    }
}
