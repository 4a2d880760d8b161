//! Which functions change.
ghost use Rattle.std.specs.Prelude.{◌≡◌, ◌||◌, not, ℕ, IfOk};
ghost use Rattle.std.specs.List.{list_any};
ghost use Rattle.hd_lifted.specs.Amounts.{changes_function, is_changed_by};
ghost use Rattle.hd_lifted.specs.Effects.{is_cost};
ghost use Rattle.hd_judge.specs.Tables.{has_function};

use hd_base::{NoMemory, Seed};
use hd_lifted::{ChangeKind, NumericEffect, Schema};
use indexmap::IndexSet;
use std::alloc::Global;

/// The functions of which some schema changes fluents.
#[derive(Drop)]
pub(crate) struct Changed {
    pub(crate) functions: IndexSet<usize, Seed>,
}

/// Reports whether an effect is a part of the cost.
pub fn is_cost(change: ChangeKind) -> bool
    ensures { result ≡ is_cost change }
{
    match change {
        ChangeKind::Assign | ChangeKind::ScaleUp | ChangeKind::Increase | ChangeKind::Decrease =>
            false,
        ChangeKind::Cost => true,
    }
}

impl Changed {
    /// Adds the function that `effect` changes, if it changes one.
    fn note(&mut self, effect: &NumericEffect) -> Result<(), NoMemory>
        ensures { IfOk result (λ _. (f : ℕ) → has_function self.new f
            ≡ (has_function self.old f || changes_function f effect.now)) }
    {
        if !is_cost(effect.change) {
            self.functions.insert(effect.fluent.symbol)?;
        }
        Ok(())
    }

    /// Adds the functions that `schema` changes.
    fn note_all(&mut self, schema: &Schema) -> Result<(), NoMemory>
        ensures { IfOk result (λ _. (f : ℕ) → has_function self.new f
            ≡ (has_function self.old f || is_changed_by f schema.now)) }
    {
        for effect in schema.effects.as_slice() {
            self.note(effect)?;
        }
        Ok(())
    }

    /// Returns the functions that these schemas change, in a table that hashes by the seed.
    pub(crate) fn of(alloc: Global, seed: Seed, schemas: &[Schema]) -> Result<Changed, NoMemory>
        ensures { IfOk result (λ c. (f : ℕ)
            → has_function c f ≡ list_any (is_changed_by f) schemas.now) }
    {
        let mut changed = Changed {
            functions: IndexSet::with_hasher(alloc, seed),
        };
        for schema in schemas {
            changed.note_all(schema)?;
        }
        Ok(changed)
    }

    /// Reports whether some schema changes fluents of the function.
    pub(crate) fn has(&self, function: usize) -> bool
        ensures { result ≡ has_function self.now function }
    {
        self.functions.contains(&function)
    }
}
