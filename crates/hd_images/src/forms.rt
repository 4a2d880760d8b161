//! Ground forms, each once.
ghost use Rattle.std.specs.Prelude.{◌≡◌, ◌≢◌, [], length, IfOk};
ghost use Rattle.std.specs.List.{AllPairs};
ghost use Rattle.hd_lifted.specs.States.{ground_form_of};
ghost use Rattle.hd_images.specs.Meeting.{with_form};

use hd_base::{NoMemory, Seed};
use hd_judge::copy_of;
use hd_lifted::{AppliedSymbol, Ground, ground_form_of};
use indexmap::IndexSet;
use std::alloc::Global;
use std::marker::Model;

/// Ground atoms, or ground fluents, each once, in the order in which they were added first.
/// Contracts see the list of them.
#[derive(Drop)]
pub struct Forms {
    pub(crate) table: IndexSet<Ground, Seed>,
}

impl Model for Forms {
    ghost use Rattle.std.specs.Prelude.{List};
    ghost use Rattle.hd_lifted.specs.declared.schema.Ground.{Ground};

    ghost Value = { List Ground };

    ghost view = { λ f. f.table.keys };
}

impl Forms {
    /// Returns no forms, in a table that hashes by the seed.
    pub fn none(alloc: Global, seed: Seed) -> Forms
        ensures { result ≡ [] }
    {
        Forms {
            table: IndexSet::with_hasher(alloc, seed),
        }
    }

    /// Returns how many there are, no two of them the same.
    pub fn len(&self) -> usize
        ensures len { result ≡ length self.now }
        ensures distinct { AllPairs (λ g h. g ≢ h) self.now }
    {
        self.table.len()
    }

    /// Returns the forms, in their order.
    pub(crate) fn as_slice(&self) -> &[Ground]
        ensures { result.now ≡ self.now }
    {
        self.table.as_slice()
    }

    /// Adds one form more, if it is none of them yet.
    fn put(&mut self, form: Ground) -> Result<(), NoMemory>
        ensures { IfOk result (λ _. self.new ≡ with_form self.old form) }
    {
        self.table.insert(form)?;
        Ok(())
    }

    /// Adds one form more, if it is none of them yet.
    ///
    /// # Errors
    /// - Lack of memory.
    pub fn add(&mut self, alloc: Global, form: &Ground) -> Result<(), NoMemory>
        ensures { IfOk result (λ _. self.new ≡ with_form self.old form.now) }
    {
        let form = copy_of(alloc, form)?;
        self.put(form)
    }

    /// Adds one form more, with objects in the place of its arguments, if it is none of them yet.
    ///
    /// # Errors
    /// - Lack of memory.
    pub fn add_at(
        &mut self,
        alloc: Global,
        objects: &[usize],
        said: &AppliedSymbol,
    ) -> Result<(), NoMemory>
        ensures { IfOk result (λ _. self.new
            ≡ with_form self.old (ground_form_of objects.now said.now)) }
    {
        let form = ground_form_of(alloc, objects, said)?;
        self.put(form)
    }
}
