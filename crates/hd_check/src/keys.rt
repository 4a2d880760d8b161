//! Sets of fluents.
ghost use Rattle.std.specs.Prelude.{◌≡◌, [], not, IfOk};
ghost use Rattle.hd_base.specs.Names.{is_named};
ghost use Rattle.hd_lifted.specs.Numbering.{form_key};
ghost use Rattle.hd_names.specs.Names.{with_name};

use hd_base::Seed;
use hd_lifted::Ground;
use indexmap::IndexSet;
use smallvec::SmallVec;
use std::alloc::{AllocError, Global};
use std::marker::Model;

/// A function, and then its objects, by number.
type FluentKey = SmallVec<usize, 4>;

/// Fluents, each once, in the order in which they were added. Contracts see the list of their keys.
#[derive(Debug, Drop)]
pub struct Keys {
    keys: IndexSet<FluentKey, Seed>,
}

impl Model for Keys {
    ghost use Rattle.std.specs.Prelude.{List, ℕ, map};

    ghost Value = { List (List ℕ) };

    ghost view = { λ k. map (λ key. key.items) k.keys.keys };
}

impl Keys {
    /// Returns no fluents, in a table that hashes by this seed.
    pub fn none(alloc: Global, seed: Seed) -> Keys
        ensures { result ≡ [] }
    {
        Keys {
            keys: IndexSet::with_hasher(alloc, seed),
        }
    }

    /// Returns one fluent more, if it is none of them yet: whether it was none.
    pub fn add(&mut self, alloc: Global, fluent: &Ground) -> Result<bool, AllocError>
        ensures new { IfOk result (λ new. new ≡ not (is_named self.old (form_key fluent.now))) }
        ensures keys { IfOk result (λ _. self.new ≡ with_name self.old (form_key fluent.now)) }
    {
        let key = form_key(alloc, fluent)?;
        Ok(self.keys.insert(key)?)
    }
}

/// Returns a function, and then its objects.
fn form_key(alloc: Global, fluent: &Ground) -> Result<FluentKey, AllocError>
    ensures { IfOk result (λ key. key.items ≡ form_key fluent.now) }
{
    let mut key = SmallVec::new(alloc);
    key.push(fluent.symbol)?;
    for object in fluent.objects.as_slice() {
        key.push(*object)?;
    }
    Ok(key)
}
