//! The numbers of names, and the faults of names.
ghost use Rattle.std.specs.Prelude.{◌≡◌, [], Some, not, IfOk, OnOk, length};
ghost use Rattle.std.specs.List.{position};
ghost use Rattle.std.specs.Str.{bytes_eq};
ghost use Rattle.hd_base.specs.Names.{is_named};
ghost use Rattle.hd_names.specs.Fault.{StopsAt};
ghost use Rattle.hd_names.specs.Names.{name_number, spelled, with_name, Knows, KnowsType, Declares};
ghost use Rattle.hd_names.specs.declared.fault.NameFault.TheVariants.{UnknownName, Duplicate};

use crate::fault::{NameFault, NameStop};
use hd_base::{Name, Seed};
use hd_forms::NameAt;
use hd_terms::{ItemKind, TypeName};
use indexmap::IndexSet;
use std::alloc::{AllocError, Global};
use std::marker::Model;

/// Names, each once, which contracts see as the list of their bytes. A name's number is its place.
#[derive(Debug, Drop)]
pub struct NumberedNames {
    names: IndexSet<String, Seed>,
}

impl Model for NumberedNames {
    ghost use Rattle.std.specs.Prelude.{List, ℕ, map, string_bytes};

    ghost Value = { List (List ℕ) };

    ghost view = { λ n. map string_bytes n.names.keys };
}

impl NumberedNames {
    /// Returns no names, in a table that hashes by this seed.
    pub fn none(alloc: Global, seed: Seed) -> NumberedNames
        ensures { result ≡ [] }
    {
        NumberedNames {
            names: IndexSet::with_hasher(alloc, seed),
        }
    }

    /// Returns no names, in a table that hashes as this one does.
    pub fn none_alike(&self, alloc: Global) -> NumberedNames
        ensures { result ≡ [] }
    {
        NumberedNames::none(alloc, self.seed())
    }

    /// Returns what the table hashes by, which contracts do not see.
    pub fn seed(&self) -> Seed {
        *self.names.hasher()
    }

    /// Returns how many names there are.
    pub(crate) fn len(&self) -> usize
        ensures { result ≡ length self.now }
    {
        self.names.len()
    }

    /// Reports whether a name is one of them.
    pub fn has(&self, name: &Name) -> bool
        ensures { result ≡ is_named self.now name.now }
    {
        self.names.contains(name.as_str())
    }

    /// Returns the number of a name, if it is one of them.
    pub fn place_of(&self, name: &Name) -> Option<usize>
        ensures { result ≡ position (bytes_eq name.now) self.now }
    {
        self.names.get_index_of(name.as_str())
    }

    /// Returns the number of a name, 0 if it is none of them.
    pub fn number_of(&self, name: &Name) -> usize
        ensures { result ≡ name_number self.now name.now }
    {
        match self.place_of(name) {
            Some(number) => number,
            None => 0,
        }
    }

    /// Returns one name more, if it is none of them yet: whether it was none.
    pub fn add(&mut self, alloc: Global, name: &Name) -> Result<bool, AllocError>
        ensures new { IfOk result (λ new. new ≡ not (is_named self.old name.now)) }
        ensures names { OnOk result (self.new ≡ with_name self.old name.now) }
    {
        let text = String::from_str(alloc, name.as_str())?;
        Ok(self.names.insert(text)?)
    }
}

/// Returns a name as it is written, in memory of its own: a variable's has its `?`.
pub fn spelled(alloc: Global, kind: ItemKind, name: &Name) -> Result<Name, AllocError>
    ensures { IfOk result (λ n. n ≡ spelled kind name.now) }
{
    match kind {
        ItemKind::Name => name.copied(alloc),
        ItemKind::Variable => {
            let mut text = String::from_str(alloc, "?")?;
            text.push_str(name.as_str())?;
            Name::of(alloc, text.as_str())
        }
    }
}

/// Reports that a name is not declared.
fn unknown(alloc: Global, kind: ItemKind, name: &NameAt) -> NameStop
    ensures { StopsAt result (Some (UnknownName (spelled kind name.now.name) name.now.at)) }
{
    match spelled(alloc, kind, &name.name) {
        Ok(spelling) => NameStop::At(NameFault::UnknownName(spelling, name.at)),
        Err(_) => NameStop::NoMemory,
    }
}

/// Reports that a name is declared twice.
pub fn duplicate(alloc: Global, kind: ItemKind, name: &NameAt) -> NameStop
    ensures { StopsAt result (Some (Duplicate (spelled kind name.now.name) name.now.at)) }
{
    match spelled(alloc, kind, &name.name) {
        Ok(spelling) => NameStop::At(NameFault::Duplicate(spelling, name.at)),
        Err(_) => NameStop::NoMemory,
    }
}

/// Returns the number of a name that is used.
pub fn known(
    alloc: Global,
    kind: ItemKind,
    names: &NumberedNames,
    name: &NameAt,
) -> Result<usize, NameStop>
    ensures { Knows result kind names.now name.now }
{
    match names.place_of(&name.name) {
        Some(number) => Ok(number),
        None => Err(unknown(alloc, kind, name)),
    }
}

/// Adds one name more, which can't be one of them yet.
pub fn declare(
    alloc: Global,
    kind: ItemKind,
    names: &mut NumberedNames,
    name: &NameAt,
) -> Result<(), NameStop>
    ensures { Declares result names.new kind names.old name.now }
{
    if names.add(alloc, &name.name)? {
        Ok(())
    } else {
        Err(duplicate(alloc, kind, name))
    }
}

/// Returns the number of a type that is named: `object`, which is 0, if none is.
pub fn type_of(
    alloc: Global,
    types: &NumberedNames,
    of: &Option<TypeName>,
) -> Result<usize, NameStop>
    ensures { KnowsType result types.now of.now }
{
    match of {
        None => Ok(0),
        Some(name) => known(alloc, ItemKind::Name, types, name.get()),
    }
}
