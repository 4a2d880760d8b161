//! The numbers of a task's schemas and objects, by name.
ghost use Rattle.std.specs.Prelude.{◌≡◌, ◌++◌, [], ◌∷◌, false, IfOk, OnOk};
ghost use Rattle.std.specs.List.{position};
ghost use Rattle.std.specs.Str.{bytes_eq};
ghost use Rattle.hd_base.specs.Names.{is_named};
ghost use Rattle.hd_lifted.specs.WellFormed.{AreDistinct};
ghost use Rattle.hd_plan.specs.Tables.{names_of_objects, names_of_schemas};

use hd_base::{Name, NoMemory, Seed};
use hd_lifted::{Checked, Object, Schema};
use indexmap::IndexSet;
use std::alloc::Global;
use std::marker::Model;

/// Names, each once, which contracts see as the list of their bytes. A name's number is its place.
#[derive(Drop)]
pub(crate) struct NameTable<'a> {
    names: IndexSet<&'a str, Seed>,
}

impl<'a> Model for NameTable<'a> {
    ghost use Rattle.std.specs.Prelude.{List, ℕ, map};

    ghost Value = { List (List ℕ) };

    ghost view = { λ n. map (λ k. k.now) n.names.keys };
}

impl<'a> NameTable<'a> {
    /// Returns no names, in a table that hashes by this seed.
    fn none(alloc: Global, seed: Seed) -> NameTable<'a>
        ensures { result ≡ [] }
    {
        NameTable {
            names: IndexSet::with_hasher(alloc, seed),
        }
    }

    /// Adds one name more, which is none of them.
    fn add(&mut self, name: &'a Name) -> Result<(), NoMemory>
        requires { is_named self.old name.now ≡ false }
        ensures { OnOk result (self.new ≡ self.old ++ name.now ∷ []) }
    {
        self.names.insert(name.as_str())?;
        Ok(())
    }

    /// Returns the number of a name, if it is one of them.
    pub(crate) fn number_of(&self, name: &Name) -> Option<usize>
        ensures { result ≡ position (bytes_eq name.now) self.now }
    {
        self.names.get_index_of(name.as_str())
    }
}

/// Returns the names of `schemas`, by number.
fn schema_names<'a>(
    alloc: Global,
    seed: Seed,
    schemas: &'a [Schema],
) -> Result<NameTable<'a>, NoMemory>
    requires { AreDistinct (names_of_schemas schemas.now) }
    ensures { IfOk result (λ names. names ≡ names_of_schemas schemas.now) }
{
    let mut names = NameTable::none(alloc, seed);
    let mut rest = schemas;
    while let [first, after @ ..] = rest {
        names.add(&first.name)?;
        rest = after;
    }
    Ok(names)
}

/// Returns the names of `objects`, by number.
fn object_names<'a>(
    alloc: Global,
    seed: Seed,
    objects: &'a [Object],
) -> Result<NameTable<'a>, NoMemory>
    requires { AreDistinct (names_of_objects objects.now) }
    ensures { IfOk result (λ names. names ≡ names_of_objects objects.now) }
{
    let mut names = NameTable::none(alloc, seed);
    let mut rest = objects;
    while let [first, after @ ..] = rest {
        names.add(&first.name)?;
        rest = after;
    }
    Ok(names)
}

/// A checked task with the numbers of its schemas and objects by name. Contracts see the task.
#[derive(Drop)]
pub struct TaskNames<'a> {
    checked: &'a Checked,
    schemas: NameTable<'a>,
    objects: NameTable<'a>,
}

impl<'a> Model for TaskNames<'a> {
    ghost use Rattle.hd_lifted.specs.declared.task.LiftedTask.{LiftedTask};
    ghost use Rattle.hd_plan.specs.Tables.{AreNamesOf};

    ghost Value = { LiftedTask };

    ghost use Rattle.hd_lifted.specs.contracts.task.LiftedTask as lifted;
    ghost use Rattle.std.specs.Coded.{codes};

    ghost coded = { Prim.hlevel (codes, lifted.the_row.coded) };

    ghost view = { λ n. n.checked.now };

    ghost invariant = { λ n. AreNamesOf n.checked.now n.schemas n.objects };
}

impl<'a> TaskNames<'a> {
    /// Returns the tables of a checked task, which hash by the seed.
    ///
    /// Fails only for lack of memory.
    pub fn of(alloc: Global, seed: Seed, checked: &'a Checked) -> Result<TaskNames<'a>, NoMemory>
        ensures { IfOk result (λ n. n ≡ checked.now) }
    {
        let task = checked.task();
        let schemas = schema_names(alloc, seed, task.schemas.as_slice())?;
        match object_names(alloc, seed, task.objects.as_slice()) {
            Ok(objects) => Ok(TaskNames {
                checked,
                schemas,
                objects,
            }),
            Err(error) => {
                drop(schemas);
                Err(error)
            }
        }
    }

    /// Returns the names of the schemas, by number.
    pub(crate) fn schemas(&self) -> &NameTable<'a>
        ensures { result.now ≡ names_of_schemas self.now.schemas }
    {
        &self.schemas
    }

    /// Returns the names of the objects, by number.
    pub(crate) fn objects(&self) -> &NameTable<'a>
        ensures { result.now ≡ names_of_objects self.now.objects }
    {
        &self.objects
    }
}
