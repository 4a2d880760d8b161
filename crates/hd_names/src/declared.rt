//! Declared names with their types: constants, objects, parameters, predicates and functions.
ghost use Rattle.std.specs.Prelude.{[]};
ghost use Rattle.hd_terms.specs.declared.typed.ItemKind.TheVariants as kinds;
ghost use Rattle.hd_names.specs.Names.{DeclaresNames, DeclaresTypes};
ghost use Rattle.hd_names.specs.Scope.{ChecksTable, ChecksSignatures};

use crate::fault::NameStop;
use crate::names::{NumberedNames, declare, type_of};
use crate::table::Table;
use hd_base::Sequence;
use hd_pddl::Signature;
use hd_terms::{ItemKind, Typed};
use std::alloc::Global;

/// Declares names after others, and gives the numbers of their types.
pub fn declare_all(
    alloc: Global,
    kind: ItemKind,
    types: &NumberedNames,
    names: &mut NumberedNames,
    declared: &[Typed],
) -> Result<Sequence<usize>, NameStop>
    ensures names { DeclaresNames result names.new kind types.now names.old declared.now }
    ensures types { DeclaresTypes result kind types.now names.old declared.now }
{
    let mut numbers = Vec::new(alloc);
    let mut rest = declared;
    while let [first, after @ ..] = rest {
        declare(alloc, kind, names, &first.name)?;
        numbers.push(type_of(alloc, types, &first.of)?)?;
        rest = after;
    }
    Ok(Sequence::from_vec(numbers))
}

/// Returns the table of the names `declared`, with the numbers of their types.
pub fn table_of(
    alloc: Global,
    kind: ItemKind,
    types: &NumberedNames,
    declared: &[Typed],
) -> Result<Table<usize>, NameStop>
    ensures { ChecksTable result kind types.now declared.now }
{
    let mut names = types.none_alike(alloc);
    let items = declare_all(alloc, kind, types, &mut names, declared)?;
    Ok(Table { names, items })
}

/// Returns the numbers of the types of a signature's parameters.
fn parameter_types(
    alloc: Global,
    types: &NumberedNames,
    declared: &[Typed],
) -> Result<Sequence<usize>, NameStop>
    ensures { DeclaresTypes result kinds.Variable types.now [] declared.now }
{
    let mut names = types.none_alike(alloc);
    declare_all(alloc, ItemKind::Variable, types, &mut names, declared)
}

/// Returns the table of predicates, or of functions, with the types of their parameters.
pub fn signatures_of(
    alloc: Global,
    types: &NumberedNames,
    declared: &[Signature],
) -> Result<Table<Sequence<usize>>, NameStop>
    ensures { ChecksSignatures result types.now declared.now }
{
    let mut names = types.none_alike(alloc);
    let mut items = Vec::new(alloc);
    let mut rest = declared;
    while let [first, after @ ..] = rest {
        declare(alloc, ItemKind::Name, &mut names, &first.name)?;
        items.push(parameter_types(alloc, types, first.parameters.as_slice())?)?;
        rest = after;
    }
    Ok(Table {
        names,
        items: Sequence::from_vec(items),
    })
}
