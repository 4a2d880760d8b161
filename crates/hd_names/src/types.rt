//! The types of a domain.
ghost use Rattle.std.specs.Prelude.{◌≡◌, ◌<◌, ◌≤◌, ◌∷◌, [], Some, codes, length, IfOk};
ghost use Rattle.hd_lifted.specs.Types.{IsOnCycle};
ghost use Rattle.hd_names.specs.Fault.{StopsAt};
ghost use Rattle.hd_names.specs.Names.{type_number, types_of};
ghost use Rattle.hd_names.specs.Scope.{with_supertype, with_supertypes, type_names, parents_of, DeclaresListed, ChecksTypes, StopsOnCycle, Climbs};
ghost use Rattle.hd_names.specs.declared.fault.NameFault.TheVariants.{TypeCycle};

use crate::fault::{NameFault, NameStop};
use crate::names::{NumberedNames, declare, spelled};
use hd_base::{Name, Seed, Sequence};
use hd_forms::NameAt;
use hd_lifted::Hierarchy;
use hd_terms::{ItemKind, TypeName, Typed};
use std::alloc::{AllocError, Global};

/// Returns the names that are there before any type is listed: `object` alone.
fn object_alone(alloc: Global, seed: Seed) -> Result<NumberedNames, AllocError>
    ensures { IfOk result (λ names. names ≡ codes "object" ∷ []) }
{
    let mut names = NumberedNames::none(alloc, seed);
    let object = Name::of(alloc, "object")?;
    names.add(alloc, &object)?;
    Ok(names)
}

/// Adds the supertype `of`, if one is named, to `names`, unless it is there already.
fn add_supertype(
    alloc: Global,
    names: &mut NumberedNames,
    of: &Option<TypeName>,
) -> Result<(), AllocError>
    ensures { IfOk result (λ _. names.new ≡ with_supertype names.old of.now) }
{
    if let Some(name) = of {
        // Most are there, and `add` would copy the name first.
        let name = &name.get().name;
        if !names.has(name) {
            names.add(alloc, name)?;
        }
    }
    Ok(())
}

/// Adds the supertypes in `listed` to `names`, those that are not there yet.
fn add_supertypes(
    alloc: Global,
    names: &mut NumberedNames,
    listed: &[Typed],
) -> Result<(), AllocError>
    ensures { IfOk result (λ _. names.new ≡ with_supertypes names.old listed.now) }
{
    let mut rest = listed;
    while let [first, after @ ..] = rest {
        add_supertype(alloc, names, &first.of)?;
        rest = after;
    }
    Ok(())
}

/// Declares the types in `listed`, after those that are in `names`.
fn declare_types(alloc: Global, names: &mut NumberedNames, listed: &[Typed]) -> Result<(), NameStop>
    ensures { DeclaresListed result names.new names.old listed.now }
{
    let mut rest = listed;
    while let [first, after @ ..] = rest {
        declare(alloc, ItemKind::Name, names, &first.name)?;
        rest = after;
    }
    Ok(())
}

/// Returns the names of all types, by number, in a table that hashes by `seed`.
pub fn types_of(alloc: Global, seed: Seed, listed: &[Typed]) -> Result<NumberedNames, NameStop>
    ensures { ChecksTypes result listed.now }
{
    let mut names = object_alone(alloc, seed)?;
    declare_types(alloc, &mut names, listed)?;
    add_supertypes(alloc, &mut names, listed)?;
    Ok(names)
}

/// Returns the number of a type: `object`, which is 0, if none is named.
pub fn number_of_type(types: &NumberedNames, of: &Option<TypeName>) -> usize
    ensures { result ≡ type_number types.now of.now }
{
    match of {
        None => 0,
        Some(name) => types.number_of(&name.get().name),
    }
}

/// Returns the numbers of the types of the names `declared`.
pub fn numbers_of_types(
    alloc: Global,
    types: &NumberedNames,
    declared: &[Typed],
) -> Result<Sequence<usize>, AllocError>
    ensures { IfOk result (λ numbers. numbers ≡ types_of types.now declared.now) }
{
    let mut numbers = Vec::new(alloc);
    for item in declared {
        numbers.push(number_of_type(types, &item.of))?;
    }
    Ok(Sequence::from_vec(numbers))
}

/// Reports that a type lies on a cycle.
fn cycle_at(alloc: Global, name: &NameAt) -> NameStop
    ensures { StopsAt result (Some (TypeCycle name.now.name name.now.at)) }
{
    match spelled(alloc, ItemKind::Name, &name.name) {
        Ok(spelling) => NameStop::At(NameFault::TypeCycle(spelling, name.at)),
        Err(_) => NameStop::NoMemory,
    }
}

/// Reports that a listed type lies on a cycle, by its number.
fn cycle_among(alloc: Global, listed: &[Typed], number: usize) -> NameStop
    requires on_cycle { IsOnCycle (parents_of listed.now) number }
    requires listed { (0 < number) × (number ≤ length listed.now) }
    ensures { StopsOnCycle result listed.now }
{
    let item = &listed[number - 1];
    cycle_at(alloc, &item.name)
}

/// Returns the numbers of the types above each type but `object`.
fn parents_of(
    alloc: Global,
    types: &NumberedNames,
    listed: &[Typed],
) -> Result<Vec<usize>, AllocError>
    requires { types.now ≡ type_names listed.now }
    ensures { IfOk result (λ v. v.items ≡ parents_of listed.now) }
{
    let mut parents = numbers_of_types(alloc, types, listed)?.into_vec();
    // A type that is only named as a supertype is below `object`.
    let others = vec![in alloc; 0; types.len() - 1 - listed.len()]?;
    parents.extend_from_slice(others.as_slice())?;
    Ok(parents)
}

/// Returns the hierarchy of the types, of which none may lie on a cycle.
pub fn hierarchy_of(
    alloc: Global,
    types: &NumberedNames,
    listed: &[Typed],
) -> Result<Hierarchy, NameStop>
    requires { types.now ≡ type_names listed.now }
    ensures { Climbs result listed.now }
{
    let parents = parents_of(alloc, types, listed)?;
    match Hierarchy::new(alloc, parents)? {
        Ok(hierarchy) => Ok(hierarchy),
        Err(number) => Err(cycle_among(alloc, listed, number)),
    }
}
