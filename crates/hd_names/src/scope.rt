//! What names stand for in a text.
ghost use Rattle.std.specs.Prelude.{◌≡◌};
ghost use Rattle.hd_names.specs.Scope.{metric_number, ChecksScope, ChecksObjects};

use crate::declared::{declare_all, signatures_of, table_of};
use crate::fault::NameStop;
use crate::names::NumberedNames;
use crate::table::Table;
use hd_base::Sequence;
use hd_forms::NameAt;
use hd_lifted::Hierarchy;
use hd_pddl::DomainAst;
use hd_terms::{ItemKind, Typed};
use std::alloc::Global;

/// What names stand for. Types are numbers in the hierarchy; a predicate and a function have the
/// types of their parameters.
#[derive(Debug, Drop)]
pub struct Scope {
    /// `object`, the types that are listed, and those that are only supertypes.
    pub types: NumberedNames,
    /// Which type is below which.
    pub hierarchy: Hierarchy,
    /// The objects that the text may name, with their types.
    pub objects: Table<usize>,
    /// The predicates, with the types of their parameters.
    pub predicates: Table<Sequence<usize>>,
    /// The functions, with the types of their parameters.
    pub functions: Table<Sequence<usize>>,
    /// The number of the metric's function, if there is one.
    pub metric: Option<usize>,
}

/// Returns the number of the metric's function.
fn metric_of(functions: &NumberedNames, metric: &Option<NameAt>) -> Option<usize>
    ensures { result ≡ metric_number functions.now metric.now }
{
    match metric {
        Some(name) => functions.place_of(&name.name),
        None => None,
    }
}

/// Returns what names stand for in a domain whose types have these names and this hierarchy, by the
/// metric of its problem.
///
/// # Errors
/// - The first fault of its constants, predicates and functions.
#[tactic(auto, unfolding(crate::specs::Scope::scope_of, crate::specs::Scope::scope_fault))]
pub fn scope_of(
    alloc: Global,
    types: NumberedNames,
    hierarchy: Hierarchy,
    domain: &DomainAst,
    metric: &Option<NameAt>,
) -> Result<Scope, NameStop>
    ensures { ChecksScope result types hierarchy domain.now metric.now }
{
    let objects = table_of(alloc, ItemKind::Name, &types, domain.constants.as_slice())?;
    let predicates = signatures_of(alloc, &types, domain.predicates.as_slice())?;
    let functions = signatures_of(alloc, &types, domain.functions.as_slice())?;
    let metric = metric_of(&functions.names, metric);
    Ok(Scope {
        types,
        hierarchy,
        objects,
        predicates,
        functions,
        metric,
    })
}

/// Returns a scope with objects after those that are there.
///
/// # Errors
/// - The first fault of these objects.
#[tactic(auto, unfolding(crate::specs::Scope::with_objects))]
pub fn with_objects(alloc: Global, scope: Scope, declared: &[Typed]) -> Result<Scope, NameStop>
    ensures { ChecksObjects result scope declared.now }
{
    let Scope {
        types,
        hierarchy,
        objects,
        predicates,
        functions,
        metric,
    } = scope;
    let Table { mut names, items } = objects;
    let mut numbers = items.into_vec();
    let more = declare_all(alloc, ItemKind::Name, &types, &mut names, declared)?;
    numbers.extend_from_slice(more.as_slice())?;
    Ok(Scope {
        types,
        hierarchy,
        objects: Table {
            names,
            items: Sequence::from_vec(numbers),
        },
        predicates,
        functions,
        metric,
    })
}
