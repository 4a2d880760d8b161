//! Atoms and conditions.
ghost use Rattle.std.specs.Prelude.{◌≡◌, map, flat_map, IfOk};
ghost use Rattle.hd_grounding.specs.Images.{numbers_of, literal_of, comparison_of, condition_of};

use crate::NumberedForms;
use crate::expressions::expression_of;
use hd_base::{NoMemory, Sequence};
use hd_lifted::{AppliedSymbol, lifted_equalities_hold};
use hd_task::{Comparison, Condition, Literal};
use std::alloc::Global;

/// Returns the numbers of atoms: one without a number is left out.
///
/// # Errors
/// - Lack of memory.
pub fn numbers_of(
    alloc: Global,
    atoms: &NumberedForms,
    objects: &[usize],
    said: &[AppliedSymbol],
) -> Result<Sequence<u32>, NoMemory>
    ensures { IfOk result (λ s. s ≡ numbers_of atoms.now objects.now said.now) }
{
    let mut numbers = Vec::with_capacity(alloc, said.len())?;
    for atom in said {
        if let Some(number) = atoms.number_at(alloc, objects, atom)? {
            numbers.push(number)?;
        }
    }
    Ok(Sequence::from_vec(numbers))
}

/// Returns the literals `said` by their atoms' numbers, without those whose atom has no number.
fn literals_of(
    alloc: Global,
    atoms: &NumberedForms,
    objects: &[usize],
    said: &[hd_lifted::Literal],
) -> Result<Sequence<Literal>, NoMemory>
    ensures { IfOk result (λ s. s ≡ flat_map (literal_of atoms.now objects.now) said.now) }
{
    let mut literals = Vec::with_capacity(alloc, said.len())?;
    for literal in said {
        if let Some(atom) = atoms.number_at(alloc, objects, &literal.atom)? {
            literals.push(Literal {
                atom,
                positive: literal.positive,
            })?;
        }
    }
    Ok(Sequence::from_vec(literals))
}

/// Returns a comparison, each fluent by its number.
fn comparison_of(
    alloc: Global,
    fluents: &NumberedForms,
    objects: &[usize],
    said: &hd_lifted::Comparison,
) -> Result<Comparison, NoMemory>
    ensures { IfOk result (λ c. c ≡ comparison_of fluents.now objects.now said.now) }
{
    let left = expression_of(alloc, fluents, objects, &said.left)?;
    match expression_of(alloc, fluents, objects, &said.right) {
        Ok(right) => Ok(Comparison {
            left,
            relation: said.relation,
            right,
        }),
        Err(error) => {
            drop(left);
            Err(error)
        }
    }
}

/// Returns the comparisons `said`, each fluent by its number.
fn comparisons_of(
    alloc: Global,
    fluents: &NumberedForms,
    objects: &[usize],
    said: &[hd_lifted::Comparison],
) -> Result<Sequence<Comparison>, NoMemory>
    ensures { IfOk result (λ s. s ≡ map (comparison_of fluents.now objects.now) said.now) }
{
    let mut comparisons = Vec::with_capacity(alloc, said.len())?;
    for comparison in said {
        comparisons.push(comparison_of(alloc, fluents, objects, comparison)?)?;
    }
    Ok(Sequence::from_vec(comparisons))
}

/// Returns a condition, its atoms and fluents by number. Where one of its equalities fails, it
/// can't hold in any state.
///
/// # Errors
/// - Lack of memory.
pub fn condition_of(
    alloc: Global,
    atoms: &NumberedForms,
    fluents: &NumberedForms,
    objects: &[usize],
    said: &hd_lifted::Condition,
) -> Result<Condition, NoMemory>
    ensures { IfOk result (λ c. c ≡ condition_of atoms.now fluents.now objects.now said.now) }
{
    let literals = literals_of(alloc, atoms, objects, said.literals.as_slice())?;
    match comparisons_of(alloc, fluents, objects, said.comparisons.as_slice()) {
        Ok(comparisons) => Ok(Condition {
            literals,
            comparisons,
            never: !lifted_equalities_hold(objects, said.equalities.as_slice()),
        }),
        Err(error) => {
            drop(literals);
            Err(error)
        }
    }
}
