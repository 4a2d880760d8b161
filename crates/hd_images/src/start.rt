//! The state at first.
ghost use Rattle.std.specs.Prelude.{◌≡◌, map, unwrap_or, pos, IfOk};
ghost use Rattle.hd_lifted.specs.States.{is_listed, first_value};
ghost use Rattle.hd_grounding.specs.Grounding.{start_in};

use crate::NumberedForms;
use hd_base::{NoMemory, Sequence};
use hd_judge::Lookups;
use hd_lifted::Ground;
use hd_task::State;
use std::alloc::Global;

/// Returns for each of `atoms`, by number, whether it is in `listed`.
fn bits_of(
    alloc: Global,
    atoms: &NumberedForms,
    listed: &[Ground],
) -> Result<Sequence<bool>, NoMemory>
    ensures { IfOk result (λ s. s ≡ map (is_listed listed.now) atoms.now) }
{
    atoms.are_rising();
    let mut bits = vec![in alloc; false; atoms.len()]?;
    for atom in listed {
        if let Some(number) = atoms.number_of(atom) {
            bits[number as usize] = true;
        }
    }
    Ok(Sequence::from_vec(bits))
}

/// Returns the first values of fluents: 0 for one that has none.
fn values_of(
    alloc: Global,
    lookups: &Lookups<'_>,
    fluents: &NumberedForms,
) -> Result<Sequence<i64>, NoMemory>
    ensures { IfOk result (λ s. s
        ≡ map (λ g. unwrap_or (first_value lookups.now.values g) (pos 0)) fluents.now) }
{
    let mut values = Vec::new(alloc);
    for fluent in fluents.as_slice() {
        values.push(lookups.first_value_of(fluent).unwrap_or(0))?;
    }
    Ok(Sequence::from_vec(values))
}

/// Returns the atoms that are true at first, and the first values: 0 for a fluent that has none.
///
/// # Errors
/// - Lack of memory.
pub fn start_in(
    alloc: Global,
    lookups: &Lookups<'_>,
    atoms: &NumberedForms,
    fluents: &NumberedForms,
) -> Result<State, NoMemory>
    ensures { IfOk result (λ s. s ≡ start_in lookups.now atoms.now fluents.now) }
{
    let bits = bits_of(alloc, atoms, lookups.task().atoms.as_slice())?;
    match values_of(alloc, lookups, fluents) {
        Ok(values) => Ok(State {
            atoms: bits,
            fluents: values,
        }),
        Err(error) => {
            drop(bits);
            Err(error)
        }
    }
}
