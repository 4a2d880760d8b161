//! What a step does to the atoms.
ghost use Rattle.std.specs.Prelude.{◌≡◌, ◌&&◌, ◌||◌, not, OnOk};
ghost use Rattle.hd_lifted.specs.declared.schema.Ground.{Ground};
ghost use Rattle.hd_lifted.specs.Effects.{names_atom, atoms_after};
ghost use Rattle.hd_judge.specs.Tables.{truth_in};

use crate::table::Truths;
use hd_base::NoMemory;
use hd_lifted::{AppliedSymbol, Schema, ground_form_of};
use std::alloc::Global;

/// Makes `atoms` with `objects` false in `truths`.
fn take_out(
    alloc: Global,
    truths: &mut Truths,
    objects: &[usize],
    atoms: &[AppliedSymbol],
) -> Result<(), NoMemory>
    ensures { OnOk result ((g : Ground) → truth_in truths.new g
        ≡ (truth_in truths.old g && not (names_atom objects.now atoms.now g))) }
{
    for atom in atoms {
        truths.set(ground_form_of(alloc, objects, atom)?, false)?;
    }
    Ok(())
}

/// Makes `atoms` with `objects` true in `truths`.
fn put_in(
    alloc: Global,
    truths: &mut Truths,
    objects: &[usize],
    atoms: &[AppliedSymbol],
) -> Result<(), NoMemory>
    ensures { OnOk result ((g : Ground) → truth_in truths.new g
        ≡ (names_atom objects.now atoms.now g || truth_in truths.old g)) }
{
    for atom in atoms {
        truths.set(ground_form_of(alloc, objects, atom)?, true)?;
    }
    Ok(())
}

/// Changes `truths` as a step of `schema` does: first it deletes, and then it adds.
pub(crate) fn change_atoms(
    alloc: Global,
    truths: &mut Truths,
    objects: &[usize],
    schema: &Schema,
) -> Result<(), NoMemory>
    ensures { OnOk result ((g : Ground) → truth_in truths.new g
        ≡ atoms_after (truth_in truths.old) schema.now objects.now g) }
{
    take_out(alloc, truths, objects, schema.deletes.as_slice())?;
    put_in(alloc, truths, objects, schema.adds.as_slice())
}
