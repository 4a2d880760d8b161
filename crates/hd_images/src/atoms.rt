//! The atoms of a task.
ghost use Rattle.std.specs.Prelude.{◌≡◌, [], ◌++◌, map, IfOk};
ghost use Rattle.hd_images.specs.Meeting.{with_form, with_forms, goal_atom, goal_atoms};

use crate::Forms;
use hd_base::{NoMemory, Seed};
use hd_lifted::{Ground, LiftedTask, Literal};
use std::alloc::Global;

/// Adds to `forms` those of `atoms` that are not there yet.
fn add_all(alloc: Global, forms: &mut Forms, atoms: &[Ground]) -> Result<(), NoMemory>
    ensures { IfOk result (λ _. forms.new ≡ with_forms forms.old atoms.now) }
{
    for atom in atoms {
        forms.add(alloc, atom)?;
    }
    Ok(())
}

/// Adds the atom of the goal's `literal` to `forms`, if it is not there yet.
fn add_wanted(alloc: Global, forms: &mut Forms, literal: &Literal) -> Result<(), NoMemory>
    ensures { IfOk result (λ _. forms.new ≡ with_form forms.old (goal_atom literal.now)) }
{
    let none: [usize; 0] = [];
    forms.add_at(alloc, none.as_slice(), &literal.atom)
}

/// Adds the atoms of the goal's `literals` to `forms`, those that are not there yet.
fn add_goal(alloc: Global, forms: &mut Forms, literals: &[Literal]) -> Result<(), NoMemory>
    ensures { IfOk result (λ _. forms.new ≡ with_forms forms.old (map goal_atom literals.now)) }
{
    for literal in literals {
        add_wanted(alloc, forms, literal)?;
    }
    Ok(())
}

/// Returns the atoms that are reached, and those that the goal names, each once.
///
/// # Errors
/// - Lack of memory.
pub fn atoms_in(
    alloc: Global,
    seed: Seed,
    task: &LiftedTask,
    reached: &[Ground],
) -> Result<Forms, NoMemory>
    ensures { IfOk result (λ f. f ≡ with_forms [] (reached.now ++ goal_atoms task.now)) }
{
    let mut forms = Forms::none(alloc, seed);
    add_all(alloc, &mut forms, reached)?;
    add_goal(alloc, &mut forms, task.goal.literals.as_slice())?;
    Ok(forms)
}
