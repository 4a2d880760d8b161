//! The task to search, from what was counted.
ghost use Rattle.std.specs.Prelude.{◌≡◌, [], true, map, is_some, IfOk};
ghost use Rattle.std.specs.List.{AllZip};
ghost use Rattle.hd_lifted.specs.Checked.{IsChecked};
ghost use Rattle.hd_lifted.specs.Numbering.{NumbersInstances};
ghost use Rattle.hd_task.specs.WellFormed.{parts_fit};
ghost use Rattle.hd_task.specs.Parts.{HasParts};
ghost use Rattle.hd_grounding.specs.Images.{condition_of};
ghost use Rattle.hd_grounding.specs.Grounding.{names_in, form_of, start_in, IsActionOf, IsGrounding};
ghost use Rattle.hd_grounding.specs.Counted.{AreCounted, AreFaultless};

use crate::counting::Counted;
use hd_base::{NoMemory, Sequence};
use hd_images::{NumberedForms, action_of, condition_of, forms_of, names_in, start_in};
use hd_judge::Lookups;
use hd_lifted::Instance;
use hd_task::{Action, Condition, GroundForm, Names, State, Task};
use std::alloc::Global;

/// What a task's atoms and fluents are printed as, and with which names.
#[derive(Drop)]
struct Printed {
    names: Names,
    atoms: Sequence<GroundForm>,
    fluents: Sequence<GroundForm>,
}

/// Where a search begins, and where it ends.
#[derive(Drop)]
struct GroundEnds {
    initial: State,
    goal: Condition,
}

/// Returns what atoms and fluents are printed as.
fn both_forms(
    alloc: Global,
    atoms: &NumberedForms,
    fluents: &NumberedForms,
) -> Result<(Sequence<GroundForm>, Sequence<GroundForm>), NoMemory>
    ensures atoms { IfOk result (λ p. p.0 ≡ map form_of atoms.now) }
    ensures fluents { IfOk result (λ p. p.1 ≡ map form_of fluents.now) }
{
    let atoms = forms_of(alloc, atoms)?;
    match forms_of(alloc, fluents) {
        Ok(fluents) => Ok((atoms, fluents)),
        Err(error) => {
            drop(atoms);
            Err(error)
        }
    }
}

/// Returns what is printed of a task.
fn printed_of(
    alloc: Global,
    lookups: &Lookups<'_>,
    atoms: &NumberedForms,
    fluents: &NumberedForms,
) -> Result<Printed, NoMemory>
    ensures names { IfOk result (λ p. p.names ≡ names_in lookups.now) }
    ensures atoms { IfOk result (λ p. p.atoms ≡ map form_of atoms.now) }
    ensures fluents { IfOk result (λ p. p.fluents ≡ map form_of fluents.now) }
{
    let names = names_in(alloc, lookups.task())?;
    match both_forms(alloc, atoms, fluents) {
        Ok((atoms, fluents)) => Ok(Printed {
            names,
            atoms,
            fluents,
        }),
        Err(error) => {
            drop(names);
            Err(error)
        }
    }
}

/// Returns the state at first, and the goal.
fn ends_of(
    alloc: Global,
    lookups: &Lookups<'_>,
    atoms: &NumberedForms,
    fluents: &NumberedForms,
) -> Result<GroundEnds, NoMemory>
    ensures initial { IfOk result (λ e. e.initial ≡ start_in lookups.now atoms.now fluents.now) }
    ensures goal { IfOk result (λ e. e.goal
        ≡ condition_of atoms.now fluents.now [] lookups.now.goal) }
{
    let none: [usize; 0] = [];
    let goal = condition_of(alloc, atoms, fluents, none.as_slice(), &lookups.task().goal)?;
    match start_in(alloc, lookups, atoms, fluents) {
        Ok(initial) => Ok(GroundEnds { initial, goal }),
        Err(error) => {
            drop(goal);
            Err(error)
        }
    }
}

/// Returns the actions that instances are, in their order.
fn actions_of(
    alloc: Global,
    lookups: &Lookups<'_>,
    atoms: &NumberedForms,
    fluents: &NumberedForms,
    instances: &[Instance],
) -> Result<Sequence<Action>, NoMemory>
    requires { NumbersInstances lookups.now instances.now }
    ensures { IfOk result (AllZip (IsActionOf lookups.now atoms.now fluents.now) instances.now) }
{
    let mut actions = Vec::with_capacity(alloc, instances.len())?;
    for instance in instances {
        let action = action_of(alloc, lookups, atoms, fluents, instance)?;
        actions.push(action)?;
    }
    Ok(Sequence::from_vec(actions))
}

/// Returns the task of parts that fit together.
fn task_with(printed: Printed, ends: GroundEnds, actions: Sequence<Action>, metric: bool) -> Task
    requires { parts_fit printed.names printed.atoms printed.fluents ends.initial actions
        ends.goal metric ≡ true }
    ensures { HasParts printed.names printed.atoms printed.fluents ends.initial actions
        ends.goal metric result }
{
    let Printed {
        names,
        atoms,
        fluents,
    } = printed;
    let GroundEnds { initial, goal } = ends;
    match Task::new(names, atoms, fluents, initial, actions, goal, metric) {
        Some(task) => task,
        None => unreachable!(),
    }
}

/// Returns the task to search of what was counted, if nothing is at fault.
///
/// # Errors
/// - Lack of memory.
pub fn task_of(alloc: Global, lookups: &Lookups<'_>, counted: &Counted) -> Result<Task, NoMemory>
    requires checked { IsChecked lookups.now }
    requires counted { AreCounted lookups.now counted.now.instances counted.now.atoms
        counted.now.fluents }
    requires faultless { AreFaultless lookups.now counted.now.instances }
    ensures { IfOk result (IsGrounding lookups.now) }
{
    let (atoms, fluents) = (&counted.atoms, &counted.fluents);
    let metric = lookups.task().metric.is_some();
    let printed = printed_of(alloc, lookups, atoms, fluents)?;
    let ends = match ends_of(alloc, lookups, atoms, fluents) {
        Ok(ends) => ends,
        Err(error) => {
            drop(printed);
            return Err(error);
        }
    };
    match actions_of(alloc, lookups, atoms, fluents, counted.instances.as_slice()) {
        Ok(actions) => Ok(task_with(printed, ends, actions, metric)),
        Err(error) => {
            drop(printed);
            drop(ends);
            Err(error)
        }
    }
}
