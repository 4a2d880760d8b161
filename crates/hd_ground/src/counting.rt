//! What a task has, counted: if there is too much, or a fault, no action is made.
ghost use Rattle.std.specs.Prelude.{◌≡◌, ◌≤◌, ◌↔◌, Contains, length, IfOk, IfErr, OnOk};
ghost use Rattle.hd_lifted.specs.declared.schema.Ground.{Ground};
ghost use Rattle.hd_task.specs.declared.task.TheConstants.{MAX_ACTIONS, MAX_ATOMS, MAX_FLUENTS};
ghost use Rattle.hd_lifted.specs.Kept.{IsReachable};
ghost use Rattle.hd_lifted.specs.Numbering.{NumbersInstances, NumbersAtoms, NumbersFluents};
ghost use Rattle.hd_grounding.specs.Faults.{undefined_in};
ghost use Rattle.hd_grounding.specs.Counted.{HaveFewAmounts, AreCounted, AreFaultless};
ghost use Rattle.hd_lifted.specs.declared.task.LiftedTask.{LiftedTask};
ghost use Rattle.hd_reach.specs.declared.reading.Limits.{Limits};
ghost use Rattle.hd_reach.specs.Reaching.{HasReached, StopsReaching};
ghost use Rattle.hd_ground.specs.Telling.{Tells};

use crate::GroundError;
use crate::amounts::have_more_amounts;
use crate::faults::{action_text, fluent_text};
use hd_base::{Seed, Sequence};
use hd_images::{NumberedForms, atoms_in, first_negative, first_undefined, met_by_all};
use hd_judge::Lookups;
use hd_lifted::{Ground, Instance, LiftedTask};
use hd_reach::{Limits, ReachStop, Reachable, reached_of};
use hd_task::{MAX_ACTIONS, MAX_ATOMS, MAX_FLUENTS};
use std::alloc::Global;

/// What a task has, by number.
#[derive(Drop)]
pub struct Counted {
    pub instances: Sequence<Instance>,
    pub atoms: NumberedForms,
    pub fluents: NumberedForms,
    /// The first fluent that is met and has no first value, if there is one.
    pub undefined: Option<Ground>,
}

/// Returns why a search for instances stops, within the limits of a task.
#[tactic(auto, using(crate::proofs::Limits::too_many))]
fn stopped(stop: ReachStop) -> GroundError
    ensures { (t : LiftedTask) (limits : Limits) → limits.actions ≡ MAX_ACTIONS
        → limits.atoms ≡ MAX_ATOMS → StopsReaching t limits stop → Tells t result }
{
    match stop {
        ReachStop::TooMany => GroundError::TooMany,
        ReachStop::NoMemory => GroundError::NoMemory,
    }
}

/// Returns the kept instances and the atoms that they reach, where they are not too many.
fn kept_of(alloc: Global, seed: Seed, task: &LiftedTask) -> Result<Reachable, GroundError>
    ensures reached { IfOk result (λ r. HasReached task.now r.instances r.atoms) }
    ensures few { IfOk result (λ r. length r.instances ≤ MAX_ACTIONS) }
    ensures few_amounts { IfOk result (λ r. HaveFewAmounts task.now r.instances) }
    ensures refusal { IfErr result (Tells task.now) }
{
    let limits = Limits {
        actions: MAX_ACTIONS,
        atoms: MAX_ATOMS,
    };
    let reached = match reached_of(alloc, seed, task, limits) {
        Ok(reached) => reached,
        Err(stop) => return Err(stopped(stop)),
    };
    if have_more_amounts(task, reached.instances.as_slice()) {
        drop(reached);
        return Err(GroundError::TooMany);
    }
    Ok(reached)
}

/// Returns the task's atoms by number, where they are not too many.
#[tactic(auto, using(crate::proofs::Limits::too_many_atoms, crate::proofs::Limits::numbers_atoms))]
fn atoms_of(
    alloc: Global,
    seed: Seed,
    task: &LiftedTask,
    reached: &[Ground],
) -> Result<NumberedForms, GroundError>
    requires { (g : Ground) → IsReachable task.now g ↔ Contains reached.now g }
    ensures numbers { IfOk result (NumbersAtoms task.now) }
    ensures few { IfOk result (λ n. length n ≤ MAX_ATOMS) }
    ensures refusal { IfErr result (Tells task.now) }
{
    let forms = atoms_in(alloc, seed, task, reached)?;
    if forms.len() > MAX_ATOMS {
        drop(forms);
        return Err(GroundError::TooMany);
    }
    Ok(NumberedForms::of(forms)?)
}

/// Returns the task's fluents by number, where they are not too many, and the first one that is met
/// and has no first value.
#[tactic(auto, using(crate::proofs::Limits::too_many_fluents, crate::proofs::Limits::numbers_fluents, crate::proofs::Limits::first_undefined))]
fn fluents_of(
    alloc: Global,
    seed: Seed,
    lookups: &Lookups<'_>,
    instances: &[Instance],
) -> Result<(NumberedForms, Option<Ground>), GroundError>
    requires { NumbersInstances lookups.now instances.now }
    ensures numbers { IfOk result (λ p. NumbersFluents lookups.now p.0) }
    ensures few { IfOk result (λ p. length p.0 ≤ MAX_FLUENTS) }
    ensures undefined { IfOk result (λ p. p.1 ≡ undefined_in lookups.now instances.now) }
    ensures refusal { IfErr result (Tells lookups.now) }
{
    let met = met_by_all(alloc, seed, lookups.task(), instances)?;
    if met.len() > MAX_FLUENTS {
        drop(met);
        return Err(GroundError::TooMany);
    }
    match first_undefined(alloc, lookups, &met) {
        Ok(undefined) => match NumberedForms::of(met) {
            Ok(numbers) => Ok((numbers, undefined)),
            Err(error) => {
                drop(undefined);
                Err(GroundError::from(error))
            }
        },
        Err(error) => {
            drop(met);
            Err(GroundError::from(error))
        }
    }
}

/// Returns what a task has, where it is not too much.
pub fn counted_of(alloc: Global, seed: Seed, lookups: &Lookups<'_>) -> Result<Counted, GroundError>
    ensures counted { IfOk result (λ c. AreCounted lookups.now c.instances c.atoms c.fluents) }
    ensures undefined { IfOk result (λ c. c.undefined ≡ undefined_in lookups.now c.instances) }
    ensures refusal { IfErr result (Tells lookups.now) }
{
    let Reachable { instances, atoms } = kept_of(alloc, seed, lookups.task())?;
    let numbered = atoms_of(alloc, seed, lookups.task(), atoms.as_slice());
    drop(atoms);
    match numbered {
        Ok(atoms) => match fluents_of(alloc, seed, lookups, instances.as_slice()) {
            Ok((fluents, undefined)) => Ok(Counted {
                instances,
                atoms,
                fluents,
                undefined,
            }),
            Err(error) => {
                drop(instances);
                drop(atoms);
                Err(error)
            }
        },
        Err(error) => {
            drop(instances);
            Err(error)
        }
    }
}

/// Looks for a fluent that is met and has no first value, and then for an instance of a negative
/// cost.
#[tactic(auto, using(crate::proofs::Limits::names_undefined, crate::proofs::Limits::names_negative))]
pub fn look_for_faults(
    alloc: Global,
    lookups: &Lookups<'_>,
    counted: &Counted,
) -> Result<(), GroundError>
    requires counted { AreCounted lookups.now counted.now.instances counted.now.atoms
        counted.now.fluents }
    requires undefined { counted.now.undefined ≡ undefined_in lookups.now counted.now.instances }
    ensures faultless { OnOk result (AreFaultless lookups.now counted.now.instances) }
    ensures refusal { IfErr result (Tells lookups.now) }
{
    if let Some(fluent) = &counted.undefined {
        let text = fluent_text(alloc, lookups.task(), fluent)?;
        return Err(GroundError::Undefined(text));
    }
    if let Some(instance) = first_negative(alloc, lookups, counted.instances.as_slice())? {
        let text = action_text(alloc, lookups.task(), instance)?;
        return Err(GroundError::NegativeCost(text));
    }
    Ok(())
}
