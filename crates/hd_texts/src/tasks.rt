//! The task that two texts say.
ghost use Rattle.std.specs.Prelude.{IfOk, IfErr};
ghost use Rattle.hd_texts.specs.Tasks.{SayTrees, IsLiftedOf, IsTaskOf, ExplainsTexts, ExplainsTask};

use crate::digest::seed_of;
use crate::fault::{TaskFault, checked_in, grounded_in, read_in};
use hd_base::Seed;
use hd_check::{Checked, Source, check};
use hd_ground::ground;
use hd_pddl::{DomainAst, ProblemAst, read_domain, read_problem};
use hd_task::Task;
use std::alloc::Global;

/// Hears how far the texts are read, so that somebody may measure how long each part takes.
pub trait Stages {
    /// Hears that both texts are read.
    fn read(&mut self) {}

    /// Hears that their names, types and metric are checked.
    fn checked(&mut self) {}

    /// Hears that what they say is grounded.
    fn grounded(&mut self) {}
}

/// Hears nothing.
#[derive(Clone, Copy, Debug, Drop)]
pub struct Unheard;

impl Stages for Unheard {}

/// Returns the trees of a domain's and a problem's text.
fn trees_of(
    alloc: Global,
    domain: &[u8],
    problem: &[u8],
) -> Result<(DomainAst, ProblemAst), TaskFault>
    ensures found { IfOk result (λ trees. SayTrees domain.now problem.now trees.0 trees.1) }
    ensures refusal { IfErr result (ExplainsTexts domain.now problem.now) }
{
    match read_domain(alloc, domain) {
        Err(error) => Err(read_in(Source::Domain, error)),
        Ok(domain) => match read_problem(alloc, problem) {
            Err(error) => Err(read_in(Source::Problem, error)),
            Ok(problem) => Ok((domain, problem)),
        },
    }
}

/// Returns the lifted task that two texts say, and says how far it is.
fn checked_by<S: Stages>(
    alloc: Global,
    seed: Seed,
    domain: &[u8],
    problem: &[u8],
    stages: &mut S,
) -> Result<Checked, TaskFault>
    ensures found { IfOk result (IsLiftedOf domain.now problem.now) }
    ensures refusal { IfErr result (ExplainsTexts domain.now problem.now) }
{
    let (domain, problem) = trees_of(alloc, domain, problem)?;
    stages.read();
    match check(alloc, seed, domain, problem) {
        Ok(checked) => {
            stages.checked();
            Ok(checked)
        }
        Err(error) => Err(checked_in(error)),
    }
}

/// Returns the lifted task that two texts say.
pub fn checked_of(
    alloc: Global,
    seed: Seed,
    domain: &[u8],
    problem: &[u8],
) -> Result<Checked, TaskFault>
    ensures found { IfOk result (IsLiftedOf domain.now problem.now) }
    ensures refusal { IfErr result (ExplainsTexts domain.now problem.now) }
{
    checked_by(alloc, seed, domain, problem, &mut Unheard)
}

/// Returns the task that two texts say, as [`task_of`] does, and says how far it is.
///
/// # Errors
/// - As there.
#[tactic(auto, using(crate::proofs::Explaining::unlifted))]
pub fn task_by<S: Stages>(
    alloc: Global,
    domain: &[u8],
    problem: &[u8],
    stages: &mut S,
) -> Result<Task, TaskFault>
    ensures found { IfOk result (IsTaskOf domain.now problem.now) }
    ensures refusal { IfErr result (ExplainsTask domain.now problem.now) }
{
    let seed = seed_of(domain, problem);
    let checked = checked_by(alloc, seed, domain, problem, stages)?;
    match ground(alloc, seed, &checked) {
        Ok(task) => {
            stages.grounded();
            Ok(task)
        }
        Err(error) => Err(grounded_in(error)),
    }
}

/// Returns the task that two texts say: the grounding of the lifted task that they say.
///
/// # Errors
/// - The first fault: of the domain's text, of the problem's, of their names, types and metric, or
///   of the grounding: that the task would be too large, that a fluent has no first value, or that
///   an action costs less than 0.
pub fn task_of(alloc: Global, domain: &[u8], problem: &[u8]) -> Result<Task, TaskFault>
    ensures found { IfOk result (IsTaskOf domain.now problem.now) }
    ensures refusal { IfErr result (ExplainsTask domain.now problem.now) }
{
    task_by(alloc, domain, problem, &mut Unheard)
}
