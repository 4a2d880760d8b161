//! The check of a domain and a problem.
ghost use Rattle.std.specs.Prelude.{◌≡◌, ◌++◌, IfOk};
ghost use Rattle.hd_base.specs.Answers.{Checks};
ghost use Rattle.hd_check.specs.Lifting.{LiftsIn};
ghost use Rattle.hd_check.specs.Fault.{TellsOf, metric_use_fault};
ghost use Rattle.hd_check.specs.declared.fault.Source.TheVariants as sources;
ghost use Rattle.hd_names.specs.Scope.{type_names};
ghost use Rattle.hd_check.specs.Whole.{of_text, names_in, in_text, mismatch, goal_in, ends_in, goal_fault, problem_in, lifted_problem, fault_in_problem, problem_fault, metric_fault};
ghost use Rattle.hd_check.specs.Whole.{lifted_objects, lifted_signatures, all_objects, declared_in, task_by, task_of};
ghost use Rattle.hd_check.specs.Whole.{ChecksNames, ClimbsIn, ChecksListedTypes, ChecksDomainScope, ChecksActions, ChecksProblem, ChecksUses, Answers};

use crate::conditions::condition_of;
use crate::context::Context;
use crate::fault::{CheckError, CheckFault, CheckStop, Source, error_in};
use crate::initial::{Initial, initial_of, no_parameters};
use crate::metric::check_metric_name;
use crate::schemas::schemas_of;
use hd_base::{Seed, Sequence};
use hd_forms::NameAt;
use hd_lifted::{Checked, Condition, Hierarchy, LiftedTask, Object, Schema, Signature};
use hd_metric::{BadMetric, misused_in_domain, misused_in_problem};
use hd_names::{
    NameStop, NumberedNames, Scope, hierarchy_of, number_of_type, numbers_of_types, scope_of,
    types_of, with_objects,
};
use hd_pddl::{DomainAst, ProblemAst};
use hd_terms::Typed;
use std::alloc::{AllocError, Global};

/// The names of a domain's types, and which is below which.
#[derive(Debug, Drop)]
pub struct TypesPart {
    pub names: NumberedNames,
    pub hierarchy: Hierarchy,
}

/// What a domain's constants, predicates, functions and actions stand for.
#[derive(Debug, Drop)]
pub struct DomainPart {
    pub scope: Scope,
    pub schemas: Sequence<Schema>,
}

/// What a problem's initial state and goal stand for.
#[derive(Debug, Drop)]
pub struct Ends {
    pub initial: Initial,
    pub goal: Condition,
}

/// What a problem's objects, initial state and goal stand for. The scope is the domain's, with the
/// objects.
#[derive(Debug, Drop)]
pub struct ProblemPart {
    pub scope: Scope,
    pub ends: Ends,
}

/// What a domain's actions and a problem's part stand for.
#[derive(Debug, Drop)]
pub struct CheckedParts {
    pub schemas: Sequence<Schema>,
    pub problem: ProblemPart,
}

/// The objects, predicates and functions of a task.
#[derive(Debug, Drop)]
pub struct Declared {
    pub objects: Sequence<Object>,
    pub predicates: Sequence<Signature>,
    pub functions: Sequence<Signature>,
}

/// Returns what a part answers, told of its text.
fn of_text<T>(source: Source, answer: Result<T, CheckStop>) -> Result<T, CheckError>
    ensures { result ≡ of_text source answer }
{
    match answer {
        Ok(value) => Ok(value),
        Err(stop) => Err(error_in(source, stop)),
    }
}

/// Returns what names of a text stand for, told of it.
fn names_in<T>(source: Source, answer: Result<T, NameStop>) -> Result<T, CheckError>
    ensures { result ≡ names_in source answer }
{
    match answer {
        Ok(value) => Ok(value),
        Err(stop) => Err(error_in(source, CheckStop::from(stop))),
    }
}

/// Asks that the problem belongs to the domain.
fn check_domain_name(domain: &DomainAst, problem: &ProblemAst) -> Result<(), CheckError>
    ensures { Checks TellsOf result (in_text sources.Problem (mismatch domain.now problem.now)) tt }
{
    if problem.domain.name == domain.name.name {
        Ok(())
    } else {
        let fault = CheckFault::DomainMismatch(problem.domain.at);
        Err(CheckError::In(Source::Problem, fault))
    }
}

/// Returns the names of a domain's types: `object`, those in `listed`, and their supertypes.
#[tactic(auto, using(crate::proofs::Telling::told_names))]
fn type_names(alloc: Global, seed: Seed, listed: &[Typed]) -> Result<NumberedNames, CheckError>
    ensures { ChecksNames result listed.now }
{
    names_in(Source::Domain, types_of(alloc, seed, listed))
}

/// Returns the hierarchy of the types of `names`, by the supertypes in `listed`.
#[tactic(auto, using(crate::proofs::Telling::told_cycle))]
fn hierarchy_in(
    alloc: Global,
    names: &NumberedNames,
    listed: &[Typed],
) -> Result<Hierarchy, CheckError>
    requires { names.now ≡ type_names listed.now }
    ensures { ClimbsIn result listed.now }
{
    names_in(Source::Domain, hierarchy_of(alloc, names, listed))
}

/// Returns the types that a domain lists, where no type lies on a cycle.
#[tactic(auto, using(crate::proofs::Telling::told_name, crate::proofs::Telling::told_later_cycle))]
fn types_part(alloc: Global, seed: Seed, listed: &[Typed]) -> Result<TypesPart, CheckError>
    ensures { ChecksListedTypes result listed.now }
{
    let names = type_names(alloc, seed, listed)?;
    match hierarchy_in(alloc, &names, listed) {
        Ok(hierarchy) => Ok(TypesPart { names, hierarchy }),
        Err(error) => {
            drop(names);
            Err(error)
        }
    }
}

/// Returns what names stand for in a domain of these types.
#[tactic(auto, using(crate::proofs::Telling::told_names))]
fn scope_part(
    alloc: Global,
    types: TypesPart,
    domain: &DomainAst,
    metric: &Option<NameAt>,
) -> Result<Scope, CheckError>
    ensures { ChecksDomainScope result types domain.now metric.now }
{
    let TypesPart { names, hierarchy } = types;
    names_in(
        Source::Domain,
        scope_of(alloc, names, hierarchy, domain, metric),
    )
}

/// Returns what a domain's actions stand for in this scope.
#[tactic(auto, unfolding(crate::specs::Whole::domain_in), using(crate::proofs::Telling::told_of))]
fn domain_in(alloc: Global, scope: Scope, domain: &DomainAst) -> Result<DomainPart, CheckError>
    ensures { ChecksActions result scope domain.now }
{
    let schemas = schemas_of(alloc, &scope, domain.actions.as_slice());
    match of_text(Source::Domain, schemas) {
        Ok(schemas) => Ok(DomainPart { scope, schemas }),
        Err(error) => {
            drop(scope);
            Err(error)
        }
    }
}

/// Returns what a problem's goal stands for in this scope, where the metric's function is declared.
fn goal_in(alloc: Global, scope: &Scope, problem: &ProblemAst) -> Result<Condition, CheckStop>
    ensures { LiftsIn result goal_fault goal_in scope.now problem.now }
{
    let none = no_parameters(alloc, scope);
    let context = Context {
        scope,
        parameters: &none,
    };
    let goal = condition_of(alloc, context, problem.goal.as_slice());
    drop(none);
    let goal = goal?;
    match check_metric_name(alloc, &scope.functions, &problem.metric) {
        Ok(()) => Ok(goal),
        Err(stop) => {
            drop(goal);
            Err(stop)
        }
    }
}

/// Returns what a problem's initial state and goal stand for in this scope, which has its objects.
#[tactic(auto, unfolding(crate::specs::Whole::fault_in_problem))]
fn ends_in(alloc: Global, scope: &Scope, problem: &ProblemAst) -> Result<Ends, CheckStop>
    ensures { LiftsIn result fault_in_problem ends_in scope.now problem.now }
{
    let initial = initial_of(alloc, scope, problem.init.as_slice())?;
    match goal_in(alloc, scope, problem) {
        Ok(goal) => Ok(Ends { initial, goal }),
        Err(stop) => {
            drop(initial);
            Err(stop)
        }
    }
}

/// Returns what a problem's part stands for in this scope, which has its objects.
#[tactic(auto, unfolding(crate::specs::Whole::problem_in))]
fn problem_in(alloc: Global, scope: Scope, problem: &ProblemAst) -> Result<ProblemPart, CheckStop>
    ensures { LiftsIn result fault_in_problem problem_in scope problem.now }
{
    match ends_in(alloc, &scope, problem) {
        Ok(ends) => Ok(ProblemPart { scope, ends }),
        Err(stop) => {
            drop(scope);
            Err(stop)
        }
    }
}

/// Returns what a problem's part stands for, by the scope of its domain.
#[tactic(auto, unfolding(crate::specs::Whole::lifted_problem, crate::specs::Whole::problem_fault), using(crate::proofs::Telling::stops_first))]
fn lifted_problem(
    alloc: Global,
    scope: Scope,
    problem: &ProblemAst,
) -> Result<ProblemPart, CheckStop>
    ensures { LiftsIn result problem_fault lifted_problem scope problem.now }
{
    let scope = with_objects(alloc, scope, problem.objects.as_slice())?;
    problem_in(alloc, scope, problem)
}

/// Returns what a domain's actions and a problem's part stand for, where the domain's part stands
/// for this.
#[tactic(auto, using(crate::proofs::Telling::told_of))]
fn parts_in(
    alloc: Global,
    first: DomainPart,
    problem: &ProblemAst,
) -> Result<CheckedParts, CheckError>
    ensures { ChecksProblem result first problem.now }
{
    let DomainPart { scope, schemas } = first;
    match of_text(Source::Problem, lifted_problem(alloc, scope, problem)) {
        Ok(problem) => Ok(CheckedParts { schemas, problem }),
        Err(error) => {
            drop(schemas);
            Err(error)
        }
    }
}

/// Reports that the metric's function is misused so, if it is.
fn check_use(source: Source, misuse: Option<BadMetric>) -> Result<(), CheckError>
    ensures { Checks TellsOf result (in_text source (metric_use_fault misuse)) tt }
{
    match misuse {
        Some(misuse) => Err(CheckError::In(source, CheckFault::OfMetric(misuse))),
        None => Ok(()),
    }
}

/// Returns the objects that are declared, after others.
fn objects_of(
    alloc: Global,
    types: &NumberedNames,
    mut found: Vec<Object>,
    declared: &[Typed],
) -> Result<Vec<Object>, AllocError>
    ensures { IfOk result (λ v. v.items ≡ found.items ++ lifted_objects types.now declared.now) }
{
    for item in declared {
        let name = item.name.name.copied(alloc)?;
        let of = number_of_type(types, &item.of);
        found.push(Object { name, of })?;
    }
    Ok(found)
}

/// Returns the predicates, or the functions, that are declared.
fn signatures_in(
    alloc: Global,
    types: &NumberedNames,
    declared: &[hd_pddl::Signature],
) -> Result<Sequence<Signature>, AllocError>
    ensures { IfOk result (λ s. s ≡ lifted_signatures types.now declared.now) }
{
    let mut signatures = Vec::new(alloc);
    for item in declared {
        let name = item.name.name.copied(alloc)?;
        let parameters = numbers_of_types(alloc, types, item.parameters.as_slice())?;
        signatures.push(Signature { name, parameters })?;
    }
    Ok(Sequence::from_vec(signatures))
}

/// Returns the constants and the objects that are declared.
fn objects_in(
    alloc: Global,
    types: &NumberedNames,
    domain: &DomainAst,
    problem: &ProblemAst,
) -> Result<Sequence<Object>, AllocError>
    ensures { IfOk result (λ s. s ≡ all_objects types.now domain.now problem.now) }
{
    let constants = objects_of(alloc, types, Vec::new(alloc), domain.constants.as_slice())?;
    let objects = objects_of(alloc, types, constants, problem.objects.as_slice())?;
    Ok(Sequence::from_vec(objects))
}

/// Returns what both texts declare, the types and actions aside.
fn declared_in(
    alloc: Global,
    types: &NumberedNames,
    domain: &DomainAst,
    problem: &ProblemAst,
) -> Result<Declared, AllocError>
    ensures { IfOk result (λ declared. declared ≡ declared_in types.now domain.now problem.now) }
{
    let objects = objects_in(alloc, types, domain, problem)?;
    let predicates = signatures_in(alloc, types, domain.predicates.as_slice())?;
    let functions = signatures_in(alloc, types, domain.functions.as_slice())?;
    Ok(Declared {
        objects,
        predicates,
        functions,
    })
}

/// Returns the lifted task that has these parts.
fn task_by(schemas: Sequence<Schema>, part: ProblemPart, declared: Declared) -> LiftedTask
    ensures { result ≡ task_by schemas part declared }
{
    let ProblemPart { scope, ends } = part;
    let Scope {
        types,
        hierarchy,
        objects,
        predicates,
        functions,
        metric,
    } = scope;
    drop(types);
    drop(objects);
    drop(predicates);
    drop(functions);
    LiftedTask {
        hierarchy,
        objects: declared.objects,
        predicates: declared.predicates,
        functions: declared.functions,
        schemas,
        atoms: ends.initial.atoms,
        values: ends.initial.values,
        goal: ends.goal,
        metric,
    }
}

/// Returns the lifted task of a domain and a problem whose parts stand for these.
#[tactic(auto, unfolding(crate::specs::Whole::task_with))]
fn task_of(
    alloc: Global,
    domain: &DomainAst,
    problem: &ProblemAst,
    parts: CheckedParts,
) -> Result<LiftedTask, AllocError>
    ensures { IfOk result (λ task. task ≡ task_of domain.now problem.now parts) }
{
    match declared_in(alloc, &parts.problem.scope.types, domain, problem) {
        Ok(declared) => Ok(task_by(parts.schemas, parts.problem, declared)),
        Err(error) => {
            drop(parts);
            Err(error)
        }
    }
}

/// Asks that the metric's function is used as it may be.
#[tactic(auto, unfolding(crate::specs::Whole::metric_fault))]
fn check_uses(domain: &DomainAst, problem: &ProblemAst) -> Result<(), CheckError>
    ensures { Checks TellsOf result (metric_fault domain.now problem.now) tt }
{
    let metric = &problem.metric;
    check_use(Source::Domain, misused_in_domain(metric, domain))?;
    check_use(Source::Problem, misused_in_problem(metric, problem))
}

/// Returns the lifted task of these parts, where the metric's function is used as it may be.
fn task_by_uses(
    alloc: Global,
    parts: CheckedParts,
    domain: &DomainAst,
    problem: &ProblemAst,
) -> Result<LiftedTask, CheckError>
    ensures { ChecksUses result parts domain.now problem.now }
{
    match check_uses(domain, problem) {
        Ok(()) => Ok(task_of(alloc, domain, problem, parts)?),
        Err(error) => {
            drop(parts);
            Err(error)
        }
    }
}

/// Returns the lifted task of `domain` and `problem`, if they have no fault. Its six parts are
/// asked in the order of the faults, and each but the first takes over what the one before found.
fn lifted_task(
    alloc: Global,
    seed: Seed,
    domain: &DomainAst,
    problem: &ProblemAst,
) -> Result<LiftedTask, CheckError>
    ensures { Answers domain.now problem.now result }
{
    check_domain_name(domain, problem)?;
    let types = types_part(alloc, seed, domain.types.as_slice())?;
    let scope = scope_part(alloc, types, domain, &problem.metric)?;
    let first = domain_in(alloc, scope, domain)?;
    let parts = parts_in(alloc, first, problem)?;
    task_by_uses(alloc, parts, domain, problem)
}

/// Checks a domain and a problem: their names, types and metric. Its tables hash by the seed, which
/// changes no answer.
///
/// # Errors
///
/// - The first fault, in the order of the texts: that the problem names another domain, then the
///   types, constants, predicates, functions and actions of the domain, then the objects, initial
///   state, goal and metric of the problem. Of types on cycles any may be told by the contract;
///   that it is the first listed is tested.
/// - `NoMemory`: memory runs out.
pub fn check(
    alloc: Global,
    seed: Seed,
    domain: DomainAst,
    problem: ProblemAst,
) -> Result<Checked, CheckError>
    ensures { Answers domain problem result }
{
    let answer = lifted_task(alloc, seed, &domain, &problem);
    drop(domain);
    drop(problem);
    match answer {
        Ok(task) => Ok(Checked::new(task)),
        Err(error) => Err(error),
    }
}
