//! Terms, atoms and fluents.
ghost use Rattle.std.specs.Prelude.{◌≡◌, Some, length};
ghost use Rattle.hd_check.specs.Fault.{StopsAt};
ghost use Rattle.hd_check.specs.Lifting.{Lifts, within};
ghost use Rattle.hd_check.specs.Terms.{lifted_term, term_fault, type_at, wrong_type, parameters_at, LiftsArgument, LiftsArguments, LiftsApplied};
ghost use Rattle.hd_check.specs.declared.fault.CheckFault.TheVariants.{WrongArity};

use crate::context::Context;
use crate::fault::{CheckFault, CheckStop};
use hd_base::Sequence;
use hd_forms::NameAt;
use hd_lifted::{AppliedSymbol, Argument};
use hd_names::{Table, known, spelled};
use hd_terms::{Atom, ItemKind, Term};
use std::alloc::Global;

/// Returns what a term stands for.
#[tactic(auto, using(crate::proofs::Telling::stops_part))]
pub fn term_of(alloc: Global, context: Context<'_>, term: &Term) -> Result<Argument, CheckStop>
    ensures { Lifts result term_fault lifted_term context.entry term.now }
{
    match term {
        Term::Name(name) => {
            let number = known(alloc, ItemKind::Name, &context.scope.objects.names, name)?;
            Ok(Argument::Object(number))
        }
        Term::Variable(name) => {
            let place = known(alloc, ItemKind::Variable, &context.parameters.names, name)?;
            Ok(Argument::Parameter(place))
        }
    }
}

/// Returns the declared type of an object or a parameter.
fn type_at(context: Context<'_>, argument: Argument) -> usize
    ensures { result ≡ within context.entry type_at argument }
{
    match argument {
        Argument::Object(number) => {
            let types = context.scope.objects.items.as_slice();
            types.get(number).copied().unwrap_or(0)
        }
        Argument::Parameter(place) => {
            let types = context.parameters.items.as_slice();
            types.get(place).copied().unwrap_or(0)
        }
    }
}

/// Reports that a term's type is none of those that are wanted.
fn wrong_type(alloc: Global, term: &Term) -> CheckStop
    ensures { StopsAt result (Some (wrong_type term.now)) }
{
    let (kind, name) = match term {
        Term::Name(name) => (ItemKind::Name, name),
        Term::Variable(name) => (ItemKind::Variable, name),
    };
    match spelled(alloc, kind, &name.name) {
        Ok(spelling) => CheckStop::At(CheckFault::WrongType(spelling, name.at)),
        Err(_) => CheckStop::NoMemory,
    }
}

/// Returns what an argument for a parameter of this type stands for.
fn argument_of(
    alloc: Global,
    context: Context<'_>,
    term: &Term,
    wanted: usize,
) -> Result<Argument, CheckStop>
    ensures { LiftsArgument result context.entry term.now wanted }
{
    let argument = term_of(alloc, context, term)?;
    let declared = type_at(context, argument);
    if context.scope.hierarchy.is_subtype(declared, wanted) {
        Ok(argument)
    } else {
        Err(wrong_type(alloc, term))
    }
}

/// Returns what arguments for parameters of these types stand for.
fn arguments_of(
    alloc: Global,
    context: Context<'_>,
    terms: &[Term],
    wanted: &[usize],
) -> Result<Sequence<Argument>, CheckStop>
    requires { length terms.now ≡ length wanted.now }
    ensures { LiftsArguments result context.entry terms.now wanted.now }
{
    let mut arguments = Vec::with_capacity(alloc, terms.len())?;
    let mut rest = terms;
    let mut types = wanted;
    while let ([term, after @ ..], [first, others @ ..]) = (rest, types) {
        let argument = argument_of(alloc, context, term, *first)?;
        arguments.push(argument)?;
        rest = after;
        types = others;
    }
    Ok(Sequence::from_vec(arguments))
}

/// Returns the types of the parameters of the predicate, or the function, of this number.
pub fn parameters_at(symbols: &Table<Sequence<usize>>, number: usize) -> &[usize]
    ensures { result.now ≡ parameters_at symbols.now number }
{
    match symbols.items.as_slice().get(number) {
        Some(types) => types.as_slice(),
        None => &[],
    }
}

/// Reports that an atom has more or fewer arguments than its name has parameters.
pub fn wrong_arity(alloc: Global, name: &NameAt) -> CheckStop
    ensures { StopsAt result (Some (WrongArity name.now.name name.now.at)) }
{
    match spelled(alloc, ItemKind::Name, &name.name) {
        Ok(spelling) => CheckStop::At(CheckFault::WrongArity(spelling, name.at)),
        Err(_) => CheckStop::NoMemory,
    }
}

/// Resolves the names of an atom by the predicates, or of a fluent by the functions.
#[tactic(auto, using(crate::proofs::Telling::stops_first))]
pub fn resolve_applied(
    alloc: Global,
    symbols: &Table<Sequence<usize>>,
    context: Context<'_>,
    atom: &Atom,
) -> Result<AppliedSymbol, CheckStop>
    ensures { LiftsApplied result symbols.now context.entry atom.now }
{
    let symbol = known(alloc, ItemKind::Name, &symbols.names, &atom.name)?;
    let types = parameters_at(symbols, symbol);
    if atom.terms.len() != types.len() {
        return Err(wrong_arity(alloc, &atom.name));
    }
    let terms = atom.terms.as_slice();
    let arguments = arguments_of(alloc, context, terms, types)?;
    Ok(AppliedSymbol { symbol, arguments })
}
