//! Conditions.
ghost use Rattle.hd_check.specs.Lifting.{Lifts};
ghost use Rattle.hd_check.specs.Conditions.{comparison_fault, condition_fault, lifted_comparison, lifted_condition};
ghost use Rattle.hd_check.specs.Conditions.{LiftsLiteral, LiftsEquality, GathersLiterals, GathersEqualities, GathersComparisons};

use crate::context::Context;
use crate::expressions::resolve_expression;
use crate::fault::CheckStop;
use crate::terms::{resolve_applied, term_of};
use hd_base::Sequence;
use hd_lifted::{Comparison, Condition, Equality, Literal};
use hd_terms::{Atom, Term};
use std::alloc::Global;

/// Returns the literal that `atom` is true, or, if not `positive`, that it is false.
fn literal_of(
    alloc: Global,
    context: Context<'_>,
    positive: bool,
    atom: &Atom,
) -> Result<Literal, CheckStop>
    ensures { LiftsLiteral result context.entry positive atom.now }
{
    let atom = resolve_applied(alloc, &context.scope.predicates, context, atom)?;
    Ok(Literal { atom, positive })
}

/// Returns the condition that `left` and `right` are one object, or, if not `positive`, are not.
fn equality_of(
    alloc: Global,
    context: Context<'_>,
    positive: bool,
    left: &Term,
    right: &Term,
) -> Result<Equality, CheckStop>
    ensures { LiftsEquality result context.entry positive left.now right.now }
{
    let left = term_of(alloc, context, left)?;
    let right = term_of(alloc, context, right)?;
    Ok(Equality {
        left,
        right,
        positive,
    })
}

/// Returns what a comparison of numbers stands for.
fn comparison_of(
    alloc: Global,
    context: Context<'_>,
    said: &hd_terms::Comparison,
) -> Result<Comparison, CheckStop>
    ensures { Lifts result comparison_fault lifted_comparison context.entry said.now }
{
    let left = resolve_expression(alloc, context, &said.left)?;
    let right = resolve_expression(alloc, context, said.right.get())?;
    Ok(Comparison {
        relation: said.relation,
        left,
        right,
    })
}

/// What was found of a condition, by its kinds.
#[derive(Drop)]
struct FoundConditions {
    literals: Vec<Literal>,
    equalities: Vec<Equality>,
    comparisons: Vec<Comparison>,
}

impl FoundConditions {
    /// Adds what a part stands for.
    fn add(
        &mut self,
        alloc: Global,
        context: Context<'_>,
        part: &hd_terms::Condition,
    ) -> Result<(), CheckStop>
        ensures literals { GathersLiterals result self.old self.new context.entry part.now }
        ensures equalities { GathersEqualities result self.old self.new context.entry part.now }
        ensures comparisons { GathersComparisons result self.old self.new context.entry part.now }
    {
        match part {
            hd_terms::Condition::Atom(atom) => {
                self.literals.push(literal_of(alloc, context, true, atom)?)?;
            }
            hd_terms::Condition::NotAtom(atom) => {
                self.literals
                    .push(literal_of(alloc, context, false, atom)?)?;
            }
            hd_terms::Condition::Equal(left, right) => {
                self.equalities.push(equality_of(alloc, context, true, left.get(), right.get())?)?;
            }
            hd_terms::Condition::NotEqual(left, right) => {
                self.equalities.push(equality_of(alloc, context, false, left.get(), right.get())?)?;
            }
            hd_terms::Condition::Compare(comparison) => {
                self.comparisons
                    .push(comparison_of(alloc, context, comparison)?)?;
            }
        }
        Ok(())
    }
}

/// Returns what a condition stands for.
pub fn condition_of(
    alloc: Global,
    context: Context<'_>,
    parts: &[hd_terms::Condition],
) -> Result<Condition, CheckStop>
    ensures { Lifts result condition_fault lifted_condition context.entry parts.now }
{
    let mut found = FoundConditions {
        literals: Vec::new(alloc),
        equalities: Vec::new(alloc),
        comparisons: Vec::new(alloc),
    };
    let mut rest = parts;
    while let [part, after @ ..] = rest {
        found.add(alloc, context, part)?;
        rest = after;
    }
    Ok(Condition {
        literals: Sequence::from_vec(found.literals),
        equalities: Sequence::from_vec(found.equalities),
        comparisons: Sequence::from_vec(found.comparisons),
    })
}
