//! How conditions are read.

ghost use Rattle.std.specs.Prelude.{◌≡◌, ◌<◌, List, Some, None, MatchOption, IfOk, IfErr};
ghost use Rattle.hd_forms.specs.Forms.{Forms, append, size};
ghost use Rattle.hd_base.specs.Answers.{Gives, Leaves};
ghost use Rattle.hd_forms.specs.Reading.{Refuses};
ghost use Rattle.hd_forms.specs.View.{form_view, forms_view};
ghost use Rattle.hd_terms.specs.Reading.{is_equal, relation_in, terms_of, relation_of, denial_of, negated_condition, part_of_condition, conditions_after, condition_at};
ghost use Rattle.hd_terms.specs.Steps.{conditions_by, conditions_go_on, size_in_condition};
ghost use Rattle.hd_terms.specs.declared.tree.Condition.{Condition};

use crate::atoms::{atom_of, term_at};
use crate::expressions::pair_of;
use crate::negations::{begins_with_term, negation_refusal};
use crate::tree::{Comparison, Condition, Expr, Term};
use hd_base::{Boxed, Relation, Sequence};
use hd_forms::{Form, FormWord, ReadError, end_at, first_refusal, form_refusal, group_at};
use hd_lex::Operator;
use std::alloc::{AllocError, Global};
use std::slice;

/// Reports whether the operator is `=`.
pub fn is_equal(operator: Operator) -> bool
    ensures { result ≡ is_equal operator }
{
    match operator {
        Operator::Equal => true,
        _ => false,
    }
}

/// Returns the relation that the operator stands for, if it stands for one.
fn relation_in(operator: Operator) -> Option<Relation>
    ensures { result ≡ relation_in operator }
{
    match operator {
        Operator::Less => Some(Relation::Less),
        Operator::LessOrEqual => Some(Relation::LessOrEqual),
        Operator::Equal => Some(Relation::Equal),
        Operator::GreaterOrEqual => Some(Relation::GreaterOrEqual),
        Operator::Greater => Some(Relation::Greater),
        _ => None,
    }
}

/// Returns the two terms that these forms are, alone, in a form that ends at the place `to`.
#[tactic(auto, unfolding(crate::specs::Reading::terms_of))]
fn terms_of(alloc: Global, forms: &[Form], to: usize) -> Result<(Term, Term), ReadError>
    ensures { Gives Refuses (λ x. x) result (terms_of (forms_view forms.now)) }
{
    let (left, rest) = term_at(alloc, forms, to)?;
    let (right, rest) = term_at(alloc, rest, to)?;
    end_at(alloc, rest)?;
    Ok((left, right))
}

/// Returns the same two terms, each in memory of its own.
fn boxed_terms_of(
    alloc: Global,
    rest: &[Form],
    to: usize,
) -> Result<(Boxed<Term>, Boxed<Term>), ReadError>
    ensures { Gives Refuses (λ x. x) result (terms_of (forms_view rest.now)) }
{
    let (left, right) = terms_of(alloc, rest, to)?;
    match Boxed::of(alloc, left) {
        Ok(left) => {
            let right = Boxed::of(alloc, right)?;
            Ok((left, right))
        }
        Err(error) => {
            drop(right);
            Err(ReadError::from(error))
        }
    }
}

/// Returns the comparison of these two expressions.
fn comparison_of(
    alloc: Global,
    relation: Relation,
    left: Expr,
    right: Expr,
) -> Result<Comparison, AllocError>
    ensures { IfOk result (λ c. c ≡ record { relation = relation; left = left; right = right }) }
{
    match Boxed::of(alloc, right) {
        Ok(right) => Ok(Comparison {
            relation,
            left,
            right,
        }),
        Err(error) => {
            drop(left);
            Err(error)
        }
    }
}

/// Returns what the operator, the first of the forms `inside`, says of the rest of them, in a form
/// that ends at the place `to`.
#[tactic(auto, unfolding(crate::specs::Reading::relation_of))]
fn relation_of(
    alloc: Global,
    operator: Operator,
    inside: &[Form],
    rest: &[Form],
    to: usize,
) -> Result<Condition, ReadError>
    ensures { Gives Refuses (λ x. x) result (relation_of operator (forms_view rest.now)) }
{
    if is_equal(operator) && begins_with_term(rest) {
        let (left, right) = boxed_terms_of(alloc, rest, to)?;
        return Ok(Condition::Equal(left, right));
    }
    let Some(relation) = relation_in(operator) else {
        return Err(first_refusal(alloc, inside, to));
    };
    let (left, right) = pair_of(alloc, rest, to)?;
    Ok(Condition::Compare(comparison_of(alloc, relation, left, right)?))
}

/// Returns what is denied in a form after the `not` at the place `not`. The form ends at `to`.
#[tactic(auto, unfolding(crate::specs::Reading::denial_of, crate::specs::Reading::atom_of))]
fn denial_of(alloc: Global, not: usize, inside: &[Form], to: usize) -> Result<Condition, ReadError>
    ensures { Gives Refuses (λ x. x) result (denial_of (forms_view inside.now)) }
{
    match inside {
        [Form::Word { word, .. }, rest @ ..] => match word {
            FormWord::Operator(operator) => {
                if is_equal(*operator) && begins_with_term(rest) {
                    let (left, right) = boxed_terms_of(alloc, rest, to)?;
                    Ok(Condition::NotEqual(left, right))
                } else {
                    Err(negation_refusal(alloc, not))
                }
            }
            FormWord::Name(_) => {
                let atom = atom_of(alloc, inside, to)?;
                Ok(Condition::NotAtom(atom))
            }
            _ => Err(negation_refusal(alloc, not)),
        },
        _ => Err(negation_refusal(alloc, not)),
    }
}

/// Returns what is denied after the `not` at the place `not`, in a form that ends at `to`.
#[tactic(auto, unfolding(crate::specs::Reading::negated_condition))]
fn negated_condition(
    alloc: Global,
    not: usize,
    rest: &[Form],
    to: usize,
) -> Result<Condition, ReadError>
    ensures { Gives Refuses (λ x. x) result (negated_condition (forms_view rest.now)) }
{
    let (inside, inside_to, after) = group_at(alloc, rest, to)?;
    let condition = denial_of(alloc, not, inside, inside_to)?;
    end_at(alloc, after)?;
    Ok(condition)
}

/// Returns the part of a condition that stands in a form which ends at the place `to`.
#[tactic(auto, unfolding(crate::specs::Reading::part_of_condition))]
fn part_of_condition(alloc: Global, inside: &[Form], to: usize) -> Result<Condition, ReadError>
    ensures { Gives Refuses (λ x. x) result (part_of_condition (forms_view inside.now)) }
{
    match inside {
        [
            Form::Word {
                at,
                word: FormWord::Not,
            },
            rest @ ..,
        ] => negated_condition(alloc, *at, rest, to),
        [
            Form::Word {
                word: FormWord::Operator(operator),
                ..
            },
            rest @ ..,
        ] => relation_of(alloc, *operator, inside, rest, to),
        _ => Ok(Condition::Atom(atom_of(alloc, inside, to)?)),
    }
}

/// What one condition says: nothing, all of the conditions in it, or a part.
#[derive(Drop)]
enum ConditionPart<'a> {
    Nothing,
    All(&'a [Form]),
    One(Condition),
}

/// Returns what one condition says.
#[tactic(auto, unfolding(crate::specs::Reading::conditions_after))]
fn part_of(alloc: Global, form: &Form) -> Result<ConditionPart<'_>, ReadError>
    ensures part { IfOk result (λ p. (rest : Forms) (found : List Condition)
        → conditions_after (append (form_view form.now) rest) found
        ≡ conditions_go_on (conditions_by p found) rest) }
    ensures smaller { IfOk result (λ p. size_in_condition p < size (form_view form.now)) }
    ensures refused { IfErr result (λ e. (rest : Forms) (found : List Condition)
        → Refuses e (conditions_after (append (form_view form.now) rest) found)) }
{
    let Form::List { inside, to, .. } = form else {
        return Err(form_refusal(alloc, form));
    };
    match inside.as_slice() {
        [] => Ok(ConditionPart::Nothing),
        [
            Form::Word {
                word: FormWord::And,
                ..
            },
            rest @ ..,
        ] => Ok(ConditionPart::All(rest)),
        _ => Ok(ConditionPart::One(part_of_condition(alloc, inside, to.get())?)),
    }
}

/// Adds the parts of these conditions, one after the other.
#[tactic(auto, unfolding(crate::specs::Reading::conditions_after))]
fn add_conditions(
    alloc: Global,
    forms: &[Form],
    found: &mut Vec<Condition>,
) -> Result<(), ReadError>
    ensures { Leaves Refuses result found.new.items
        (conditions_after (forms_view forms.now) found.old.items) }
{
    let mut rest = forms;
    while let Some((first, after)) = rest.split_first() {
        match part_of(alloc, first)? {
            ConditionPart::Nothing => {}
            ConditionPart::All(inside) => add_conditions(alloc, inside, found)?,
            ConditionPart::One(condition) => found.push(condition)?,
        }
        rest = after;
    }
    Ok(())
}

/// Returns the parts of the first form, a condition, and what follows it. The place `end` is that
/// after the forms.
#[tactic(auto, unfolding(crate::specs::Reading::condition_at))]
pub fn condition_at(
    alloc: Global,
    forms: &[Form],
    end: usize,
) -> Result<(Sequence<Condition>, &[Form]), ReadError>
    ensures { Gives Refuses (λ x. (x.0, forms_view x.1.now)) result
        (condition_at (forms_view forms.now)) }
{
    match forms {
        [form @ Form::List { .. }, rest @ ..] => {
            let mut found = Vec::new(alloc);
            add_conditions(alloc, slice::from_ref(form), &mut found)?;
            Ok((Sequence::from_vec(found), rest))
        }
        _ => Err(first_refusal(alloc, forms, end)),
    }
}
