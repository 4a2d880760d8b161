//! How expressions are read.

ghost use Rattle.std.specs.Prelude.{◌≡◌, ◌<◌, ◌≤◌, ◌==◌, ℕ, List, length, false, IfOk, IfErr};
ghost use Rattle.hd_forms.specs.Forms.{Forms, append, size};
ghost use Rattle.hd_base.specs.Expression.{Expression};
ghost use Rattle.hd_base.specs.Answers.{Gives, Leaves};
ghost use Rattle.hd_forms.specs.Reading.{Refuses};
ghost use Rattle.hd_forms.specs.View.{form_view, forms_view};
ghost use Rattle.hd_terms.specs.Reading.{is_arithmetic, one_in, pair_in, minus_by, operation_by, exprs_after, expr_in, expression_of, pair_of};
ghost use Rattle.hd_terms.specs.declared.tree.Leaf.{Leaf};
ghost use Rattle.hd_terms.specs.Steps.{expression_by, size_in_shape, goes_on_with};

use crate::atoms::atom_of;
use crate::tree::{Expr, Leaf};
use hd_base::{Boxed, Operation};
use hd_forms::{Form, FormWord, ReadError, TextPlace, first_refusal, form_refusal};
use hd_lex::Operator;
use std::alloc::Global;

/// What one expression is: one whose parts are read, or an operator and its operands, which end at
/// a place.
#[derive(Drop)]
enum Shape<'a> {
    Known(Expr),
    Operation(Operator, &'a [Form], usize),
}

/// Reports whether an expression may begin with the operator.
fn is_arithmetic(operator: Operator) -> bool
    ensures { result ≡ is_arithmetic operator }
{
    match operator {
        Operator::Plus => true,
        Operator::Minus => true,
        Operator::Times => true,
        _ => false,
    }
}

/// Returns what stands in an expression in parentheses, which ends at the place `to`.
#[tactic(auto, unfolding(crate::specs::Reading::exprs_after))]
fn inner_shape(alloc: Global, inside: &[Form], to: usize) -> Result<Shape<'_>, ReadError>
    ensures shape { IfOk result (λ s. expr_in (forms_view inside.now) ≡ expression_by s) }
    ensures smaller { IfOk result (λ s. size_in_shape s ≤ size (forms_view inside.now)) }
    ensures refused { IfErr result (λ e. Refuses e (expr_in (forms_view inside.now))) }
{
    match inside {
        [
            Form::Word {
                word: FormWord::Operator(operator),
                ..
            },
            rest @ ..,
        ] => {
            if is_arithmetic(*operator) {
                Ok(Shape::Operation(*operator, rest, to))
            } else {
                Err(first_refusal(alloc, inside, to))
            }
        }
        _ => {
            let fluent = Boxed::of(alloc, atom_of(alloc, inside, to)?)?;
            Ok(Shape::Known(Expr::leaf(Leaf::Fluent(fluent))))
        }
    }
}

/// Returns what one expression is.
#[tactic(auto, unfolding(crate::specs::Reading::exprs_after))]
fn shape_of(alloc: Global, form: &Form) -> Result<Shape<'_>, ReadError>
    ensures shape { IfOk result (λ s. (most : ℕ) (rest : Forms) (found : List (Expression Leaf))
        → (length found == most) ≡ false
        → exprs_after most (append (form_view form.now) rest) found
        ≡ goes_on_with (expression_by s) most rest found) }
    ensures smaller { IfOk result (λ s. size_in_shape s < size (form_view form.now)) }
    ensures refused { IfErr result (λ e. (most : ℕ) (rest : Forms) (found : List (Expression Leaf))
        → (length found == most) ≡ false
        → Refuses e (exprs_after most (append (form_view form.now) rest) found)) }
{
    match form {
        Form::Word { at, word } => match word {
            FormWord::Number(value) => {
                let at = TextPlace::of(*at)?;
                Ok(Shape::Known(Expr::leaf(Leaf::Number(at, *value))))
            }
            _ => Err(form_refusal(alloc, form)),
        },
        Form::List { inside, to, .. } => inner_shape(alloc, inside, to.get()),
    }
}

/// Returns the only one of these expressions. More than one are never given. The place `end` is
/// that after them.
fn only_one(expressions: Vec<Expr>, end: usize) -> Result<Expr, ReadError>
    ensures { Gives Refuses (λ x. x) result (one_in expressions.items) }
{
    let mut expressions = expressions;
    let Some(last) = expressions.pop() else {
        return Err(ReadError::Unexpected(end));
    };
    if expressions.is_empty() {
        Ok(last)
    } else {
        Err(ReadError::Unexpected(end))
    }
}

/// Returns the two expressions that these are. More than two are never given. The place `end` is
/// that after them.
fn only_two(expressions: Vec<Expr>, end: usize) -> Result<(Expr, Expr), ReadError>
    ensures { Gives Refuses (λ x. x) result (pair_in expressions.items) }
{
    let mut expressions = expressions;
    let Some(right) = expressions.pop() else {
        return Err(ReadError::Unexpected(end));
    };
    let Some(left) = expressions.pop() else {
        return Err(ReadError::Unexpected(end));
    };
    if expressions.is_empty() {
        Ok((left, right))
    } else {
        Err(ReadError::Unexpected(end))
    }
}

/// Returns what `-` makes of its operands, which end at the place `end`.
fn minus_of(alloc: Global, operands: Vec<Expr>, end: usize) -> Result<Expr, ReadError>
    ensures { Gives Refuses (λ x. x) result (minus_by operands.items) }
{
    if operands.len() == 1 {
        let operand = only_one(operands, end)?;
        Ok(Expr::negate(alloc, operand)?)
    } else {
        let (left, right) = only_two(operands, end)?;
        Ok(Expr::binary(alloc, Operation::Subtract, left, right)?)
    }
}

/// Returns what the operator makes of its operands, which end at the place `end`.
fn operation_of(
    alloc: Global,
    operator: Operator,
    operands: Vec<Expr>,
    end: usize,
) -> Result<Expr, ReadError>
    ensures { Gives Refuses (λ x. x) result (operation_by operator operands.items) }
{
    match operator {
        Operator::Plus => {
            let (left, right) = only_two(operands, end)?;
            Ok(Expr::binary(alloc, Operation::Add, left, right)?)
        }
        Operator::Minus => minus_of(alloc, operands, end),
        Operator::Times => {
            let (left, right) = only_two(operands, end)?;
            Ok(Expr::binary(alloc, Operation::Multiply, left, right)?)
        }
        _ => Err(ReadError::Unexpected(end)),
    }
}

/// Adds these expressions, one after the other, to others, until there are so many. A form after
/// them is refused.
#[tactic(auto, unfolding(crate::specs::Reading::exprs_after))]
fn add_expressions(
    alloc: Global,
    most: usize,
    forms: &[Form],
    found: &mut Vec<Expr>,
) -> Result<(), ReadError>
    ensures { Leaves Refuses result found.new.items
        (exprs_after most (forms_view forms.now) found.old.items) }
{
    let mut rest = forms;
    while let Some((first, after)) = rest.split_first() {
        if found.len() == most {
            return Err(form_refusal(alloc, first));
        }
        match shape_of(alloc, first)? {
            Shape::Known(expression) => found.push(expression)?,
            Shape::Operation(operator, inside, to) => {
                let mut operands = Vec::new(alloc);
                add_expressions(alloc, 2, inside, &mut operands)?;
                found.push(operation_of(alloc, operator, operands, to)?)?;
            }
        }
        rest = after;
    }
    Ok(())
}

/// Returns the expression that these forms are, alone. The place `end` is that after the forms.
#[tactic(auto, unfolding(crate::specs::Reading::expression_of))]
pub fn expression_of(alloc: Global, forms: &[Form], end: usize) -> Result<Expr, ReadError>
    ensures { Gives Refuses (λ x. x) result (expression_of (forms_view forms.now)) }
{
    let mut found = Vec::new(alloc);
    add_expressions(alloc, 1, forms, &mut found)?;
    only_one(found, end)
}

/// Returns the two expressions that these forms are. The place `end` is that after the forms.
#[tactic(auto, unfolding(crate::specs::Reading::pair_of))]
pub fn pair_of(alloc: Global, forms: &[Form], end: usize) -> Result<(Expr, Expr), ReadError>
    ensures { Gives Refuses (λ x. x) result (pair_of (forms_view forms.now)) }
{
    let mut found = Vec::new(alloc);
    add_expressions(alloc, 2, forms, &mut found)?;
    only_two(found, end)
}
