//! Numeric expressions.
ghost use Rattle.hd_check.specs.Lifting.{Lifts};
ghost use Rattle.hd_check.specs.Terms.{expression_fault, lifted_expression};

use crate::context::Context;
use crate::fault::CheckStop;
use crate::terms::resolve_applied;
use hd_lifted::{Boxed, Expr, Operand};
use hd_terms::{ExprParts, Leaf};
use std::alloc::Global;

/// Resolves the names of an expression.
pub fn resolve_expression(
    alloc: Global,
    context: Context<'_>,
    said: &hd_terms::Expr,
) -> Result<Expr, CheckStop>
    ensures { Lifts result expression_fault lifted_expression context.entry said.now }
{
    match said.parts() {
        ExprParts::Leaf(Leaf::Number(_, value)) => Ok(Expr::leaf(Operand::Number(*value))),
        ExprParts::Leaf(Leaf::Fluent(atom)) => {
            let fluent = resolve_applied(alloc, &context.scope.functions, context, atom.get())?;
            Ok(Expr::leaf(Operand::Fluent(Boxed::of(alloc, fluent)?)))
        }
        ExprParts::Negate(inner) => {
            let inner = resolve_expression(alloc, context, inner)?;
            Ok(Expr::negate(alloc, inner)?)
        }
        ExprParts::Binary(operation, left, right) => {
            let left = resolve_expression(alloc, context, left)?;
            match resolve_expression(alloc, context, right) {
                Ok(right) => Ok(Expr::binary(alloc, operation, left, right)?),
                Err(stop) => {
                    drop(left);
                    Err(stop)
                }
            }
        }
    }
}
