//! Numeric expressions.
ghost use Rattle.std.specs.Prelude.{◌≡◌, IfOk};
ghost use Rattle.hd_grounding.specs.Images.{operand_of, expression_of};

use crate::NumberedForms;
use hd_base::{ExprParts, NoMemory, Operand};
use hd_lifted::Leaf;
use hd_task::Expr;
use std::alloc::Global;

/// Returns a number, or a fluent by its number.
fn operand_of(
    alloc: Global,
    fluents: &NumberedForms,
    objects: &[usize],
    said: &Leaf,
) -> Result<Operand<u32>, NoMemory>
    ensures { IfOk result (λ o. o ≡ operand_of fluents.now objects.now said.now) }
{
    match said {
        Operand::Number(value) => Ok(Operand::Number(*value)),
        Operand::Fluent(fluent) => {
            let number = fluents.number_at(alloc, objects, fluent.get())?;
            Ok(Operand::Fluent(number.unwrap_or(0)))
        }
    }
}

/// Returns an expression, each fluent by its number: one without a number is read as the first.
///
/// # Errors
/// - Lack of memory.
pub fn expression_of(
    alloc: Global,
    fluents: &NumberedForms,
    objects: &[usize],
    said: &hd_lifted::Expr,
) -> Result<Expr, NoMemory>
    ensures { IfOk result (λ e. e ≡ expression_of fluents.now objects.now said.now) }
{
    match said.parts() {
        ExprParts::Leaf(leaf) => Ok(Expr::leaf(operand_of(alloc, fluents, objects, leaf)?)),
        ExprParts::Negate(inner) => {
            let inner = expression_of(alloc, fluents, objects, inner)?;
            Ok(Expr::negate(alloc, inner)?)
        }
        ExprParts::Binary(operation, left, right) => {
            let left = expression_of(alloc, fluents, objects, left)?;
            match expression_of(alloc, fluents, objects, right) {
                Ok(right) => Ok(Expr::binary(alloc, operation, left, right)?),
                Err(error) => {
                    drop(left);
                    Err(error)
                }
            }
        }
    }
}
