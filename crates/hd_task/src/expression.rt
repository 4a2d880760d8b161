//! Expressions over the fluents of a task.
ghost use Rattle.std.specs.Prelude.{◌≡◌, true, IfSome};
ghost use Rattle.hd_base.specs.Numbers.{in_range};
ghost use Rattle.hd_task.specs.Expressions.{leaf_value};
ghost use Rattle.hd_task.specs.Judging.{JudgesValue};

use crate::Reads;
use hd_base::{ExprParts, Operand, if_in_range};

/// A numeric expression over the fluents of a task, which it names by their numbers.
pub type Expr = hd_base::Expr<Operand<u32>>;

/// Returns the value of a number or a fluent.
fn leaf_value<R: Reads>(state: &R, leaf: Operand<u32>) -> i64
    ensures { result ≡ leaf_value (R.seen state.now).fluents leaf }
{
    match leaf {
        Operand::Number(value) => value,
        Operand::Fluent(fluent) => state.fluent_of(fluent),
    }
}

/// Returns the value of an expression of any depth, unless a subexpression leaves the range.
fn tree_value<R: Reads>(state: &R, expr: &Expr) -> Option<i64>
    ensures value { JudgesValue (R.seen state.now).fluents expr.now result }
    ensures in_range { IfSome result (λ v. in_range v ≡ true) }
{
    match expr.parts() {
        ExprParts::Leaf(leaf) => if_in_range(Some(leaf_value(state, *leaf))),
        ExprParts::Negate(inner) => if_in_range(tree_value(state, inner)?.checked_neg()),
        ExprParts::Binary(operation, left, right) => {
            let x = tree_value(state, left)?;
            let y = tree_value(state, right)?;
            operation.result_in_range(x, y)
        }
    }
}

/// Returns the value of an expression, unless a subexpression leaves the range.
// Most expressions are a number or a fluent: inlined, these are read without a call.
#[inline(always)]
pub(crate) fn value_of<R: Reads>(state: &R, expr: &Expr) -> Option<i64>
    ensures value { JudgesValue (R.seen state.now).fluents expr.now result }
    ensures in_range { IfSome result (λ v. in_range v ≡ true) }
{
    match expr.parts() {
        ExprParts::Leaf(leaf) => if_in_range(Some(leaf_value(state, *leaf))),
        ExprParts::Negate(_) => tree_value(state, expr),
        ExprParts::Binary(_, _, _) => tree_value(state, expr),
    }
}
