//! Numeric expressions, as trees.
ghost use Rattle.std.specs.Prelude.{◌≡◌, IfOk};
ghost use Rattle.hd_base.specs.Expression.{leaf, negate, binary};
ghost use Rattle.hd_base.specs.ExprParts.{expr_by};

use crate::operation::Operation;
use std::alloc::{AllocError, Global};
use std::marker::Model;

/// A number, or the value of a fluent: what an expression of a lifted task, or of one to search,
/// has at its leaves.
#[derive(Clone, Copy, Debug, PartialEq, Eq, Drop)]
pub enum Operand<F> {
    Number(i64),
    /// The value of a fluent.
    Fluent(F),
}

/// A numeric expression (PDDL 2.1) over leaves of any type, which contracts see as a plain tree,
/// without the addresses of its boxes.
///
/// It is made by the functions below and read by `parts`.
#[cycle(expression)]
#[derive(Debug, Drop)]
pub struct Expr<L> {
    node: ExprNode<L>,
}

#[cycle(expression)]
#[derive(Debug, Drop)]
enum ExprNode<L> {
    Leaf(L),
    Negate(Box<Expr<L>>),
    Binary(Operation, Box<Expr<L>>, Box<Expr<L>>),
}

impl<L> Model for Expr<L> {
    ghost use Rattle.hd_base.specs.Expression.{Expression, depth};

    ghost Value = { Expression L };

    ghost use Rattle.hd_base.specs.Code.{expression_code};

    ghost coded = { expression_code L.code };

    ghost use Rattle.hd_base.specs.Node.{expression_of};

    ghost view = { λ e. expression_of e.node };

    ghost size = { depth };

    ghost use Rattle.hd_base.specs.Depth.{deep-expression};

    ghost size_decreases = { λ e _. deep-expression e.node };
}

/// The parts of an expression.
#[derive(Clone, Copy)]
pub enum ExprParts<'a, L> {
    Leaf(&'a L),
    /// Another expression with its sign turned.
    Negate(&'a Expr<L>),
    Binary(Operation, &'a Expr<L>, &'a Expr<L>),
}

impl<L: Drop> Expr<L> {
    /// Returns a leaf.
    pub fn leaf(of: L) -> Expr<L>
        ensures { result ≡ leaf of }
    {
        Expr {
            node: ExprNode::Leaf(of),
        }
    }

    /// Returns an expression with its sign turned. It fails only if memory runs out.
    pub fn negate(alloc: Global, expr: Expr<L>) -> Result<Expr<L>, AllocError>
        ensures { IfOk result (λ e. e ≡ negate expr) }
    {
        let inner = Box::new(alloc, expr)?;
        Ok(Expr {
            node: ExprNode::Negate(inner),
        })
    }

    /// Returns what an operation makes of two expressions. It fails only if memory runs out.
    pub fn binary(
        alloc: Global,
        operation: Operation,
        left: Expr<L>,
        right: Expr<L>,
    ) -> Result<Expr<L>, AllocError>
        ensures { IfOk result (λ e. e ≡ binary operation left right) }
    {
        let left = Box::new(alloc, left)?;
        let right = Box::new(alloc, right)?;
        Ok(Expr {
            node: ExprNode::Binary(operation, left, right),
        })
    }

    /// Returns what it is, one step deep.
    pub fn parts(&self) -> ExprParts<'_, L>
        ensures { self.now ≡ expr_by result }
    {
        match &self.node {
            ExprNode::Leaf(leaf) => ExprParts::Leaf(leaf),
            ExprNode::Negate(inner) => ExprParts::Negate(inner),
            ExprNode::Binary(operation, left, right) => ExprParts::Binary(*operation, left, right),
        }
    }
}
