//! What the parts of domains and problems say. A place is that of a first byte in the text, counted
//! from 0.
//!
//! Most conditions and effects are atoms, and a list of them is as wide as its widest part: so what
//! is wider than an atom has memory of its own.

use crate::{Terms, TypeName};
use hd_base::{Boxed, Relation};
use hd_forms::{ChangeWord, NameAt, TextPlace};

/// A declared name, and the name of its type if one is given: without one the type is `object`.
#[derive(Debug, Drop)]
pub struct Typed {
    pub name: NameAt,
    pub of: Option<TypeName>,
}

/// What stands for an object.
#[derive(Debug, PartialEq, Eq, Drop)]
pub enum Term {
    Name(NameAt),
    /// A variable, without its `?`. The place is that of the `?`.
    Variable(NameAt),
}

/// A predicate or a function with its terms.
#[derive(Debug, PartialEq, Eq, Drop)]
pub struct Atom {
    pub name: NameAt,
    /// Mostly few, and often none: in two words.
    pub terms: Terms,
}

/// What stands at the leaves of an expression. Each operation has memory of its own for its
/// operands, which are as wide as the widest leaf: so a leaf is two words.
#[derive(Debug, Drop)]
pub enum Leaf {
    /// The place of a number's first byte, and the number.
    Number(TextPlace, i64),
    /// The value of a fluent.
    Fluent(Boxed<Atom>),
}

/// A numeric expression (PDDL 2.1).
pub type Expr = hd_base::Expr<Leaf>;

/// A comparison of two numbers.
#[derive(Debug, Drop)]
pub struct Comparison {
    pub relation: Relation,
    pub left: Expr,
    /// In memory of its own, so that a comparison is no wider than an atom.
    pub right: Boxed<Expr>,
}

/// A part of a condition, which is a list of them in the text's order, with each `and` opened.
#[derive(Debug, Drop)]
pub enum Condition {
    Atom(Atom),
    /// `not` and an atom.
    NotAtom(Atom),
    /// That both terms are the same object.
    Equal(Boxed<Term>, Boxed<Term>),
    /// `not` and an equality of objects.
    NotEqual(Boxed<Term>, Boxed<Term>),
    Compare(Comparison),
}

/// A change of a fluent by an amount.
#[derive(Debug, Drop)]
pub struct FluentChange {
    pub change: ChangeWord,
    pub fluent: Atom,
    pub amount: Expr,
    /// The place of the amount's first token.
    pub at: usize,
}

/// A part of an effect, which is a list of them in the text's order, with each `and` opened.
#[derive(Debug, Drop)]
pub enum Effect {
    Add(Atom),
    /// `not` and an atom.
    Delete(Atom),
    Change(Boxed<FluentChange>),
}
