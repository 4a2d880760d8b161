//! What texts say, each list in the text's order. A place is that of a first byte in the text,
//! counted from 0.

use hd_base::{Boxed, Sequence};
use hd_forms::NameAt;
use hd_terms::{Atom, Condition, Effect, Typed};

/// A predicate or a function that is declared. Its parameters are variables, without their `?`.
#[derive(Debug, Drop)]
pub struct Signature {
    pub name: NameAt,
    pub parameters: Sequence<Typed>,
}

/// An action. Its condition and its effect are all of their parts, with each `and` opened.
#[derive(Debug, Drop)]
pub struct Action {
    pub name: NameAt,
    pub parameters: Sequence<Typed>,
    pub precondition: Sequence<Condition>,
    pub effect: Sequence<Effect>,
}

/// What the text of a domain says.
#[derive(Debug, Drop)]
pub struct DomainAst {
    pub name: NameAt,
    pub types: Sequence<Typed>,
    pub constants: Sequence<Typed>,
    pub predicates: Sequence<Signature>,
    pub functions: Sequence<Signature>,
    pub actions: Sequence<Action>,
}

/// The value that a fluent has at first.
#[derive(Debug, Drop)]
pub struct InitialValue {
    /// In memory of its own: most facts are atoms, and a list of facts is as wide as its widest
    /// item.
    pub fluent: Boxed<Atom>,
    pub value: i64,
    /// The place of the number.
    pub at: usize,
}

/// What holds at first.
#[derive(Debug, Drop)]
pub enum Init {
    Atom(Atom),
    /// `not` and an atom.
    NotAtom(Atom),
    Value(InitialValue),
}

/// What the text of a problem says. The goal is all of its parts, as a condition is.
#[derive(Debug, Drop)]
pub struct ProblemAst {
    pub name: NameAt,
    /// The name of the domain that the problem belongs to.
    pub domain: NameAt,
    pub objects: Sequence<Typed>,
    pub init: Sequence<Init>,
    pub goal: Sequence<Condition>,
    /// The function, without parameters, whose value at the end is to be least.
    pub metric: Option<NameAt>,
}
