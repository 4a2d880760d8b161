//! Reads the parts of domains and problems: typed names, atoms, expressions, conditions, effects.
//!
//! [`typed_of`], [`atom_of`], [`condition_at`] and [`effect_at`] return exactly the tree that their
//! rule gives of nested forms. They refuse only if the rule gives none, or if memory runs out. The
//! language is PDDL 2.1, level 2, without disjunctions, quantifiers, conditional effects and
//! division.
//!
//! The readers descend recursively, and open each `and` into one flat list of parts. Parts wider
//! than an atom are boxed, so that such a list stays small. An atom has its terms in two machine
//! words ([`Terms`]), and listed items share the name of their type ([`TypeName`]). Start reading
//! at [`condition_at`], then `specs/Conditions`.
#![tactic(auto)]

mod atoms;
mod conditions;
mod effects;
mod expressions;
mod negations;
mod terms;
mod tree;
mod type_name;
mod typed;

pub use atoms::atom_of;
pub use conditions::{condition_at, is_equal};
pub use effects::effect_at;
pub use hd_base::{ExprParts, Operation, Relation};
pub use negations::negated_atom_of;
pub use terms::Terms;
pub use tree::{Atom, Comparison, Condition, Effect, Expr, FluentChange, Leaf, Term, Typed};
pub use type_name::TypeName;
pub use typed::{ItemKind, is_minus_term, typed_of};
