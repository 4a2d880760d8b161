//! Reads tasks in PDDL: a domain and a problem, each from a text of its own.
//!
//! [`read_domain`] and [`read_problem`] return a tree exactly if the text is in the grammar, memory
//! aside, and then exactly that tree. No text has two trees ([`each_text_says_one_domain`]).
//! Otherwise they report the first bad word, else the first error of the parentheses, else that the
//! text is outside of the grammar.
//!
//! hd_lex cuts tokens, hd_forms nests them, and hd_terms reads conditions and effects. The sections
//! are read here, each from the left in a fixed order. The language is PDDL 2.1, level 2, with
//! whole numbers and without quantifiers, disjunctions, conditional effects and division. Start
//! reading at [`read_domain`], then `specs/Domain`.
#![tactic(auto)]

mod actions;
mod definition;
mod domain;
mod law;
mod problem;
mod sections;
mod tree;

pub use domain::read_domain;
pub use hd_forms::{ChangeWord, NameAt, ReadError};
pub use hd_lex::LexError;
pub use hd_terms::{
    Atom, Comparison, Condition, Effect, Expr, ExprParts, FluentChange, Leaf, Operation, Relation,
    Term, Typed,
};
pub use law::{each_text_says_one_domain, each_text_says_one_problem};
pub use problem::read_problem;
pub use tree::{Action, DomainAst, Init, InitialValue, ProblemAst, Signature};
