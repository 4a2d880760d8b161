//! Lifted tasks: a domain and a problem with each name as a number, and what their plans mean.
//!
//! `specs/` defines which plans are valid, at which cost, and which are optimal (PDDL 2.1, level 2;
//! Fox and Long 2003). A [`Checked`] task is well formed, with distinct names, at most one first
//! value a fluent, and a metric that is a cost. [`Hierarchy`] refuses types on a cycle. Its
//! `is_subtype` decides the least reflexive and transitive relation in which each type is below its
//! parent, and all are below `object`.
//!
//! `specs/Kept` defines the kept instances (reachable ground actions): the least set in which an
//! instance's equalities hold, its static conditions hold at first, and each atom that it wants is
//! true at first or added by a kept instance. Numbers are ignored. A plan whose steps are all
//! defined uses kept instances only ([`kept_laws::plans_are_kept`]).
//!
//! Objects, predicates, functions and actions have numbers in the order of the text; type 0 is
//! `object`. A type has its depth and a jump to a type above it, so `is_subtype` takes time
//! logarithmic in the depth. Start reading at [`LiftedTask`], then `specs/Plans` and `specs/Kept`.
#![tactic(auto)]

mod checked;
pub mod examples;
mod hierarchy;
mod instance;
pub mod kept_laws;
pub mod laws;
mod reading;
mod schema;
mod shortcuts;
mod task;

pub use checked::Checked;
pub use hd_base::{Boxed, ExprParts, Name, Operand, Operation, Relation, Sequence, Tuple};
pub use hierarchy::Hierarchy;
pub use instance::Instance;
pub use reading::{
    are_lifted_forms_equal, are_of_subtypes, effects_clash, ground_form_of, is_of_subtype,
    lifted_equalities_hold, object_of,
};
pub use schema::{
    AppliedSymbol, Argument, ChangeKind, Comparison, Condition, Equality, Expr, Ground, Leaf,
    Literal, NumericEffect, Schema,
};
pub use task::{InitialValue, LiftedTask, Object, Signature};
