//! Lifted tasks.

use crate::hierarchy::Hierarchy;
use crate::schema::{Condition, Ground, Schema};
use hd_base::{Name, Sequence};

/// An object of the task: a constant of the domain or an object of the problem.
#[derive(Debug, Drop)]
pub struct Object {
    pub name: Name,
    /// The number of its type.
    pub of: usize,
}

/// A predicate or a function, as declared.
#[derive(Debug, Drop)]
pub struct Signature {
    pub name: Name,
    /// The numbers of its parameters' types.
    pub parameters: Sequence<usize>,
}

/// The value that a fluent has at first.
#[derive(Debug, Drop)]
pub struct InitialValue {
    pub fluent: Ground,
    /// In the range, where the task was checked.
    pub value: i64,
}

/// A domain and a problem, with every name resolved to a number.
#[derive(Debug, Drop)]
pub struct LiftedTask {
    /// The types: which is below which.
    pub hierarchy: Hierarchy,
    /// The objects, by number: constants first, then the problem's.
    pub objects: Sequence<Object>,
    /// The predicates, by number.
    pub predicates: Sequence<Signature>,
    /// The functions, by number, the metric's among them.
    pub functions: Sequence<Signature>,
    /// The action schemas, by number.
    pub schemas: Sequence<Schema>,
    /// The atoms that are true at first, as written: one may stand twice.
    pub atoms: Sequence<Ground>,
    /// The values at first, as written. The metric's function is not among them.
    pub values: Sequence<InitialValue>,
    /// The goal, which has no parameters.
    pub goal: Condition,
    /// The function whose increases are the cost. Without one each action costs 1.
    pub metric: Option<usize>,
}
