//! Ground forms, and the names that they are printed with.
use hd_base::{Name, Sequence};

/// A schema, a predicate or a function with its objects, by their numbers in the task's [`Names`].
///
/// It is printed `(name object ..)`.
#[derive(Debug, PartialEq, Eq, Drop)]
pub struct GroundForm {
    /// The number of the schema, predicate or function.
    pub symbol: usize,
    /// The numbers of the objects, in order.
    pub objects: Sequence<usize>,
}

/// The names that ground forms are printed with.
#[derive(Debug, PartialEq, Eq, Drop)]
pub struct Names {
    pub schemas: Sequence<Name>,
    pub predicates: Sequence<Name>,
    pub functions: Sequence<Name>,
    pub objects: Sequence<Name>,
}
