//! What a step changes.

/// What is different between a state and the one after it.
#[derive(Clone, Copy, Debug, PartialEq, Eq)]
pub enum Change {
    /// The atom of this number was true and is false, or the other way round.
    Atom(usize),
    /// The fluent of this number had the first value, and has the second.
    Fluent(usize, i64, i64),
}
