//! What a pass knows.
use std::collections::LinkedList;

/// What was seen of a locked value. No value of this type is made.
pub struct Seen<T, I> {
    /// What the value is of, or nothing before there is one.
    pub task: Option<T>,
    /// Its log.
    pub log: LinkedList<I>,
}

/// What a pass knows of its lock. No value of this type is made.
pub struct View<T, I> {
    /// What this pass last saw of the value.
    pub seen: Seen<T, I>,
    /// What each pass that this one took in had last seen.
    pub told: LinkedList<Seen<T, I>>,
    /// Whether the value is with this pass.
    pub inside: bool,
    /// How many parts of the lock this pass has.
    pub parts: u64,
}
