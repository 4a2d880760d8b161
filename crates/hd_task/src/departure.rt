//! What leaves the range of numbers.
/// What leaves the range of numbers at a plan.
#[derive(Clone, Copy, Debug, PartialEq, Eq, Hash)]
pub enum DepartsBy {
    /// A comparison of the goal.
    Goal,
    /// A numeric condition, an effect or the cost of an action, given by its number.
    Action(u32),
}

/// A departure from the range of numbers, met when an entry was expanded.
#[derive(Clone, Copy, Debug, PartialEq, Eq, Hash)]
pub struct Departure {
    /// The number of the entry.
    pub entry: u64,
    pub by: DepartsBy,
}
