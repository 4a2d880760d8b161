//! Ground actions.
use crate::{Condition, Effect, Expr, GroundForm};
use hd_base::Sequence;

/// A ground action.
///
/// Where its condition holds, the atoms that it deletes become false, then those that it adds true,
/// and each numeric effect gives its fluent a new value; all of them read the values from before
/// the action.
#[derive(Debug, Drop)]
pub struct Action {
    /// What it is printed as, and named by in a fault: its schema and objects.
    pub form: GroundForm,
    pub condition: Condition,
    /// The numbers of the atoms that become false. One that the task lacks is false anyway.
    pub deletes: Sequence<u32>,
    /// The numbers of the atoms that become true, also those that it deletes.
    pub adds: Sequence<u32>,
    /// At most one for a fluent, in the order of the fluents' numbers.
    pub effects: Sequence<Effect>,
    /// What it adds to the cost of a plan, each by the values before the action. Numbers are
    /// constant amounts, all others dependent ones. Without a metric there are none, and each
    /// action costs 1.
    pub costs: Sequence<Expr>,
}

/// The number of an action of a task.
#[derive(Clone, Copy, Debug, PartialEq, Eq, PartialOrd, Ord, Hash)]
pub struct ActionId(pub u32);
