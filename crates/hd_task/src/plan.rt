//! Plans, and the pairs that name generated plans.
ghost use Rattle.std.specs.Prelude.{◌≡◌, map};

use crate::ActionId;
use std::marker::Model;

/// The parent of the root: no entry has this number. It fits 40 bits, as the number of each entry
/// does.
pub const ROOT_PARENT: u64 = (1 << 40) - 1;

/// The action of the root: no action has this number.
pub const ROOT_ACTION: u32 = u32::MAX;

/// Names a plan: that of the entry `parent`, followed by `action`. The root, of [`ROOT_PARENT`] and
/// [`ROOT_ACTION`], names the empty plan.
#[derive(Clone, Copy, Debug, PartialEq, Eq, Hash)]
pub struct Kid {
    /// The number of an entry, or [`ROOT_PARENT`].
    pub parent: u64,
    /// The number of an action, or [`ROOT_ACTION`].
    pub action: u32,
}

/// A plan: actions one after the other, which contracts see as the list of their numbers.
#[derive(Debug, Drop)]
pub struct Plan {
    actions: Vec<ActionId>,
}

impl Model for Plan {
    ghost use Rattle.std.specs.Prelude.{List, ℕ, map};

    ghost Value = { List ℕ };

    ghost view = { λ p. map (λ a. a.0) p.actions.items };
}

impl Plan {
    /// Returns the plan of these actions, in this order.
    pub fn from_vec(actions: Vec<ActionId>) -> Plan
        ensures { result ≡ map (λ a. a.0) actions.items }
    {
        Plan { actions }
    }

    /// Returns the actions in order.
    pub fn as_slice(&self) -> &[ActionId]
        ensures { map (λ a. a.0) result.now ≡ self.now }
    {
        self.actions.as_slice()
    }
}
