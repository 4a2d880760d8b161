//! Where the actions of an expanded plan lead.
use crate::Hashed;
use hd_pack::Packed;
use std::marker::Model;

/// Where an applicable action leads from an expanded plan.
#[derive(Debug, Drop)]
pub struct Child {
    action: u32,
    state: Hashed,
    cost: u64,
}

impl Model for Child {
    ghost use Rattle.hd_node.specs.Children.{ChildView};

    ghost Value = { ChildView };

    ghost view = { λ c. record { action = c.action; state = c.state; cost = c.cost } };
}

impl Child {
    ghost use Rattle.std.specs.Prelude.{◌≡◌};
    ghost use Rattle.hd_zobrist.specs.Hash.{state_hash};

    /// Returns the child of an action that leads to a state, at the cost of the plan with it.
    pub(crate) fn of(action: u32, state: Hashed, cost: u64) -> Child
        ensures { result ≡ record { action = action; state = state; cost = cost } }
    {
        Child {
            action,
            state,
            cost,
        }
    }

    /// Returns the action's number.
    pub fn action(&self) -> u32
        ensures { result ≡ self.now.action }
    {
        self.action
    }

    /// Returns the state after it.
    pub fn state(&self) -> &Packed
        ensures { result.now ≡ self.now.state }
    {
        self.state.state()
    }

    /// Returns the hash of the state after it.
    pub fn hash(&self) -> u64
        ensures { result ≡ state_hash self.now.state }
    {
        self.state.hash()
    }

    /// Returns that state with its hash.
    pub fn hashed(&self) -> &Hashed
        ensures { result.now ≡ self.now.state }
    {
        &self.state
    }

    /// Returns the cost of the plan with it.
    pub fn cost(&self) -> u64
        ensures { result ≡ self.now.cost }
    {
        self.cost
    }

    /// Returns the action, the state and the cost.
    pub(crate) fn into_parts(self) -> (u32, Hashed, u64)
        ensures action { result.0 ≡ self.action }
        ensures state { result.1 ≡ self.state }
        ensures cost { result.2 ≡ self.cost }
    {
        let Child {
            action,
            state,
            cost,
        } = self;
        (action, state, cost)
    }
}
