//! The rule of the bound word, and the steps that its seats take.
ghost use Rattle.std.specs.Prelude.{◌+◌, ◌-◌, ◌++◌, [], min};
ghost use Rattle.hd_desk.specs.Offers.{knows, fresh_seat, spent_seat, IsLeast, HasLoaded, HasOffered};

use atomic_table::{Join, Play, Split, TableRule};
use std::collections::LinkedList;

/// What the word is while there is no bound. A cost as great as this bounds nothing.
pub const NO_BOUND: u64 = u64::MAX;

/// What a seat at the bound word knows: its parts of the right to know all offers, the least number
/// that it has seen or offered, and what it has offered, in order. No value of it is made.
pub struct Offers {
    pub parts: u64,
    pub seen: u64,
    pub offers: LinkedList<u64>,
}

/// What holds between any two steps.
pub(crate) struct Least;

impl TableRule<(), Offers, u64> for Least {
    ghost holds = { IsLeast };

    ghost first = { fresh_seat };
}

/// The word is read.
pub(crate) struct Loaded;

impl Play<(), Offers> for Loaded {
    ghost then = { HasLoaded };
}

/// The word is lowered to a cost, if it is greater.
pub(crate) struct Offered;

impl Play<(), Offers> for Offered {
    ghost then = { HasOffered };
}

/// One part goes to another seat, which has seen what this one has, and offered nothing.
pub(crate) struct BoundPart;

impl Split<Offers> for BoundPart {
    ghost left = { λ v. knows (v.parts - 1) v.seen v.offers };

    ghost right = { λ v. knows 1 v.seen [] };
}

impl Join<Offers> for BoundPart {
    ghost both = { λ v w. knows (v.parts + w.parts) (min v.seen w.seen) (v.offers ++ w.offers) };

    ghost spent = { spent_seat };
}
