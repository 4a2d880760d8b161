//! What tickets are redeemed for.
use crate::{Receipt, Ticket};

/// What a ticket is redeemed for.
#[must_use]
#[derive(Debug)]
pub enum Redeemed<R> {
    /// The batch is acknowledged: a receipt of its entries, and what it releases.
    Released(Receipt, R),
    /// It is not acknowledged yet: the ticket again.
    NotYet(Ticket),
    /// It will not be, since no more is taken in. The ticket is spent.
    Void,
}
