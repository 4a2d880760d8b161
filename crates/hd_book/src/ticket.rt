//! Tickets and receipts, which must be spent.
use std::marker::Model;
use std::ops::Range;

/// Number of tickets that a worker may hold.
pub const MAX_TICKETS: usize = 4;

/// Names a batch that was accepted, and is redeemed for what the batch releases.
///
/// It must be spent: it can't be let go. Only [`crate::Tickets`] makes one.
#[must_use]
#[derive(Debug)]
pub struct Ticket {
    number: u64,
    first: u64,
    end: u64,
}

impl Model for Ticket {
    ghost use Rattle.hd_book.specs.Batches.{TicketView};

    ghost Value = { TicketView };

    ghost view = { λ t. record { number = t.number; first = t.first; end = t.end } };
}

impl Ticket {
    ghost use Rattle.std.specs.Prelude.{◌≡◌};

    /// Returns the numbers of the batch's entries.
    pub fn range(&self) -> Range<u64>
        ensures start { result.start ≡ self.now.first }
        ensures end { result.end ≡ self.now.end }
    {
        self.first..self.end
    }

    /// Returns the ticket of a batch.
    pub(crate) fn of(number: u64, first: u64, end: u64) -> Ticket
        ensures { result ≡ record { number = number; first = first; end = end } }
    {
        Ticket { number, first, end }
    }

    /// Returns how many batches were accepted before this one.
    pub(crate) fn number(&self) -> u64
        ensures { result ≡ self.now.number }
    {
        self.number
    }

    /// Returns a receipt of the same entries; the ticket is spent.
    pub(crate) fn into_receipt(self) -> Receipt
        ensures first { result.first ≡ self.first }
        ensures end { result.end ≡ self.end }
    {
        let Ticket {
            number: _,
            first,
            end,
        } = self;
        Receipt { first, end }
    }

    /// Spends the ticket for nothing.
    pub(crate) fn spend(self) {
        let Ticket {
            number: _,
            first: _,
            end: _,
        } = self;
    }
}

/// Says that a batch's entries are acknowledged, and is presented.
///
/// It must be spent: it can't be let go. Only [`crate::Tickets`] makes one.
#[must_use]
#[derive(Debug)]
pub struct Receipt {
    first: u64,
    end: u64,
}

impl Model for Receipt {
    ghost use Rattle.hd_book.specs.Batches.{ReceiptView};

    ghost Value = { ReceiptView };

    ghost view = { λ r. record { first = r.first; end = r.end } };
}

impl Receipt {
    ghost use Rattle.std.specs.Prelude.{◌≡◌};

    /// Returns the numbers of its entries; the receipt is spent.
    pub(crate) fn into_range(self) -> Range<u64>
        ensures start { result.start ≡ self.first }
        ensures end { result.end ≡ self.end }
    {
        let Receipt { first, end } = self;
        first..end
    }
}
