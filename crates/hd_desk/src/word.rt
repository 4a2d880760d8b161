//! The bound word and its seats.
ghost use Rattle.std.specs.Prelude.{◌≡◌, ◌+◌, ◌≤◌, ◌<◌, ◌++◌, [], ◌∷◌, IfOk};
ghost use Rattle.hd_desk.specs.Bound.{bound_in, word_of, least, less_part, one_part};

use crate::bound_rule::{BoundPart, Least, Loaded, NO_BOUND, Offered, Offers};
use crate::rule::ALL_PARTS;
use atomic_table::{Seat, Table};
use hd_base::NoMemory;
use std::alloc::Global;
use std::marker::Model;

/// A bound that threads share.
#[derive(Drop)]
pub struct BoundWord {
    table: Table<(), Offers, u64, Least, Global>,
}

impl Model for BoundWord {
    ghost use Rattle.std.specs.Coded.{codes};
    ghost use Rattle.atomic_table.specs.Seated.{table_id_coded};
    ghost use Rattle.hd_desk.specs.Bound.{BoundView, IsOneWord};

    ghost Value = { BoundView };

    ghost coded = { Prim.hlevel (codes, table_id_coded) };

    ghost view = { λ b. record { of = b.table.shared.table_id; start = b.table.shared.key } };

    ghost invariant = { λ b. IsOneWord b.table.shared.table_id };
}

/// A thread's seat at a bound word: with it the thread offers costs, and reads the bound.
#[derive(Drop)]
pub struct BoundSeat {
    seat: Seat<(), Offers>,
}

impl Model for BoundSeat {
    ghost use Rattle.std.specs.Coded.{codes};
    ghost use Rattle.atomic_table.specs.Seated.{table_id_coded};
    ghost use Rattle.hd_desk.specs.Bound.{SeatView};
    ghost use Rattle.hd_desk.specs.Offers.{IsAtHand};

    ghost Value = { SeatView };

    ghost coded = { Prim.hlevel (codes, table_id_coded) };

    ghost view = { λ s. record {
      of = s.seat.table_id;
      parts = s.seat.me.0.parts;
      seen = s.seat.me.0.seen;
      offers = s.seat.me.0.offers;
    } };

    ghost invariant = { λ s. IsAtHand s.seat.me };
}

/// Returns the bound that a word says.
fn bound_at(word: u64) -> Option<u64>
    ensures { result ≡ bound_in word }
{
    if word == NO_BOUND { None } else { Some(word) }
}

impl BoundWord {
    /// Returns a bound word that starts with a bound, or with none, and the seat that has all parts
    /// of it.
    ///
    /// # Errors
    /// - `NoMemory`: there is no room for it.
    pub fn new(alloc: Global, start: Option<u64>) -> Result<(BoundWord, BoundSeat), NoMemory>
        ensures of { IfOk result (λ r. r.1.of ≡ r.0.of) }
        ensures start { IfOk result (λ r. r.0.start ≡ word_of start) }
        ensures parts { IfOk result (λ r. r.1.parts ≡ ALL_PARTS) }
        ensures seen { IfOk result (λ r. r.1.seen ≡ word_of start) }
        ensures offers { IfOk result (λ r. r.1.offers ≡ []) }
    {
        let word = match start {
            None => NO_BOUND,
            Some(cost) => cost,
        };
        let (table, seat) = Table::of_words(alloc, &[word], &word)?;
        Ok((BoundWord { table }, BoundSeat { seat }))
    }

    /// Lowers the bound to a cost, where it is greater.
    pub fn offer(&self, seat: &mut BoundSeat, cost: u64)
        requires { seat.old.of ≡ self.now.of }
        ensures of { seat.new.of ≡ seat.old.of }
        ensures parts { seat.new.parts ≡ seat.old.parts }
        ensures offers { seat.new.offers ≡ seat.old.offers ++ cost ∷ [] }
        ensures by_cost { seat.new.seen ≤ cost }
        ensures by_seen { seat.new.seen ≤ seat.old.seen }
    {
        self.table
            .shared
            .fetch_min::<Offered>(&mut seat.seat, 0, cost);
    }

    /// Returns the bound now, if there is one. It is no greater than what this seat has seen or
    /// offered.
    pub fn load(&self, seat: &mut BoundSeat) -> Option<u64>
        requires { seat.old.of ≡ self.now.of }
        ensures bound { result ≡ bound_in seat.new.seen }
        ensures of { seat.new.of ≡ seat.old.of }
        ensures parts { seat.new.parts ≡ seat.old.parts }
        ensures offers { seat.new.offers ≡ seat.old.offers }
        ensures by_seen { seat.new.seen ≤ seat.old.seen }
    {
        bound_at(self.table.shared.load::<Loaded>(&mut seat.seat, 0))
    }

    /// Returns a seat with one part, for another thread.
    pub fn another(&self, seat: &mut BoundSeat) -> BoundSeat
        requires of { seat.old.of ≡ self.now.of }
        requires parts { 1 < seat.old.parts }
        ensures left { seat.new ≡ less_part seat.old }
        ensures new { result ≡ one_part seat.old }
    {
        BoundSeat {
            seat: self.table.shared.split_seat::<BoundPart>(&mut seat.seat),
        }
    }

    /// Takes in another seat's parts, with what it has seen and offered.
    pub fn absorb(&self, seat: &mut BoundSeat, other: BoundSeat)
        requires of { seat.old.of ≡ self.now.of }
        requires other { other.of ≡ self.now.of }
        ensures of { seat.new.of ≡ seat.old.of }
        ensures parts { seat.new.parts ≡ seat.old.parts + other.parts }
        ensures offers { seat.new.offers ≡ seat.old.offers ++ other.offers }
        ensures by_seen { seat.new.seen ≤ seat.old.seen }
        ensures by_other { seat.new.seen ≤ other.seen }
    {
        let BoundSeat { seat: other } = other;
        self.table
            .shared
            .join_seat::<BoundPart>(&mut seat.seat, other);
    }

    /// Returns the bound in the end, of which one seat has all parts: the least of what it started
    /// with and of all that was offered.
    pub fn settle(self, seat: BoundSeat) -> Option<u64>
        requires of { seat.of ≡ self.of }
        requires parts { seat.parts ≡ ALL_PARTS }
        ensures { result ≡ bound_in (least self.start seat.offers) }
    {
        let BoundWord { table } = self;
        let BoundSeat { seat } = seat;
        let closed = table.close_with(seat);
        let word = closed.word(0);
        closed.free();
        bound_at(word)
    }
}
