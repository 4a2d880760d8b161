//! The tickets by number, in memory.
ghost use Rattle.std.specs.Prelude.{◌≡◌, ◌+◌, ◌<◌, ◌^◌, true, None, [], ◌∷◌, ◌++◌, length, replicate, slice_get, slice_set, option_copied, OnOk};
ghost use Rattle.std.specs.Option.{option_flatten};
ghost use Rattle.hd_book.specs.Slots.{ticket_at};

use crate::outgoing::Outgoing;
use std::alloc::{AllocError, Global};
use std::collections::VecDeque;
use std::marker::Model;

/// The tickets of all batches by number, with what those that are out release.
#[derive(Debug, Drop)]
pub(crate) struct Slots<R> {
    /// How many tickets are spent before the first slot.
    spent: u64,
    /// The tickets from there on, none where one is spent.
    slots: VecDeque<Option<Outgoing<R>>>,
}

impl<R> Model for Slots<R> {
    ghost use Rattle.std.specs.Prelude.{◌+◌, ◌<◌, ◌^◌, length, nat_lt};
    ghost use Rattle.std.specs.VecDeque.{deque_len, deque_capacity};
    ghost use Rattle.hd_book.specs.Slots.{Slotted, tickets_in};

    ghost Value = { Slotted R };

    ghost view = { λ s. record {
      tickets = tickets_in s.spent s.slots.items;
      room = nat_lt (deque_len s.slots) (deque_capacity s.slots);
    } };

    ghost invariant = { λ s. s.spent + length s.slots.items < 2 ^ 64 };
}

/// Takes the first slots away where their tickets are spent; answers how many.
fn pop_spent<R: Drop>(slots: &mut VecDeque<Option<Outgoing<R>>>) -> u64
    ensures { slots.old.items ≡ replicate result None ++ slots.new.items }
{
    let mut count = 0;
    'spent: while let Some(None) = slots.front() {
        drop(slots.pop_front());
        count += 1;
    }
    count
}

/// Spends the ticket in the slot at a place, if it is out.
fn spend_at<R>(slots: &mut VecDeque<Option<Outgoing<R>>>, place: usize) -> Option<Outgoing<R>>
    ensures out { result ≡ option_flatten (slice_get slots.old.items place) }
    ensures spent { slots.new.items ≡ slice_set slots.old.items place None }
{
    match slots.get_mut(place) {
        Some(slot) => slot.take(),
        None => None,
    }
}

impl<R: Drop> Slots<R> {
    /// Returns no tickets. It does not allocate.
    pub(crate) fn new(alloc: Global) -> Slots<R>
        ensures { result.tickets ≡ [] }
    {
        Slots {
            spent: 0,
            slots: VecDeque::new(alloc),
        }
    }

    /// Returns how many tickets there are, the spent ones among them.
    pub(crate) fn len(&self) -> u64
        ensures { result ≡ length self.now.tickets }
    {
        self.spent + self.slots.len() as u64
    }

    /// Makes room for one more ticket.
    ///
    /// # Errors
    /// - Lack of memory: nothing has changed.
    pub(crate) fn reserve(&mut self) -> Result<(), AllocError>
        ensures tickets { self.new.tickets ≡ self.old.tickets }
        ensures room { OnOk result (self.new.room ≡ true) }
    {
        self.slots.reserve(1)?;
        Ok(())
    }

    /// Adds one more ticket, which is out; there is room for it.
    pub(crate) fn push(&mut self, out: Outgoing<R>)
        requires room { self.old.room ≡ true }
        requires few { length self.old.tickets + 1 < 2 ^ 64 }
        ensures { self.new.tickets ≡ self.old.tickets ++ Some out ∷ [] }
    {
        self.slots.push_back_reserved(Some(out));
    }

    /// Returns the ticket with this number, if it is out.
    pub(crate) fn get(&self, number: u64) -> Option<&Outgoing<R>>
        ensures { option_copied result ≡ ticket_at self.now.tickets number }
    {
        let spent = self.spent;
        if number < spent {
            return None;
        }
        match self.slots.get((number - spent) as usize) {
            Some(Some(out)) => Some(out),
            Some(None) => None,
            None => None,
        }
    }

    /// Spends the ticket with this number, if it is out.
    pub(crate) fn take(&mut self, number: u64) -> Option<Outgoing<R>>
        ensures out { result ≡ ticket_at self.old.tickets number }
        ensures spent { self.new.tickets ≡ slice_set self.old.tickets number None }
    {
        let spent = self.spent;
        if number < spent {
            return None;
        }
        let out = spend_at(&mut self.slots, (number - spent) as usize);
        self.spent += pop_spent(&mut self.slots);
        out
    }
}
