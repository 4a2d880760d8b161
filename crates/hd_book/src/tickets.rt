//! What is known of the batches that were accepted.
use crate::outgoing::Outgoing;
use crate::queue::BatchQueue;
use crate::slots::Slots;
use crate::{NotOut, Receipt, Redeemed, Ticket};
use std::alloc::{AllocError, Global};
use std::marker::Model;
use std::ops::Range;

/// The tickets of the batches that were accepted, and the groups in which their entries are
/// appended to a journal.
///
/// Entries and tickets are known by number alone; `R` is what a ticket releases.
#[derive(Debug, Drop)]
pub struct Tickets<R> {
    queue: BatchQueue,
    slots: Slots<R>,
    halted: bool,
}

impl<R> Model for Tickets<R> {
    ghost use Rattle.std.specs.Prelude.{◌&&◌};
    ghost use Rattle.hd_book.specs.Batches.{TicketsView};

    ghost Value = { TicketsView R };

    ghost view = { λ t. record {
      batches = record { queue = t.queue.batches; tickets = t.slots.tickets; halted = t.halted };
      room = t.queue.room && t.slots.room;
    } };
}

impl<R: Drop> Tickets<R> {
    ghost use Rattle.std.specs.Prelude.{◌≡◌, true};
    ghost use Rattle.hd_book.specs.Queue.{are_acknowledged};
    ghost use Rattle.hd_book.specs.Batches.{is_ticket_out};
    ghost use Rattle.hd_book.specs.TicketSteps.{without};
    ghost use Rattle.hd_book.specs.TicketRedeeming.{redeemed_for};

    /// Reports whether a ticket is out.
    fn is_ticket_out(&self, ticket: &Ticket) -> bool
        ensures { result ≡ is_ticket_out self.now.batches ticket.now }
    {
        let range = ticket.range();
        match self.slots.get(ticket.number()) {
            Some(out) => out.first == range.start && out.end == range.end,
            None => false,
        }
    }

    /// Spends a ticket that is out and whose entries are acknowledged: what it releases, with a
    /// receipt.
    fn release(&mut self, ticket: Ticket) -> Result<Redeemed<R>, NotOut>
        requires out { is_ticket_out self.old.batches ticket ≡ true }
        requires acknowledged { are_acknowledged self.old.batches.queue ticket.first ticket.end
            ≡ true }
        ensures given { result ≡ redeemed_for self.old.batches ticket }
        ensures spent { self.new.batches ≡ without ticket.number self.old.batches }
    {
        match self.slots.take(ticket.number()) {
            Some(Outgoing { released, .. }) => {
                Ok(Redeemed::Released(ticket.into_receipt(), released))
            }
            None => {
                ticket.spend();
                Err(NotOut)
            }
        }
    }
}

impl<R: Drop> Tickets<R> {
    ghost use Rattle.std.specs.Prelude.{◌≡◌, ◌+◌, ◌<◌, ◌≤◌, ◌^◌, true, false, is_ok, is_some, length, IfOk, IfSome, OnOk, OnErr};
    ghost use Rattle.hd_book.specs.declared.queue.TheConstants.{MAX_GROUP};
    ghost use Rattle.hd_book.specs.Queue.{entries_in_all, group_next, is_out, is_idle, is_due, are_acknowledged};
    ghost use Rattle.hd_book.specs.TicketSteps.{resumed, ticket_of, entered, taken, flushed, handed_back, redeemed, with_halt};
    ghost use Rattle.hd_book.specs.TicketRedeeming.{redeemed_for};

    /// Returns no batches yet, after so many entries that are acknowledged. It does not allocate.
    pub fn new(alloc: Global, acknowledged: u64) -> Tickets<R>
        ensures { result.batches ≡ resumed acknowledged }
    {
        Tickets {
            queue: BatchQueue::new(alloc, acknowledged),
            slots: Slots::new(alloc),
            halted: false,
        }
    }

    /// Returns how many batches were accepted.
    pub fn commits(&self) -> u64
        ensures { result ≡ length self.now.batches.tickets }
    {
        self.slots.len()
    }

    /// Returns how many entries there are in all.
    pub fn entries(&self) -> u64
        ensures { result ≡ entries_in_all self.now.batches.queue }
    {
        self.queue.entries()
    }

    /// Returns how many entries are acknowledged.
    pub fn acknowledged(&self) -> u64
        ensures count { result ≡ self.now.batches.queue.acknowledged }
        ensures few { result ≤ entries_in_all self.now.batches.queue }
    {
        self.queue.acknowledged()
    }

    /// Reports whether all entries are acknowledged.
    pub fn is_idle(&self) -> bool
        ensures { result ≡ is_idle self.now.batches.queue }
    {
        self.queue.is_idle()
    }

    /// Reports whether no more batches are accepted.
    pub fn is_halted(&self) -> bool
        ensures { result ≡ self.now.batches.halted }
    {
        self.halted
    }

    /// Makes room for one more batch.
    ///
    /// # Errors
    /// - Lack of memory: nothing has changed.
    pub fn reserve(&mut self) -> Result<(), AllocError>
        ensures batches { self.new.batches ≡ self.old.batches }
        ensures room { OnOk result (self.new.room ≡ true) }
    {
        self.queue.reserve()?;
        self.slots.reserve()?;
        Ok(())
    }

    /// Accepts a batch of so many entries: they wait to be appended, if there are any, and its
    /// ticket is out. There is room for it.
    pub fn enter(&mut self, count: u64, released: R) -> Ticket
        requires going { self.old.batches.halted ≡ false }
        requires room { self.old.room ≡ true }
        requires few { count ≤ MAX_GROUP }
        requires fits { entries_in_all self.old.batches.queue + count < 2 ^ 64 }
        requires commits { length self.old.batches.tickets + 1 < 2 ^ 64 }
        ensures ticket { result ≡ ticket_of count self.old.batches }
        ensures entered { self.new.batches ≡ entered count released self.old.batches }
    {
        let number = self.slots.len();
        let first = self.queue.entries();
        let end = first + count;
        self.queue.push(count);
        self.slots.push(Outgoing {
            first,
            end,
            released,
        });
        Ticket::of(number, first, end)
    }

    /// Returns the entries of the next group that is to be appended, which is out from now on:
    /// whole batches in the order of their commits, from the oldest on, as many as fit into a
    /// group. None where nothing waits, or a group is out.
    pub fn take(&mut self) -> Option<Range<u64>>
        ensures group { result ≡ group_next self.old.batches.queue }
        ensures some { IfSome result (λ g. g.start < g.end) }
        ensures few { IfSome result (λ g. g.end ≤ g.start + MAX_GROUP) }
        ensures within { IfSome result (λ g. g.end ≤ entries_in_all self.old.batches.queue) }
        ensures taken { self.new.batches ≡ taken self.old.batches }
        ensures due { is_some result ≡ is_due self.old.batches.queue }
    {
        self.queue.take()
    }

    /// Acknowledges the entries of the group that is out.
    ///
    /// # Errors
    /// - `NotOut`: no group is out, or it has other entries: nothing has changed.
    pub fn acknowledge(&mut self, first: u64, end: u64) -> Result<(), NotOut>
        ensures out { is_ok result ≡ is_out self.old.batches.queue first end }
        ensures flushed { OnOk result (self.new.batches ≡ flushed self.old.batches) }
        ensures err { OnErr result (self.new.batches ≡ self.old.batches) }
    {
        if !self.queue.is_out(first, end) {
            return Err(NotOut);
        }
        self.queue.acknowledge();
        Ok(())
    }

    /// Hands back the group that is out: its batches wait again, before the others, and no more
    /// batches are accepted.
    ///
    /// # Errors
    /// - `NotOut`: no group is out, or it has other entries: nothing has changed.
    pub fn hand_back(&mut self, first: u64, end: u64) -> Result<(), NotOut>
        ensures out { is_ok result ≡ is_out self.old.batches.queue first end }
        ensures handed_back { OnOk result (self.new.batches ≡ handed_back self.old.batches) }
        ensures err { OnErr result (self.new.batches ≡ self.old.batches) }
    {
        if !self.queue.is_out(first, end) {
            return Err(NotOut);
        }
        self.queue.hand_back();
        self.halted = true;
        Ok(())
    }

    /// Redeems a ticket: for what it releases, with a receipt, where the batch's entries are
    /// acknowledged; else for nothing, if no more batches are accepted; else the ticket comes
    /// back.
    ///
    /// # Errors
    /// - `NotOut`: no such ticket is out: the ticket is spent, and nothing has changed.
    pub fn redeem(&mut self, ticket: Ticket) -> Result<Redeemed<R>, NotOut>
        ensures given { result ≡ redeemed_for self.old.batches ticket }
        ensures redeemed { OnOk result (self.new.batches ≡ redeemed ticket self.old.batches) }
        ensures err { OnErr result (self.new.batches ≡ self.old.batches) }
    {
        if !self.is_ticket_out(&ticket) {
            ticket.spend();
            return Err(NotOut);
        }
        let range = ticket.range();
        if self.queue.are_acknowledged(range.start, range.end) {
            return self.release(ticket);
        }
        if !self.halted {
            return Ok(Redeemed::NotYet(ticket));
        }
        drop(self.slots.take(ticket.number()));
        ticket.spend();
        Ok(Redeemed::Void)
    }

    /// Spends a receipt: the numbers of its entries.
    ///
    /// # Errors
    /// - `NotOut`: these are not acknowledged; none always are. The receipt is spent.
    pub fn present(&self, receipt: Receipt) -> Result<Range<u64>, NotOut>
        ensures acknowledged { is_ok result
            ≡ are_acknowledged self.now.batches.queue receipt.first receipt.end }
        ensures range { IfOk result (λ r. (r.start ≡ receipt.first) × (r.end ≡ receipt.end)) }
    {
        let range = receipt.into_range();
        if self.queue.are_acknowledged(range.start, range.end) {
            Ok(range)
        } else {
            Err(NotOut)
        }
    }

    /// Halts: from now on no more batches are accepted.
    pub fn halt(&mut self)
        ensures { self.new.batches ≡ with_halt self.old.batches }
    {
        self.halted = true;
    }
}
