//! A search that runs, as a schedule moves it.
ghost use Rattle.std.specs.Prelude.{◌≡◌, None};
ghost use Rattle.hd_replay.specs.Held.{pulled_in, flushed_in};

use crate::seat::Seat;
use hd_book::{Book, Flushed, Group, Rooms};
use hd_node::Parcel;
use hd_worker::Lookup;
use std::collections::VecDeque;
use std::marker::Model;
use std::mem;
use std::sync::ledger::{Ledger, Share};

/// The group that is out at the book.
///
/// It must be spent: a group can't be let go.
#[must_use]
pub(crate) enum Out {
    /// There is none.
    Nothing,
    /// It was pulled, and is not appended yet.
    Pulled(Group),
    /// It is appended, and not acknowledged yet.
    Flushed(Flushed),
}

/// A search that runs, but for the journal: the book with the share that counts its commits, what
/// workers look up, the workers at their places, a mailbox for each, the least bound that was
/// offered, the group that is out, and room for the next one.
///
/// It must be ended: tickets and groups can't be let go.
#[must_use]
pub(crate) struct Run<'t, L: Ledger> {
    pub(crate) book: Book<'t, L>,
    pub(crate) share: Share<L>,
    pub(crate) lookup: Lookup<'t>,
    pub(crate) seats: Vec<Seat<'t>>,
    pub(crate) mailboxes: Vec<VecDeque<Parcel<'t>>>,
    pub(crate) bound: Option<u64>,
    pub(crate) out: Out,
    pub(crate) rooms: Rooms,
}

impl<'t, L: Ledger> Model for Run<'t, L> {
    ghost use Rattle.std.specs.Prelude.{◌<◌, map, length};
    ghost use Rattle.std.specs.Coded.{codes};
    ghost use denote.Signature.{static_lft};
    ghost use Rattle.hd_task.specs.contracts.task.Task as tasks;
    ghost use Rattle.hd_node.specs.contracts.batch.Outcome as outcome_rows;
    ghost use Rattle.hd_entries.specs.Holding.{parcel_of};
    ghost use Rattle.hd_worker.specs.Lookup.{IsLookupOf};
    ghost use Rattle.hd_world.specs.Seats.{Run};
    ghost use Rattle.hd_replay.specs.Held.{AreBoxesOf, pulled_in, flushed_in};

    ghost Value = { Run };

    ghost coded = { Prim.hlevel (
      codes,
      tasks.the_row.coded,
      (outcome_rows.the_row static_lft).coded,
    ) };

    ghost view = { λ r. record {
      book = r.book;
      seats = r.seats.items;
      mailboxes = map (λ box. map parcel_of box.items) r.mailboxes.items;
      bound = r.bound;
      group = pulled_in r.out;
      flushed = flushed_in r.out;
    } };

    ghost invariant = { λ r. (0 < r.share.parts) × IsLookupOf r.book.state.task r.lookup
        × AreBoxesOf r.book.state.task (length r.seats.items)
        (map (λ box. box.items) r.mailboxes.items) };
}

impl<'t, L: Ledger> Run<'t, L> {
    /// Takes the group that is out from the run.
    pub(crate) fn take_out(&mut self) -> Out
        ensures group { pulled_in result ≡ self.old.group }
        ensures flushed { flushed_in result ≡ self.old.flushed }
        ensures rest { self.new ≡ record self.old { group = None; flushed = None } }
    {
        mem::replace(&mut self.out, Out::Nothing)
    }

    /// Sets what is out to `out`; nothing was out before.
    pub(crate) fn put_out(&mut self, out: Out)
        requires group { self.old.group ≡ None }
        requires flushed { self.old.flushed ≡ None }
        ensures { self.new ≡ record self.old {
          group = pulled_in out;
          flushed = flushed_in out;
        } }
    {
        match mem::replace(&mut self.out, out) {
            Out::Nothing => {}
            Out::Pulled(_group) => unreachable!(),
            Out::Flushed(_flushed) => unreachable!(),
        }
    }
}
