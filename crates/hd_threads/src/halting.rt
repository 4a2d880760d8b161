//! How a search is halted, and a ticket given up.
ghost use Rattle.hd_desk.specs.Passes.{IsOutside};
ghost use Rattle.hd_threads.specs.Outside.{IsOutsideAgain};

use crate::shared::{Halted, SharedBook};
use hd_book::Ticket;
use hd_desk::{Lock, Pass};
use std::sync::Wait;
use std::sync::ledger::Ledger;

/// Halts the book, after which it takes no batch. The result tells that it did.
pub fn halt<'t, L: Ledger, A: Ledger, R: Wait>(
    rt: &R,
    lock: &Lock<SharedBook<'t, L, A>>,
    pass: &mut Pass<SharedBook<'t, L, A>>,
) -> Halted
    requires { IsOutside lock.now.place pass.old }
    ensures pass { IsOutsideAgain lock.now.place pass.old pass.new }
{
    let mut book = lock.enter(rt, pass);
    let halted = book.halt();
    lock.leave(rt, pass, book);
    halted
}

/// Halts the book, and spends a ticket: what it releases is dropped.
pub fn give_up<'t, L: Ledger, A: Ledger, R: Wait>(
    rt: &R,
    lock: &Lock<SharedBook<'t, L, A>>,
    pass: &mut Pass<SharedBook<'t, L, A>>,
    ticket: Ticket,
)
    requires { IsOutside lock.now.place pass.old }
    ensures pass { IsOutsideAgain lock.now.place pass.old pass.new }
{
    let mut book = lock.enter(rt, pass);
    book.give_up(ticket);
    lock.leave(rt, pass, book);
}
