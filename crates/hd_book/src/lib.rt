//! Holds the book of a search: the entries, tickets and counts that its threads share.
//!
//! [`Book::commit`] accepts a batch only if it is justified (`refusal_to`), and then grows by
//! exactly the batch. Else nothing changes. [`Book::redeem`] gives the batch's nodes once it is
//! acknowledged. [`Book::verdict`] answers exactly if all is settled and acknowledged, memory
//! aside; the answer is true.
//!
//! A book joins the entries (hd_entries) with the tickets of accepted batches and the groups in
//! which a journal gets their entries (`Tickets`, private). Groups follow without a gap, no batch
//! is split, and no ticket is redeemed twice ([`ticket_laws`]). All shares of a book's ledger add
//! up to the number of commits ([`Book::audit`]). [`Book::take_pending`] fills a given [`Room`],
//! and does not allocate.
//!
//! Start reading at [`Book`], then `specs/View.antt`, `specs/Steps.antt` and
//! `specs/TicketSteps.antt`, which has one equation for each call on tickets.
#![tactic(auto)]

mod book;
mod content;
mod counts;
mod not_out;
mod outgoing;
mod queue;
mod redeemed;
mod refusal;
mod room;
mod slots;
mod ticket;
pub mod ticket_laws;
mod tickets;

pub use book::Book;
pub use counts::Counts;
pub use hd_entries::{Parcels, Refusal, Verdict};
pub use hd_journal::{Flushed, Group};
pub use hd_task::{DepartsBy, Departure};
pub use not_out::NotOut;
pub use redeemed::Redeemed;
pub use refusal::CommitRefusal;
pub use room::{Room, Rooms};
pub use ticket::{MAX_TICKETS, Receipt, Ticket};
