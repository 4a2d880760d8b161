//! Shares values among the threads of a search: a lock for a value that only grows, mailboxes, and
//! the bound, the least cost of a plan that any thread has found.
//!
//! [`Lock::enter`] returns the value; its log begins with what the [`Pass`] last saw.
//! [`Mailboxes::push`] puts an item in or gives it back, and [`Mailboxes::pop`] takes one. With all
//! parts of a mailbox, [`Mailboxes::tally`] shows that what was put in was taken or is left.
//! [`BoundWord::offer`] lowers the bound to a cost, if the bound is greater, [`BoundWord::load`]
//! returns at most what its seat has seen or offered, and [`BoundWord::settle`] the least of all.
//!
//! The value is in a queue of one place while the lock is free; else it is with one pass. A mailbox
//! is a bounded queue, and the bound is one machine word. `enter` spins, then yields; the calls of
//! mailboxes and bound never wait. A pass or a [`BoundSeat`] is ghost knowledge, split into parts,
//! one for each further thread. Start reading at [`Lock`], then at [`Mailboxes`] and [`BoundWord`].
#![tactic(auto)]

mod bound_rule;
mod lock;
mod locked;
mod mail;
mod plays;
mod rule;
mod view;
mod word;

pub use bound_rule::{NO_BOUND, Offers};
pub use lock::{Lock, Pass};
pub use locked::Locked;
pub use mail::{Hands, MAILBOX_PLACES, Mailboxes};
pub use rule::{ALL_PARTS, Post, Sent};
pub use view::{Seen, View};
pub use word::{BoundSeat, BoundWord};
