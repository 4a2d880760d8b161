//! The rule of a mailbox, and the steps that its passes take.
ghost use Rattle.std.specs.Prelude.{◌≡◌, ◌+◌, ◌-◌, ◌++◌, []};
ghost use Rattle.hd_desk.specs.Mail.{post, fresh_pass, spent_pass, IsFair, IsEven, HasPut, HasTaken, HasNamed, HasCleared};

use crossbeam_queue::RuledArrayQueue;
use crossbeam_queue::protocol::{Join, Lesson, Outcome, Protocol, Split};
use std::alloc::Global;
use std::collections::LinkedList;

/// In how many parts the right to know the whole of a mailbox, to have the lock alone, or to know
/// all offers of a bound, may be cut: so many passes or seats can there be at most. A pass with all
/// of them knows what was put and taken, or that nobody else is inside, and a seat each offer.
pub const ALL_PARTS: u64 = 1024;

/// An item that is sent. All items of a mailbox are of the same, as the parcels of a search are of
/// one task.
pub trait Sent<K>: Drop {
    // What it is of.
    ghost of: { Self → K };
}

/// What a pass of a mailbox knows: its parts, what the items are of, once that is known, and what
/// the pass has put and taken, in order. No value of it is made.
pub struct Post<K, T> {
    pub parts: u64,
    pub of: Option<K>,
    pub put: LinkedList<T>,
    pub taken: LinkedList<T>,
}

/// What holds between any two steps.
pub(crate) struct Fair;

impl<K, T: Sent<K>> Protocol<T, Post<K, T>> for Fair {
    ghost holds = { IsFair T.of };

    ghost first = { fresh_pass };
}

/// An item is put in.
pub(crate) struct Put;

impl<K, T: Sent<K>> Outcome<T, Post<K, T>> for Put {
    ghost then = { HasPut };
}

/// An item is put in, the first of all: from now on it is known what the items are of.
pub(crate) struct Named;

impl<K, T: Sent<K>> Outcome<T, Post<K, T>> for Named {
    ghost then = { HasNamed T.of };
}

impl<K, T: Sent<K>> Lesson<T, Post<K, T>> for Named {
    ghost fact = { IsEven };
}

/// The first item is taken out again, before there was any other: nothing is in the mailbox, and
/// nothing counts as put or taken.
pub(crate) struct Cleared;

impl<K, T: Sent<K>> Outcome<T, Post<K, T>> for Cleared {
    ghost then = { HasCleared T.of };
}

impl<K, T: Sent<K>> Lesson<T, Post<K, T>> for Cleared {
    ghost fact = { IsEven };
}

/// An item is taken out.
pub(crate) struct Taken;

impl<K, T: Sent<K>> Outcome<T, Post<K, T>> for Taken {
    ghost then = { HasTaken T.of };
}

impl<K, T: Sent<K>> Lesson<T, Post<K, T>> for Taken {
    ghost fact = { IsEven };
}

/// One part goes to another pass, which has put and taken nothing.
pub(crate) struct MailPart;

impl<K, T: Sent<K>> Split<Post<K, T>> for MailPart {
    ghost left = { λ v. post (v.parts - 1) v.of v.put v.taken };

    ghost right = { λ v. post 1 v.of [] [] };
}

impl<K, T: Sent<K>> Join<Post<K, T>> for MailPart {
    ghost both = { λ v w. post (v.parts + w.parts) v.of (v.put ++ w.put) (v.taken ++ w.taken) };

    ghost spent = { spent_pass };
}

/// A mailbox as a queue under the rule.
pub(crate) type MailQueue<K, T> = RuledArrayQueue<T, Post<K, T>, Fair, Global>;
