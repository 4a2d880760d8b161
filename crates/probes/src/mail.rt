//! Probes of a mailbox.
ghost use Rattle.std.specs.Prelude.{◌≡◌, ◌<◌, length};
ghost use Rattle.hd_desk.specs.Hands.{IsFor};

use crate::texts::add;
use hd_desk::{Hands, Mailboxes, Sent};
use std::alloc::{AllocError, Global};
use std::sync::Wait;

/// What all letters of the probes are of.
const OF: u64 = 7;

/// What is sent: what it is of, and its number.
#[derive(Clone, Copy, Debug, PartialEq, Eq)]
struct Letter {
    of: u64,
    number: u64,
}

impl Sent<u64> for Letter {
    ghost of = { λ l. l.of };
}

/// Numbers of letters: of the next one that is sent, and of the next one that is due.
#[derive(Clone, Copy)]
struct Sorting {
    sent: u64,
    due: u64,
    /// Whether all that came was due.
    ordered: bool,
}

/// Sends as many letters, or fewer if one comes back: how many.
fn send(
    boxes: &Mailboxes<u64, Letter>,
    hands: &mut Hands<u64, Letter>,
    sorting: &mut Sorting,
    count: u64,
) -> u64
    requires of { IsFor boxes.now hands.old }
    requires there { 0 < length boxes.now }
    requires fits { hands.old.of ≡ OF }
    ensures of { IsFor boxes.now hands.new }
    ensures same { hands.new.of ≡ hands.old.of }
{
    for done in 0..count {
        let letter = Letter {
            of: OF,
            number: sorting.sent,
        };
        if boxes.push(hands, 0, letter).is_err() {
            return done;
        }
        sorting.sent = sorting.sent.wrapping_add(1);
    }
    count
}

/// Takes as many letters, or fewer if no more are there: how many.
fn receive(
    boxes: &Mailboxes<u64, Letter>,
    hands: &mut Hands<u64, Letter>,
    sorting: &mut Sorting,
    count: u64,
) -> u64
    requires of { IsFor boxes.now hands.old }
    requires there { 0 < length boxes.now }
    ensures of { IsFor boxes.now hands.new }
    ensures same { hands.new.of ≡ hands.old.of }
{
    for done in 0..count {
        let Some(letter) = boxes.pop(hands, 0) else {
            return done;
        };
        sorting.ordered = sorting.ordered && letter.number == sorting.due;
        sorting.due = sorting.due.wrapping_add(1);
    }
    count
}

/// Answers moves one after the other.
fn play(
    alloc: Global,
    boxes: &Mailboxes<u64, Letter>,
    hands: &mut Hands<u64, Letter>,
    moves: &str,
) -> Result<Option<String>, AllocError>
    requires of { IsFor boxes.now hands.old }
    requires there { 0 < length boxes.now }
    requires fits { hands.old.of ≡ OF }
{
    let mut sorting = Sorting {
        sent: 0,
        due: 0,
        ordered: true,
    };
    let mut list = String::new(alloc);
    for step in moves.split(' ') {
        let (sign, count) = match (step.strip_prefix("+"), step.strip_prefix("-")) {
            (Some(count), _) => ("+", count),
            (_, Some(count)) => ("-", count),
            _ => return Ok(None),
        };
        let Ok(count) = count.parse::<u64>() else {
            return Ok(None);
        };
        let done = if sign == "+" {
            send(boxes, hands, &mut sorting, count)
        } else {
            receive(boxes, hands, &mut sorting, count)
        };
        let text = format!(in alloc; "{sign}{done}")?;
        add(&mut list, text.as_str())?;
    }
    if !sorting.ordered {
        add(&mut list, "not in order")?;
    }
    Ok(Some(list))
}

/// Answers `mailbox MOVES`: `+N` sends N letters, one that comes back is sent again by the next
/// `+`; `-N` takes N. The answer reports how many went and came.
pub fn mailbox<R: Wait>(rt: &R, alloc: Global, moves: &str) -> Result<Option<String>, AllocError> {
    let seed = Letter { of: OF, number: 0 };
    let (boxes, mut hands) = Mailboxes::new(rt, alloc, 1, &OF, seed)?;
    play(alloc, &boxes, &mut hands, moves)
}
