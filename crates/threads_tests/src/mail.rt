//! Tests of the mailboxes.
ghost use Rattle.std.specs.Prelude.{◌≡◌, ◌<◌, length};
ghost use Rattle.std.specs.Thread.{IsSync};
ghost use Rattle.hd_desk.specs.Hands.{IsFor, AreShareable, parts_of};

use hd_desk::{Hands, MAILBOX_PLACES, Mailboxes, Sent};
use std::process::Abort;
use std::sync::Wait;
use std::test::Fail;
use std::thread;
use std::thread::Threads;

/// What is sent: what it is of, and its number.
#[derive(Clone, Copy, Debug, PartialEq, Eq)]
struct Letter {
    of: u64,
    number: u64,
}

impl Sent<u64> for Letter {
    ghost of = { λ l. l.of };
}

/// Puts in letters with the numbers from one on and below another: each finds room.
fn fill(
    rt: &impl Abort,
    boxes: &Mailboxes<u64, Letter>,
    hands: &mut Hands<u64, Letter>,
    of: u64,
    numbers: [u64; 2],
)
    requires of { IsFor boxes.now hands.old }
    requires there { 0 < length boxes.now }
    requires fits { of ≡ hands.old.of }
    ensures of { IsFor boxes.now hands.new }
    ensures same { hands.new.of ≡ hands.old.of }
    ensures parts { parts_of hands.new ≡ parts_of hands.old }
{
    for number in numbers[0]..numbers[1] {
        let letter = Letter { of, number };
        assert!(rt; boxes.push(hands, 0, letter).is_ok());
    }
}

/// Takes out letters: they have the numbers from one on and below another.
fn empty(
    rt: &impl Abort,
    boxes: &Mailboxes<u64, Letter>,
    hands: &mut Hands<u64, Letter>,
    of: u64,
    numbers: [u64; 2],
)
    requires of { IsFor boxes.now hands.old }
    requires there { 0 < length boxes.now }
    ensures of { IsFor boxes.now hands.new }
    ensures same { hands.new.of ≡ hands.old.of }
    ensures parts { parts_of hands.new ≡ parts_of hands.old }
{
    for number in numbers[0]..numbers[1] {
        assert!(rt; boxes.pop(hands, 0) == Some(Letter { of, number }));
    }
}

#[test]
fn a_full_mailbox_hands_the_letter_back(rt: HostRuntime) -> Result<(), Fail> {
    let of = 7;
    let places = MAILBOX_PLACES as u64;
    assert_eq!(rt; places, 1024);
    let seed = Letter { of, number: 0 };
    let (boxes, mut hands) = Mailboxes::new(&rt, rt.alloc(), 1, &of, seed)?;
    fill(&rt, &boxes, &mut hands, of, [0, places]);
    let more = Letter { of, number: places };
    assert!(rt; boxes.push(&mut hands, 0, more) == Err(more));
    empty(&rt, &boxes, &mut hands, of, [0, 1]);
    assert!(rt; boxes.push(&mut hands, 0, more) == Ok(()));
    empty(&rt, &boxes, &mut hands, of, [1, places + 1]);
    assert!(rt; boxes.pop(&mut hands, 0) == None);
    Ok(())
}

/// How many letters each of two workers sends to the other.
const SENT: u64 = 3_000;

/// Sends letters to one mailbox, and takes as many out of another; answers the sum of their
/// numbers.
fn exchange<'t, R: Wait>(
    rt: &R,
    boxes: &Mailboxes<u64, Letter>,
    mut hands: Hands<'t, u64, Letter>,
    of: u64,
    to: usize,
    from: usize,
) -> (Hands<'t, u64, Letter>, u64)
    requires of { IsFor boxes.now hands }
    requires to { to < length boxes.now }
    requires there { from < length boxes.now }
    requires fits { of ≡ hands.of }
    ensures of { IsFor boxes.now result.0 }
{
    let mut sent = 0;
    let mut came = 0;
    let mut sum: u64 = 0;
    for _ in rt.forever() {
        if sent >= SENT && came >= SENT {
            break;
        }
        let letter = Letter { of, number: sent };
        if sent < SENT && boxes.push(&mut hands, to, letter).is_ok() {
            sent += 1;
        }
        if came >= SENT {
            continue;
        }
        match boxes.pop(&mut hands, from) {
            Some(letter) => {
                came += 1;
                sum = sum.wrapping_add(letter.number);
            }
            None => thread::yield_now(),
        }
    }
    (hands, sum)
}

/// Returns two workers send letters to one another: the sums of what comes to each.
fn exchanged<R: Threads + Wait + Sync>(
    rt: &R,
    boxes: &Mailboxes<u64, Letter>,
    hands: Hands<u64, Letter>,
    others: Hands<u64, Letter>,
    of: u64,
) -> (u64, u64)
    requires of { IsFor boxes.now hands }
    requires others { IsFor boxes.now others }
    requires two { length boxes.now ≡ 2 }
    requires fits { of ≡ hands.of }
    requires others_fit { of ≡ others.of }
{
    let ((_, one), (_, two)) = thread::join(
        rt,
        move ||
            requires { IsFor boxes.now hands × (length boxes.now ≡ 2) × (of ≡ hands.of) }
            ensures { IsFor boxes.entry.now result.0 }
        { exchange(rt, boxes, hands, of, 1, 0) },
        move ||
            requires { IsFor boxes.now others × (length boxes.now ≡ 2) × (of ≡ others.of) }
            ensures { IsFor boxes.entry.now result.0 }
        { exchange(rt, boxes, others, of, 0, 1) },
    );
    (one, two)
}

#[test]
fn workers_send_letters_to_one_another(rt: HostRuntime) -> Result<(), Fail> {
    let of = 7;
    let seed = Letter { of, number: 0 };
    let (boxes, mut hands) = Mailboxes::new(&rt, rt.alloc(), 2, &of, seed)?;
    let others = boxes.share(rt.alloc(), &mut hands)?;
    let sum = SENT * (SENT - 1) / 2;
    assert!(rt; exchanged(&rt, &boxes, hands, others, of) == (sum, sum));
    Ok(())
}

#[test]
fn the_last_pop_tells_that_nothing_is_left(rt: HostRuntime) -> Result<(), Fail> {
    let of = 7;
    let letter = Letter { of, number: 3 };
    let (boxes, mut hands) = Mailboxes::new(&rt, rt.alloc(), 1, &of, letter)?;
    assert!(rt; boxes.pop_last(&rt, &mut hands, 0) == None);
    fill(&rt, &boxes, &mut hands, of, [3, 4]);
    boxes.tally(&mut hands, 0);
    assert!(rt; boxes.pop_last(&rt, &mut hands, 0) == Some(letter));
    assert!(rt; boxes.pop_last(&rt, &mut hands, 0) == None);
    Ok(())
}

#[test]
fn hands_that_were_shared_are_taken_in_again(rt: HostRuntime) -> Result<(), Fail> {
    let of = 7;
    let letter = Letter { of, number: 3 };
    let (boxes, mut hands) = Mailboxes::new(&rt, rt.alloc(), 1, &of, letter)?;
    let mut others = boxes.share(rt.alloc(), &mut hands)?;
    fill(&rt, &boxes, &mut others, of, [3, 5]);
    empty(&rt, &boxes, &mut hands, of, [3, 4]);
    boxes.absorb(&mut hands, others);
    empty(&rt, &boxes, &mut hands, of, [4, 5]);
    assert!(rt; boxes.pop(&mut hands, 0) == None);
    Ok(())
}
