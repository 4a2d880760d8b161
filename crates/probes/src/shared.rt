//! Probes of the bound word and of an open list.
ghost use Rattle.std.specs.Prelude.{◌≡◌};

use crate::texts::add;
use hd_desk::{BoundSeat, BoundWord};
use hd_open::{OpenList, Waits};
use std::alloc::{AllocError, Global};

/// Appends what a word loads.
fn add_bound(
    alloc: Global,
    word: &BoundWord,
    seat: &mut BoundSeat,
    list: &mut String,
) -> Result<(), AllocError>
    requires { seat.old.of ≡ word.now.of }
    ensures { seat.new.of ≡ word.now.of }
{
    match word.load(seat) {
        Some(cost) => {
            let text = format!(in alloc; "{cost}")?;
            add(list, text.as_str())
        }
        None => add(list, "none"),
    }
}

/// Offers costs one after the other, and appends what the word then loads: whether all are
/// numbers.
fn offer_all(
    alloc: Global,
    word: &BoundWord,
    seat: &mut BoundSeat,
    offers: &str,
    list: &mut String,
) -> Result<bool, AllocError>
    requires { seat.old.of ≡ word.now.of }
{
    for offer in offers.split(' ') {
        let Ok(cost) = offer.parse::<u64>() else {
            return Ok(false);
        };
        word.offer(seat, cost);
        add_bound(alloc, word, seat, list)?;
    }
    Ok(true)
}

/// Answers `bound COSTS`: what a fresh word loads, and then after each offer.
pub fn bounds(alloc: Global, offers: &str) -> Result<Option<String>, AllocError> {
    let (word, mut seat) = BoundWord::new(alloc, None)?;
    let mut list = String::new(alloc);
    add_bound(alloc, &word, &mut seat, &mut list)?;
    match offer_all(alloc, &word, &mut seat, offers, &mut list)? {
        true => Ok(Some(list)),
        false => Ok(None),
    }
}

/// A node of an open list: its number, and its cost with its estimate.
#[derive(Clone, Copy, Debug, PartialEq, Eq)]
struct Node {
    number: usize,
    sum: Option<u128>,
}

impl Waits for Node {
    ghost total = { λ n. n.sum };

    fn total(&self) -> Option<u128> {
        self.sum
    }
}

/// Answers `best TOTALS`: the numbers of the nodes, the best first; `dead` has no total.
pub fn best_first(alloc: Global, totals: &str) -> Result<Option<String>, AllocError> {
    let mut open = OpenList::empty(alloc);
    for (number, total) in totals.split(' ').enumerate() {
        let sum = total.parse::<u128>().ok();
        if let Err((_, error)) = open.push(Node { number, sum }) {
            return Err(error);
        }
    }
    let mut list = String::new(alloc);
    for _ in 0..open.len() {
        if let Some(node) = open.take_best() {
            let text = format!(in alloc; "{}", node.number)?;
            add(&mut list, text.as_str())?;
        }
    }
    Ok(Some(list))
}
