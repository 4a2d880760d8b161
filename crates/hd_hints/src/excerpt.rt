//! A line of a text, with a mark under a place of it.

use crate::spot::{Spot, spot_of};
use crate::words::push_shown;
use hd_base::NoMemory;

/// The most bytes of a line that are shown.
const MOST_SHOWN: usize = 76;

/// The most bytes before the mark of a line that is shown from its first byte on.
const MOST_BEFORE: usize = 60;

/// How many bytes before the mark are shown of any other line.
const BEFORE: usize = 30;

/// Returns the place from which on a line is shown, so that the mark is well within it.
fn shown_from(spot: Spot, at: usize) -> usize {
    if at.saturating_sub(spot.from) <= MOST_BEFORE {
        spot.from
    } else {
        at.saturating_sub(BEFORE)
    }
}

/// Returns the place up to which a line is shown: a carriage return at its end is left out.
fn shown_to(text: &[u8], spot: Spot, from: usize, at: usize) -> usize {
    let end = spot.to.min(from.saturating_add(MOST_SHOWN)).min(text.len());
    if end > at && text[end - 1] == b'\r' {
        return end - 1;
    }
    end
}

/// Appends the line of the place `at`, and a line with a mark under it, each after two spaces. A
/// long line is cut around the mark. Of each byte that is no printable one of ASCII a dot is shown.
pub fn push_excerpt(out: &mut String, text: &[u8], at: usize) -> Result<(), NoMemory> {
    let at = at.min(text.len());
    let spot = spot_of(text, at);
    let from = shown_from(spot, at);
    let to = shown_to(text, spot, from, at);
    out.push_str("  ")?;
    if from < to && to <= text.len() {
        push_shown(out, &text[from..to])?;
    }
    out.push_str("\n  ")?;
    for _ in from..at {
        out.push_str(" ")?;
    }
    out.push_str("^\n")
}
