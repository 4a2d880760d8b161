//! How many groups entries stand in.
ghost use Rattle.std.specs.Prelude.{◌≡◌, None};
ghost use Rattle.hd_image.specs.Groups.{follows, count_groups};

use crate::Entry;

/// Reports whether an entry stands at once after the one before it, if there is one: between two
/// groups are a gate and a count.
fn follows(width: u64, last: Option<u64>, at: u64) -> bool
    ensures { result ≡ follows width last at }
{
    match last {
        Some(last) => at >= last && at - last == width,
        None => false,
    }
}

/// Returns how many groups entries of this width stand in, by their places.
pub(crate) fn groups_of(entries: &[Entry], width: u64) -> u64
    ensures { result ≡ count_groups width None entries.now }
{
    let mut groups = 0u64;
    let mut last = None;
    for entry in entries {
        if !follows(width, last, entry.at) {
            groups += 1;
        }
        last = Some(entry.at);
    }
    groups
}
