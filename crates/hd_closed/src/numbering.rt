//! The numbers of outcomes.
ghost use Rattle.std.specs.Prelude.{◌≡◌, ℕ, ◌+◌, ◌<◌, ◌^◌, slice_index};
ghost use Rattle.hd_closed.specs.Numbering.{numbered};

use hd_node::By;

/// Returns what names an outcome, once the batch that was given last is numbered from `first` on.
/// Of each outcome of that batch, `given` has how many expansions stand before it.
pub fn numbered(first: u64, given: &[u64], by: By) -> By
    requires { (k : ℕ) → first + slice_index given.now k < 2 ^ 64 }
    ensures { result ≡ numbered first given.now by }
{
    match by {
        By::Entry(entry) => By::Entry(entry),
        By::Here(place) => {
            if place < given.len() {
                By::Entry(first + given[place])
            } else {
                By::Here(place - given.len())
            }
        }
    }
}
