//! How many slots hold a node, counted by groups, so that a place is found without going through
//! all of them.
ghost use Rattle.std.specs.Prelude.{◌≡◌, ◌+◌, ◌^◌, ◌<◌, ◌≤◌, ℕ, [], length, OnOk};
ghost use Rattle.hd_open.specs.Counts.{start_of, IsRaised, AreSome, AreBelowLimit};

use std::alloc::Global;

/// How many slots a group has: as many as a word has bits.
pub(crate) const GROUP: usize = 64;

/// Which slots hold a node; counts of groups of slots, each over as many groups as the lowest one
/// bit of its number says (the binary indexed tree: Fenwick 1994); and the count of all.
#[derive(Drop)]
pub(crate) struct NodeCounts {
    /// A word for each group, with a bit for each slot.
    pub(crate) marks: Vec<u64>,
    /// At `end - 1` stands how many nodes the groups from `start_of(end)` up to `end` have.
    pub(crate) parts: Vec<usize>,
    pub(crate) all: usize,
}

/// Returns the first group that is counted in the part which ends before this one: the number
/// without its lowest one bit.
pub(crate) fn start_of(end: usize) -> usize
    requires { 0 < end }
    ensures value { result ≡ start_of end }
    ensures less { result < end }
{
    end & (end - 1)
}

/// Counts one more in each part that has a group.
pub(crate) fn raise_parts(parts: &mut Vec<usize>, group: usize)
    requires within { group < length parts.old.items }
    requires fits { AreBelowLimit parts.old.items group }
    ensures { IsRaised parts.old.items parts.new.items group }
{
    let mut at = group;
    while at < parts.len() {
        parts[at] += 1;
        at |= at + 1;
    }
}

/// Counts one less in each part that has a group.
pub(crate) fn lower_parts(parts: &mut Vec<usize>, group: usize)
    requires within { group < length parts.old.items }
    requires some { AreSome parts.old.items group }
    ensures { IsRaised parts.new.items parts.old.items group }
{
    let mut at = group;
    while at < parts.len() {
        parts[at] -= 1;
        at |= at + 1;
    }
}

impl NodeCounts {
    /// Counts of no slots.
    pub(crate) fn empty(alloc: Global) -> NodeCounts
        ensures marks { result.marks.items ≡ [] }
        ensures parts { result.parts.items ≡ [] }
        ensures all { result.all ≡ 0 }
    {
        NodeCounts {
            marks: Vec::new(alloc),
            parts: Vec::new(alloc),
            all: 0,
        }
    }
}
