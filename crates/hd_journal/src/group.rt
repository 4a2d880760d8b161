//! Groups of entries, and what reports that one was appended.
ghost use Rattle.std.specs.Prelude.{◌≡◌, ◌≤◌, length};
ghost use Rattle.hd_image.specs.declared.entry.TheConstants.{MAX_GROUP};

use hd_image::{Kid, MAX_GROUP};
use std::marker::Model;

/// Entries that are to be appended together: from 1 to [`MAX_GROUP`].
///
/// It must be spent: it can't be let go.
#[must_use]
#[derive(Debug)]
pub struct Group {
    first: u64,
    kids: Vec<Kid>,
}

impl Model for Group {
    ghost use Rattle.std.specs.Prelude.{◌≤◌, length};
    ghost use Rattle.hd_image.specs.declared.entry.TheConstants.{MAX_GROUP};
    ghost use Rattle.hd_journal.specs.Group.{GroupView};

    ghost Value = { GroupView };

    ghost view = { λ g. record { first = g.first; kids = g.kids.items } };

    ghost invariant = { λ g. (1 ≤ length g.kids.items) × (length g.kids.items ≤ MAX_GROUP) };
}

impl Group {
    /// Returns the group of these pairs, whose numbers are those from `first` on.
    pub fn of(first: u64, kids: Vec<Kid>) -> Group
        requires some { 1 ≤ length kids.items }
        requires most { length kids.items ≤ MAX_GROUP }
        ensures { result ≡ record { first = first; kids = kids.items } }
    {
        Group { first, kids }
    }

    /// Returns the number of the first entry, and the pairs; the group is spent.
    pub fn parts(self) -> (u64, Vec<Kid>)
        ensures first { result.0 ≡ self.first }
        ensures kids { result.1.items ≡ self.kids }
        ensures some { 1 ≤ length self.kids }
        ensures most { length self.kids ≤ MAX_GROUP }
    {
        let Group { first, kids } = self;
        (first, kids)
    }

    /// Returns the number of the first entry.
    pub(crate) fn first(&self) -> u64
        ensures { result ≡ self.now.first }
    {
        self.first
    }

    /// Returns the pairs.
    pub(crate) fn kids(&self) -> &[Kid]
        ensures kids { result.now ≡ self.now.kids }
        ensures some { 1 ≤ length self.now.kids }
        ensures most { length self.now.kids ≤ MAX_GROUP }
    {
        self.kids.as_slice()
    }
}

/// Says that a group was appended.
///
/// It must be spent: it can't be let go. Only [`crate::Journal::append`] makes one.
#[must_use]
#[derive(Debug)]
pub struct Flushed {
    first: u64,
    kids: Vec<Kid>,
}

impl Model for Flushed {
    ghost use Rattle.hd_journal.specs.Group.{GroupView};

    ghost Value = { GroupView };

    ghost view = { λ f. record { first = f.first; kids = f.kids.items } };
}

impl Flushed {
    /// Says that this group was appended.
    pub(crate) fn of(group: Group) -> Flushed
        ensures { result ≡ group }
    {
        let (first, kids) = group.parts();
        Flushed { first, kids }
    }

    /// Returns the number of the first entry, and the pairs; what said so is spent.
    pub fn parts(self) -> (u64, Vec<Kid>)
        ensures first { result.0 ≡ self.first }
        ensures kids { result.1.items ≡ self.kids }
    {
        let Flushed { first, kids } = self;
        (first, kids)
    }
}
