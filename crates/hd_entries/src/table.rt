//! A table of entries, whose states stand in blocks of rows.
ghost use Rattle.std.specs.Prelude.{◌≡◌, ◌+◌, ◌<◌, ◌≤◌, ◌++◌, [], ◌∷◌, Some, length, slice_get, slice_index_or, IsOk, OnOk};
ghost use Rattle.hd_tables.specs.declared.chunks.TheConstants.{MOST_ITEMS};
ghost use Rattle.hd_tables.specs.Widths.{HasWidths};

use crate::entry::{ExpandedPlan, Label};
use crate::hashed_row::HashedRow;
use hd_node::Hashed;
use hd_pack::Layout;
use hd_tables::{Chunks, RowBlocks};
use hd_task::{Kid, NoMemory};
use std::alloc::Global;
use std::marker::Model;

/// Entries in order: no growth copies those that are there, and no state has memory of its own.
///
/// Contracts see how many atoms and fluents their states have, the entries, and the room: the
/// number of entries that can be pushed without asking for memory.
#[derive(Debug, Drop)]
pub(crate) struct EntryTable {
    labels: Chunks<Label>,
    /// Of each entry, the state that its plan leads to.
    states: RowBlocks,
}

impl Model for EntryTable {
    ghost use Rattle.std.specs.Prelude.{min};
    ghost use Rattle.hd_entries.specs.Table.{TableView, labelled_entries, AreLabels};

    ghost Value = { TableView };

    ghost view = { λ t. record {
      widths = t.states.widths;
      items = labelled_entries t.labels.items t.states.states;
      room = min t.labels.room t.states.room;
    } };

    ghost invariant = { λ t. AreLabels t.labels.items t.states.states };
}

impl EntryTable {
    /// Returns no entries, and no memory yet.
    pub(crate) fn new(alloc: Global, layout: Layout) -> EntryTable
        ensures atoms { result.widths.atoms ≡ layout.atoms }
        ensures fluents { result.widths.fluents ≡ layout.fluents }
        ensures items { result.items ≡ [] }
    {
        EntryTable {
            labels: Chunks::new(alloc),
            states: RowBlocks::empty(alloc, layout),
        }
    }

    /// Returns how many entries there are.
    pub(crate) fn len(&self) -> usize
        ensures len { result ≡ length self.now.items }
        ensures few { length self.now.items + self.now.room ≤ MOST_ITEMS }
    {
        self.labels.len()
    }

    /// Returns the entry of this number.
    pub(crate) fn at(&self, number: usize) -> ExpandedPlan<'_>
        requires { number < length self.now.items }
        ensures { result ≡ slice_index_or self.now.items number result }
    {
        let label = self.labels.at(number);
        ExpandedPlan {
            kid: label.kid,
            state: HashedRow::known(self.states.at(number), label.hash),
            cost: label.cost,
        }
    }

    /// Returns the entry of this number, if there is such an entry.
    pub(crate) fn get(&self, number: usize) -> Option<ExpandedPlan<'_>>
        ensures { result ≡ slice_get self.now.items number }
    {
        if number < self.len() {
            Some(self.at(number))
        } else {
            None
        }
    }

    /// Makes room for so many entries more.
    ///
    /// # Errors
    /// - `NoMemory`: the entries are as they were, and so is the room that there was.
    pub(crate) fn reserve(&mut self, count: usize) -> Result<(), NoMemory>
        ensures widths { self.new.widths ≡ self.old.widths }
        ensures items { self.new.items ≡ self.old.items }
        ensures room_kept { self.old.room ≤ self.new.room }
        ensures room { OnOk result (count ≤ self.new.room) }
        ensures enough { count ≤ self.old.room → IsOk result }
    {
        self.labels.reserve(count)?;
        self.states.reserve(count)
    }

    /// Adds an entry at the end. It does not allocate.
    pub(crate) fn push(&mut self, kid: Kid, state: &Hashed, cost: u64)
        requires room { 0 < self.old.room }
        requires widths { HasWidths self.old.widths state.now }
        ensures widths { self.new.widths ≡ self.old.widths }
        ensures items { self.new.items ≡ self.old.items
            ++ record { kid = kid; state = state.now; cost = cost } ∷ [] }
        ensures room { self.new.room + 1 ≡ self.old.room }
    {
        self.labels.push(Label {
            kid,
            hash: state.hash(),
            cost,
        });
        self.states.push(state.state());
    }
}
