//! The expanded plans of a task.
ghost use Rattle.hd_entries.specs.Table.{AreWidthsOf};

use crate::entry::Best;
use crate::table::EntryTable;
use hd_pack::Layout;
use hd_task::{Departure, Task};
use hd_zobrist::Words;
use std::alloc::Global;

/// The expanded plans of a task, with the best of them and the first departure.
#[derive(Debug, Drop)]
pub(crate) struct ExpandedPlans<'t> {
    pub(crate) task: &'t Task,
    pub(crate) alloc: Global,
    /// Of the task, for the book's own application.
    pub(crate) words: Words,
    pub(crate) entries: EntryTable,
    pub(crate) best: Option<Best>,
    /// The first departure.
    pub(crate) departure: Option<Departure>,
    // The entries' states have the task's widths.
    ghost fits: { AreWidthsOf task.now entries.widths },
}

impl<'t> ExpandedPlans<'t> {
    ghost use Rattle.std.specs.Prelude.{◌≡◌, [], None};

    /// Returns no expanded plans of a task.
    pub(crate) fn none(alloc: Global, task: &'t Task, words: Words) -> ExpandedPlans<'t>
        ensures task { result.task.now ≡ task.now }
        ensures entries { result.entries.items ≡ [] }
        ensures best { result.best ≡ None }
        ensures departure { result.departure ≡ None }
    {
        ExpandedPlans {
            task,
            alloc,
            words,
            entries: EntryTable::new(alloc, Layout::new(task)),
            best: None,
            departure: None,
        }
    }
}
