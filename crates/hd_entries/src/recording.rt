//! An expansion that was made again becomes an entry: it was judged before, and is not judged
//! again.
ghost use Rattle.std.specs.Prelude.{◌≡◌, ◌<◌, ◌≤◌, ◌++◌, [], ◌∷◌, Some, false, true, length, slice_get, option_map, OnOk, OnErr};
ghost use Rattle.std.specs.Option.{option_or};
ghost use Rattle.hd_task.specs.declared.plan.TheConstants.{ROOT_PARENT};
ghost use Rattle.hd_task.specs.Expansions.{goal_cost, departure_at};
ghost use Rattle.hd_task.specs.Plans.{node};
ghost use Rattle.hd_entries.specs.Settling.{is_marked, is_posted, knows_parent, node_of, place_of};
ghost use Rattle.hd_entries.specs.Holding.{state_of, view_of, IsHeld};
ghost use Rattle.hd_entries.specs.Admitting.{SameButMarks};
ghost use Rattle.hd_entries.specs.Growing.{actions_of, better, with_kids};
ghost use Rattle.hd_entries.specs.Waiting.{IsExpansionTo};

use crate::content::EntriesContent;
use crate::settling::{better, cost_at_goal, departure_with, post_actions};
use hd_node::Outline;
use hd_task::NoMemory;
use std::alloc::Global;

impl<'t> EntriesContent<'t> {
    /// Makes room for one entry more, which has so many successors.
    ///
    /// # Errors
    /// - `NoMemory`: there is none.
    fn make_room_for(&mut self, successors: usize) -> Result<(), NoMemory>
        ensures same { SameButMarks self.old self.new }
        ensures marks { self.new.kids.marks ≡ self.old.kids.marks }
        ensures entry { OnOk result (0 < self.new.expanded.entries.room) }
        ensures entered { OnOk result (0 < self.new.kids.entry_room) }
        ensures successors { OnOk result (successors ≤ self.new.kids.kid_room) }
    {
        let expanded = &mut self.expanded;
        expanded.entries.reserve(1)?;
        self.kids.reserve(1, successors)
    }

    /// Adds an expansion, by its outline; there is room for it, and its successor is settled.
    fn add(&mut self, outline: &Outline<'t>)
        requires task { outline.now.task ≡ self.old.expanded.task.now }
        requires entry { 0 < self.old.expanded.entries.room }
        requires entered { 0 < self.old.kids.entry_room }
        requires successors { length outline.now.children ≤ self.old.kids.kid_room }
        requires few { self.old.kids.entries < ROOT_PARENT }
        ensures task { self.new.expanded.task.now ≡ self.old.expanded.task.now }
        ensures most { self.new.most ≡ self.old.most }
        ensures entries { self.new.expanded.entries.items ≡ self.old.expanded.entries.items
            ++ record { kid = outline.now.kid; state = outline.now.state; cost = outline.now.cost } ∷ [] }
        ensures kids { self.new.kids
            ≡ with_kids self.old.kids (actions_of outline.now.children) }
        ensures best { self.new.expanded.best ≡ better self.old.expanded.best
            (length self.old.expanded.entries.items)
            (goal_cost outline.now.task (Some (node outline.now.state outline.now.cost))) }
        ensures departure { self.new.expanded.departure ≡ option_or self.old.expanded.departure
            (option_map (departure_at (length self.old.expanded.entries.items))
            (slice_get outline.now.departures 0)) }
    {
        post_actions(&mut self.kids, outline.actions());
        let expanded = &mut self.expanded;
        let entry = expanded.entries.len();
        let cost = cost_at_goal(outline.goal(), outline.cost());
        expanded.best = better(expanded.best, entry, cost);
        let departures = outline.departures();
        expanded.departure = departure_with(expanded.departure, entry as u64, departures);
        let entries = &mut expanded.entries;
        entries.push(outline.kid(), outline.hashed(), outline.cost());
    }

    /// Makes an expansion the next entry, by its outline: that of the successor at a place, which
    /// is not settled.
    ///
    /// # Errors
    /// - `NoMemory`: there is no room for it.
    pub(crate) fn record(&mut self, outline: &Outline<'t>, place: usize) -> Result<(), NoMemory>
        requires held { IsHeld self.old }
        requires task { outline.now.task ≡ self.old.expanded.task.now }
        requires room { length self.old.expanded.entries.items < self.old.most }
        requires known { knows_parent (state_of self.old) outline.now.kid ≡ true }
        requires posted { is_posted (state_of self.old) outline.now.kid ≡ true }
        requires place { place ≡ place_of (state_of self.old) outline.now.kid }
        requires unsettled { is_marked (state_of self.old) outline.now.kid ≡ false }
        requires leads { node_of (state_of self.old) outline.now.kid
            ≡ Some (node outline.now.state outline.now.cost) }
        ensures held { IsHeld self.new }
        ensures task { self.new.expanded.task.now ≡ self.old.expanded.task.now }
        ensures most { self.new.most ≡ self.old.most }
        ensures expanded { OnOk result
            (IsExpansionTo (state_of self.old) outline.now.kid (state_of self.new)) }
        ensures err { OnErr result (view_of self.new ≡ view_of self.old) }
    {
        self.make_room_for(outline.actions().len())?;
        self.kids.settle(place);
        self.add(outline);
        Ok(())
    }
}
