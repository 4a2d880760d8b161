//! A commit in two steps: one that may refuse and makes the room, and one that changes the book and
//! can't fail.
ghost use Rattle.std.specs.Prelude.{◌≡◌, ℕ, ◌+◌, ◌<◌, ◌≤◌, ◌^◌, ◌++◌, [], ◌∷◌, List, Some, None, length, map, flat_map, nat_le, option_map, IfErr, OnOk, OnErr};
ghost use Rattle.std.specs.List.{AllByRecursion};
ghost use Rattle.hd_task.specs.declared.plan.TheConstants.{ROOT_PARENT};
ghost use Rattle.hd_tables.specs.Kids.{AreSameKids};
ghost use Rattle.hd_entries.specs.Settling.{entry_of, all_settled, IsOutcomeOfTask};
ghost use Rattle.hd_entries.specs.Holding.{successor_at_entry, parcel_of, released_by, state_of, view_of, IsHeld, IsParcelOf, SettlesEach};
ghost use Rattle.hd_base.specs.Lists.{BeginsWith};
ghost use Rattle.hd_entries.specs.Admitting.{SameButMarks, HasRoomFor, marks_after};
ghost use Rattle.hd_entries.specs.Growing.{entered_by, best_by, departure_by, successor_count, posted_all};
ghost use Rattle.hd_entries.specs.Refusing.{refusal_to, IsRefusalTo};
ghost use Rattle.hd_entries.specs.declared.refusal.Refusal.TheVariants as Refusal;

use crate::Refusal;
use crate::content::EntriesContent;
use crate::settling::{enter, found_after, kids_of, post_all};
use crate::table::EntryTable;
use hd_node::{Batch, Outcome};
use hd_tables::KidTable;
use hd_task::NoMemory;

/// Returns how many outcomes are expansions.
pub(crate) fn count_entries(outcomes: &[Outcome]) -> usize
    ensures count { result ≡ length (flat_map entry_of outcomes.now) }
    ensures few { result ≤ length outcomes.now }
{
    let mut count = 0;
    for outcome in outcomes {
        if let Outcome::Expanded(_) = outcome {
            count += 1;
        }
    }
    count
}

/// Makes room for so many entries and for the successors that outcomes add.
fn make_room(
    entries: &mut EntryTable,
    kids: &mut KidTable,
    outcomes: &[Outcome],
    entry_count: usize,
) -> Result<(), NoMemory>
    requires fits { successor_count outcomes.now < 2 ^ 64 }
    ensures widths { entries.new.widths ≡ entries.old.widths }
    ensures entries { entries.new.items ≡ entries.old.items }
    ensures kids { AreSameKids kids.old kids.new }
    ensures room_entries { OnOk result (entry_count ≤ entries.new.room) }
    ensures room_entered { OnOk result (entry_count ≤ kids.new.entry_room) }
    ensures room_kids { OnOk result (successor_count outcomes.now ≤ kids.new.kid_room) }
{
    let kid_count = kids_of(outcomes);
    entries.reserve(entry_count)?;
    kids.reserve(entry_count, kid_count)
}

impl<'t> EntriesContent<'t> {
    /// Reports whether there is room for so many entries more.
    pub(crate) fn has_room(&self, more: usize) -> bool
        requires held { IsHeld self.now }
        ensures { result ≡ nat_le (length (state_of self.now).entries + more) self.now.most }
    {
        let entries = self.expanded.entries.len() as u64;
        entries.saturating_add(more as u64) <= self.most
    }

    /// Makes room for a batch of these outcomes, and settles their successors; or refuses it.
    pub(crate) fn admit(&mut self, outcomes: &[Outcome<'t>]) -> Result<(), Refusal>
        requires held { IsHeld self.old }
        requires fits { successor_count outcomes.now < 2 ^ 64 }
        ensures same { SameButMarks self.old self.new }
        ensures accepted { OnOk result (refusal_to (view_of self.old) outcomes.now ≡ None) }
        ensures refused { IfErr result (IsRefusalTo (view_of self.old) outcomes.now) }
        ensures marks { OnOk result (self.new.kids.marks
            ≡ marks_after (state_of self.old) outcomes.now) }
        ensures err { OnErr result (self.new.kids.marks ≡ self.old.kids.marks) }
        ensures room { OnOk result (HasRoomFor self.new outcomes.now) }
    {
        let entry_count = count_entries(outcomes);
        if !self.has_room(entry_count) {
            return Err(Refusal::Full);
        }
        let growing = &mut self.expanded;
        make_room(&mut growing.entries, &mut self.kids, outcomes, entry_count)?;
        let expanded = &self.expanded;
        match expanded.settle_all(&mut self.kids, &mut self.reached, outcomes) {
            Ok(()) => Ok(()),
            Err(refusal) => Err(refusal),
        }
    }

    /// Adds a batch that is not refused; there is room for it, and its successors are settled.
    pub(crate) fn accept(&mut self, outcomes: &[Outcome<'t>])
        requires of_task { AllByRecursion
            (IsOutcomeOfTask self.old.expanded.task.now) outcomes.now }
        requires room { HasRoomFor self.old outcomes.now }
        requires few { self.old.kids.entries + length (flat_map entry_of outcomes.now)
            ≤ ROOT_PARENT }
        ensures task { self.new.expanded.task.now ≡ self.old.expanded.task.now }
        ensures most { self.new.most ≡ self.old.most }
        ensures entries { self.new.expanded.entries.items ≡ self.old.expanded.entries.items
            ++ entered_by outcomes.now }
        ensures kids { self.new.kids ≡ posted_all self.old.kids outcomes.now }
        ensures best { self.new.expanded.best ≡ best_by self.old.expanded.best
            (length self.old.expanded.entries.items) outcomes.now }
        ensures departure { self.new.expanded.departure
            ≡ departure_by self.old.expanded.departure
            (length self.old.expanded.entries.items) outcomes.now }
    {
        post_all(&mut self.kids, outcomes);
        let expanded = &mut self.expanded;
        let first = expanded.entries.len();
        let (best, departure) = found_after(expanded.best, expanded.departure, first, outcomes);
        expanded.best = best;
        expanded.departure = departure;
        enter(expanded.task, &mut expanded.entries, outcomes);
    }

    /// Takes a batch, or refuses it, as [`crate::Entries::commit`] says.
    pub(crate) fn commit(&mut self, batch: &Batch<'t>) -> Result<(), Refusal>
        requires held { IsHeld self.old }
        requires of_task { AllByRecursion
            (IsOutcomeOfTask self.old.expanded.task.now) batch.now.outcomes }
        ensures held { IsHeld self.new }
        ensures task { self.new.expanded.task.now ≡ self.old.expanded.task.now }
        ensures most { self.new.most ≡ self.old.most }
        ensures begins { BeginsWith (map successor_at_entry self.new.expanded.entries.items)
            (map successor_at_entry self.old.expanded.entries.items) }
        ensures grown { OnOk result (map successor_at_entry self.new.expanded.entries.items
            ≡ map successor_at_entry self.old.expanded.entries.items
            ++ flat_map entry_of batch.now.outcomes) }
        ensures accepted { OnOk result (refusal_to (view_of self.old) batch.now.outcomes ≡ None) }
        ensures state { OnOk result (state_of self.new
            ≡ all_settled (state_of self.old) batch.now.outcomes) }
        ensures settled { OnOk result
            (SettlesEach (state_of self.old) (state_of self.new) batch.now.outcomes) }
        ensures refused { IfErr result (IsRefusalTo (view_of self.old) batch.now.outcomes) }
        ensures err { OnErr result (view_of self.new ≡ view_of self.old) }
    {
        let outcomes = batch.outcomes.as_slice();
        match self.admit(outcomes) {
            Ok(()) => {
                self.accept(outcomes);
                Ok(())
            }
            Err(refusal) => Err(refusal),
        }
    }
}
