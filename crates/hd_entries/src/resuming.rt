//! Entries are made again from a list of their successors.
ghost use Rattle.std.specs.Prelude.{◌≡◌, ◌+◌, ◌<◌, ◌≤◌, ◌++◌, ◌⊎◌, [], ◌∷◌, None, Some, false, true, length, IfOk, IfErr, OnOk, OnErr};
ghost use Rattle.hd_task.specs.declared.plan.TheConstants.{ROOT_PARENT};
ghost use Rattle.std.specs.List.{AllByRecursion};
ghost use Rattle.hd_task.specs.Plans.{IsStateOf, node};
ghost use Rattle.hd_node.specs.Children.{ChildView};
ghost use Rattle.hd_entries.specs.Settling.{is_marked, is_posted, knows_parent, node_of, place_of};
ghost use Rattle.hd_entries.specs.Holding.{state_of, view_of, IsHeld};
ghost use Rattle.hd_entries.specs.Resuming.{fault_at, first_fault, resumed_state, IsEntered, IsFaultOf};
ghost use Rattle.hd_entries.specs.Waiting.{IsAgain, IsExpansionTo};
ghost use Rattle.hd_entries.specs.declared.refusal.Refusal.TheVariants as Refusal;

use crate::Refusal;
use crate::content::EntriesContent;
use crate::hearing::{Listener, tell};
use hd_node::{Children, Expansion, Outline, Parcel};
use hd_pack::SpareBlocks;
use hd_successors::Successors;
use hd_task::{Kid, NoMemory, Task};
use std::alloc::Global;

impl<'t> EntriesContent<'t> {
    /// Returns the place of a successor that can be the next entry.
    ///
    /// # Errors
    /// - Why it can't.
    fn test_next(&self, kid: Kid) -> Result<usize, Refusal>
        requires held { IsHeld self.now }
        requires again { state_of self.now
            ≡ resumed_state self.now.expanded.task.now (state_of self.now).entries }
        ensures known { OnOk result (knows_parent (state_of self.now) kid ≡ true) }
        ensures posted { OnOk result (is_posted (state_of self.now) kid ≡ true) }
        ensures unsettled { OnOk result (is_marked (state_of self.now) kid ≡ false) }
        ensures place { IfOk result (λ n. n ≡ place_of (state_of self.now) kid) }
        ensures free { OnOk result (fault_at self.now.expanded.task.now
            (state_of self.now).entries kid ≡ None) }
        ensures fault { IfErr result (λ r. fault_at self.now.expanded.task.now
            (state_of self.now).entries kid ≡ Some r) }
    {
        if !self.expanded.knows_parent(kid) {
            return Err(Refusal::UnknownParent);
        }
        let Some(place) = self.kids.place_of(kid) else {
            return Err(Refusal::NotAKid);
        };
        if self.kids.is_settled(place) {
            return Err(Refusal::SettledBefore);
        }
        Ok(place)
    }

    /// Expands the parcel of the successor at a place, which is not settled.
    ///
    /// # Errors
    /// - `NoMemory`.
    fn expand_again(
        &mut self,
        alloc: Global,
        successors: &mut Successors<'t>,
        parcel: Parcel<'t>,
        place: usize,
    ) -> Result<(), NoMemory>
        requires held { IsHeld self.old }
        requires index { successors.old.task ≡ self.old.expanded.task.now }
        requires task { parcel.task ≡ self.old.expanded.task.now }
        requires room { length self.old.expanded.entries.items < self.old.most }
        requires known { knows_parent (state_of self.old) parcel.kid ≡ true }
        requires posted { is_posted (state_of self.old) parcel.kid ≡ true }
        requires place { place ≡ place_of (state_of self.old) parcel.kid }
        requires unsettled { is_marked (state_of self.old) parcel.kid ≡ false }
        requires leads { node_of (state_of self.old) parcel.kid
            ≡ Some (node parcel.state parcel.cost) }
        ensures index { successors.new.task ≡ successors.old.task }
        ensures held { IsHeld self.new }
        ensures task { self.new.expanded.task.now ≡ self.old.expanded.task.now }
        ensures most { self.new.most ≡ self.old.most }
        ensures expanded { OnOk result (IsExpansionTo (state_of self.old) parcel.entry.kid
            (state_of self.new)) }
    {
        let outline = Outline::of(alloc, self.expanded.task, successors, parcel)?;
        self.record(&outline, place)
    }

    /// Makes a successor the next entry again, by where it leads from its parent.
    ///
    /// # Errors
    /// - Why it can't be the next entry, or `NoMemory`.
    fn enter_again(
        &mut self,
        alloc: Global,
        successors: &mut Successors<'t>,
        kid: Kid,
    ) -> Result<(), Refusal>
        requires held { IsHeld self.old }
        requires again { IsAgain (state_of self.old) }
        requires index { successors.old.task ≡ self.old.expanded.task.now }
        requires room { length self.old.expanded.entries.items < self.old.most }
        ensures index { successors.new.task ≡ successors.old.task }
        ensures held { IsHeld self.new }
        ensures task { self.new.expanded.task.now ≡ self.old.expanded.task.now }
        ensures most { self.new.most ≡ self.old.most }
        ensures again { OnOk result (IsAgain (state_of self.new)) }
        ensures entered { OnOk result ((state_of self.new).entries
            ≡ (state_of self.old).entries ++ kid ∷ []) }
        ensures free { OnOk result (fault_at self.old.expanded.task.now
            (state_of self.old).entries kid ≡ None) }
        ensures fault { IfErr result (λ r. (r ≡ Refusal.NoMemory)
            ⊎ (fault_at self.old.expanded.task.now (state_of self.old).entries kid ≡ Some r)) }
    {
        let place = self.test_next(kid)?;
        let parcel = self.expanded.parcel_for(kid)?;
        self.expand_again(alloc, successors, parcel, place)?;
        Ok(())
    }

    /// Makes a successor the next entry again, as [`crate::Entries::enter`] says.
    pub(crate) fn enter(
        &mut self,
        alloc: Global,
        successors: &mut Successors<'t>,
        kid: Kid,
    ) -> Result<(Outline<'t>, Children), Refusal>
        requires held { IsHeld self.old }
        requires again { IsAgain (state_of self.old) }
        requires index { successors.old.task ≡ self.old.expanded.task.now }
        requires room { length self.old.expanded.entries.items < self.old.most }
        ensures index { successors.new.task ≡ successors.old.task }
        ensures held { IsHeld self.new }
        ensures task { self.new.expanded.task.now ≡ self.old.expanded.task.now }
        ensures most { self.new.most ≡ self.old.most }
        ensures again { OnOk result (IsAgain (state_of self.new)) }
        ensures entered { OnOk result ((state_of self.new).entries
            ≡ (state_of self.old).entries ++ kid ∷ []) }
        ensures leads { IfOk result (λ r. IsEntered (state_of self.old)
            (node r.0.state r.0.cost) r.1 (state_of self.new)) }
        ensures own { IfOk result (λ r. r.0.task ≡ self.old.expanded.task.now) }
        ensures of_task { IfOk result (λ r. AllByRecursion
            (λ (c : ChildView). IsStateOf self.old.expanded.task.now c.state) r.1) }
        ensures free { OnOk result (fault_at self.old.expanded.task.now
            (state_of self.old).entries kid ≡ None) }
        ensures fault { IfErr result (λ r. (r ≡ Refusal.NoMemory)
            ⊎ (fault_at self.old.expanded.task.now (state_of self.old).entries kid ≡ Some r)) }
        ensures err { OnErr result (view_of self.new ≡ view_of self.old) }
    {
        let place = self.test_next(kid)?;
        let parcel = self.expanded.parcel_for(kid)?;
        let task = self.expanded.task;
        let mut spare = SpareBlocks::none(alloc, 0);
        match Expansion::of(&mut spare, task, &self.expanded.words, successors, parcel) {
            Ok(expansion) => {
                let (outline, children) = expansion.outlined(alloc)?;
                self.record(&outline, place)?;
                Ok((outline, children))
            }
            Err((_parcel, _error)) => Err(Refusal::NoMemory),
        }
    }

    /// Makes these successors the entries again, in order, and reports the listener how far it is.
    ///
    /// # Errors
    /// - The number of the first that can't be the next entry, and why; or `NoMemory`.
    fn enter_all<H: Listener>(
        &mut self,
        alloc: Global,
        successors: &mut Successors<'t>,
        entries: &[Kid],
        heard: &H,
    ) -> Result<(), (u64, Refusal)>
        requires held { IsHeld self.old }
        requires again { IsAgain (state_of self.old) }
        requires none { (state_of self.old).entries ≡ [] }
        requires index { successors.old.task ≡ self.old.expanded.task.now }
        requires room { length entries.now ≤ self.old.most }
        ensures held { IsHeld self.new }
        ensures task { self.new.expanded.task.now ≡ self.old.expanded.task.now }
        ensures most { self.new.most ≡ self.old.most }
        ensures again { OnOk result (IsAgain (state_of self.new)) }
        ensures entered { OnOk result ((state_of self.new).entries ≡ entries.now) }
        ensures faultless { OnOk result (first_fault self.old.expanded.task.now []
            entries.now ≡ None) }
        ensures fault { IfErr result (λ e. (e.1 ≡ Refusal.NoMemory)
            ⊎ (first_fault self.old.expanded.task.now [] entries.now ≡ Some e)) }
    {
        for number in 0..entries.len() {
            tell(heard, number, entries.len());
            match self.enter_again(alloc, successors, entries[number]) {
                Ok(()) => {}
                Err(refusal) => return Err((number as u64, refusal)),
            }
        }
        Ok(())
    }

    /// Makes these successors the entries again, as [`EntriesContent::enter_all`], by an index of
    /// the task.
    fn enter_list<H: Listener>(
        &mut self,
        alloc: Global,
        entries: &[Kid],
        heard: &H,
    ) -> Result<(), (u64, Refusal)>
        requires held { IsHeld self.old }
        requires again { IsAgain (state_of self.old) }
        requires none { (state_of self.old).entries ≡ [] }
        requires room { length entries.now ≤ self.old.most }
        ensures held { IsHeld self.new }
        ensures task { self.new.expanded.task.now ≡ self.old.expanded.task.now }
        ensures most { self.new.most ≡ self.old.most }
        ensures again { OnOk result (IsAgain (state_of self.new)) }
        ensures entered { OnOk result ((state_of self.new).entries ≡ entries.now) }
        ensures faultless { OnOk result (first_fault self.old.expanded.task.now []
            entries.now ≡ None) }
        ensures fault { IfErr result (λ e. (e.1 ≡ Refusal.NoMemory)
            ⊎ (first_fault self.old.expanded.task.now [] entries.now ≡ Some e)) }
    {
        match Successors::new(alloc, self.expanded.task) {
            Ok(mut successors) => self.enter_all(alloc, &mut successors, entries, heard),
            Err(_error) => Err((0, Refusal::NoMemory)),
        }
    }

    /// Returns the parts without entries.
    fn emptied(alloc: Global, task: &'t Task, most: u64) -> Result<EntriesContent<'t>, NoMemory>
        requires { most < ROOT_PARENT }
        ensures held { IfOk result (λ r. IsHeld r) }
        ensures task { IfOk result (λ r. r.expanded.task.now ≡ task.now) }
        ensures none { IfOk result (λ r. (state_of r).entries ≡ []) }
        ensures most { IfOk result (λ r. r.most ≡ most) }
        ensures again { IfOk result (λ r. IsAgain (state_of r)) }
    {
        EntriesContent::new(alloc, task, most)
    }

    /// Returns the parts with exactly these entries.
    fn resumed<H: Listener>(
        alloc: Global,
        task: &'t Task,
        entries: &[Kid],
        heard: &H,
        most: u64,
    ) -> Result<EntriesContent<'t>, (u64, Refusal)>
        requires numbered { most < ROOT_PARENT }
        requires room { length entries.now ≤ most }
        ensures held { IfOk result (λ r. IsHeld r) }
        ensures task { IfOk result (λ r. r.expanded.task.now ≡ task.now) }
        ensures entered { IfOk result (λ r. (state_of r).entries ≡ entries.now) }
        ensures most { IfOk result (λ r. r.most ≡ most) }
        ensures again { IfOk result (λ r. IsAgain (state_of r)) }
        ensures faultless { OnOk result (first_fault task.now [] entries.now ≡ None) }
        ensures fault { IfErr result (λ e. (e.1 ≡ Refusal.NoMemory)
            ⊎ (first_fault task.now [] entries.now ≡ Some e)) }
    {
        match EntriesContent::emptied(alloc, task, most) {
            Ok(mut content) => {
                content.enter_list(alloc, entries, heard)?;
                Ok(content)
            }
            Err(_error) => Err((0, Refusal::NoMemory)),
        }
    }

    /// Returns the parts with exactly these entries, as [`crate::Entries::resume`] says.
    pub(crate) fn resume<H: Listener>(
        alloc: Global,
        task: &'t Task,
        entries: &[Kid],
        heard: &H,
        most: u64,
    ) -> Result<EntriesContent<'t>, (u64, Refusal)>
        requires { most < ROOT_PARENT }
        ensures held { IfOk result (λ r. IsHeld r) }
        ensures state { IfOk result (λ r. state_of r ≡ resumed_state task.now entries.now) }
        ensures most { IfOk result (λ r. r.most ≡ most) }
        ensures faultless { OnOk result (first_fault task.now [] entries.now ≡ None) }
        ensures refused { IfErr result (λ e. IsFaultOf task.now most entries.now e.0 e.1) }
    {
        if entries.len() as u64 > most {
            return Err((0, Refusal::Full));
        }
        EntriesContent::resumed(alloc, task, entries, heard, most)
    }
}
