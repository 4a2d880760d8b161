//! The entries of a search.
use crate::commit::count_entries;
use crate::content::EntriesContent;
use crate::{HashedRow, Listener, Refusal, Verdict};
use hd_node::{Batch, Children, Outline, Parcel};
use hd_successors::Successors;
use hd_task::{Departure, Kid, NoMemory, Plan, Task};
use std::alloc::Global;
use std::marker::Model;

/// The entries of a search, with the successors that they post and what of those is settled: no
/// batch is accepted that is not justified.
#[derive(Debug, Drop)]
pub struct Entries<'t> {
    content: EntriesContent<'t>,
}

impl<'t> Model for Entries<'t> {
    ghost use Rattle.hd_entries.specs.Holding.{EntriesView, view_of, IsHeld};
    ghost use Rattle.hd_task.specs.contracts.task.Task as tasks;
    ghost use Rattle.std.specs.Coded.{codes};

    ghost Value = { EntriesView };

    ghost coded = { Prim.hlevel (codes, tasks.the_row.coded) };

    ghost view = { λ b. view_of b.content };

    ghost invariant = { λ b. IsHeld b.content };
}

impl<'t> Entries<'t> {
    ghost use Rattle.std.specs.Prelude.{◌≡◌, ◌<◌, ◌≤◌, ◌^◌, ◌++◌, ◌⊎◌, [], ◌∷◌, None, Some, true, length, map, slice_get, slice_index_or, option_map, is_some, IfOk, IfErr, IfSome, OnOk, OnErr};
    ghost use Rattle.hd_task.specs.declared.plan.TheConstants.{ROOT_PARENT};
    ghost use Rattle.hd_task.specs.Plans.{IsStateOf, node};
    ghost use Rattle.hd_node.specs.Children.{ChildView};
    ghost use Rattle.hd_task.specs.Expansions.{bound_of, departures_of};
    ghost use Rattle.std.specs.List.{AllByRecursion};
    ghost use Rattle.hd_entries.specs.Settling.{IsOutcomeOfTask, expansions, entry_node, IsBookKept, all_settled};
    ghost use Rattle.hd_entries.specs.Holding.{no_entries, GainsEntries, SettlesEach, posted_count, settled_count};
    ghost use Rattle.hd_base.specs.Lists.{BeginsWith};
    ghost use Rattle.hd_entries.specs.Holding.{parcel_of, released_by, IsParcelOf};
    ghost use Rattle.hd_entries.specs.Refusing.{has_room, refusal_to, IsRefusalTo};
    ghost use Rattle.hd_entries.specs.Resuming.{fault_at, first_fault, resumed, IsEntered, IsFaultOf, IsOpenAt};
    ghost use Rattle.hd_entries.specs.Waiting.{IsAgain};
    ghost use Rattle.hd_entries.specs.declared.refusal.Refusal.TheVariants as Refusal;
    ghost use Rattle.hd_entries.specs.Answers.{is_over, IsCoveredBook, IsAnswerOf, IsBoundPlanOf, IsValidPlan, IsTrueAnswer};

    /// Returns no entries, of which there may be `most`: the root is posted.
    ///
    /// # Errors
    /// - `NoMemory`: there is no room for it.
    pub fn new(alloc: Global, task: &'t Task, most: u64) -> Result<Entries<'t>, NoMemory>
        requires { most < ROOT_PARENT }
        ensures { IfOk result (λ b. b ≡ no_entries task.now most) }
    {
        Ok(Entries {
            content: EntriesContent::new(alloc, task, most)?,
        })
    }

    /// Returns exactly `entries`, with no other successor settled. `heard` hears how far it is.
    ///
    /// # Errors
    /// - `Full` with the number 0 if there are more entries than `most`; else the number of the
    ///   first entry that can't be the next one after those before it, with `UnknownParent`,
    ///   `NotAKid` or `SettledBefore`; or `NoMemory`, never in place of `Full`.
    pub fn resume<H: Listener>(
        alloc: Global,
        task: &'t Task,
        entries: &[Kid],
        heard: &H,
        most: u64,
    ) -> Result<Entries<'t>, (u64, Refusal)>
        requires { most < ROOT_PARENT }
        ensures entries { IfOk result (λ r. r ≡ resumed task.now most entries.now) }
        ensures accepted { OnOk result (first_fault task.now [] entries.now ≡ None) }
        ensures kept { IfOk result (λ r. IsBookKept r.state) }
        ensures refused { IfErr result (λ e. IsFaultOf task.now most entries.now e.0 e.1) }
    {
        let content = EntriesContent::resume(alloc, task, entries, heard, most)?;
        Ok(Entries { content })
    }

    /// Makes a successor the next of entries that are made again, and gives its outline and its
    /// children.
    ///
    /// # Errors
    /// - `UnknownParent`, `NotAKid` or `SettledBefore`: it can't be the next entry. Nothing changes.
    /// - `NoMemory`: there is no room for it. Nothing changes.
    pub fn enter(
        &mut self,
        alloc: Global,
        successors: &mut Successors<'t>,
        kid: Kid,
    ) -> Result<(Outline<'t>, Children), Refusal>
        requires again { IsAgain self.old.state }
        requires index { successors.old.task ≡ self.old.state.task }
        requires room { length self.old.state.entries < self.old.most }
        ensures index { successors.new.task ≡ successors.old.task }
        ensures task { self.new.state.task ≡ self.old.state.task }
        ensures most { self.new.most ≡ self.old.most }
        ensures kept { IsBookKept self.new.state }
        ensures again { OnOk result (IsAgain self.new.state) }
        ensures entered { OnOk result (self.new.state.entries
            ≡ self.old.state.entries ++ kid ∷ []) }
        ensures leads { IfOk result (λ r.
            IsEntered self.old.state (node r.0.state r.0.cost) r.1 self.new.state) }
        ensures own { IfOk result (λ r. r.0.task ≡ self.old.state.task) }
        // Each child's state is one of the task.
        ensures of_task { IfOk result (λ r. AllByRecursion
            (λ (c : ChildView). IsStateOf self.old.state.task c.state) r.1) }
        ensures free { OnOk result
            (fault_at self.old.state.task self.old.state.entries kid ≡ None) }
        ensures fault { IfErr result (λ r. (r ≡ Refusal.NoMemory)
            ⊎ (fault_at self.old.state.task self.old.state.entries kid ≡ Some r)) }
        ensures err { OnErr result (self.new ≡ self.old) }
    {
        self.content.enter(alloc, successors, kid)
    }

    /// Reports whether the successor that was posted at a place is settled.
    pub fn is_settled(&self, place: u64) -> bool
        requires { place < posted_count self.now.state }
        ensures { result ≡ slice_index_or self.now.state.marks place true }
    {
        self.content.is_settled(place as usize)
    }

    /// Returns the parcel of the successor that was posted at a place, if it is not settled. Its
    /// state is made again from that of its parent.
    ///
    /// # Errors
    /// - `NoMemory`: there is no room for its state.
    pub fn open_at(&self, place: u64) -> Result<Option<Parcel<'t>>, NoMemory>
        requires { place < posted_count self.now.state }
        ensures { IfOk result (IsOpenAt self.now.state place) }
    {
        self.content.open_at(place as usize)
    }

    /// Reports whether there is room for the entries of a batch.
    pub fn has_room(&self, batch: &Batch<'t>) -> bool
        ensures { result ≡ has_room self.now batch.now.outcomes }
    {
        self.content
            .has_room(count_entries(batch.outcomes.as_slice()))
    }

    /// Takes a batch: its expansions become entries, and its successors are settled.
    /// [`crate::Parcels::of`] says what it releases then.
    ///
    /// # Errors
    /// - Why it is refused: the entries are as they were. In this order: `Full`, then for each
    ///   outcome in order `UnknownParent`, `NotAKid`, `SettledBefore`, `StateDiffers`,
    ///   `NotDominated`, `BelowBound`.
    /// - `NoMemory` may come in place of each but the first, and of an acceptance.
    pub fn commit(&mut self, batch: &Batch<'t>) -> Result<(), Refusal>
        requires of_task { AllByRecursion (IsOutcomeOfTask self.old.state.task) batch.now.outcomes }
        ensures task { self.new.state.task ≡ self.old.state.task }
        ensures most { self.new.most ≡ self.old.most }
        ensures begins { BeginsWith self.new.state.entries self.old.state.entries }
        ensures grown { OnOk result
            (GainsEntries self.old.state self.new.state batch.now.outcomes) }
        ensures accepted { OnOk result (refusal_to self.old batch.now.outcomes ≡ None) }
        ensures state { OnOk result (self.new.state
            ≡ all_settled self.old.state batch.now.outcomes) }
        ensures settled { OnOk result
            (SettlesEach self.old.state self.new.state batch.now.outcomes) }
        ensures refused { IfErr result (IsRefusalTo self.old batch.now.outcomes) }
        ensures err { OnErr result (self.new ≡ self.old) }
    {
        self.content.commit(batch)
    }

    /// Returns the task.
    pub fn task(&self) -> &'t Task
        ensures { result.now ≡ self.now.state.task }
    {
        self.content.expanded.task
    }

    /// Returns how many entries there are: plans that are expanded. It does not allocate.
    pub fn len(&self) -> u64
        ensures kept { IsBookKept self.now.state }
        ensures len { result ≡ length self.now.state.entries }
        ensures few { result ≤ self.now.most }
        ensures numbered { result < ROOT_PARENT }
    {
        self.content.expanded.entries.len() as u64
    }

    /// Returns how many successors are posted: plans that are generated, the root's among them. It
    /// does not allocate.
    pub fn posted(&self) -> u64
        ensures posted { result ≡ posted_count self.now.state }
        ensures few { result < 2 ^ 61 }
    {
        self.content.posted()
    }

    /// Returns how many successors are settled: they are entries, or need not be. It does not
    /// allocate.
    pub fn settled(&self) -> u64
        ensures settled { result ≡ settled_count self.now.state }
        ensures few { result ≤ posted_count self.now.state }
    {
        self.content.settled()
    }

    /// Returns the successor of the entry with this number, if there is such an entry.
    pub fn entry(&self, number: u64) -> Option<Kid>
        ensures { result ≡ slice_get self.now.state.entries number }
    {
        match self.content.expanded.entries.get(number as usize) {
            Some(entry) => Some(entry.kid),
            None => None,
        }
    }

    /// Returns where the plan of entry `number` leads and what it costs, if there is such an entry.
    pub fn node(&self, number: u64) -> Option<(HashedRow<'_>, u64)>
        ensures { option_map (λ r. node r.0 r.1) result
            ≡ entry_node self.now.state number }
    {
        self.content.expanded.node(number)
    }

    /// Returns the least cost of an entry at which the goal holds, if there is one.
    pub fn bound(&self) -> Option<u64>
        ensures { result ≡ bound_of self.now.state.task (expansions self.now.state) }
    {
        match self.content.expanded.best {
            Some(best) => Some(best.cost),
            None => None,
        }
    }

    /// Returns the first departure from the range that was met, if there is one.
    pub fn departure(&self) -> Option<Departure>
        ensures { result ≡ slice_get
            (departures_of self.now.state.task (expansions self.now.state)) 0 }
    {
        self.content.expanded.departure
    }

    /// Returns the plan of the bound, if there is a bound: that of the least-numbered entry at
    /// which the goal holds at this cost. It is valid.
    ///
    /// # Errors
    /// - `NoMemory`: there is no room for the plan.
    pub fn extract(&self) -> Result<Option<Plan>, NoMemory>
        ensures plan { IfOk result (IsBoundPlanOf self.now.state.task (expansions self.now.state)) }
        ensures valid { IfOk result (IsValidPlan self.now.state.task) }
    {
        self.content.extract()
    }

    /// Returns the answer, once all is settled.
    ///
    /// # Errors
    /// - `NoMemory`: there is no room for a plan.
    pub fn verdict(&self) -> Result<Option<Verdict>, NoMemory>
        ensures over { IfOk result (λ v. is_some v ≡ is_over self.now.state) }
        ensures kept { IsBookKept self.now.state }
        ensures covered { IfOk result (λ v. IfSome v (λ _. IsCoveredBook self.now.state)) }
        ensures answer { IfOk result (λ v. IfSome v (IsAnswerOf self.now.state)) }
        ensures is_true { IfOk result (λ v. IfSome v (IsTrueAnswer self.now.state.task)) }
    {
        self.content.verdict()
    }
}
