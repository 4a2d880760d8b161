//! What the parts of a book answer.
ghost use Rattle.std.specs.Prelude.{◌≡◌, ◌==◌, ◌<◌, ◌≤◌, ◌^◌, [], IsFalse, length, map, slice_get, slice_index_or, is_some, option_map, IfOk, IfSome};
ghost use Rattle.hd_task.specs.Plans.{node};
ghost use Rattle.hd_task.specs.Expansions.{generated};
ghost use Rattle.hd_task.specs.Covers.{IsCovered};
ghost use Rattle.hd_hmax.specs.Rounds.{hmax};
ghost use Rattle.hd_entries.specs.Settling.{expansions, entry_node, IsBookKept};
ghost use Rattle.hd_entries.specs.Holding.{posted_count, settled_count, state_of, unmarked, IsExpanded, IsHeld};
ghost use Rattle.hd_entries.specs.Answers.{IsAnswer, IsBoundPlanOf, IsValidPlan, IsTrueAnswer};

use crate::Verdict;
use crate::content::EntriesContent;
use crate::expanded::ExpandedPlans;
use crate::hashed_row::HashedRow;
use hd_task::{ActionId, NoMemory, Plan, ROOT_PARENT};

impl<'t> ExpandedPlans<'t> {
    /// Returns where the plan of entry `number` leads and what it costs, if there is such an entry.
    pub(crate) fn node(&self, number: u64) -> Option<(HashedRow<'_>, u64)>
        requires held { IsExpanded self.now }
        ensures { option_map (λ r. node r.0 r.1) result
            ≡ entry_node (unmarked self.now) number }
    {
        match self.entries.get(number as usize) {
            Some(entry) => Some((entry.state, entry.cost)),
            None => None,
        }
    }

    /// Returns the plan that an entry names.
    fn plan_to(&self, entry: usize) -> Result<Plan, NoMemory>
        requires held { IsExpanded self.now }
        requires among { entry < length self.now.entries.items }
        ensures { IfOk result (λ p. p ≡ slice_index_or (expansions (unmarked self.now)) entry []) }
    {
        let mut actions = Vec::new(self.alloc);
        let mut number = entry;
        while self.entries.at(number).kid.parent != ROOT_PARENT {
            let kid = self.entries.at(number).kid;
            actions.push(ActionId(kid.action))?;
            number = kid.parent as usize;
        }
        actions.reverse();
        Ok(Plan::from_vec(actions))
    }

    /// Returns the plan of the bound, if there is a bound.
    pub(crate) fn best_plan(&self) -> Result<Option<Plan>, NoMemory>
        requires held { IsExpanded self.now }
        ensures { IfOk result (IsBoundPlanOf self.now.task.now (expansions (unmarked self.now))) }
    {
        match self.best {
            Some(best) => Ok(Some(self.plan_to(best.entry)?)),
            None => Ok(None),
        }
    }
}

impl<'t> EntriesContent<'t> {
    /// Returns how many successors are posted.
    pub(crate) fn posted(&self) -> u64
        requires held { IsHeld self.now }
        ensures posted { result ≡ posted_count (state_of self.now) }
        ensures few { result < 2 ^ 61 }
    {
        self.kids.posted()
    }

    /// Returns how many successors are settled.
    pub(crate) fn settled(&self) -> u64
        requires held { IsHeld self.now }
        ensures settled { result ≡ settled_count (state_of self.now) }
        ensures few { result ≤ posted_count (state_of self.now) }
    {
        self.kids.settled()
    }

    /// Returns the answer, whether or not all is settled.
    fn answer(&self) -> Result<Verdict, NoMemory>
        requires held { IsHeld self.now }
        ensures { IfOk result (IsAnswer self.now.expanded.task.now
            (expansions (state_of self.now))) }
    {
        let plan = self.expanded.best_plan()?;
        match (self.expanded.departure, plan) {
            (Some(departure), plan) => Ok(Verdict::RangeLeft(departure, plan)),
            (None, Some(plan)) => Ok(Verdict::Optimal(plan)),
            (None, None) => Ok(Verdict::NoPlan),
        }
    }

    /// Returns the plan of the bound, if there is a bound: it is valid.
    pub(crate) fn extract(&self) -> Result<Option<Plan>, NoMemory>
        requires held { IsHeld self.now }
        ensures plan { IfOk result (IsBoundPlanOf self.now.expanded.task.now
            (expansions (state_of self.now))) }
        ensures valid { IfOk result (IsValidPlan self.now.expanded.task.now) }
    {
        self.expanded.best_plan()
    }

    /// Returns the answer, once all is settled.
    pub(crate) fn verdict(&self) -> Result<Option<Verdict>, NoMemory>
        requires held { IsHeld self.now }
        ensures over { IfOk result (λ v. is_some v ≡ (settled_count (state_of self.now)
            == length (generated self.now.expanded.task.now (expansions (state_of self.now))))) }
        ensures kept { IsBookKept (state_of self.now) }
        ensures covered { IfOk result (λ v. IfSome v
            (λ _. IsCovered self.now.expanded.task.now (hmax self.now.expanded.task.now)
            (expansions (state_of self.now)))) }
        ensures answer { IfOk result (λ v. IfSome v (IsAnswer self.now.expanded.task.now
            (expansions (state_of self.now)))) }
        ensures is_true { IfOk result (λ v. IfSome v (IsTrueAnswer self.now.expanded.task.now)) }
    {
        if self.settled() != self.posted() {
            return Ok(None);
        }
        Ok(Some(self.answer()?))
    }
}
