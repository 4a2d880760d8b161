//! Whether a batch is refused: the book is only read.
ghost use Rattle.std.specs.Prelude.{◌≡◌, ◌<◌, [], true, Some, IfOk, IfErr, OnOk, OnErr, None, length, take, drop, ◌⊎◌};
ghost use Rattle.hd_task.specs.Plans.{IsStateOf, node, step_by};
ghost use Rattle.hd_node.specs.Outcome.{kid_of};
ghost use Rattle.hd_entries.specs.Settling.{expansions, knows_parent, is_posted, node_of, node_by, same_state, dominates, reaches, refusal_by};
ghost use Rattle.hd_tables.specs.Kids.{KidsView};
ghost use Rattle.hd_entries.specs.Undoing.{MarksNext};
ghost use Rattle.hd_entries.specs.Admitting.{IsRight, IsWrong, first_wrong, marks_after, with_marks};
ghost use Rattle.hd_task.specs.Expansions.{is_applicable, bound_of};
ghost use Rattle.hd_hmax.specs.Value.{estimated};
ghost use Rattle.hd_entries.specs.Holding.{node_at, state_with, unmarked, IsExpanded, HasKids};
ghost use Rattle.hd_entries.specs.declared.refusal.Refusal.TheVariants as Refusal;

use crate::Refusal;
use crate::entry::{Best, DraftNode};
use crate::expanded::ExpandedPlans;
use hd_hmax::EstimateValue;
use hd_node::{By, Outcome};
use hd_pack::{Layout, Packed, pack};
use hd_tables::{Draft, KidTable, Row};
use hd_task::{ActionId, Kid, NoMemory, ROOT_ACTION, ROOT_PARENT, Task};
use std::alloc::Global;

/// Reports whether a packed state and one that was reached are equal.
fn are_states_equal(one: &Packed, other: &Draft) -> bool
    ensures there { result ≡ same_state one.now other.now }
    ensures back { result ≡ same_state other.now one.now }
{
    other.row().is_packed(one)
}

/// Reports whether a node has a place's state at no greater cost.
fn is_no_dearer(state: &Packed, cost: u64, reached: &DraftNode) -> bool
    ensures { result ≡ dominates (Some (node state.now cost))
        (Some (node reached.now.state reached.now.cost)) }
{
    are_states_equal(state, &reached.state) && cost <= reached.cost
}

impl<'t> ExpandedPlans<'t> {
    /// Reports whether a successor is the root, or its parent is an entry.
    pub(crate) fn knows_parent(&self, kid: Kid) -> bool
        ensures { result ≡ knows_parent (unmarked self.now) kid }
    {
        (kid.parent == ROOT_PARENT && kid.action == ROOT_ACTION)
            || (kid.parent as usize) < self.entries.len()
    }

    /// Sets `reached` to where the posted successor `kid` leads, by the book's own application.
    /// It is posted, so its action is applicable.
    ///
    /// # Errors
    /// - `NoMemory`: there is no room for the state: only for the root, or where the place was of
    ///   no such state before.
    fn reach(&self, kid: Kid, reached: &mut DraftNode) -> Result<(), NoMemory>
        requires held { IsExpanded self.now }
        requires known { knows_parent (unmarked self.now) kid ≡ true }
        requires posted { is_posted (unmarked self.now) kid ≡ true }
        ensures { OnOk result (node_of (unmarked self.now) kid
            ≡ Some (node reached.new.state reached.new.cost)) }
    {
        if kid.parent == ROOT_PARENT {
            let layout = Layout::new(self.task);
            let initial = pack(self.alloc, &layout, &self.task.initial)?;
            let state = Row::of_packed(layout, &initial);
            reached.state.set(self.alloc, &state)?;
            reached.cost = 0;
            return Ok(());
        }
        let parent = self.entries.at(kid.parent as usize);
        reached.cost = reached.state.follow(
            self.alloc,
            self.task,
            parent.state.row(),
            parent.cost,
            ActionId(kid.action),
        )?;
        Ok(())
    }

    /// Reports whether what a duplicate names has a state at no greater cost.
    fn dominates(&self, earlier: &[Outcome<'t>], by: By, reached: &DraftNode) -> bool
        requires held { IsExpanded self.now }
        ensures { result ≡ dominates (node_by (unmarked self.now) earlier.now by)
            (Some (node reached.now.state reached.now.cost)) }
    {
        match by {
            By::Entry(number) => match self.entries.get(number as usize) {
                Some(entry) => entry.is_no_dearer(reached),
                None => false,
            },
            By::Here(place) => match earlier.get(place) {
                Some(Outcome::Expanded(better)) => {
                    is_no_dearer(better.state(), better.cost(), reached)
                }
                Some(Outcome::Duplicate(_, _)) => false,
                Some(Outcome::Bounded(_, _)) => false,
                None => false,
            },
        }
    }

    /// Reports whether a cost and an estimate reach the bound, or the estimate is infinite.
    fn reaches(&self, reached: &DraftNode, estimate: EstimateValue) -> bool
        requires held { IsExpanded self.now }
        ensures { result ≡ reaches (bound_of self.now.task.now (expansions (unmarked self.now)))
            (Some (node reached.now.state reached.now.cost)) (estimated estimate) }
    {
        match (self.best, estimate) {
            (_, EstimateValue::Dead) => true,
            (None, EstimateValue::Cost(_)) => false,
            (Some(Best { cost: bound, .. }), EstimateValue::Cost(value)) => {
                u128::from(bound) <= u128::from(reached.cost).saturating_add(value)
            }
        }
    }

    /// Returns why an outcome is refused by what it says of where its successor leads.
    fn refusal_by(
        &self,
        earlier: &[Outcome<'t>],
        outcome: &Outcome<'t>,
        reached: &DraftNode,
    ) -> Option<Refusal>
        requires held { IsExpanded self.now }
        requires leads { node_of (unmarked self.now) (kid_of outcome.now)
            ≡ Some (node reached.now.state reached.now.cost) }
        ensures { result ≡ refusal_by (unmarked self.now) earlier.now outcome.now }
    {
        match outcome {
            Outcome::Expanded(expansion) => {
                if are_states_equal(expansion.state(), &reached.state)
                    && reached.cost == expansion.cost()
                {
                    None
                } else {
                    Some(Refusal::StateDiffers)
                }
            }
            Outcome::Duplicate(_, by) => {
                if self.dominates(earlier, *by, reached) {
                    None
                } else {
                    Some(Refusal::NotDominated)
                }
            }
            Outcome::Bounded(_, estimate) => {
                if !are_states_equal(estimate.state(), &reached.state) {
                    Some(Refusal::StateDiffers)
                } else if self.reaches(reached, estimate.value()) {
                    None
                } else {
                    Some(Refusal::BelowBound)
                }
            }
        }
    }

    /// Returns the place of an outcome's successor, where the outcome is right. The successors of
    /// the outcomes before it in its batch are settled already. Where its successor leads is
    /// written to a place.
    ///
    /// # Errors
    /// - Why it is refused, or `NoMemory`.
    fn judged(
        &self,
        kids: &KidTable,
        reached: &mut DraftNode,
        earlier: &[Outcome<'t>],
        outcome: &Outcome<'t>,
    ) -> Result<usize, Refusal>
        requires held { IsExpanded self.now }
        requires posts { HasKids self.now.task.now self.now.entries.items kids.now }
        ensures right { IfOk result
            (IsRight (state_with self.now kids.now.marks) earlier.now outcome.now) }
        ensures refused { IfErr result
            (IsWrong (state_with self.now kids.now.marks) earlier.now outcome.now) }
    {
        let kid = outcome.kid();
        if !self.knows_parent(kid) {
            return Err(Refusal::UnknownParent);
        }
        let Some(place) = kids.place_of(kid) else {
            return Err(Refusal::NotAKid);
        };
        if kids.is_settled(place) {
            return Err(Refusal::SettledBefore);
        }
        self.reach(kid, reached)?;
        match self.refusal_by(earlier, outcome, reached) {
            Some(refusal) => Err(refusal),
            None => Ok(place),
        }
    }

    /// Settles the successor of the outcome of this number, where the outcome is right. The
    /// successors of the outcomes before it are settled already.
    ///
    /// # Errors
    /// - Why it is refused, or `NoMemory`; the table is as it was.
    fn settle_next(
        &self,
        kids: &mut KidTable,
        reached: &mut DraftNode,
        outcomes: &[Outcome<'t>],
        number: usize,
    ) -> Result<(), Refusal>
        requires held { IsExpanded self.now }
        requires posts { HasKids self.now.task.now self.now.entries.items kids.old }
        requires within { number < length outcomes.now }
        ensures marked { OnOk result (MarksNext self.now kids.old kids.new outcomes.now number) }
        ensures refused { IfErr result (λ r. (r ≡ Refusal.NoMemory)
            ⊎ (first_wrong (state_with self.now kids.old.marks) (take number outcomes.now)
            (drop number outcomes.now) ≡ Some r)) }
        ensures err { OnErr result (kids.new ≡ kids.old) }
    {
        let place = self.judged(kids, reached, &outcomes[..number], &outcomes[number])?;
        kids.settle(place);
        Ok(())
    }

    /// Takes back that the successor of the outcome of this number is settled, which was settled
    /// last.
    fn reopen_last(&self, kids: &mut KidTable, outcomes: &[Outcome<'t>], number: usize)
        requires posts { HasKids self.now.task.now self.now.entries.items kids.old }
        requires within { number < length outcomes.now }
        requires last { (before : KidsView)
            × MarksNext self.now before kids.old outcomes.now number }
        ensures { (before : KidsView) → MarksNext self.now before kids.old outcomes.now number
            → kids.new ≡ before }
    {
        match kids.place_of(outcomes[number].kid()) {
            Some(place) => kids.reopen(place),
            None => unreachable!(),
        }
    }

    /// Settles the successors of outcomes, each before the next outcome is judged; or none of them,
    /// if one is refused.
    ///
    /// # Errors
    /// - Why the first that is not right is refused, or `NoMemory`; the table is as it was.
    pub(crate) fn settle_all(
        &self,
        kids: &mut KidTable,
        reached: &mut DraftNode,
        outcomes: &[Outcome<'t>],
    ) -> Result<(), Refusal>
        requires held { IsExpanded self.now }
        requires posts { HasKids self.now.task.now self.now.entries.items kids.old }
        ensures right { OnOk result (first_wrong (state_with self.now kids.old.marks) []
            outcomes.now ≡ None) }
        ensures settled { OnOk result (kids.new ≡ with_marks kids.old
            (marks_after (state_with self.now kids.old.marks) outcomes.now)) }
        ensures refused { IfErr result (λ r. (r ≡ Refusal.NoMemory)
            ⊎ (first_wrong (state_with self.now kids.old.marks) [] outcomes.now ≡ Some r)) }
        ensures err { OnErr result (kids.new ≡ kids.old) }
    {
        for number in 0..outcomes.len() {
            if let Err(refusal) = self.settle_next(kids, reached, outcomes, number) {
                let mut left = number;
                while left > 0 {
                    left -= 1;
                    self.reopen_last(kids, outcomes, left);
                }
                return Err(refusal);
            }
        }
        Ok(())
    }
}
