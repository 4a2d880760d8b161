//! What computes estimates.
ghost use Rattle.std.specs.Prelude.{◌≡◌, ℕ, ◌≤◌, Some, None, IfOk, length, slice_get, slice_index_or};
ghost use Rattle.std.specs.List.{AllByRecursion};
ghost use Rattle.hd_task.specs.declared.state.State.{State};
ghost use Rattle.hd_task.specs.Plans.{IsStateOf};
ghost use Rattle.hd_hmax.specs.Rounds.{hmax};
ghost use Rattle.hd_hmax.specs.Value.{estimated};
ghost use Rattle.hd_hmax.specs.Lanes.{IsValueOf, HasLanes};
ghost use Rattle.hd_hmax.specs.declared.group.TheConstants.{LANES};
ghost use Rattle.hd_hmax.specs.Working.{HasWidth};

use crate::levels::Lanes;
use crate::rules::Rules;
use crate::settling::Work;
use crate::{Estimate, EstimateValue, Group, LANES};
use hd_base::NoMemory;
use hd_pack::{Layout, pack};
use hd_task::{Reads, State, Task};
use std::alloc::Global;
use std::marker::Model;

/// What computes the estimates of a task's states: its rules, made once, and what is written again
/// for each state or group of states.
#[derive(Debug, Drop)]
pub struct Hmax<'t> {
    rules: Rules<'t>,
    work: Work,
    lanes: Lanes,
    // There is room for what is written.
    ghost width: { HasWidth rules.task.now work },
    ghost lanes_width: { HasLanes rules.task.now lanes },
}

impl<'t> Model for Hmax<'t> {
    ghost use Rattle.hd_hmax.specs.Hmax.{HmaxView};
    ghost use Rattle.hd_task.specs.contracts.task.Task as tasks;
    ghost use Rattle.std.specs.Coded.{codes};

    ghost Value = { HmaxView };

    ghost coded = { Prim.hlevel (codes, tasks.the_row.coded) };

    ghost view = { λ h. record { task = h.rules.task.now } };
}

/// Returns the value of an estimate.
fn value_of(cost: Option<u128>) -> EstimateValue
    ensures { estimated result ≡ cost }
{
    match cost {
        Some(cost) => EstimateValue::Cost(cost),
        None => EstimateValue::Dead,
    }
}

impl<'t> Hmax<'t> {
    /// Returns what computes the estimates of a task's states.
    ///
    /// # Errors
    /// - `NoMemory`: there is no room for nine numbers an action, ten an atom, two for each literal
    ///   of a condition, of the goal and of what an action brings about, three more for every two
    ///   of the latter, and four for each of up to 256 prices; nor, if the goal has literals, for
    ///   the tables of levels, which have 256 words a place, and no more than 4 MiB.
    pub fn new(alloc: Global, task: &'t Task) -> Result<Hmax<'t>, NoMemory>
        ensures task { IfOk result (λ h. h.task ≡ task.now) }
    {
        let rules = Rules::of(alloc, task)?;
        let work = Work::new(alloc, &rules)?;
        let lanes = Lanes::new(alloc, &rules)?;
        Ok(Hmax { rules, work, lanes })
    }

    /// Returns the estimate of a state, in whatever form it is kept. It does not allocate.
    pub fn value<R: Reads>(&mut self, state: &R) -> EstimateValue
        requires of_task { IsStateOf self.old.task (R.seen state.now) }
        ensures value { estimated result ≡ hmax self.old.task (R.seen state.now) }
        ensures task { self.new.task ≡ self.old.task }
    {
        if !self.rules.has_goal() {
            return EstimateValue::Cost(0);
        }
        value_of(self.work.goal_cost(&self.rules, state))
    }

    /// Returns the estimates of states, each at its lane. It does not allocate. None where it tells
    /// nothing: then [`Hmax::value`] does.
    #[inline(always)]
    pub fn estimates<G: Group>(&mut self, group: &G) -> [Option<EstimateValue>; LANES]
        requires few { length (G.states group.now) ≤ LANES }
        requires of_task { AllByRecursion (IsStateOf self.old.task) (G.states group.now) }
        ensures values { (lane : ℕ) (s : State) → slice_get (G.states group.now) lane ≡ Some s
            → IsValueOf self.old.task s (slice_index_or result lane None) }
        ensures task { self.new.task ≡ self.old.task }
    {
        self.lanes.estimates(&self.rules, group)
    }

    /// Returns the estimate of a state, which keeps the state packed.
    ///
    /// # Errors
    /// - `NoMemory`: there is no room for the packed state.
    pub fn estimate(&mut self, state: &State) -> Result<Estimate<'t>, NoMemory>
        requires of_task { IsStateOf self.old.task state.now }
        ensures of_task { IfOk result (λ e. e.task ≡ self.old.task) }
        ensures of_state { IfOk result (λ e. e.state ≡ state.now) }
        ensures task { self.new.task ≡ self.old.task }
    {
        let value = self.value(state);
        let alloc = self.work.allocator();
        let state = pack(alloc, &Layout::new(self.rules.task), state)?;
        Ok(Estimate::of(self.rules.task, state, value))
    }
}
