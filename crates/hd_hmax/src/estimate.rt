//! Lower bounds on the cost from a state to the goal.
ghost use Rattle.std.specs.Prelude.{◌≡◌};
ghost use Rattle.hd_hmax.specs.Value.{estimated};
ghost use Rattle.hd_hmax.specs.Rounds.{hmax};

use hd_pack::Packed;
use hd_task::Task;
use std::marker::Model;

/// A lower bound on the cost from a state to the goal.
#[derive(Clone, Copy, Debug, PartialEq, Eq)]
pub enum EstimateValue {
    Cost(u128),
    /// There is no way to the goal.
    Dead,
}

/// The estimate of a state, which keeps the task and the state that it is of.
#[derive(Debug, Drop)]
pub struct Estimate<'t> {
    task: &'t Task,
    state: Packed,
    value: EstimateValue,
    // The value is that of the state.
    ghost estimates: { estimated value ≡ hmax task.now state },
}

impl<'t> Model for Estimate<'t> {
    ghost use Rattle.hd_hmax.specs.Estimate.{EstimateView};
    ghost use Rattle.hd_task.specs.contracts.task.Task as tasks;
    ghost use Rattle.std.specs.Coded.{codes};

    ghost Value = { EstimateView };

    ghost coded = { Prim.hlevel (codes, tasks.the_row.coded) };

    ghost view = { λ h. record {
      task = h.task.now;
      state = h.state;
      value = h.value;
      estimates = h.estimates;
    } };
}

impl<'t> Estimate<'t> {
    /// Returns the estimate of a state, whose value is known.
    pub fn of(task: &'t Task, state: Packed, value: EstimateValue) -> Estimate<'t>
        requires { estimated value ≡ hmax task.now state }
        ensures task { result.task ≡ task.now }
        ensures state { result.state ≡ state }
        ensures value { result.value ≡ value }
    {
        Estimate { task, state, value }
    }

    /// Returns the state that it is of.
    pub fn state(&self) -> &Packed
        ensures { result.now ≡ self.now.state }
    {
        &self.state
    }

    /// Returns the state that it is of, without the value.
    pub fn into_state(self) -> Packed
        ensures { result ≡ self.entry.state }
    {
        let Estimate { state, .. } = self;
        state
    }

    /// Returns the value of the estimate.
    pub fn value(&self) -> EstimateValue
        ensures value { result ≡ self.now.value }
        ensures estimates { estimated result ≡ hmax self.now.task self.now.state }
    {
        self.value
    }
}
