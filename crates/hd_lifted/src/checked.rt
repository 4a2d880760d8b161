//! Lifted tasks that were checked.
ghost use Rattle.std.specs.Prelude.{◌≡◌};
ghost use Rattle.hd_lifted.specs.Checked.{HasCostMetric, HasCostsByMetric, IsChecked};
ghost use Rattle.hd_lifted.specs.WellFormed.{IsWellFormed, HasDistinctNames, AreOfDifferentFluents};

use crate::task::LiftedTask;
use std::marker::Model;

/// A lifted task that is well formed, whose names are distinct, whose first values are of different
/// fluents, and whose metric is a cost. Contracts see the task.
#[derive(Debug, Drop)]
pub struct Checked {
    task: LiftedTask,
}

impl Model for Checked {
    ghost use Rattle.hd_lifted.specs.declared.task.LiftedTask.{LiftedTask};
    ghost use Rattle.hd_lifted.specs.Checked.{IsChecked};

    ghost Value = { LiftedTask };

    ghost use Rattle.hd_lifted.specs.contracts.task.LiftedTask as lifted;
    ghost use Rattle.std.specs.Coded.{codes};

    ghost coded = { Prim.hlevel (codes, lifted.the_row.coded) };

    ghost view = { λ c. c.task };

    ghost invariant = { λ c. IsChecked c.task };
}

impl Checked {
    /// Returns a task that keeps what a check asks.
    pub fn new(task: LiftedTask) -> Checked
        requires { IsChecked task }
        ensures { result ≡ task }
    {
        Checked { task }
    }

    /// Returns the task.
    pub fn task(&self) -> &LiftedTask
        ensures task { result.now ≡ self.now }
        ensures well_formed { IsWellFormed result.now }
        ensures names { HasDistinctNames result.now }
        ensures values { AreOfDifferentFluents result.now.values }
        ensures metric { HasCostMetric result.now }
        ensures no_metric { HasCostsByMetric result.now }
    {
        &self.task
    }
}
