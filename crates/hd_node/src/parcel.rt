//! Generated plans that wait to be expanded.
ghost use Rattle.std.specs.Prelude.{◌≡◌, IfOk};
ghost use Rattle.hd_task.specs.Plans.{IsStateOf};
ghost use Rattle.hd_zobrist.specs.Hash.{state_hash};

use crate::{Child, Hashed};
use hd_base::NoMemory;
use hd_pack::Packed;
use hd_task::{Kid, State, Task};
use hd_zobrist::Words;
use std::alloc::Global;
use std::marker::Model;

/// A generated plan that waits to be expanded: the successor that names it, and where it leads.
///
/// The state is one of the task. That the successor names a plan which leads there is the claim of
/// whoever made the parcel; the book tests it.
#[derive(Debug, Drop)]
pub struct Parcel<'t> {
    pub(crate) task: &'t Task,
    pub(crate) kid: Kid,
    pub(crate) state: Hashed,
    pub(crate) cost: u64,
    // The state has the task's widths.
    ghost of_task: { IsStateOf task.now state },
}

impl<'t> Model for Parcel<'t> {
    ghost use Rattle.hd_node.specs.Parcel.{ParcelView};
    ghost use Rattle.hd_task.specs.contracts.task.Task as tasks;
    ghost use Rattle.std.specs.Coded.{codes};

    ghost Value = { ParcelView };

    ghost coded = { Prim.hlevel (codes, tasks.the_row.coded) };

    ghost view = { λ p. record {
      task = p.task.now;
      kid = p.kid;
      state = p.state;
      cost = p.cost;
      of_task = p.of_task;
    } };
}

impl<'t> Parcel<'t> {
    /// Returns the parcel that says of a successor where it leads. The state is packed and hashed.
    ///
    /// # Errors
    /// - `NoMemory`: there is no room for the packed state.
    pub fn of(
        alloc: Global,
        task: &'t Task,
        words: &Words,
        kid: Kid,
        state: State,
        cost: u64,
    ) -> Result<Parcel<'t>, NoMemory>
        requires { IsStateOf task.now state }
        ensures task { IfOk result (λ p. p.task ≡ task.now) }
        ensures kid { IfOk result (λ p. p.kid ≡ kid) }
        ensures state { IfOk result (λ p. p.state ≡ state) }
        ensures cost { IfOk result (λ p. p.cost ≡ cost) }
    {
        Ok(Parcel {
            task,
            kid,
            state: Hashed::of(alloc, task, words, &state)?,
            cost,
        })
    }

    /// Returns the parcel of a state that is packed and hashed. It does not allocate.
    pub fn known(task: &'t Task, kid: Kid, state: Hashed, cost: u64) -> Parcel<'t>
        requires { IsStateOf task.now state }
        ensures task { result.task ≡ task.now }
        ensures kid { result.kid ≡ kid }
        ensures state { result.state ≡ state }
        ensures cost { result.cost ≡ cost }
    {
        Parcel {
            task,
            kid,
            state,
            cost,
        }
    }

    /// Returns the parcel of `child`, a child of entry `parent`.
    /// It does not allocate, since the child has all that a parcel has; so what a batch releases
    /// can be made where nothing may fail any more.
    pub fn of_child(task: &'t Task, parent: u64, child: Child) -> Parcel<'t>
        requires { IsStateOf task.now child.state }
        ensures task { result.task ≡ task.now }
        ensures kid { result.kid ≡ record { parent = parent; action = child.action } }
        ensures state { result.state ≡ child.state }
        ensures cost { result.cost ≡ child.cost }
    {
        let (action, state, cost) = child.into_parts();
        Parcel {
            task,
            kid: Kid { parent, action },
            state,
            cost,
        }
    }

    /// Returns the successor that names the plan.
    pub fn kid(&self) -> Kid
        ensures { result ≡ self.now.kid }
    {
        self.kid
    }

    /// Returns the state that the plan leads to.
    pub fn state(&self) -> &Packed
        ensures state { result.now ≡ self.now.state }
        ensures of_task { IsStateOf self.now.task result.now }
    {
        self.state.state()
    }

    /// Returns the hash of that state.
    pub fn hash(&self) -> u64
        ensures { result ≡ state_hash self.now.state }
    {
        self.state.hash()
    }

    /// Returns that state with its hash.
    pub fn hashed(&self) -> &Hashed
        ensures { result.now ≡ self.now.state }
    {
        &self.state
    }

    /// Returns what the plan costs.
    pub fn cost(&self) -> u64
        ensures { result ≡ self.now.cost }
    {
        self.cost
    }

    /// Returns the successor, the state with its hash, and the cost.
    pub fn into_parts(self) -> (Kid, Hashed, u64)
        ensures kid { result.0 ≡ self.entry.kid }
        ensures state { result.1 ≡ self.entry.state }
        ensures cost { result.2 ≡ self.entry.cost }
        ensures of_task { IsStateOf self.entry.task result.1 }
    {
        let Parcel {
            kid,
            state,
            cost,
            ..
        } = self;
        (kid, state, cost)
    }
}
