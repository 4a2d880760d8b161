//! What a validation reports.
ghost use Rattle.std.specs.Prelude.{◌≡◌};
ghost use Rattle.hd_judge.specs.declared.fault.PlanStop.TheVariants.{NoMemory};

use hd_lifted::{Ground, Instance};
use std::alloc::{AllocError, AllocFailed};

/// Why a plan is not valid, or can't be judged. Steps are numbered from 1.
#[derive(Debug, PartialEq, Eq, Drop)]
pub enum PlanFault {
    /// The step is one of no instance of the task: there is no such schema, its objects are not as
    /// many or not of the types that it asks for, or two of its effects clash.
    NoSuchAction(u64),
    /// A condition of the step does not hold.
    NotApplicable(u64),
    /// A fluent that a step or the goal reads or changes has no first value.
    Undefined(Ground),
    /// A step of this instance costs the same in each state, and less than 0.
    NegativeCost(Instance),
    /// A number leaves the range at the step, or at the goal, whose number is one more than the
    /// number of steps.
    Departs(u64),
    /// The goal does not hold at the end.
    GoalUnmet,
}

/// Why a validation stops.
#[derive(Debug, PartialEq, Eq, Drop)]
pub enum PlanStop {
    /// At a fault of the plan.
    At(PlanFault),
    /// Memory ran out.
    NoMemory,
}

impl From<AllocError> for PlanStop {
    ghost from_gives = { λ _ error. error ≡ NoMemory };

    fn from(_error: AllocError) -> PlanStop {
        PlanStop::NoMemory
    }
}

impl<T: Drop> From<AllocFailed<T>> for PlanStop {
    ghost from_gives = { λ _ error. error ≡ NoMemory };

    fn from(_error: AllocFailed<T>) -> PlanStop {
        PlanStop::NoMemory
    }
}
