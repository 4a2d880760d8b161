//! Why a plan is not validated.
ghost use Rattle.std.specs.Prelude.{◌≡◌, Some};
ghost use Rattle.hd_plan.specs.Error.{text_of};
ghost use Rattle.hd_plan.specs.declared.error.PlanError.TheVariants.{NoMemory};

use std::alloc::{AllocError, AllocFailed};
use std::fmt;
use thiserror::Error;

/// Why a plan of steps is not validated. Steps are numbered from 1.
#[derive(Debug, PartialEq, Eq, Drop, Error)]
pub enum PlanError {
    /// The step is one of no instance of the task: there is no such schema or object, the objects
    /// are not as many or not of the types that the schema asks for, or two effects clash.
    NoSuchAction(u64),
    /// A condition of the step does not hold.
    NotApplicable(u64),
    /// A fluent, in its ground form, that a step or the goal reads or changes, and that has no
    /// first value.
    Undefined(String),
    /// An instance, in its ground form, that costs the same in each state, and less than 0.
    NegativeCost(String),
    /// A number leaves the range at the step, or at the goal, whose number is one more than the
    /// number of steps.
    Departs(u64),
    /// The goal does not hold at the end.
    GoalUnmet,
    /// Memory ran out.
    NoMemory,
}

impl fmt::Display for PlanError {
    ghost output = { λ error. Some (text_of error) };

    fn fmt<W: fmt::Write>(&self, f: &mut fmt::Formatter<W>) -> fmt::Result {
        match self {
            PlanError::NoSuchAction(step) => write!(f, "20 NoSuchAction({step})"),
            PlanError::NotApplicable(step) => write!(f, "21 NotApplicable({step})"),
            PlanError::Undefined(fluent) => write!(f, "15 Undefined({fluent})"),
            PlanError::NegativeCost(action) => write!(f, "16 NegativeCost({action})"),
            PlanError::Departs(step) => write!(f, "22 Departs({step})"),
            PlanError::GoalUnmet => write!(f, "23 GoalUnmet"),
            PlanError::NoMemory => write!(f, "NoMemory"),
        }
    }
}

impl From<AllocError> for PlanError {
    ghost from_gives = { λ _ error. error ≡ NoMemory };

    fn from(_error: AllocError) -> PlanError {
        PlanError::NoMemory
    }
}

impl<T: Drop> From<AllocFailed<T>> for PlanError {
    ghost from_gives = { λ _ error. error ≡ NoMemory };

    fn from(_error: AllocFailed<T>) -> PlanError {
        PlanError::NoMemory
    }
}
