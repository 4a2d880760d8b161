//! Refusals of steps and of goals.
ghost use Rattle.std.specs.Prelude.{◌≡◌};
ghost use Rattle.hd_judge.specs.declared.fault.PlanStop.TheVariants.{NoMemory};
ghost use Rattle.hd_judge.specs.declared.refusal.PlanRefusal.TheVariants.{At};
ghost use Rattle.hd_judge.specs.Refusals.{fault_of, stop_of};

use crate::fault::{PlanFault, PlanStop};
use crate::reason::Reason;
use std::alloc::AllocError;

/// Why a step or the goal is refused.
#[derive(Drop)]
pub enum PlanRefusal<'a> {
    /// For what does not hold, or leaves the range.
    For(Reason<'a>),
    /// At a fault that says all that there is to say, or for lack of memory.
    At(PlanStop),
}

impl<'a> From<AllocError> for PlanRefusal<'a> {
    ghost from_gives = { λ _ refusal. refusal ≡ At NoMemory };

    fn from(_error: AllocError) -> PlanRefusal<'a> {
        PlanRefusal::At(PlanStop::NoMemory)
    }
}

/// Returns the fault of a reason: `unmet` where a part of a condition does not hold, and `departs`
/// where something leaves the range.
fn fault_of(unmet: PlanFault, departs: PlanFault, reason: &Reason<'_>) -> PlanFault
    ensures { result ≡ fault_of unmet departs reason.now }
{
    match reason {
        Reason::Literal(_) | Reason::Equality(_) | Reason::Comparison(_) => {
            drop(departs);
            unmet
        }
        Reason::Subexpression(_)
        | Reason::NewValue(_)
        | Reason::NegativeCost(_)
        | Reason::PlanCost(_) => {
            drop(unmet);
            departs
        }
    }
}

/// Returns what is reported of a refusal, where a reason has one of these two faults.
pub(crate) fn stop_of(unmet: PlanFault, departs: PlanFault, refusal: PlanRefusal<'_>) -> PlanStop
    ensures { result ≡ stop_of unmet departs refusal.entry }
{
    match refusal {
        PlanRefusal::For(reason) => PlanStop::At(fault_of(unmet, departs, &reason)),
        PlanRefusal::At(stop) => {
            drop(unmet);
            drop(departs);
            stop
        }
    }
}
