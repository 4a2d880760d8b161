//! From the bytes of three texts to the reason why the plan in the third is not valid.
ghost use Rattle.std.specs.Prelude.{◌≡◌, IfOk, IfSome, IfNone, string_bytes};
ghost use Rattle.hplan.specs.Reasons.{TellsReasonIn, TellsReasonOf, NeedsNoReasonIn, NeedsNoReasonOf, is_in_texts};

use hd_base::{NoMemory, Seed};
use hd_check::Checked;
use hd_plan::{PlanTextError, read_plan};
use hd_texts::{TaskFault, checked_of, seed_of};
use std::alloc::{AllocError, Global};

/// Returns why the plan that a text says is not valid in a checked task.
fn reason_in(
    alloc: Global,
    seed: Seed,
    checked: &Checked,
    plan: &[u8],
) -> Result<Option<String>, NoMemory>
    ensures told { IfOk result (λ found. IfSome found (λ line.
        TellsReasonIn checked.now plan.now (string_bytes line))) }
    ensures none { IfOk result (λ found. IfNone found
        (NeedsNoReasonIn checked.now plan.now)) }
{
    match read_plan(alloc, plan) {
        Ok(steps) => {
            let reason = hd_explain::explain(alloc, seed, checked, steps.as_slice());
            drop(steps);
            reason
        }
        Err(PlanTextError::BadLine(_)) => Ok(None),
        Err(PlanTextError::NoMemory) => Err(AllocError),
    }
}

/// Reports whether a fault of texts stands in them: it is no lack of memory.
fn is_in_texts(fault: &TaskFault) -> bool
    ensures { result ≡ is_in_texts fault.now }
{
    match fault {
        TaskFault::Read(_, _) | TaskFault::Check(_, _) | TaskFault::Ground(_) => true,
        TaskFault::NoMemory => false,
    }
}

/// Returns why the plan of a third text is not valid in the task that two texts say, in one line
/// without its end: the first condition of an action or of the goal that does not hold, or what is
/// out of the range, with the values of its fluents. Atoms come first, then equalities of objects,
/// then comparisons, those of one kind as they are written.
///
/// `None` where the plan is valid, and where the fault itself says all: one of a text, `15`, `16`
/// and `20`.
///
/// # Errors
/// - Lack of memory.
pub fn explain(
    alloc: Global,
    domain: &[u8],
    problem: &[u8],
    plan: &[u8],
) -> Result<Option<String>, NoMemory>
    // The line is that of the reason of the plan's first fault, in the lifted task of the texts.
    ensures told { IfOk result (λ found. IfSome found (λ line.
        TellsReasonOf domain.now problem.now plan.now (string_bytes line))) }
    ensures none { IfOk result (λ found. IfNone found
        (NeedsNoReasonOf domain.now problem.now plan.now)) }
{
    let seed = seed_of(domain, problem);
    match checked_of(alloc, seed, domain, problem) {
        Ok(checked) => {
            let reason = reason_in(alloc, seed, &checked, plan);
            drop(checked);
            reason
        }
        Err(fault) => {
            let stands = is_in_texts(&fault);
            drop(fault);
            if stands { Ok(None) } else { Err(AllocError) }
        }
    }
}
