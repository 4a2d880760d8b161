//! From the bytes of three texts to what the steps of the plan in the third do.
ghost use Rattle.std.specs.Prelude.{◌≡◌, IfOk, IfErr, string_bytes};
ghost use Rattle.hplan.specs.Traces.{IsTraceIn, IsTraceOf, ExplainsNoTrace, HasNoTrace};

use crate::fault::{Fault, plan_read_in};
use hd_base::Seed;
use hd_check::Checked;
use hd_plan::read_plan;
use hd_texts::{checked_of, seed_of};
use std::alloc::Global;

/// Returns what the steps that a text says do in a checked task.
#[tactic(auto, using(crate::proofs::Explaining::plan_untraced))]
fn trace_in(alloc: Global, seed: Seed, checked: &Checked, plan: &[u8]) -> Result<String, Fault>
    ensures traces { IfOk result (λ text. IsTraceIn checked.now plan.now (string_bytes text)) }
    ensures refusal { IfErr result (ExplainsNoTrace plan.now) }
{
    let steps = match read_plan(alloc, plan) {
        Ok(steps) => steps,
        Err(error) => return Err(plan_read_in(error)),
    };
    let text = hd_explain::trace(alloc, seed, checked, steps.as_slice());
    drop(steps);
    match text {
        Ok(text) => Ok(text),
        Err(_) => Err(Fault::NoMemory),
    }
}

/// Returns what the steps of the plan of a third text do in the task that two texts say, a line for
/// each and for each of its effects, up to the first step that has a fault.
///
/// # Errors
/// - The first fault of the domain's text, of the problem's, of their names, types and metric; the
///   first bad line of the plan's text; or lack of memory. None of the plan's steps and goal.
pub fn trace(alloc: Global, domain: &[u8], problem: &[u8], plan: &[u8]) -> Result<String, Fault>
    ensures traces { IfOk result (λ text. IsTraceOf domain.now problem.now plan.now
        (string_bytes text)) }
    ensures refusal { IfErr result (HasNoTrace domain.now problem.now plan.now) }
{
    let seed = seed_of(domain, problem);
    match checked_of(alloc, seed, domain, problem) {
        Ok(checked) => {
            let text = trace_in(alloc, seed, &checked, plan);
            drop(checked);
            match text {
                Ok(text) => Ok(text),
                Err(fault) => Err(fault),
            }
        }
        Err(fault) => Err(Fault::from(fault)),
    }
}
