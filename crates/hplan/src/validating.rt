//! From the bytes of three texts to the verdict on a plan.
ghost use Rattle.std.specs.Prelude.{◌≡◌, ◌⊎◌, IfOk, IfErr, OnOk, OnErr};
ghost use Rattle.hplan.specs.Written.{WritesA, WritesFrontOfA};
ghost use Rattle.hplan.specs.Verdict.{IsValidIn, ExplainsPlan, AreValid, IsVerdictOf, HasNoVerdict, HasNoVerdictYet};

use crate::fault::{Fault, judged_in, plan_read_in};
use crate::output::write_out;
use crate::text::valid_text;
use hd_base::Seed;
use hd_check::Checked;
use hd_plan::{Watched, read_plan};
use hd_texts::{checked_of, seed_of};
use std::alloc::Global;
use std::io::Write;

/// Returns what the plan that a text says costs in a checked task.
#[tactic(auto, using(crate::proofs::Explaining::plan_unread))]
fn cost_in(alloc: Global, seed: Seed, checked: &Checked, plan: &[u8]) -> Result<u64, Fault>
    ensures valid { IfOk result (IsValidIn checked.now plan.now) }
    ensures refusal { IfErr result (ExplainsPlan checked.now plan.now) }
{
    let steps = match read_plan(alloc, plan) {
        Ok(steps) => steps,
        Err(error) => return Err(plan_read_in(error)),
    };
    let cost = hd_plan::validate(alloc, seed, checked, steps.as_slice());
    drop(steps);
    match cost {
        Ok(cost) => Ok(cost),
        Err(error) => Err(judged_in(error)),
    }
}

/// Returns what the plan of the third text costs in the task of the first two.
#[tactic(auto, using(crate::proofs::Explaining::texts_without_verdict))]
fn cost_of_texts(alloc: Global, domain: &[u8], problem: &[u8], plan: &[u8]) -> Result<u64, Fault>
    ensures valid { IfOk result (AreValid domain.now problem.now plan.now) }
    ensures refusal { IfErr result (HasNoVerdictYet domain.now problem.now plan.now) }
{
    let seed = seed_of(domain, problem);
    match checked_of(alloc, seed, domain, problem) {
        Ok(checked) => {
            let cost = cost_in(alloc, seed, &checked, plan);
            drop(checked);
            match cost {
                Ok(cost) => Ok(cost),
                Err(fault) => Err(fault),
            }
        }
        Err(fault) => Err(Fault::from(fault)),
    }
}

/// Judges the plan of a third text on the task that two texts say, without grounding it, and
/// writes `valid; cost = N`.
///
/// # Errors
/// - The first fault: of the domain's text, of the problem's, of their names, types and metric; the
///   first bad line of the plan's text; the first fault of the plan; or why the writer fails. After
///   a fault of the writer a beginning of the verdict has been written, and else nothing.
#[tactic(auto, using(crate::proofs::Explaining::memory_without_verdict))]
pub fn validate<W: Write>(
    alloc: Global,
    domain: &[u8],
    problem: &[u8],
    plan: &[u8],
    out: &mut Watched<'_, W>,
) -> Result<(), Fault>
    // The verdict is written only where the plan is valid, and reports its cost.
    ensures whole { OnOk result (WritesA (IsVerdictOf domain.now problem.now plan.now)
        (W.contents out.old.writer.now) (W.contents out.new.writer.now)) }
    ensures front { OnErr result
        ((W.contents out.new.writer.now ≡ W.contents out.old.writer.now)
        ⊎ WritesFrontOfA (IsVerdictOf domain.now problem.now plan.now)
        (W.contents out.old.writer.now) (W.contents out.new.writer.now)) }

    // Why nothing is written, or not all. `Device` is reported only of an error that the writer has
    // answered, after which a beginning of the verdict is written; none that it answers is passed
    // over.
    ensures refusal { IfErr result (HasNoVerdict domain.now problem.now plan.now
        (W.contents out.old.writer.now) (W.contents out.new.writer.now)
        out.old.fault out.new.fault) }
    ensures no_fault { OnOk result (out.new.fault ≡ out.old.fault) }
{
    let cost = cost_of_texts(alloc, domain, problem, plan)?;
    let text = valid_text(alloc, cost)?;
    let written = write_out(out, &text);
    drop(text);
    match written {
        Ok(()) => Ok(()),
        Err(fault) => Err(fault),
    }
}
