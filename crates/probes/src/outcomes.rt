//! Batches as probes write them.
ghost use Rattle.std.specs.Prelude.{◌≡◌, IfOk, IfSome};
ghost use Rattle.std.specs.List.{AllByRecursion};
ghost use Rattle.hd_task.specs.Plans.{IsStateOf};
ghost use Rattle.hd_entries.specs.Settling.{IsOutcomeOfTask};

use crate::states::state_of;
use crate::texts::kid_of;
use hd_hmax::{Estimate, Hmax};
use hd_node::{Batch, By, Expansion, MAX_OUTCOMES, Outcome, Parcel};
use hd_pack::SpareBlocks;
use hd_successors::Successors;
use hd_task::{Kid, State, Task};
use hd_zobrist::Words;
use std::alloc::{AllocError, Global};

/// Expands a parcel with an index of its own.
fn expansion_of<'t>(
    alloc: Global,
    task: &'t Task,
    kid: Kid,
    state: State,
    cost: u64,
) -> Result<Expansion<'t>, AllocError>
    requires { IsStateOf task.now state }
    ensures { IfOk result (λ e. e.task ≡ task.now) }
{
    let words = Words::new(alloc, task)?;
    let mut successors = Successors::new(alloc, task)?;
    let parcel = Parcel::of(alloc, task, &words, kid, state, cost)?;
    let mut spare = SpareBlocks::none(alloc, 0);
    match Expansion::of(&mut spare, task, &words, &mut successors, parcel) {
        Ok(expansion) => Ok(expansion),
        Err((_, error)) => Err(error),
    }
}

/// Returns the estimate of a state.
fn estimate_of<'t>(alloc: Global, task: &'t Task, state: &State) -> Result<Estimate<'t>, AllocError>
    requires { IsStateOf task.now state.now }
    ensures { IfOk result (λ h. h.task ≡ task.now) }
{
    let mut hmax = Hmax::new(alloc, task)?;
    hmax.estimate(state)
}

/// Splits `KID to STATE cost N`, or `root`, into its parts.
fn step_in(text: &str) -> Option<(Kid, &str, u64)> {
    if text == "root" {
        return Some((kid_of(text)?, "start", 0));
    }
    let (kid, rest) = text.split_once(" to ")?;
    let (state, cost) = rest.split_once(" cost ")?;
    match cost.parse::<u64>() {
        Ok(cost) => Some((kid_of(kid)?, state, cost)),
        Err(_) => None,
    }
}

/// Reads `KID of entry N` or `KID of outcome N`.
fn duplicate_in(text: &str) -> Option<(Kid, By)> {
    let (kid, by) = text.split_once(" of ")?;
    let kid = kid_of(kid)?;
    let (what, number) = by.split_once(' ')?;
    match (what, number.parse::<u64>(), number.parse::<usize>()) {
        ("entry", Ok(number), _) => Some((kid, By::Entry(number))),
        ("outcome", _, Ok(number)) => Some((kid, By::Here(number))),
        _ => None,
    }
}

/// Reads an expansion.
fn expanded<'t>(
    alloc: Global,
    task: &'t Task,
    text: &str,
) -> Result<Option<Outcome<'t>>, AllocError>
    ensures { IfOk result (λ r. IfSome r (IsOutcomeOfTask task.now)) }
{
    let Some((kid, state, cost)) = step_in(text) else {
        return Ok(None);
    };
    let Some(state) = state_of(alloc, task, state)? else {
        return Ok(None);
    };
    let expansion = expansion_of(alloc, task, kid, state, cost)?;
    Ok(Some(Outcome::Expanded(expansion)))
}

/// Reads `KID at STATE`, a successor that the bound prunes.
fn bounded<'t>(alloc: Global, task: &'t Task, text: &str) -> Result<Option<Outcome<'t>>, AllocError>
    ensures { IfOk result (λ r. IfSome r (IsOutcomeOfTask task.now)) }
{
    let Some((kid, state)) = text.split_once(" at ") else {
        return Ok(None);
    };
    let (Some(kid), Some(state)) = (kid_of(kid), state_of(alloc, task, state)?) else {
        return Ok(None);
    };
    let estimate = estimate_of(alloc, task, &state)?;
    Ok(Some(Outcome::Bounded(kid, estimate)))
}

/// Reads an outcome: `expand ..`, `duplicate ..` or `bounded ..`.
fn outcome_of<'t>(
    alloc: Global,
    task: &'t Task,
    text: &str,
) -> Result<Option<Outcome<'t>>, AllocError>
    ensures { IfOk result (λ r. IfSome r (IsOutcomeOfTask task.now)) }
{
    match text.split_once(' ') {
        Some(("expand", rest)) => expanded(alloc, task, rest),
        Some(("bounded", rest)) => bounded(alloc, task, rest),
        Some(("duplicate", rest)) => match duplicate_in(rest) {
            Some((kid, by)) => Ok(Some(Outcome::Duplicate(kid, by))),
            None => Ok(None),
        },
        _ => Ok(None),
    }
}

/// Reads a batch: outcomes with commas between them.
pub fn batch_of<'t>(
    alloc: Global,
    task: &'t Task,
    text: &str,
) -> Result<Option<Batch<'t>>, AllocError>
    ensures { IfOk result
        (λ r. IfSome r (λ b. AllByRecursion (IsOutcomeOfTask task.now) b.outcomes)) }
{
    let mut outcomes = Vec::new(alloc);
    for part in text.split(", ") {
        match outcome_of(alloc, task, part)? {
            Some(outcome) => outcomes.push(outcome)?,
            None => return Ok(None),
        }
    }
    if outcomes.is_empty() || outcomes.len() > MAX_OUTCOMES {
        return Ok(None);
    }
    Ok(Some(Batch::of(outcomes)))
}
