//! What a line of a plan file says.

ghost use Rattle.std.specs.Prelude.{◌≡◌, IfOk, IfErr};
ghost use Rattle.std.specs.List.{list_all};
ghost use Rattle.hd_plan.specs.Text.{is_plain_byte};
ghost use Rattle.hd_plan.specs.Reading.{IsSaid};

use crate::step::{Step, step_of};
use crate::text_error::PlanTextError;
use hd_lex::{LexError, tokens};
use std::alloc::Global;

/// What a line says.
#[derive(Drop)]
pub enum PlanLine {
    Silent,
    Step(Step),
    Bad,
}

/// Reports whether no comment stands in the line.
fn is_plain(line: &[u8]) -> bool
    ensures { result ≡ list_all is_plain_byte line.now }
{
    line.iter().all(|byte| *byte != b';')
}

/// Returns what this line says.
#[tactic(auto, using(crate::proofs::Lines::line_is_silent, crate::proofs::Lines::line_is_step, crate::proofs::Lines::commented_bad, crate::proofs::Lines::misshaped_bad, crate::proofs::Lines::faulty_bad))]
pub fn line_of(alloc: Global, line: &[u8]) -> Result<PlanLine, PlanTextError>
    ensures said { IfOk result (IsSaid line.now) }
    ensures no_memory { IfErr result (λ error. error ≡ PlanTextError.NoMemory) }
{
    let tokens = match tokens(alloc, line) {
        Ok(tokens) => tokens,
        Err(LexError::NoMemory) => return Err(PlanTextError::NoMemory),
        Err(LexError::BadByte(_) | LexError::BadNumber(_) | LexError::NameTooLong(_)) => {
            return Ok(PlanLine::Bad);
        }
    };
    if tokens.is_empty() {
        return Ok(PlanLine::Silent);
    }
    if !is_plain(line) {
        return Ok(PlanLine::Bad);
    }
    match step_of(alloc, &tokens)? {
        Some(step) => Ok(PlanLine::Step(step)),
        None => Ok(PlanLine::Bad),
    }
}
