//! Reading plan files.

ghost use Rattle.std.specs.Prelude.{◌≡◌, ◌⊎◌, ◌+◌, ◌<◌, ◌++◌, ℕ, List, All, length, drop, take, IfOk, IfErr, OnOk, MatchResult};
ghost use Rattle.std.specs.List.{prefix_len};
ghost use Rattle.hd_lex.specs.Byte.{is_line_byte};
ghost use Rattle.hd_plan.specs.Text.{IsStep, ReadsAs, IsPlanTextFault};
ghost use Rattle.hd_plan.specs.Reading.{Adds, IsLineFault};
ghost use Rattle.hd_plan.specs.declared.text_error.PlanTextError.{PlanTextError};
ghost use Rattle.hd_plan.specs.declared.step.Step.{Step};

use crate::line::{PlanLine, line_of};
use crate::step::Step;
use crate::text_error::PlanTextError;
use hd_base::Sequence;
use std::alloc::Global;

/// Returns how many bytes at the front stand before the end of the line.
fn line_len(text: &[u8]) -> usize
    ensures { result ≡ prefix_len is_line_byte text.now }
{
    text.iter().take_while(|byte| **byte != b'\n').count()
}

/// Returns what stands after the first byte, which is a line feed if there is one.
fn behind_line_feed(text: &[u8]) -> &[u8]
    ensures { result.now ≡ drop 1 text.now }
{
    match text {
        [_, behind @ ..] => behind,
        [] => text,
    }
}

/// Adds the step of this line, if it has one.
#[tactic(auto, using(crate::proofs::Files::adds_silent, crate::proofs::Files::adds_step))]
fn add_line(
    alloc: Global,
    steps: &mut Vec<Step>,
    line: &[u8],
    number: u64,
) -> Result<(), PlanTextError>
    ensures added { OnOk result (Adds line.now steps.old.items steps.new.items) }
    ensures refusal { IfErr result (IsLineFault line.now number) }
{
    match line_of(alloc, line)? {
        PlanLine::Silent => Ok(()),
        PlanLine::Step(step) => {
            steps.push(step)?;
            Ok(())
        }
        PlanLine::Bad => Err(PlanTextError::BadLine(number)),
    }
}

/// Returns the steps of a plan file in order, or the fault of its first bad line.
#[tactic(auto, using(crate::proofs::Files::read_start, crate::proofs::Files::read_turn, crate::proofs::Files::read_refused, crate::proofs::Files::read_less, crate::proofs::Files::read_all))]
fn steps_of(alloc: Global, text: &[u8]) -> Result<Vec<Step>, PlanTextError>
    ensures answer { IfOk result (λ found. ReadsAs text.now found.items) }
    ensures refusal { IfErr result (λ error.
        (error ≡ PlanTextError.NoMemory) ⊎ IsPlanTextFault text.now error) }
{
    let mut steps = Vec::new(alloc);
    let mut rest = text;
    let mut number: u64 = 0;
    while !rest.is_empty() {
        let len = line_len(rest);
        number += 1;
        if let Err(error) = add_line(alloc, &mut steps, &rest[..len], number) {
            drop(steps);
            return Err(error);
        }
        rest = behind_line_feed(&rest[len..]);
    }
    Ok(steps)
}

/// Returns the steps of a plan file in order, or the fault of its first bad line.
///
/// Any bytes may come. The only error that a good text meets is lack of memory.
///
/// # Errors
/// - `BadLine` with the number of the first bad line, counted from 1, and lack of memory.
#[tactic(auto, using(crate::proofs::Lowered::reads_names, crate::proofs::Files::reads_unique, crate::proofs::Files::good_refused, crate::proofs::Files::bad_answered, crate::proofs::Files::bad_refused))]
pub fn read_plan(alloc: Global, text: &[u8]) -> Result<Sequence<Step>, PlanTextError>
    // What is answered: the steps of the text's lines, in order, whose names are those of texts, in
    // lower case.
    ensures answer { IfOk result (λ steps. ReadsAs text.now steps) }
    ensures names { IfOk result (λ steps. All IsStep steps) }

    // What is reported: the first bad line, or lack of memory.
    ensures refusal { IfErr result (λ error.
        (error ≡ PlanTextError.NoMemory) ⊎ IsPlanTextFault text.now error) }

    // A text with no bad line is answered, and one with a bad line is refused, unless memory ran
    // out.
    ensures good_text { (steps : List Step) → ReadsAs text.now steps
        → MatchResult result (λ found. found ≡ steps) (λ error. error ≡ PlanTextError.NoMemory) }
    ensures bad_text { (fault : PlanTextError) → IsPlanTextFault text.now fault
        → MatchResult result (λ _. ⊥)
        (λ error. (error ≡ PlanTextError.NoMemory) ⊎ (error ≡ fault)) }
{
    match steps_of(alloc, text) {
        Ok(steps) => Ok(Sequence::from_vec(steps)),
        Err(error) => Err(error),
    }
}
