//! Reading schedules.

ghost use Rattle.std.specs.Prelude.{◌≡◌, ◌⊎◌, ℕ, List, IfOk, IfErr, MatchResult, Ok, Err};
ghost use Rattle.hd_world.specs.Schedule.{schedule_of, IsScheduleFault};
ghost use Rattle.hd_world.specs.declared.moves.Move.{Move};

use crate::moves::Move;
use crate::schedule_error::ScheduleError;
use crate::schedule_line::{Said, said_of};
use hd_base::Sequence;
use std::alloc::Global;

/// Returns the moves of a schedule in order, or the fault of its first bad line.
fn moves_of(alloc: Global, text: &[u8]) -> Result<Vec<Move>, ScheduleError>
    ensures answer { IfOk result (λ moves. schedule_of text.now ≡ Ok moves.items) }
    ensures refusal { IfErr result (λ error.
        (error ≡ ScheduleError.NoMemory) ⊎ IsScheduleFault text.now error) }
{
    let mut moves = Vec::new(alloc);
    let mut number: u64 = 0;
    for line in text.split(|byte| *byte == b'\n') {
        number += 1;
        match said_of(alloc, line)? {
            Said::Silent => {}
            Said::Move(step) => moves.push(step)?,
            Said::Bad => return Err(ScheduleError::BadLine(number)),
        }
    }
    Ok(moves)
}

/// Returns the moves of a schedule in order, or the fault of its first bad line.
///
/// Any bytes may come. The only error that a good text meets is lack of memory.
///
/// # Errors
/// - `BadLine` with the number of the first bad line, counted from 1, and lack of memory.
pub fn read_schedule(alloc: Global, text: &[u8]) -> Result<Sequence<Move>, ScheduleError>
    // What is answered: the moves of the text's lines, in order.
    ensures answer { IfOk result (λ moves. schedule_of text.now ≡ Ok moves) }

    // What is reported: the first bad line, or lack of memory.
    ensures refusal { IfErr result (λ error.
        (error ≡ ScheduleError.NoMemory) ⊎ IsScheduleFault text.now error) }

    // A text with no bad line is answered, and one with a bad line is refused, unless memory ran
    // out.
    ensures good_text { (moves : List Move) → schedule_of text.now ≡ Ok moves
        → MatchResult result (λ found. found ≡ moves) (λ error. error ≡ ScheduleError.NoMemory) }
    ensures bad_text { (line : ℕ) → schedule_of text.now ≡ Err line
        → MatchResult result (λ _. ⊥)
        (λ error. (error ≡ ScheduleError.NoMemory) ⊎ (error ≡ ScheduleError.BadLine line)) }
{
    match moves_of(alloc, text) {
        Ok(moves) => Ok(Sequence::from_vec(moves)),
        Err(error) => Err(error),
    }
}
