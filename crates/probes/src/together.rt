//! Probes of estimates of two states at once.
ghost use Rattle.std.specs.Prelude.{◌≡◌, ℕ, ◌+◌, ◌*◌, ◌<◌, ◌≤◌, ◌==◌, length};
ghost use Rattle.std.specs.Int.{bit_at};
ghost use Rattle.hd_task.specs.Conditions.{has_atom};

use crate::states::state_of;
use hd_hmax::{EstimateValue, Group, Hmax};
use hd_task::{Reads, State, Task};
use std::alloc::{AllocError, Global};
use std::marker::Model;

/// Returns eight atoms of a state, a bit each, from the atom `8 * number` on.
fn eight_of(state: &State, number: usize) -> u8
    requires { 8 * number + 8 ≤ length state.now.atoms }
    ensures { (k : ℕ) → k < 8 → (bit_at result k == 1) ≡ has_atom state.now (8 * number + k) }
{
    let mut byte = 0;
    for done in 0..8 {
        let is_true = state.atoms.as_slice()[8 * number + (7 - done)];
        byte = 2 * byte + u8::from(is_true);
    }
    byte
}

/// Two states.
#[derive(Drop)]
struct Pair<'s> {
    first: &'s State,
    second: &'s State,
}

impl<'s> Model for Pair<'s> {
    ghost use Rattle.hd_task.specs.declared.state.State.{State};

    ghost Value = { State × State };

    ghost view = { λ p. (p.first.now, p.second.now) };
}

impl<'s> Group for Pair<'s> {
    ghost use Rattle.std.specs.Prelude.{◌∷◌, []};

    ghost states = { λ both. both.0 ∷ both.1 ∷ [] };

    fn count(&self) -> usize {
        2
    }

    fn has_atom(&self, lane: usize, atom: u32) -> bool {
        if lane == 0 {
            self.first.has_atom(atom)
        } else {
            self.second.has_atom(atom)
        }
    }

    fn eight_atoms(&self, lane: usize, number: usize) -> u8 {
        if lane == 0 {
            eight_of(self.first, number)
        } else {
            eight_of(self.second, number)
        }
    }
}

/// Writes what is told of a state.
fn value_text(alloc: Global, value: Option<EstimateValue>) -> Result<String, AllocError> {
    match value {
        Some(EstimateValue::Cost(cost)) => format!(in alloc; "{cost}"),
        Some(EstimateValue::Dead) => String::from_str(alloc, "dead"),
        None => String::from_str(alloc, "untold"),
    }
}

/// Answers the estimates of two states, made at once: `together STATE / STATE`.
pub fn ask_together(alloc: Global, task: &Task, rest: &str) -> Result<Option<String>, AllocError> {
    let Some((one, other)) = rest.split_once(" / ") else {
        return Ok(None);
    };
    let Some(first) = state_of(alloc, task, one)? else {
        return Ok(None);
    };
    let Some(second) = state_of(alloc, task, other)? else {
        return Ok(None);
    };
    let pair = Pair {
        first: &first,
        second: &second,
    };
    let mut hmax = Hmax::new(alloc, task)?;
    let values = hmax.estimates(&pair);
    let one = value_text(alloc, values[0])?;
    let other = value_text(alloc, values[1])?;
    Ok(Some(format!(in alloc; "{one} {other}")?))
}
