//! States of rows, each at a place of its own, that are estimated together.
ghost use Rattle.std.specs.Prelude.{◌≡◌, ◌<◌, length};
ghost use Rattle.std.specs.List.{AllByRecursion};
ghost use Rattle.hd_closed.specs.Picked.{states_at};

use hd_hmax::Group;
use hd_tables::RowBlocks;
use hd_task::Reads;
use std::marker::Model;

/// The states at these places, which contracts see as a list.
#[derive(Debug, Drop)]
pub(crate) struct Picked<'r> {
    rows: &'r RowBlocks,
    places: &'r [usize],
}

impl<'r> Model for Picked<'r> {
    ghost use Rattle.std.specs.Prelude.{◌<◌, List, length};
    ghost use Rattle.std.specs.List.{AllByRecursion};
    ghost use Rattle.hd_task.specs.declared.state.State.{State};
    ghost use Rattle.hd_closed.specs.Picked.{states_at};

    ghost Value = { List State };

    ghost view = { λ p. states_at p.rows.now.states p.places.now };

    ghost invariant = { λ p. AllByRecursion (λ k. k < length p.rows.now.states) p.places.now };
}

impl<'r> Picked<'r> {
    /// Returns the states at these places.
    pub(crate) fn of(rows: &'r RowBlocks, places: &'r [usize]) -> Picked<'r>
        requires { AllByRecursion (λ k. k < length rows.now.states) places.now }
        ensures { result ≡ states_at rows.now.states places.now }
    {
        Picked { rows, places }
    }
}

impl<'r> Group for Picked<'r> {
    ghost states = { λ s. s };

    fn count(&self) -> usize {
        self.places.len()
    }

    fn has_atom(&self, lane: usize, atom: u32) -> bool {
        self.rows.at(self.places[lane]).has_atom(atom)
    }

    fn eight_atoms(&self, lane: usize, number: usize) -> u8 {
        self.rows.at(self.places[lane]).eight_atoms(number)
    }
}
