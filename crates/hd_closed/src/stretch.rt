//! States of rows that are estimated together.
ghost use Rattle.std.specs.Prelude.{◌≡◌, ◌≤◌, length, slice_range};

use hd_hmax::Group;
use hd_tables::RowBlocks;
use hd_task::Reads;
use std::marker::Model;

/// The states from one place up to another, which contracts see as a list.
#[derive(Debug, Drop)]
pub(crate) struct Stretch<'r> {
    rows: &'r RowBlocks,
    first: usize,
    end: usize,
}

impl<'r> Model for Stretch<'r> {
    ghost use Rattle.std.specs.Prelude.{◌≤◌, List, length, slice_range};
    ghost use Rattle.hd_task.specs.declared.state.State.{State};

    ghost Value = { List State };

    ghost view = { λ s. slice_range s.rows.now.states s.first s.end };

    ghost invariant = { λ s. (s.first ≤ s.end) × (s.end ≤ length s.rows.now.states) };
}

impl<'r> Stretch<'r> {
    /// Returns the states from place `first` up to `end`.
    pub(crate) fn of(rows: &'r RowBlocks, first: usize, end: usize) -> Stretch<'r>
        requires ordered { first ≤ end }
        requires within { end ≤ length rows.now.states }
        ensures { result ≡ slice_range rows.now.states first end }
    {
        Stretch { rows, first, end }
    }
}

impl<'r> Group for Stretch<'r> {
    ghost states = { λ s. s };

    fn count(&self) -> usize {
        self.end - self.first
    }

    fn has_atom(&self, lane: usize, atom: u32) -> bool {
        // So that it is known that the sum fits.
        let _end = self.end;
        self.rows.at(self.first + lane).has_atom(atom)
    }

    fn eight_atoms(&self, lane: usize, number: usize) -> u8 {
        // So that it is known that the sum fits.
        let _end = self.end;
        self.rows.at(self.first + lane).eight_atoms(number)
    }
}
