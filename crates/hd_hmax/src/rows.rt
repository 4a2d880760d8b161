//! Rows of numbers, one after the other in one list.
ghost use Rattle.std.specs.Prelude.{◌≡◌, ◌<◌, ◌++◌, ◌∷◌, [], IfOk, OnOk, length, slice_index_or};

use hd_base::NoMemory;
use std::alloc::Global;
use std::marker::Model;

/// Rows of numbers, which contracts see as a list of lists.
#[derive(Debug, Drop)]
pub(crate) struct NumberRows {
    items: Vec<u32>,
    /// Where each row starts, and where the last one ends.
    starts: Vec<usize>,
}

impl Model for NumberRows {
    ghost use Rattle.std.specs.Prelude.{ℕ, List};
    ghost use Rattle.hd_hmax.specs.Rows.{rows_of, IsLaid};

    ghost Value = { List (List ℕ) };

    ghost view = { λ r. rows_of r.starts.items r.items.items };

    ghost invariant = { λ r. IsLaid r.starts.items r.items.items };
}

impl NumberRows {
    /// Returns no rows.
    ///
    /// # Errors
    /// - `NoMemory`: there is no room for a number.
    pub(crate) fn none(alloc: Global) -> Result<NumberRows, NoMemory>
        ensures { IfOk result (λ rows. rows ≡ []) }
    {
        Ok(NumberRows {
            items: Vec::new(alloc),
            starts: vec![in alloc; 0]?,
        })
    }

    /// Adds one row more, after the others.
    ///
    /// # Errors
    /// - `NoMemory`: there is no room for the row.
    pub(crate) fn push(&mut self, row: &[u32]) -> Result<(), NoMemory>
        ensures { OnOk result (self.new ≡ self.old ++ row.now ∷ []) }
    {
        self.starts.reserve(1)?;
        self.items.extend_from_slice(row)?;
        self.starts.push(self.items.len())?;
        Ok(())
    }

    /// Returns the row of this number.
    #[inline(always)]
    pub(crate) fn row(&self, number: usize) -> &[u32]
        requires { number < length self.now }
        ensures { result.now ≡ slice_index_or self.now number [] }
    {
        let start = self.starts[number];
        let end = self.starts[number + 1];
        self.items
            .as_slice()
            .split_at(start)
            .1
            .split_at(end - start)
            .0
    }
}
