//! States.
ghost use Rattle.std.specs.Prelude.{◌≡◌, IfOk};

use crate::Reads;
use hd_base::{NoMemory, Sequence};
use std::alloc::Global;

/// Which atoms of a task are true, and the value of each of its fluents, all by number.
#[derive(Debug, PartialEq, Eq, Drop)]
pub struct State {
    /// Whether the atom of this number is true.
    pub atoms: Sequence<bool>,
    /// The value of the fluent of this number.
    pub fluents: Sequence<i64>,
}

impl State {
    /// Returns a copy of the state.
    ///
    /// # Errors
    /// - `NoMemory`: there is no room for it.
    pub fn copied(&self, alloc: Global) -> Result<State, NoMemory>
        ensures { IfOk result (λ s. s ≡ self.now) }
    {
        let atoms = Vec::from_slice(alloc, self.atoms.as_slice())?;
        let fluents = Vec::from_slice(alloc, self.fluents.as_slice())?;
        Ok(State {
            atoms: Sequence::from_vec(atoms),
            fluents: Sequence::from_vec(fluents),
        })
    }
}

impl Reads for State {
    ghost seen = { λ s. s };

    fn has_atom(&self, atom: u32) -> bool {
        let atoms = self.atoms.as_slice();
        atoms.get(atom as usize).copied().unwrap_or(false)
    }

    fn fluent_of(&self, fluent: u32) -> i64 {
        let fluents = self.fluents.as_slice();
        fluents.get(fluent as usize).copied().unwrap_or(0)
    }
}
