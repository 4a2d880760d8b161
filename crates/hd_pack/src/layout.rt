//! How much a packed state takes.
ghost use Rattle.std.specs.Prelude.{◌≡◌, ◌≤◌, ◌+◌, ◌*◌, length};
ghost use Rattle.hd_task.specs.declared.task.TheConstants.{MAX_ATOMS, MAX_FLUENTS};
ghost use Rattle.hd_pack.specs.Packing.{bytes_for};

use crate::bits::bytes_for;
use hd_task::Task;

/// How many atoms and fluents the states of a task have.
#[derive(Clone, Copy, Debug, PartialEq, Eq)]
pub struct Layout {
    atoms: usize,
    fluents: usize,
    // There are no more than a task may have.
    ghost few_atoms: { atoms ≤ MAX_ATOMS },
    ghost few_fluents: { fluents ≤ MAX_FLUENTS },
}

impl Layout {
    /// Returns the layout of the states of `task`. It does not allocate.
    pub fn new(task: &Task) -> Layout
        ensures atoms { result.atoms ≡ length task.now.initial.atoms }
        ensures fluents { result.fluents ≡ length task.now.initial.fluents }
    {
        Layout {
            atoms: task.initial.atoms.len(),
            fluents: task.initial.fluents.len(),
        }
    }

    /// Returns how many atoms there are.
    pub fn atoms(&self) -> usize
        ensures { result ≡ self.now.atoms }
    {
        self.atoms
    }

    /// Returns how many fluents there are.
    pub fn fluents(&self) -> usize
        ensures { result ≡ self.now.fluents }
    {
        self.fluents
    }

    /// Returns how many bytes a packed state has.
    pub fn bytes(&self) -> usize
        ensures { result ≡ bytes_for self.now.atoms + 8 * self.now.fluents }
    {
        bytes_for(self.atoms) + 8 * self.fluents
    }
}
