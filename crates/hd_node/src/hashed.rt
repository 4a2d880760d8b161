//! Packed states with their hashes.
ghost use Rattle.std.specs.Prelude.{◌≡◌, true, IfOk};
ghost use Rattle.std.specs.Hash as fed;
ghost use Rattle.std.specs.Cmp.{partial_equiv_from_equiv};
ghost use Rattle.hd_zobrist.specs.Hash.{state_hash};
ghost use Rattle.hd_node.specs.Hashed.{same_hashed, same_equiv, same_alike};

use hd_base::NoMemory;
use hd_pack::{Layout, Packed, pack};
use hd_task::{State, Task};
use hd_zobrist::Words;
use std::alloc::Global;
use std::hash::{Hash, Hasher};
use std::marker::Model;

/// A packed state with its hash, which contracts see as the state.
///
/// As the key of a map it gives its hash, and hashes nothing again.
#[derive(Debug, Drop)]
pub struct Hashed {
    state: Packed,
    hash: u64,
}

impl Model for Hashed {
    ghost use Rattle.hd_task.specs.declared.state.State.{State};
    ghost use Rattle.hd_zobrist.specs.Hash.{state_hash};
    ghost use Rattle.std.specs.Prelude.{◌≡◌};

    ghost Value = { State };

    ghost view = { λ h. h.state };

    ghost invariant = { λ h. h.hash ≡ state_hash h.state };
}

impl Hashed {
    /// Returns a state of a task, packed, with its hash.
    ///
    /// # Errors
    /// - `NoMemory`: there is no room for the packing.
    pub fn of(alloc: Global, task: &Task, words: &Words, state: &State) -> Result<Hashed, NoMemory>
        ensures { IfOk result (λ h. h ≡ state.now) }
    {
        Ok(Hashed {
            state: pack(alloc, &Layout::new(task), state)?,
            hash: words.hash(state),
        })
    }

    /// Returns a packed state whose hash is known.
    pub fn known(state: Packed, hash: u64) -> Hashed
        requires { hash ≡ state_hash state }
        ensures { result ≡ state }
    {
        Hashed { state, hash }
    }

    /// Returns the packed state.
    pub fn state(&self) -> &Packed
        ensures { result.now ≡ self.now }
    {
        &self.state
    }

    /// Returns the packed state, without its hash.
    pub fn into_state(self) -> Packed
        ensures { result ≡ self }
    {
        let Hashed { state, .. } = self;
        state
    }

    /// Returns the state's hash.
    pub fn hash(&self) -> u64
        ensures { result ≡ state_hash self.now }
    {
        self.hash
    }
}

impl PartialEq for Hashed {
    ghost eq = { same_hashed };

    ghost laws = { partial_equiv_from_equiv same_equiv };

    fn eq(&self, other: &Self) -> bool {
        self.hash == other.hash && self.state == other.state
    }
}

impl Eq for Hashed {
    ghost laws = { same_equiv };
}

impl Hash for Hashed {
    ghost hash_input = { λ s. fed.u64 (state_hash s) };

    ghost respects_eq = { same_alike };

    fn hash<H: Hasher>(&self, state: &mut H) {
        state.write_u64(self.hash);
    }
}
