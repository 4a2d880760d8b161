//! A packed state that is read where its bytes stand, with its hash.
ghost use Rattle.std.specs.Prelude.{◌≡◌, IfOk};
ghost use Rattle.hd_zobrist.specs.Hash.{state_hash};

use hd_node::Hashed;
use hd_pack::SpareBlocks;
use hd_tables::Row;
use hd_task::NoMemory;
use std::alloc::Global;
use std::marker::Model;

/// A packed state in bytes that stand elsewhere, with its hash, which contracts see as the state.
#[derive(Debug, Drop)]
pub struct HashedRow<'r> {
    row: Row<'r>,
    hash: u64,
}

impl<'r> Model for HashedRow<'r> {
    ghost use Rattle.std.specs.Prelude.{◌≡◌};
    ghost use Rattle.hd_task.specs.declared.state.State.{State};
    ghost use Rattle.hd_zobrist.specs.Hash.{state_hash};

    ghost Value = { State };

    ghost view = { λ h. h.row };

    ghost invariant = { λ h. h.hash ≡ state_hash h.row };
}

impl<'r> HashedRow<'r> {
    /// Returns a state whose hash is known.
    pub(crate) fn known(row: Row<'r>, hash: u64) -> HashedRow<'r>
        requires { hash ≡ state_hash row }
        ensures { result ≡ row.entry }
    {
        HashedRow { row, hash }
    }

    /// Returns the state.
    pub fn row(&self) -> &Row<'r>
        ensures { result.now ≡ self.now }
    {
        &self.row
    }

    /// Returns the state's hash.
    pub fn hash(&self) -> u64
        ensures { result ≡ state_hash self.now }
    {
        self.hash
    }

    /// Returns a copy in bytes of its own, with the same hash.
    ///
    /// # Errors
    /// - `NoMemory`: there is no room for the bytes.
    pub fn copied(&self, alloc: Global) -> Result<Hashed, NoMemory>
        ensures { IfOk result (λ h. h ≡ self.now) }
    {
        let mut spare = SpareBlocks::none(alloc, 0);
        Ok(Hashed::known(self.row.packed(&mut spare)?, self.hash))
    }
}
