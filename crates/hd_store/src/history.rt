//! What was done to a disk, as proofs see it. It does not allocate, and its calls do nothing when
//! they run.
ghost use Rattle.std.specs.Prelude.{◌≡◌, ℕ, List, [], ◌∷◌};
ghost use Rattle.std.specs.Borrow.{ftrue};
ghost use Rattle.hd_store.specs.Past.{Step, made_step};
ghost use Rattle.hd_store.specs.Platter.{content_of};

use crate::change::DiskChange;
use crate::platter::Platter;
use std::marker::Model;

/// What a disk held for sure at its start, and the steps since then, the last one first.
#[derive(Drop)]
pub(crate) struct History {
    pub(crate) ghost start: { List ℕ },
    pub(crate) ghost steps: { List Step },
}

impl Model for History {
    ghost also_owns = { λ _. ftrue };
}

impl History {
    /// Returns the history of a disk that holds `_held` for sure.
    pub(crate) fn of(_held: &Platter) -> History
        ensures { (result.start ≡ content_of _held.now) × (result.steps ≡ []) }
    {
        History {}
    }

    /// Returns one step more: this change was begun, and this is held after it.
    pub(crate) fn with_step(_before: &History, _change: &DiskChange, _held: &Platter) -> History
        ensures { (result.start ≡ _before.now.start)
            × (result.steps ≡ made_step _change.now (content_of _held.now) ∷ _before.now.steps) }
    {
        History {}
    }
}
