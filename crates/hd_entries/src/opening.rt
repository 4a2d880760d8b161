//! The parcels of successors, each made again from its parent's state.
ghost use Rattle.std.specs.Prelude.{◌≡◌, ◌<◌, true, slice_index_or, IfOk};
ghost use Rattle.hd_entries.specs.Settling.{is_posted, knows_parent};
ghost use Rattle.hd_entries.specs.Holding.{posted_count, state_of, unmarked, IsExpanded, IsHeld};
ghost use Rattle.hd_entries.specs.Resuming.{IsOpenAt, LeadsToState};

use crate::content::EntriesContent;
use crate::expanded::ExpandedPlans;
use hd_node::{Hashed, Parcel};
use hd_pack::{Led, SpareBlocks, leads};
use hd_task::{ActionId, Kid, NoMemory, ROOT_PARENT};

impl<'t> ExpandedPlans<'t> {
    /// Returns the parcel of the posted successor `kid`, by the book's own application.
    ///
    /// # Errors
    /// - `NoMemory`: there is no room for its state.
    pub(crate) fn parcel_for(&self, kid: Kid) -> Result<Parcel<'t>, NoMemory>
        requires held { IsExpanded self.now }
        requires known { knows_parent (unmarked self.now) kid ≡ true }
        requires posted { is_posted (unmarked self.now) kid ≡ true }
        ensures kid { IfOk result (λ p. p.kid ≡ kid) }
        ensures leads { IfOk result (LeadsToState (unmarked self.now)) }
    {
        if kid.parent == ROOT_PARENT {
            let initial = self.task.initial.copied(self.alloc)?;
            let parcel = Parcel::of(self.alloc, self.task, &self.words, kid, initial, 0)?;
            return Ok(parcel);
        }
        let parent = self.entries.at(kid.parent as usize);
        let from = parent.state.copied(self.alloc)?;
        let action = ActionId(kid.action);
        let (state, hash) = (from.state(), from.hash());
        let mut spare = SpareBlocks::none(self.alloc, 0);
        match leads(
            &mut spare,
            self.task,
            &self.words,
            state,
            hash,
            parent.cost,
            action,
        )? {
            Led::Next(state, hash, cost) => {
                let state = Hashed::known(state, hash);
                Ok(Parcel::known(self.task, kid, state, cost))
            }
            Led::No => unreachable!(),
            Led::Departs => unreachable!(),
        }
    }
}

impl<'t> EntriesContent<'t> {
    /// Reports whether the successor at a place is settled.
    pub(crate) fn is_settled(&self, place: usize) -> bool
        requires held { IsHeld self.now }
        requires within { place < posted_count (state_of self.now) }
        ensures { result ≡ slice_index_or (state_of self.now).marks place true }
    {
        self.kids.is_settled(place)
    }

    /// Returns the parcel of the successor at a place, if it is not settled.
    ///
    /// # Errors
    /// - `NoMemory`: there is no room for its state.
    pub(crate) fn open_at(&self, place: usize) -> Result<Option<Parcel<'t>>, NoMemory>
        requires held { IsHeld self.now }
        requires within { place < posted_count (state_of self.now) }
        ensures { IfOk result (IsOpenAt (state_of self.now) place) }
    {
        if self.is_settled(place) {
            return Ok(None);
        }
        let parcel = self.expanded.parcel_for(self.kids.kid_at(place))?;
        Ok(Some(parcel))
    }
}
