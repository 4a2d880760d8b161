//! The table of successors.
use crate::search::{begun_at, end_of, place_in};
use crate::{Bits, Chunks};
use hd_base::NoMemory;
use hd_task::{Kid, ROOT_ACTION, ROOT_PARENT};
use std::alloc::Global;
use std::marker::Model;

/// The successors that entries have posted, in posting order, each with a mark: whether it is
/// settled. The root comes first.
#[derive(Debug, Drop)]
pub struct KidTable {
    /// By entry: the place of its first successor.
    firsts: Chunks<usize>,
    /// By place. An entry's successors stand side by side, and their actions rise.
    actions: Chunks<u32>,
    /// By place.
    marks: Bits,
    /// How many marks are set.
    settled: u64,
}

impl Model for KidTable {
    ghost use Rattle.hd_tables.specs.Kids.{KidsView};
    ghost use Rattle.hd_tables.specs.Places.{shown, AreKids};

    ghost Value = { KidsView };

    ghost view = { λ t. shown t.firsts t.actions t.marks };

    ghost invariant = { λ t. AreKids t.firsts.items t.actions.items t.marks.items t.settled };
}

impl KidTable {
    ghost use Rattle.std.specs.Prelude.{◌≡◌, ◌↔◌, ◌-◌, ◌<◌, ◌≤◌, [], ◌∷◌, true, false, IfOk, OnOk, IsOk, IfSome, IsTrue, length, slice_index_or};
    ghost use Rattle.std.specs.List.{position};
    ghost use Rattle.hd_task.specs.declared.plan.TheConstants.{ROOT_PARENT};
    ghost use Rattle.hd_tables.specs.declared.chunks.TheConstants.{MOST_ITEMS};
    ghost use Rattle.hd_tables.specs.Kids.{root, same_kid, marked_count, AreSameKids, ComesAfter, HasNone, with_mark_at, with_new_entry, with_kid};

    /// Returns the table of a search that has not begun: the root is posted.
    ///
    /// # Errors
    /// - `NoMemory`: there is no room for it.
    pub fn new(alloc: Global) -> Result<KidTable, NoMemory>
        ensures kids { IfOk result (λ t. t.kids ≡ root ∷ []) }
        ensures marks { IfOk result (λ t. t.marks ≡ false ∷ []) }
        ensures entries { IfOk result (λ t. t.entries ≡ 0) }
    {
        let mut actions = Chunks::new(alloc);
        let mut marks = Bits::new(alloc);
        actions.reserve(1)?;
        marks.reserve(1)?;
        actions.push(ROOT_ACTION);
        marks.push(false);
        Ok(KidTable {
            firsts: Chunks::new(alloc),
            actions,
            marks,
            settled: 0,
        })
    }

    /// Makes room for so many entries more, and for so many successors of theirs.
    ///
    /// # Errors
    /// - `NoMemory`: the table is as it was, and so is the room that there was.
    pub fn reserve(&mut self, entries: usize, kids: usize) -> Result<(), NoMemory>
        ensures same { AreSameKids self.old self.new }
        ensures entry_room_kept { self.old.entry_room ≤ self.new.entry_room }
        ensures kid_room_kept { self.old.kid_room ≤ self.new.kid_room }
        ensures entry_room { OnOk result (entries ≤ self.new.entry_room) }
        ensures kid_room { OnOk result (kids ≤ self.new.kid_room) }
        ensures enough { entries ≤ self.old.entry_room → kids ≤ self.old.kid_room → IsOk result }
    {
        self.firsts.reserve(entries)?;
        self.actions.reserve(kids)?;
        self.marks.reserve(kids)
    }

    /// Adds an entry, which has no successors yet. It does not allocate.
    pub fn enter(&mut self)
        requires room { 0 < self.old.entry_room }
        requires few { self.old.entries < ROOT_PARENT }
        ensures entered { self.new ≡ with_new_entry self.old }
        ensures fresh { HasNone self.old.kids self.old.entries }
    {
        let first = self.actions.len();
        self.firsts.push(first);
    }

    /// Posts a successor of the last entry, which is not settled. It does not allocate.
    pub fn post(&mut self, action: u32)
        requires room { 0 < self.old.kid_room }
        requires entered { 0 < self.old.entries }
        requires after { ComesAfter self.old.kids (self.old.entries - 1) action }
        ensures { self.new ≡ with_kid self.old action }
    {
        self.actions.push(action);
        self.marks.push(false);
    }

    /// Reports whether an action comes after those of the last entry's successors.
    pub fn comes_next(&self, action: u32) -> bool
        requires { 0 < self.now.entries }
        ensures { IsTrue result ↔ ComesAfter self.now.kids (self.now.entries - 1) action }
    {
        let posted = self.actions.len();
        let first = *self.firsts.at(self.firsts.len() - 1);
        first == posted || *self.actions.at(posted - 1) < action
    }

    /// Returns how many entries more there is room for.
    pub fn entry_room(&self) -> usize
        ensures { result ≡ self.now.entry_room }
    {
        self.firsts.room()
    }

    /// Returns how many successors more there is room for.
    pub fn kid_room(&self) -> usize
        ensures { result ≡ self.now.kid_room }
    {
        self.actions.room().min(self.marks.room())
    }

    /// Returns how many entries there are.
    pub fn entries(&self) -> usize
        ensures { result ≡ self.now.entries }
    {
        self.firsts.len()
    }

    /// Returns how many successors are posted.
    pub fn posted(&self) -> u64
        ensures posted { result ≡ length self.now.kids }
        ensures marks { result ≡ length self.now.marks }
        ensures few { result ≤ MOST_ITEMS }
    {
        self.actions.len() as u64
    }

    /// Returns how many successors are settled.
    pub fn settled(&self) -> u64
        ensures settled { result ≡ marked_count self.now }
        ensures few { result ≤ length self.now.kids }
    {
        self.settled
    }

    /// Returns the place of a successor, if it is posted.
    pub fn place_of(&self, kid: Kid) -> Option<usize>
        ensures place { result ≡ position (same_kid kid) self.now.kids }
        ensures within { IfSome result (λ k. k < length self.now.kids) }
    {
        let posted = self.actions.len();
        if kid.parent == ROOT_PARENT {
            return if kid.action == ROOT_ACTION {
                Some(0)
            } else {
                None
            };
        }
        let entry = kid.parent as usize;
        if entry >= self.firsts.len() {
            return None;
        }
        let end = end_of(&self.firsts, posted, entry);
        place_in(&self.actions, *self.firsts.at(entry), end, kid.action)
    }

    /// Returns the successor at a place.
    pub fn kid_at(&self, place: usize) -> Kid
        requires { place < length self.now.kids }
        ensures { result ≡ slice_index_or self.now.kids place result }
    {
        let action = *self.actions.at(place);
        match begun_at(&self.firsts, place).checked_sub(1) {
            Some(entry) => Kid {
                parent: entry as u64,
                action,
            },
            None => Kid {
                parent: ROOT_PARENT,
                action,
            },
        }
    }

    /// Reports whether the successor at a place is settled.
    pub fn is_settled(&self, place: usize) -> bool
        requires { place < length self.now.kids }
        ensures { result ≡ slice_index_or self.now.marks place true }
    {
        self.marks.at(place)
    }

    /// Settles the successor at a place. It does not allocate.
    pub fn settle(&mut self, place: usize)
        requires within { place < length self.old.kids }
        requires unsettled { slice_index_or self.old.marks place true ≡ false }
        ensures { self.new ≡ with_mark_at self.old place true }
    {
        self.marks.set(place, true);
        self.settled += 1;
    }

    /// Takes back that the successor at a place is settled. It does not allocate.
    pub fn reopen(&mut self, place: usize)
        requires within { place < length self.old.kids }
        requires settled { slice_index_or self.old.marks place false ≡ true }
        ensures { self.new ≡ with_mark_at self.old place false }
    {
        self.marks.set(place, false);
        self.settled -= 1;
    }
}
