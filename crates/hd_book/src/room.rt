//! What the pairs of a group are put into.
ghost use Rattle.std.specs.Prelude.{◌≡◌, ◌≤◌, [], nat_le, is_some, vec_capacity};
ghost use Rattle.hd_book.specs.declared.queue.TheConstants.{MAX_GROUP};

use crate::queue::MAX_GROUP;
use hd_task::{Kid, NoMemory};
use std::alloc::Global;

/// An empty list with room for the pairs of any group. The book fills it where a group goes out, so
/// that it does not allocate then.
#[derive(Debug, Drop)]
pub struct Room {
    kids: Vec<Kid>,
    ghost empty: { kids.items ≡ [] },
    ghost enough: { MAX_GROUP ≤ vec_capacity kids },
}

impl Room {
    /// Returns room for a group: one block of a mebibyte.
    /// A system gives only what is written to of it.
    ///
    /// # Errors
    /// - `NoMemory`: there is none.
    pub fn new(alloc: Global) -> Result<Room, NoMemory> {
        let kids = Vec::with_capacity(alloc, MAX_GROUP as usize)?;
        Ok(Room { kids })
    }

    /// Returns a list whose pairs are of no use any more, if it has room for any group; else it is
    /// given up.
    fn of(kids: Vec<Kid>) -> Option<Room>
        ensures { is_some result ≡ nat_le MAX_GROUP (vec_capacity kids) }
    {
        if kids.capacity() < MAX_GROUP as usize {
            return None;
        }
        let mut kids = kids;
        kids.clear();
        Some(Room { kids })
    }

    /// Returns the list.
    pub(crate) fn into_vec(self) -> Vec<Kid>
        ensures empty { result.items ≡ [] }
        ensures enough { MAX_GROUP ≤ vec_capacity result }
    {
        let Room { kids } = self;
        kids
    }
}

/// Where room for groups is taken from: who hands groups on keeps it, so that the list of a group
/// that is over serves the next one.
#[derive(Debug, Drop)]
pub struct Rooms {
    alloc: Global,
    kept: Option<Room>,
}

impl Rooms {
    /// Returns rooms with nothing kept yet.
    pub fn new(alloc: Global) -> Rooms {
        Rooms { alloc, kept: None }
    }

    /// Returns what is kept, or else new room.
    ///
    /// # Errors
    /// - `NoMemory`: there is no room.
    pub fn take(&mut self) -> Result<Room, NoMemory> {
        match self.kept.take() {
            Some(room) => Ok(room),
            None => Room::new(self.alloc),
        }
    }

    /// Keeps room that was not used.
    pub fn put_back(&mut self, room: Room) {
        self.kept = Some(room);
    }

    /// Keeps the list of a group that is over, if it has room for any group.
    pub fn reuse(&mut self, kids: Vec<Kid>) {
        if let Some(room) = Room::of(kids) {
            self.kept = Some(room);
        }
    }
}
