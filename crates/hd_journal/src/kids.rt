//! What a journal's entries name.
ghost use Rattle.std.specs.Prelude.{◌≡◌, IfOk};
ghost use Rattle.hd_journal.specs.Journal.{kid_of, kids_of};

use crate::Journal;
use hd_base::NoMemory;
use hd_image::{Entry, Kid};
use hd_store::Store;

/// Returns the pair of an entry.
fn kid_of(entry: &Entry) -> Kid
    ensures { result ≡ kid_of entry.now }
{
    Kid {
        parent: entry.parent,
        action: entry.action,
    }
}

impl<S: Store> Journal<S> {
    /// Returns the pairs of all entries, in order: a list of its own, of 16 bytes a pair.
    ///
    /// # Errors
    /// - `NoMemory`: there is no room for it.
    pub fn kids(&self) -> Result<Vec<Kid>, NoMemory>
        ensures { IfOk result (λ kids. kids.items ≡ kids_of self.now) }
    {
        let alloc = *self.entries.allocator();
        let mut kids = Vec::with_capacity(alloc, self.entries.len())?;
        for entry in &self.entries {
            kids.push(kid_of(entry))?;
        }
        Ok(kids)
    }
}
