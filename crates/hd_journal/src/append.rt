//! Appending a group.
ghost use Rattle.std.specs.Prelude.{◌≡◌, ◌+◌, ◌*◌, ◌<◌, ◌≤◌, ◌^◌, ◌∷◌, ◌++◌, ℕ, List, [], true, false, length, vec_len, vec_capacity, IfOk, IfErr, OnOk, OnErr};
ghost use Rattle.std.specs.List.{AllByRecursion};
ghost use Rattle.hd_task.specs.declared.plan.Kid.{Kid};
ghost use Rattle.hd_image.specs.declared.entry.TheConstants.{MAX_GROUP};
ghost use Rattle.hd_image.specs.Image.{HasNumber, IsGroup, counted, entries_of};
ghost use Rattle.hd_image.specs.Stops.{IsBeforeOrAfter};
ghost use Rattle.hd_store.specs.Calls.{OnNoMemory};
ghost use Rattle.hd_store.specs.Device.{content_of};
ghost use Rattle.hd_journal.specs.Answers.{IsAppended, IsNotAppended, is_next};
ghost use Rattle.hd_journal.specs.Calls.{Ran, surely};
ghost use Rattle.hd_journal.specs.Calls.Call.{Writing};
ghost use Rattle.hd_journal.specs.Journal.{IsOf, IsSame, device_of, kids_of};
ghost use Rattle.hd_journal.specs.Moments.{IsSettled, LeavesSince};

use crate::JournalError;
use crate::group::{Flushed, Group};
use crate::journal::Journal;
use crate::strokes::write_surely;
use hd_image::{Entry, Kid, OPEN, Version, closed_group, fits};
use hd_store::{Store, StoreError};

/// Writes bytes after a closed gate that is the last byte, makes sure of them, and opens the gate.
fn write_behind<S: Store>(store: &mut S, gate: u64, bytes: &[u8]) -> Result<(), StoreError>
    requires { gate + 1 ≡ length (content_of (S.device store.old)) }
    ensures ran { Ran (S.device store.old)
        (surely (Writing (gate + 1) bytes.now) ++ surely (Writing gate (1 ∷ [])))
        result (S.device store.new) }
    ensures len { OnOk result (length (content_of (S.device store.new))
        ≡ gate + 1 + length bytes.now) }
    ensures no_memory { OnNoMemory result (S.device store.new ≡ S.device store.old) }
{
    write_surely(store, gate + 1, bytes)?;
    write_surely(store, gate, &[OPEN])
}

/// Pushes to a `Vec` that has room.
fn push_reserved(entries: &mut Vec<Entry>, entry: Entry)
    requires { vec_len entries.old < vec_capacity entries.old }
    ensures items { entries.new.items ≡ entries.old.items ++ entry ∷ [] }
    ensures capacity { vec_capacity entries.old ≤ vec_capacity entries.new }
{
    match entries.push(entry) {
        Ok(()) => {}
        Err(_) => unreachable!(),
    }
}

/// Adds the entries of pairs, of which the first stands at this place, to a `Vec` that has room.
fn push_entries(entries: &mut Vec<Entry>, version: Version, first: u64, kids: &[Kid])
    requires room { vec_len entries.old + length kids.now ≤ vec_capacity entries.old }
    requires places { first + 9 * length kids.now < 2 ^ 64 }
    ensures { entries.new.items ≡ entries.old.items ++ entries_of version first kids.now }
{
    let width = version.entry_width() as u64;
    let mut at = first;
    let mut rest = kids;
    while let [kid, after @ ..] = rest {
        let Kid { parent, action } = *kid;
        push_reserved(entries, Entry { parent, action, at });
        at += width;
        rest = after;
    }
}

impl<S: Store> Journal<S> {
    /// Reports whether a group may be appended.
    fn is_next(&self, group: &Group) -> bool
        ensures next { result ≡ is_next self.now group.now }
        ensures told { result ≡ true → AllByRecursion
            (λ kid. HasNumber self.now.version kid.parent) group.now.kids }
    {
        group.first() == self.entries.len() as u64 && fits(self.version, group.kids())
    }

    /// Returns the bytes that are to be written to append a group; there is room for its entries
    /// then.
    fn prepare(&mut self, group: &Group) -> Result<Vec<u8>, JournalError>
        ensures running { OnOk result (self.old.failed ≡ false) }
        ensures next { OnOk result (is_next self.old group.now ≡ true) }
        ensures bytes { IfOk result (λ bytes. bytes.items
            ≡ counted self.old.version group.now.kids ++ 0 ∷ []) }
        ensures group { OnOk result (IsGroup self.old.version group.now.kids) }
        ensures room { OnOk result (vec_len self.new.entries + length group.now.kids
            ≤ vec_capacity self.new.entries) }
        ensures same { IsSame self.old self.new }
        ensures refused { IfErr result (λ error.
            IsNotAppended self.old group.now error self.new) }
    {
        if self.failed {
            return Err(JournalError::Failed);
        }
        if !self.is_next(group) {
            return Err(JournalError::NotOut);
        }
        let alloc = *self.entries.allocator();
        let kids = group.kids();
        let bytes = closed_group(alloc, self.version, kids)?;
        self.entries.reserve(kids.len())?;
        Ok(bytes)
    }

    /// Writes a group after the last gate, and opens that; the entries are kept then.
    fn put(&mut self, group: &Group) -> Result<(), JournalError>
        ensures appended { OnOk result (IsAppended self.old group.now self.new) }
        ensures group { OnOk result (IsGroup self.old.version group.now.kids) }
        ensures refused { IfErr result (λ error.
            IsNotAppended self.old group.now error self.new) }
    {
        let bytes = match self.prepare(group) {
            Ok(bytes) => bytes,
            Err(error) => return Err(error),
        };
        match write_behind(&mut self.store, self.last_gate, &bytes) {
            Ok(()) => {
                push_entries(
                    &mut self.entries,
                    self.version,
                    self.last_gate + 5,
                    group.kids(),
                );
                self.last_gate += bytes.len() as u64;
                Ok(())
            }
            Err(error) => {
                self.failed = matches!(error, StoreError::Failed);
                Err(JournalError::from(error))
            }
        }
    }

    /// Appends a group: it is written after the last gate, made sure of, and then its gate is
    /// opened. At `Ok` it stays, whatever happens.
    ///
    /// # Errors
    /// - The group, and why: `Failed` if the device failed in an earlier call; else `NotOut`
    ///   where the group does not begin where the entries end, or names a parent that is neither
    ///   the root's nor below [`Journal::most`]; else `NoMemory`. After these nothing is changed.
    /// - `Device`: the device failed: whether the group stays is open until the file is opened
    ///   again, and each further call answers `Failed`.
    pub fn append(&mut self, group: Group) -> Result<Flushed, (Group, JournalError)>
        ensures flushed { IfOk result (λ flushed. flushed ≡ group) }
        ensures appended { OnOk result (IsAppended self.old group self.new) }
        ensures refused { IfErr result (λ e. IsNotAppended self.old group e.1 self.new) }
        ensures handed_back { IfErr result (λ e. e.0 ≡ group) }
        ensures kids { OnOk result (kids_of self.new ≡ kids_of self.old ++ group.kids) }
        ensures some { 1 ≤ length group.kids }
        ensures same_kids { OnErr result (kids_of self.new ≡ kids_of self.old) }
        ensures whole { (digest : List ℕ) (groups : List (List Kid))
            → IsOf digest groups self.old
            → OnOk result (IsOf digest (groups ++ group.kids ∷ []) self.new) }
        // What a stop leaves at any moment holds the groups before, or these and the whole new one.
        ensures moments { (digest : List ℕ) (groups : List (List Kid))
            → IsOf digest groups self.old → IsSettled (device_of self.old)
            → LeavesSince (IsBeforeOrAfter self.old.version digest groups group.kids)
            (device_of self.old) (device_of self.new) }
        ensures settled { OnOk result (IsSettled (device_of self.new)) }
    {
        match self.put(&group) {
            Ok(()) => Ok(Flushed::of(group)),
            Err(error) => Err((group, error)),
        }
    }
}
