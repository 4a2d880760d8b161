//! Making a journal, and a header.
ghost use Rattle.std.specs.Prelude.{◌≡◌, ◌+◌, ◌≤◌, List, ℕ, [], length, Result, Ok, Err, IfOk, IfErr, OnOk};
ghost use Rattle.hd_image.specs.declared.header.TheConstants.{FIRST_GATE};
ghost use Rattle.hd_image.specs.declared.version.Version.TheVariants.{Two};
ghost use Rattle.hd_image.specs.Stops.{IsMaking};
ghost use Rattle.hd_store.specs.Device.{content_of};
ghost use Rattle.hd_journal.specs.Answers.{IsBegun, IsMade, IsNotMade, device_left};
ghost use Rattle.hd_journal.specs.Calls.{Ran};
ghost use Rattle.hd_journal.specs.Journal.{IsOf, create_calls, device_of, fill_calls};
ghost use Rattle.hd_journal.specs.Moments.{IsSettled, LeavesSince};

use crate::JournalError;
use crate::journal::Journal;
use crate::strokes::write_surely;
use hd_image::{CLOSED, DIGEST_LEN, FIRST_GATE, OPEN, Version, header_bytes};
use hd_store::{Store, StoreError};
use std::alloc::Global;

/// Makes a header after its closed gate, and opens that.
pub(crate) fn fill<S: Store>(store: &mut S, digest: &[u8; DIGEST_LEN]) -> Result<(), StoreError>
    requires some { 1 ≤ length (content_of (S.device store.old)) }
    requires short { length (content_of (S.device store.old)) ≤ FIRST_GATE + 1 }
    ensures ran { Ran (S.device store.old) (fill_calls digest.now) result (S.device store.new) }
    ensures len { OnOk result (length (content_of (S.device store.new)) ≡ FIRST_GATE + 1) }
{
    write_surely(store, 1, &header_bytes(Version::Two, digest))?;
    write_surely(store, 0, &[OPEN])
}

/// Closes a header's gate, makes the header after it, and opens that.
pub(crate) fn make<S: Store>(store: &mut S, digest: &[u8; DIGEST_LEN]) -> Result<(), StoreError>
    requires { length (content_of (S.device store.old)) ≤ FIRST_GATE + 1 }
    ensures ran { Ran (S.device store.old) (create_calls digest.now) result (S.device store.new) }
    ensures len { OnOk result (length (content_of (S.device store.new)) ≡ FIRST_GATE + 1) }
{
    write_surely(store, 0, &[CLOSED])?;
    fill(store, digest)
}

/// Makes sure that a store is empty, and makes a journal there.
fn begin<S: Store>(store: &mut S, digest: &[u8; DIGEST_LEN]) -> Result<(), JournalError>
    ensures made { OnOk result (IsBegun digest.now (S.device store.old) (S.device store.new)) }
    ensures refused { IfErr result (λ error.
        IsNotMade digest.now (S.device store.old) error (S.device store.new)) }
    ensures len { OnOk result (length (content_of (S.device store.new)) ≡ FIRST_GATE + 1) }
{
    if store.len()? > 0 {
        return Err(JournalError::JournalExists);
    }
    match make(store, digest) {
        Ok(()) => Ok(()),
        Err(error) => Err(JournalError::from(error)),
    }
}

impl<S: Store> Journal<S> {
    /// Makes a journal without entries on an empty store, for the task of this digest.
    ///
    /// # Errors
    /// - The store, and why: `JournalExists` where it is not empty, and then it is as it was.
    /// - `Device`: the device failed.
    /// - `NoMemory`: the store could not grow. After these two the header may be half made: a later
    ///   `open` makes it again.
    pub fn create(
        alloc: Global,
        store: S,
        digest: &[u8; DIGEST_LEN],
    ) -> Result<Journal<S>, (S, JournalError)>
        ensures made { IfOk result (IsMade digest.now (S.device store)) }
        ensures refused { IfErr result (λ e.
            IsNotMade digest.now (S.device store) e.1 (S.device e.0)) }
        ensures whole { IfOk result (IsOf digest.now []) }
        ensures version { IfOk result (λ journal. journal.version ≡ Two) }
        // What a stop leaves at any moment is a header that is still to be made, or a journal
        // without entries.
        ensures moments { IsSettled (S.device store) → content_of (S.device store) ≡ []
            → LeavesSince (IsMaking Two digest.now) (S.device store) (device_left result) }
        ensures settled { IfOk result (λ journal. IsSettled (device_of journal)) }
    {
        let mut store = store;
        match begin(&mut store, digest) {
            Ok(()) => Ok(Journal::of(store, Version::Two, Vec::new(alloc), FIRST_GATE as u64)),
            Err(error) => Err((store, error)),
        }
    }
}
