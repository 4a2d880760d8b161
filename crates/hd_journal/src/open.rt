//! Opening a journal that is there.
ghost use Rattle.std.specs.Prelude.{◌≡◌, ◌≢◌, ◌+◌, ◌≤◌, ◌∷◌, ◌++◌, ℕ, List, [], false, length, Result, Ok, Err, IfOk, IfErr, OnOk};
ghost use Rattle.std.specs.List.{AllByRecursion};
ghost use Rattle.hd_task.specs.declared.plan.Kid.{Kid};
ghost use Rattle.hd_image.specs.declared.version.Version.{Version};
ghost use Rattle.hd_image.specs.declared.version.Version.TheVariants.{Two};
ghost use Rattle.hd_image.specs.Image.{IsGroup, front};
ghost use Rattle.hd_image.specs.Reading.{IsFound};
ghost use Rattle.hd_image.specs.Stops.{IsBeforeOrAfter, IsMaking};
ghost use Rattle.hd_store.specs.Device.{content_of};
ghost use Rattle.hd_journal.specs.Answers.{IsMended, IsNotOpened, IsOpened, IsSeen, IsUnseen, FitsIn, StandsIn, device_left};
ghost use Rattle.hd_journal.specs.Calls.{Ran};
ghost use Rattle.hd_journal.specs.Journal.{IsOf, device_of, found_in, gate_in, open_calls, version_in};
ghost use Rattle.hd_journal.specs.Moments.{IsSettled, LeavesSince};

use crate::JournalError;
use crate::create::{fill, make};
use crate::journal::Journal;
use crate::mending::mend;
use hd_image::{DIGEST_LEN, FIRST_GATE, Found, Version, read};
use hd_store::{Store, StoreError};
use std::alloc::Global;

/// Returns all bytes of a store.
fn all_bytes<S: Store>(alloc: Global, store: &mut S) -> Result<Vec<u8>, JournalError>
    ensures bytes { IfOk result (λ bytes. bytes.items ≡ content_of (S.device store.old)) }
    ensures seen { OnOk result (IsSeen (S.device store.old) (S.device store.new)) }
    ensures refused { IfErr result (λ error.
        IsUnseen (S.device store.old) error (S.device store.new)) }
{
    let len = store.len()?;
    let mut bytes = Vec::with_capacity(alloc, len as usize)?;
    bytes.resize(len as usize, 0)?;
    store.read_at(0, &mut bytes)?;
    Ok(bytes)
}

/// Returns what stands in a store.
fn find<S: Store>(
    alloc: Global,
    store: &mut S,
    digest: &[u8; DIGEST_LEN],
) -> Result<Found, JournalError>
    ensures found { IfOk result (IsFound digest.now (content_of (S.device store.old))) }
    ensures seen { OnOk result (IsSeen (S.device store.old) (S.device store.new)) }
    ensures refused { IfErr result (λ error.
        IsNotOpened digest.now (S.device store.old) error (S.device store.new)) }
{
    let content = all_bytes(alloc, store)?;
    match read(alloc, &content, digest) {
        Ok(found) => Ok(found),
        Err(error) => Err(JournalError::from(error)),
    }
}

/// Mends what was found, or makes it.
fn settle<S: Store>(
    store: &mut S,
    digest: &[u8; DIGEST_LEN],
    found: &Found,
) -> Result<(), StoreError>
    requires { FitsIn found.now (length (content_of (S.device store.old))) }
    ensures ran { Ran (S.device store.old) (open_calls digest.now found.now) result
        (S.device store.new) }
    ensures len { OnOk result (gate_in found.now + 1
        ≡ length (content_of (S.device store.new))) }
{
    match found {
        Found::Unmade => make(store, digest),
        Found::HalfMade => fill(store, digest),
        Found::Journal(contents) => mend(store, contents),
    }
}

/// Finds what stands in a store, and mends it, or makes it.
fn recover<S: Store>(
    alloc: Global,
    store: &mut S,
    digest: &[u8; DIGEST_LEN],
) -> Result<Found, JournalError>
    ensures mended { IfOk result (λ found.
        IsMended digest.now (S.device store.old) found (S.device store.new)) }
    ensures len { IfOk result (λ found. gate_in found + 1
        ≡ length (content_of (S.device store.new))) }
    ensures refused { IfErr result (λ error.
        IsNotOpened digest.now (S.device store.old) error (S.device store.new)) }
{
    let found = find(alloc, store, digest)?;
    match settle(store, digest, &found) {
        Ok(()) => Ok(found),
        Err(error) => Err(JournalError::from(error)),
    }
}

impl<S: Store> Journal<S> {
    /// Returns the journal on a store where this was found and mended.
    fn of_found(alloc: Global, store: S, found: Found) -> Journal<S>
        requires { gate_in found + 1 ≡ length (content_of (S.device store)) }
        ensures device { device_of result ≡ S.device store }
        ensures version { result.version ≡ version_in found }
        ensures entries { result.entries.items ≡ found_in found }
        ensures gate { result.last_gate ≡ gate_in found }
        ensures running { result.failed ≡ false }
    {
        match found {
            Found::Unmade | Found::HalfMade => {
                Journal::of(store, Version::Two, Vec::new(alloc), FIRST_GATE as u64)
            }
            Found::Journal(contents) => Journal::of(
                store,
                contents.version,
                contents.entries.into_vec(),
                contents.last_gate,
            ),
        }
    }

    /// Opens the journal of the task of this digest, and mends what a stop left: of a group that
    /// was being appended nothing stays, or the whole. A header that is not there yet, or was being
    /// made, is made.
    ///
    /// # Errors
    /// - The store, and why: `NotAJournal`, `OtherTask` and `Damaged` of its bytes, and then it is
    ///   as it was.
    /// - `Device`: the device failed.
    /// - `NoMemory`. After these two a header may be half made, or a journal half mended: it is to
    ///   be opened again.
    pub fn open(
        alloc: Global,
        store: S,
        digest: &[u8; DIGEST_LEN],
    ) -> Result<Journal<S>, (S, JournalError)>
        ensures opened { IfOk result (IsOpened digest.now (S.device store)) }
        ensures refused { IfErr result (λ e.
            IsNotOpened digest.now (S.device store) e.1 (S.device e.0)) }
        // It is the journal of some groups; of those that stand there; and of none where a header
        // was being made.
        ensures whole { IfOk result (λ journal.
            (groups : List (List Kid)) × IsOf digest.now groups journal) }
        ensures groups { (v : Version) (groups : List (List Kid))
            → StandsIn v digest.now groups (content_of (S.device store))
            → IfOk result (λ journal. (journal.version ≡ v) × IsOf digest.now groups journal) }
        ensures none { IsMaking Two digest.now (content_of (S.device store))
            → IfOk result (λ journal. (journal.version ≡ Two) × IsOf digest.now [] journal) }
        // What a stop leaves at any moment is of the same kind as what an earlier one left.
        ensures making { IsSettled (S.device store)
            → IsMaking Two digest.now (content_of (S.device store))
            → LeavesSince (IsMaking Two digest.now) (S.device store) (device_left result) }
        ensures moments { (v : Version) (groups : List (List Kid)) (next : List Kid)
            → IsSettled (S.device store)
            → AllByRecursion (IsGroup v) groups → IsGroup v next
            → IsBeforeOrAfter v digest.now groups next (content_of (S.device store))
            → LeavesSince (IsBeforeOrAfter v digest.now groups next)
            (S.device store) (device_left result) }
        ensures settled { IsSettled (S.device store)
            → IfOk result (λ journal. IsSettled (device_of journal)) }
    {
        let mut store = store;
        match recover(alloc, &mut store, digest) {
            Ok(found) => Ok(Journal::of_found(alloc, store, found)),
            Err(error) => Err((store, error)),
        }
    }
}
