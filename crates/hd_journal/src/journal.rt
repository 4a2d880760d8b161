//! Journals.
ghost use Rattle.std.specs.Prelude.{◌≡◌, ◌+◌, false, length};
ghost use Rattle.hd_store.specs.Device.{content_of};
ghost use Rattle.hd_image.specs.Image.{most_of};

use hd_image::{Entry, Version};
use hd_store::Store;

/// A journal on a store: entries in groups, each with its place.
#[derive(Drop)]
pub struct Journal<S: Store> {
    pub(crate) store: S,
    pub(crate) version: Version,
    pub(crate) entries: Vec<Entry>,
    pub(crate) last_gate: u64,
    pub(crate) failed: bool,
    // The last gate is the last byte, as long as the device has not failed.
    ghost placed: { failed ≡ false → last_gate + 1 ≡ length (content_of (S.device store)) },
}

impl<S: Store> Journal<S> {
    /// Returns a journal of these entries on a store, whose last byte is its last gate.
    pub(crate) fn of(store: S, version: Version, entries: Vec<Entry>, last_gate: u64) -> Journal<S>
        requires { last_gate + 1 ≡ length (content_of (S.device store)) }
        ensures device { S.device result.store ≡ S.device store }
        ensures version { result.version ≡ version }
        ensures entries { result.entries.items ≡ entries.items }
        ensures gate { result.last_gate ≡ last_gate }
        ensures running { result.failed ≡ false }
    {
        Journal {
            store,
            version,
            entries,
            last_gate,
            failed: false,
        }
    }

    /// Returns all entries, in order, with their places. They are kept once: what was read when the
    /// journal was opened, and what was appended since then.
    pub fn entries(&self) -> &[Entry]
        ensures { result.now ≡ self.now.entries.items }
    {
        self.entries.as_slice()
    }

    /// Returns how many entries the journal may have at most: their numbers are below this.
    pub fn most(&self) -> u64
        ensures { result ≡ most_of self.now.version }
    {
        self.version.most()
    }

    /// Returns the store, as the journal left it.
    pub fn into_store(self) -> S
        ensures { S.device result ≡ S.device self.store }
    {
        self.store
    }
}
