//! What a journal is written by.
ghost use Rattle.std.specs.Prelude.{◌≡◌, ◌<◌, ◌≤◌, ◌+◌, ◌^◌, length, take, OnOk, IfOk, slice_range};
ghost use Rattle.hd_store.specs.declared.change.DiskChange.TheVariants.{Write, Cut, Sync, FailedSync};
ghost use Rattle.hd_store.specs.Ahead.{foretold_by, foretold_of_length, GoesAsForetold};
ghost use Rattle.hd_store.specs.Bytes.{written_over, IsPartOfWrite, IsPartOfCut};
ghost use Rattle.hd_store.specs.Device.{Device, content_of, done, looked_at, refused};
ghost use Rattle.hd_store.specs.Calls.{OnFailed, OnNoMemory, BreaksOff};

use crate::error::StoreError;

/// A disk, seen as a device: what it held for sure at its start, and each step since then.
///
/// A call that fails counts one failure, as long as the count is below its greatest value, where
/// each call fails; no other call counts any. A change that fails may have been done in part: what
/// a read gives then, and what a stop may leave, is in the steps.
pub trait Store {
    /// The device that the store is.
    ghost device: { Self → Device };

    /// Returns how many bytes there are.
    ///
    /// # Errors
    /// - A failure of the device.
    fn len(&mut self) -> Result<u64, StoreError>
        ensures len { IfOk result (λ len. len ≡ length (content_of (device self.old))) }
        ensures ok { OnOk result (device self.new ≡ device self.old) }
        ensures failed { OnFailed result (device self.new ≡ refused (device self.old)) }
        ensures no_memory { OnNoMemory result ⊥ }
        ensures foretold { GoesAsForetold result (device self.old).failures
            (foretold_of_length (device self.old).reads) };

    /// Reads so many bytes from a place on, all of them within the length.
    ///
    /// # Errors
    /// - A failure of the device.
    fn read_at(&mut self, at: u64, into: &mut [u8]) -> Result<(), StoreError>
        requires { at + length into.old ≤ length (content_of (device self.old)) }
        ensures read { OnOk result (into.new
            ≡ slice_range (content_of (device self.old)) at (at + length into.old)) }
        ensures ok { OnOk result (device self.new ≡ looked_at (device self.old)) }
        ensures failed { OnFailed result (device self.new ≡ looked_at (refused (device self.old))) }
        ensures no_memory { OnNoMemory result ⊥ }
        ensures foretold { GoesAsForetold result (device self.old).failures
            (foretold_by (device self.old).reads) };

    /// Writes these bytes from a place within the length on, over what is there and past the end.
    ///
    /// # Errors
    /// - A failure of the device. Lack of memory, where the store grows: then nothing was begun.
    fn write_at(&mut self, at: u64, bytes: &[u8]) -> Result<(), StoreError>
        requires { at ≤ length (content_of (device self.old)) }
        ensures ok { OnOk result (device self.new
            ≡ done (device self.old) (Write at (length bytes.now))
            (written_over (content_of (device self.old)) at bytes.now)) }
        ensures failed { OnFailed result (BreaksOff (device self.old)
            (Write at (length bytes.now))
            (IsPartOfWrite (content_of (device self.old)) at (length bytes.now))
            (device self.new)) }
        ensures no_memory { OnNoMemory result ((device self.new ≡ device self.old)
            × (length (content_of (device self.old)) < at + length bytes.now)) }
        ensures foretold { GoesAsForetold result (device self.old).failures
            (foretold_by (device self.old).changes) };

    /// Makes sure of what a read gives.
    ///
    /// # Errors
    /// - A failure of the device: then nothing was made sure.
    fn sync(&mut self) -> Result<(), StoreError>
        ensures ok { OnOk result (device self.new ≡ done (device self.old)
            Sync (content_of (device self.old))) }
        ensures failed { OnFailed result (BreaksOff (device self.old) FailedSync
            (λ now. now ≡ content_of (device self.old)) (device self.new)) }
        ensures no_memory { OnNoMemory result ⊥ }
        ensures foretold { GoesAsForetold result (device self.old).failures
            (foretold_by (device self.old).changes) };

    /// Cuts what there is to a length within it.
    ///
    /// # Errors
    /// - A failure of the device.
    fn cut(&mut self, len: u64) -> Result<(), StoreError>
        requires { len ≤ length (content_of (device self.old)) }
        ensures ok { OnOk result (device self.new ≡ done (device self.old)
            (Cut len) (take len (content_of (device self.old)))) }
        ensures failed { OnFailed result (BreaksOff (device self.old) (Cut len)
            (IsPartOfCut (content_of (device self.old)) len) (device self.new)) }
        ensures no_memory { OnNoMemory result ⊥ }
        ensures foretold { GoesAsForetold result (device self.old).failures
            (foretold_by (device self.old).changes) };

    /// Returns how many calls have failed.
    fn failures(&self) -> u64
        ensures { result ≡ (device self.now).failures };

    /// No store has more bytes than a machine can count in a place.
    ghost small: { (store : Self) → length (content_of (device store)) < 2 ^ 63 };
}
