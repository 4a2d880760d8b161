//! What changes a disk.

/// A change of a disk that was begun.
#[derive(Clone, Copy, Debug, PartialEq, Eq)]
pub enum DiskChange {
    /// A write: its first place, and how many bytes.
    Write(u64, u64),
    /// A cut to this length.
    Cut(u64),
    /// A sync that succeeded.
    Sync,
    /// A sync that failed: it makes nothing sure.
    FailedSync,
}
