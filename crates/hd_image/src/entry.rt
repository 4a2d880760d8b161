//! Entries of a journal.

/// How many entries a group may have at most.
pub const MAX_GROUP: usize = 65_536;

/// An entry, and where it stands.
#[derive(Clone, Copy, Debug, PartialEq, Eq)]
pub struct Entry {
    /// The number of an entry, or `ROOT_PARENT`, in both versions.
    pub parent: u64,
    /// The number of an action.
    pub action: u32,
    /// The place of the entry's first byte.
    pub at: u64,
}
