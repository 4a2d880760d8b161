//! What is reported of a journal.
use crate::{DIGEST_LEN, Version};

/// What is reported of a journal.
#[derive(Clone, Copy, Debug, PartialEq, Eq)]
pub struct Summary {
    /// The version of its format.
    pub version: Version,
    /// The digest of its task's texts.
    pub digest: [u8; DIGEST_LEN],
    /// How many entries its groups have.
    pub entries: u64,
    /// How many groups it has.
    pub groups: u64,
    /// How many bytes stand after the last gate: a group that is not whole, or that was not sure
    /// to be when it was written. They are no part of the journal.
    pub behind: u64,
}

/// What a file's bytes are.
#[derive(Clone, Copy, Debug, PartialEq, Eq)]
pub enum Inspected {
    /// A byte at most: there is no header yet.
    Unmade,
    /// A header was being made, and its gate is closed.
    HalfMade,
    /// A journal.
    Journal(Summary),
}
