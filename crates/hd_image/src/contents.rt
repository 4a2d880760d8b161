//! What a file's bytes tell.

use crate::{Entry, Version};
use hd_base::Sequence;

/// What is reported of a journal.
#[derive(Debug, Drop)]
pub struct Contents {
    /// The version of its format.
    pub version: Version,
    /// The entries of its groups, in order.
    pub entries: Sequence<Entry>,
    /// The place of the last gate, after which the next group goes.
    pub last_gate: u64,
    /// Whether the header's gate is open. If not, it was being opened.
    pub header_open: bool,
    /// Whether the last gate is closed. If not, it was being opened, or closed again.
    pub gate_closed: bool,
    /// How many bytes stand after the last gate. They are no part of the journal.
    pub behind: u64,
}

/// What a file's bytes are.
#[derive(Debug, Drop)]
pub enum Found {
    /// A byte at most: there is no header yet.
    Unmade,
    /// A header was being made, and its gate is closed.
    HalfMade,
    /// A journal.
    Journal(Contents),
}
