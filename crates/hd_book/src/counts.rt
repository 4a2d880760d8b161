//! How far a search has come.

/// How far a search has come.
#[derive(Clone, Copy, Debug, PartialEq, Eq)]
pub struct Counts {
    /// How many plans are expanded.
    pub entries: u64,
    /// How many plans are generated, the root's among them.
    pub posted: u64,
    /// How many of these are settled.
    pub settled: u64,
    /// How many entries are acknowledged.
    pub acknowledged: u64,
    /// How many batches were accepted.
    pub commits: u64,
}
