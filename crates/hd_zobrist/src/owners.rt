//! Owners.
ghost use Rattle.std.specs.Prelude.{◌≡◌, ◌≤◌, ◌<◌, ◌%◌};
ghost use Rattle.hd_zobrist.specs.declared.owners.TheConstants.{MAX_WORKERS};

/// The greatest number of workers.
pub const MAX_WORKERS: usize = 64;

/// Returns the worker that owns the states of this hash, of so many workers, which are numbered
/// from 0.
pub fn owner(hash: u64, workers: usize) -> usize
    requires some { 1 ≤ workers }
    requires most { workers ≤ MAX_WORKERS }
    ensures owner { result ≡ hash % workers }
    ensures worker { result < workers }
{
    (hash % workers as u64) as usize
}
