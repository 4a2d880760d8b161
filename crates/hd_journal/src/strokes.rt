//! Changes of a store that are made sure of at once.
ghost use Rattle.std.specs.Prelude.{◌≡◌, ◌+◌, ◌≤◌, length, [], ◌++◌, ◌∷◌};
ghost use Rattle.hd_store.specs.Device.{content_of};
ghost use Rattle.hd_journal.specs.Calls.{Ran, surely};
ghost use Rattle.hd_journal.specs.Calls.Call.{Writing, Cutting};

use hd_store::{Store, StoreError};

/// Writes bytes and makes sure of them.
pub(crate) fn write_surely<S: Store>(store: &mut S, at: u64, bytes: &[u8]) -> Result<(), StoreError>
    requires { at ≤ length (content_of (S.device store.old)) }
    ensures { Ran (S.device store.old) (surely (Writing at bytes.now)) result
        (S.device store.new) }
{
    store.write_at(at, bytes)?;
    store.sync()
}

/// Cuts all after a length off and makes sure of that.
pub(crate) fn cut_surely<S: Store>(store: &mut S, len: u64) -> Result<(), StoreError>
    requires { len ≤ length (content_of (S.device store.old)) }
    ensures { Ran (S.device store.old) (surely (Cutting len)) result (S.device store.new) }
{
    store.cut(len)?;
    store.sync()
}
