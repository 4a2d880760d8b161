//! Mending what a stop left.
ghost use Rattle.std.specs.Prelude.{◌≡◌, ◌+◌, ◌≤◌, length, OnOk};
ghost use Rattle.hd_store.specs.Device.{content_of};
ghost use Rattle.hd_journal.specs.Calls.{Ran};
ghost use Rattle.hd_journal.specs.Journal.{cut_calls, gate_calls, head_calls, mend_calls};

use crate::strokes::{cut_surely, write_surely};
use hd_image::{CLOSED, Contents, OPEN};
use hd_store::{Store, StoreError};

/// Opens the header's gate, if it is not open.
fn open_head<S: Store>(store: &mut S, is_open: bool) -> Result<(), StoreError>
    requires { 1 ≤ length (content_of (S.device store.old)) }
    ensures ran { Ran (S.device store.old) (head_calls is_open) result (S.device store.new) }
    ensures len { OnOk result (length (content_of (S.device store.new))
        ≡ length (content_of (S.device store.old))) }
{
    if is_open {
        return Ok(());
    }
    write_surely(store, 0, &[OPEN])
}

/// Closes the last gate, if it is not closed.
fn close_gate<S: Store>(store: &mut S, is_closed: bool, gate: u64) -> Result<(), StoreError>
    requires { gate + 1 ≤ length (content_of (S.device store.old)) }
    ensures ran { Ran (S.device store.old) (gate_calls is_closed gate) result
        (S.device store.new) }
    ensures len { OnOk result (length (content_of (S.device store.new))
        ≡ length (content_of (S.device store.old))) }
{
    if is_closed {
        return Ok(());
    }
    write_surely(store, gate, &[CLOSED])
}

/// Cuts off what stands after the last gate, if anything does.
fn cut_behind<S: Store>(store: &mut S, behind: u64, gate: u64) -> Result<(), StoreError>
    requires { gate + behind + 1 ≡ length (content_of (S.device store.old)) }
    ensures ran { Ran (S.device store.old) (cut_calls behind gate) result (S.device store.new) }
    ensures len { OnOk result (gate + 1 ≡ length (content_of (S.device store.new))) }
{
    if behind == 0 {
        return Ok(());
    }
    cut_surely(store, gate + 1)
}

/// Opens the header's gate, closes the last gate, and cuts off what stands after it, each where it
/// is wanted.
pub(crate) fn mend<S: Store>(store: &mut S, found: &Contents) -> Result<(), StoreError>
    requires { found.now.last_gate + found.now.behind + 1
        ≡ length (content_of (S.device store.old)) }
    ensures ran { Ran (S.device store.old) (mend_calls found.now) result (S.device store.new) }
    ensures len { OnOk result (found.now.last_gate + 1
        ≡ length (content_of (S.device store.new))) }
{
    open_head(store, found.header_open)?;
    close_gate(store, found.gate_closed, found.last_gate)?;
    cut_behind(store, found.behind, found.last_gate)
}
