//! Stores states in few bytes, and applies actions to them in this form.
//!
//! Contracts see a [`Packed`] as the state. [`leads`] returns exactly what `hd_task::step` returns
//! for the state, with the hash of the successor; [`test_step`] returns only whether there is one.
//! [`pack`] and [`unpack`] keep the state.
//!
//! Atom i is bit `i mod 8`, least significant first, of byte `i div 8`; unused bits are 0. Eight
//! bytes for each fluent follow, in two's complement, least significant byte first. So two states
//! of one task are equal exactly if their bytes are. Up to 48 bytes stand in the value itself,
//! without an allocation; more take a block, which [`SpareBlocks`] keeps for the next packing.
//! `leads` copies the bytes once, and updates the hash by what changes. [`SplitBytes`] are those of a
//! packing that stands elsewhere and shares bytes with others.
//!
//! Start reading at [`leads`], then `specs/Packing.antt`.
#![tactic(auto)]

mod bits;
pub mod laws;
mod layout;
mod leading;
mod packed;
mod spare;
mod split;
mod values;

pub use layout::Layout;
pub use leading::{Led, leads, test_step};
pub use packed::{Packed, pack, unpack};
pub use spare::SpareBlocks;
pub use split::{Segment, SplitBytes, agree, own_width, push_own};
