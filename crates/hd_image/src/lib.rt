//! Writes and reads the bytes of a journal, apart from any device.
//!
//! [`read`] reports exactly what a file's bytes are: a journal with its entries, a header still to
//! be made, or why they are refused. Memory aside, each content has exactly one answer.
//! [`header_bytes`] and [`closed_group`] return the bytes to write. [`laws`] state that what was
//! written is read back, and what a stop may leave. [`inspect`] needs no task's texts: it returns
//! the version, digest and counts of a journal of any task ([`Summary`]), or why there is none.
//!
//! A journal is a header and groups of entries. A gate, one byte, stands before each of them and at
//! the end. An open gate stands before a whole group; the last gate is closed. [`read`] walks from
//! gate to gate, and allocates once. [`inspect`] takes the digest from the header and passes it to
//! `read`. Start reading at `specs/Image`, then at [`read`] and `specs/Inspecting`.
#![tactic(auto)]

mod contents;
mod entry;
mod error;
mod group;
mod groups;
mod header;
mod inspected;
mod inspecting;
pub mod laws;
mod reading;
mod version;
mod walk;

pub use contents::{Contents, Found};
pub use entry::{Entry, MAX_GROUP};
pub use error::ImageError;
pub use group::{closed_group, fits};
pub use hd_task::{Kid, ROOT_PARENT};
pub use header::{CLOSED, DIGEST_LEN, FIRST_GATE, OPEN, header_bytes};
pub use inspected::{Inspected, Summary};
pub use inspecting::{image_digest_text, inspect};
pub use reading::read;
pub use version::Version;
