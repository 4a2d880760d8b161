//! Provides disks on which a journal is written: a trait, a disk in memory, and a disk over a file.
//!
//! A call of [`Store`] that succeeds has exactly its effect; one that the device fails is counted,
//! and may have had any part of it. After a successful sync a stop leaves what a read gives. After
//! later writes, each written byte may be anything, and the length is in a range (`specs/Stop`).
//!
//! Contracts see a device: its content at the start, and each write, cut and sync since.
//! [`MemoryDisk`] fails and stops as planned, and marks the bytes that a stop may change.
//! [`FileStore`] locks its file and keeps a copy in memory. That the file is such a disk is
//! trusted. Start reading at [`Store`], then at `specs/Device` and `specs/Stop`.
#![tactic(auto)]

mod ahead;
mod change;
mod error;
mod file;
mod history;
mod image;
pub mod laws;
mod memory;
mod plan;
mod platter;
mod store;

pub use ahead::Ahead;
pub use change::DiskChange;
pub use error::{MOST_FAILURES, StoreError};
pub use file::FileStore;
pub use memory::MemoryDisk;
pub use store::Store;
