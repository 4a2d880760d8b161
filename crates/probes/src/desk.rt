//! What lies beside the book of a section.
ghost use Rattle.std.specs.Prelude.{◌≡◌, IfOk};

use hd_book::Ticket;
use hd_journal::{DIGEST_LEN, Journal};
use hd_store::MemoryDisk;
use hd_task::Task;
use std::alloc::{AllocError, Global};

/// What a section's questions are about.
#[derive(Clone, Copy)]
pub struct Setting<'a> {
    pub task: &'a Task,
    /// The text of the task's domain.
    pub domain: &'a [u8],
    pub digest: [u8; DIGEST_LEN],
    /// Most entries that the book may hold.
    pub most: u64,
}

/// Most tickets that are held at a time.
const MOST_HELD: usize = 100;

/// The task with its domain's text and its digest, a journal in memory, and the tickets that are
/// held.
pub struct Desk<'t> {
    pub alloc: Global,
    pub task: &'t Task,
    pub domain: &'t [u8],
    pub digest: [u8; DIGEST_LEN],
    pub journal: Option<Journal<MemoryDisk>>,
    pub held: Vec<Ticket>,
}

/// Returns a desk with a fresh journal.
pub fn desk_of<'t>(alloc: Global, setting: &Setting<'t>) -> Result<Desk<'t>, AllocError>
    ensures { IfOk result (λ d. d.task.now ≡ setting.now.task.now) }
{
    let journal = match Journal::create(alloc, MemoryDisk::new(alloc), &setting.digest) {
        Ok(journal) => Some(journal),
        Err(_) => None,
    };
    Ok(Desk {
        held: Vec::with_capacity(alloc, MOST_HELD)?,
        alloc,
        task: setting.task,
        domain: setting.domain,
        digest: setting.digest,
        journal,
    })
}
