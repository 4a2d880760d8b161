//! The bytes of a journal, read up to their damage.
ghost use Rattle.std.specs.Prelude.{◌≡◌, ◌<◌, ◌∷◌, ◌++◌, [], IfOk, IfErr, length, take};
ghost use Rattle.hd_image.specs.Reading.{IsDamaged};
ghost use Rattle.hd_journal.specs.Salvage.{IsFoundUpTo, IsLost};

use hd_image::{CLOSED, DIGEST_LEN, Found, ImageError, read};
use std::alloc::Global;

/// What is kept of the bytes of a journal.
#[derive(Debug, Drop)]
pub struct Salvaged {
    /// What the bytes are read as, up to their damage.
    pub found: Found,
    /// The place of the gate from which on they are dropped, if they are damaged.
    pub dropped: Option<u64>,
}

/// Closes the gate at a place, and cuts off what stands after it.
fn close_at(content: &mut Vec<u8>, at: usize)
    requires { at < length content.old.items }
    ensures { content.new.items ≡ take at content.old.items ++ 0 ∷ [] }
{
    content[at] = CLOSED;
    content.truncate(at + 1);
}

/// Returns what the bytes before the damage are read as, with a closed gate after them.
fn read_before(
    alloc: Global,
    content: Vec<u8>,
    digest: &[u8; DIGEST_LEN],
    at: u64,
) -> Result<Found, ImageError>
    requires { IsDamaged digest.now content.items at }
    ensures found { IfOk result (λ found.
        IsFoundUpTo digest.now content.items (Some at) found) }
    ensures refused { IfErr result (IsLost digest.now content.items) }
{
    let mut front = content;
    close_at(&mut front, at as usize);
    let found = read(alloc, &front, digest);
    drop(front);
    found
}

/// Returns what is kept of bytes that are damaged at a place.
fn salvage_before(
    alloc: Global,
    content: Vec<u8>,
    digest: &[u8; DIGEST_LEN],
    at: u64,
) -> Result<Salvaged, ImageError>
    requires { IsDamaged digest.now content.items at }
    ensures salvaged { IfOk result (λ s.
        IsFoundUpTo digest.now content.items s.dropped s.found) }
    ensures refused { IfErr result (IsLost digest.now content.items) }
{
    match read_before(alloc, content, digest, at) {
        Ok(found) => Ok(Salvaged {
            found,
            dropped: Some(at),
        }),
        Err(error) => Err(error),
    }
}

/// Returns what the bytes of a file are, for the task of this digest; those of a damaged journal up
/// to the open gate that has no whole group and next gate after it. No memory is taken but for the
/// entries.
///
/// # Errors
/// - `NotAJournal`: no header stands at the front, and none was being made.
/// - `OtherTask`: it has another digest.
/// - `NoMemory`: there is no room for the entries.
/// - `Damaged` is never told.
pub fn salvage(
    alloc: Global,
    content: Vec<u8>,
    digest: &[u8; DIGEST_LEN],
) -> Result<Salvaged, ImageError>
    ensures salvaged { IfOk result (λ s.
        IsFoundUpTo digest.now content.items s.dropped s.found) }
    ensures refused { IfErr result (IsLost digest.now content.items) }
{
    match read(alloc, &content, digest) {
        Ok(found) => {
            drop(content);
            Ok(Salvaged {
                found,
                dropped: None,
            })
        }
        Err(error) => match error {
            ImageError::Damaged(at) => salvage_before(alloc, content, digest, at),
            ImageError::NotAJournal | ImageError::OtherTask | ImageError::NoMemory => {
                drop(content);
                Err(error)
            }
        },
    }
}
