//! What a file's bytes are.
ghost use Rattle.std.specs.Prelude.{◌≡◌, IfOk, IfErr};
ghost use Rattle.hd_image.specs.Reading.{IsFound, IsRefused};

use crate::header::{headed, is_half_made};
use crate::walk::walk;
use crate::{CLOSED, Contents, DIGEST_LEN, FIRST_GATE, Found, ImageError, OPEN};
use hd_base::Sequence;
use std::alloc::Global;

/// Returns what the bytes of a file are, for the task of this digest. Memory is taken once, for the
/// entries, by the bytes that are there.
///
/// # Errors
/// - `NotAJournal`: no header stands at the front, and none was being made.
/// - `OtherTask`: it has another digest.
/// - `Damaged` with the place of the first open gate that has no whole group and next gate after
///   it.
/// - `NoMemory`: there is no room for the entries.
pub fn read(alloc: Global, content: &[u8], digest: &[u8; DIGEST_LEN]) -> Result<Found, ImageError>
    ensures found { IfOk result (λ found. IsFound digest.now content.now found) }
    ensures refused { IfErr result (λ error. IsRefused digest.now content.now error) }
{
    if content.len() <= 1 {
        return Ok(Found::Unmade);
    }
    if is_half_made(content) {
        return Ok(Found::HalfMade);
    }
    let Some(version) = headed(content) else {
        return Err(ImageError::NotAJournal);
    };
    if &content[6..FIRST_GATE] != digest.as_slice() {
        return Err(ImageError::OtherTask);
    }
    match walk(alloc, version, content) {
        Ok(walked) => {
            let (entries, rest) = walked;
            Ok(Found::Journal(Contents {
                version,
                entries: Sequence::from_vec(entries),
                last_gate: (content.len() - rest.len()) as u64,
                header_open: content[0] == OPEN,
                gate_closed: rest[0] == CLOSED,
                behind: (rest.len() - 1) as u64,
            }))
        }
        Err(error) => Err(error),
    }
}
