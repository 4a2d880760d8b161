//! The call that inspects.
ghost use Rattle.std.specs.Prelude.{◌≡◌, ◌<◌, None, IfOk, IfErr, length, slice_range, string_bytes};
ghost use Rattle.hex.specs.Hex.{encode_lower};
ghost use Rattle.hd_image.specs.declared.header.TheConstants.{FIRST_GATE};
ghost use Rattle.hd_image.specs.Image.{entry_width};
ghost use Rattle.hd_image.specs.Groups.{count_groups};
ghost use Rattle.hd_image.specs.Inspecting.{IsInspected, IsRefused};

use crate::groups::groups_of;
use crate::{Contents, DIGEST_LEN, FIRST_GATE, Found, ImageError, Inspected, Summary, read};
use hd_base::NoMemory;
use std::alloc::Global;

/// Returns the bytes where a header has its digest, or zeros if there are too few.
fn digest_in(content: &[u8]) -> [u8; DIGEST_LEN]
    ensures { FIRST_GATE < length content.now → result ≡ slice_range content.now 6 FIRST_GATE }
{
    let mut digest = [0u8; DIGEST_LEN];
    if content.len() > FIRST_GATE {
        digest.copy_from_slice(&content[6..FIRST_GATE]);
    }
    digest
}

/// Returns what is reported of a journal of this digest.
fn summary_of(digest: [u8; DIGEST_LEN], found: &Contents) -> Summary
    ensures version { result.version ≡ found.now.version }
    ensures digest { result.digest ≡ digest }
    ensures entries { result.entries ≡ length found.now.entries }
    ensures groups { result.groups
        ≡ count_groups (entry_width found.now.version) None found.now.entries }
    ensures behind { result.behind ≡ found.now.behind }
{
    let entries = found.entries.as_slice();
    Summary {
        version: found.version,
        digest,
        entries: entries.len() as u64,
        groups: groups_of(entries, found.version.entry_width() as u64),
        behind: found.behind,
    }
}

/// Returns what the bytes of a file tell of the journal in them, whatever its task.
///
/// # Errors
/// - `NotAJournal`: no header stands at the front, and none was being made.
/// - `Damaged` with the place of the first open gate that has no whole group and next gate after
///   it.
/// - `NoMemory`.
/// - `OtherTask` is never told.
pub fn inspect(alloc: Global, content: &[u8]) -> Result<Inspected, ImageError>
    ensures inspected { IfOk result (IsInspected content.now) }
    ensures refused { IfErr result (IsRefused content.now) }
{
    let digest = digest_in(content);
    match read(alloc, content, &digest) {
        Ok(Found::Unmade) => Ok(Inspected::Unmade),
        Ok(Found::HalfMade) => Ok(Inspected::HalfMade),
        Ok(Found::Journal(found)) => Ok(Inspected::Journal(summary_of(digest, &found))),
        Err(error) => Err(error),
    }
}

/// Returns a digest in hexadecimal, in lower case.
///
/// # Errors
/// - `NoMemory`: there is no room for the text.
pub fn image_digest_text(alloc: Global, digest: &[u8; DIGEST_LEN]) -> Result<String, NoMemory>
    ensures { IfOk result (λ text. string_bytes text ≡ encode_lower digest.now) }
{
    hex::encode(alloc, digest.as_slice())
}
