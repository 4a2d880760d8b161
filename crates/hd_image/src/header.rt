//! The header of a journal.
ghost use Rattle.std.specs.Prelude.{◌≡◌, ◌<◌, ◌≤◌, ◌↔◌, ◌∷◌, ◌++◌, ℕ, List, [], IfSome, IfNone, IsTrue, length, drop, slice_index, slice_range};
ghost use Rattle.hd_image.specs.declared.version.Version.{Version};
ghost use Rattle.hd_image.specs.Image.{header};
ghost use Rattle.hd_image.specs.Reading.{IsHalfMade, IsHead, IsHeaded};

use crate::Version;

/// An open gate: a whole group, or a whole header, stands after it.
pub const OPEN: u8 = 1;

/// What is written for a closed gate. Whatever is not open is no longer, or not yet, part of the
/// journal.
pub const CLOSED: u8 = 0;

/// How many bytes a digest has.
pub const DIGEST_LEN: usize = 32;

/// The place of the first group's gate, after the header. So many bytes also stand after the
/// header's gate in a new journal: its header, and this gate.
pub const FIRST_GATE: usize = 38;

/// The letters with which a header begins.
const LETTERS: [u8; 4] = *b"HDPJ";

/// Returns what stands after the header's gate in a new journal: the header, and the first group's
/// gate, closed.
pub fn header_bytes(version: Version, digest: &[u8; DIGEST_LEN]) -> [u8; FIRST_GATE]
    ensures { result ≡ header version digest.now ++ 0 ∷ [] }
{
    let mut bytes = [CLOSED; FIRST_GATE];
    bytes[..4].copy_from_slice(&LETTERS);
    bytes[4] = version.byte();
    bytes[5..5 + DIGEST_LEN].copy_from_slice(digest);
    bytes
}

/// Reports whether a header was being made, and its gate is closed.
pub(crate) fn is_half_made(content: &[u8]) -> bool
    ensures { IsTrue result ↔ IsHalfMade content.now }
{
    if content.len() < 2 {
        return false;
    }
    if content.len() > FIRST_GATE + 1 {
        return false;
    }
    content[0] == CLOSED
}

/// Reports whether a header may have this gate where so many bytes stand after it.
fn is_head(head: u8, behind: usize) -> bool
    requires { 1 ≤ behind }
    ensures { IsTrue result ↔ IsHead head behind }
{
    if head == OPEN {
        return true;
    }
    if head == CLOSED {
        return false;
    }
    behind == 1
}

/// Returns the version of the header that stands at the front of a content.
pub(crate) fn headed(content: &[u8]) -> Option<Version>
    ensures long { IfSome result (λ _. FIRST_GATE < length content.now) }
    ensures some { IfSome result (λ v. IsHeaded content.now (slice_index content.now 0) v
        (slice_range content.now 6 FIRST_GATE) (drop FIRST_GATE content.now)) }
    ensures none { IfNone result ((head : ℕ) (v : Version) (digest body : List ℕ)
        → ¬ IsHeaded content.now head v digest body) }
{
    if content.len() <= FIRST_GATE {
        return None;
    }
    if &content[1..5] != LETTERS.as_slice() {
        return None;
    }
    if !is_head(content[0], content.len() - FIRST_GATE) {
        return None;
    }
    Version::of_byte(content[5])
}
