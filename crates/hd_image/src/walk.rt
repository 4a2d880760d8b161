//! The groups after a header, walked through from gate to gate.
ghost use Rattle.std.specs.Prelude.{◌≡◌, ◌≢◌, ◌+◌, ◌-◌, ◌*◌, ◌^◌, ◌<◌, ◌≤◌, [], IfOk, IfErr, IfSome, IfNone, length, drop, slice_index};
ghost use Rattle.hd_image.specs.Image.{parent_width, entry_width, parent_number, HasNumber, HasBytes, entry_bytes};
ghost use Rattle.hd_image.specs.Reading.{HasGroup};
ghost use Rattle.hd_image.specs.Walking.{AreWhole, IsGroupLen, HasAdded, HasWalked, Stumbles};

use crate::{Entry, FIRST_GATE, ImageError, MAX_GROUP, OPEN, Version};
use byteorder::{ByteOrder, LittleEndian};
use hd_base::NoMemory;
use hd_task::{Kid, ROOT_PARENT};
use std::alloc::Global;

/// Returns the parent that a number stands for.
fn parent_of(version: Version, number: u64) -> u64
    requires { number < 256 ^ parent_width version }
    ensures has { HasNumber version result }
    ensures told { parent_number version result ≡ number }
{
    if number == version.root_number() {
        return ROOT_PARENT;
    }
    number
}

/// Returns the pair that the bytes of an entry tell.
fn kid_in(version: Version, bytes: &[u8]) -> Kid
    requires { length bytes.now ≡ entry_width version }
    ensures held { HasBytes version result }
    ensures bytes { entry_bytes version result ≡ bytes.now }
{
    let width = version.parent_width();
    let number = LittleEndian::read_uint(bytes, width);
    let parent = parent_of(version, number);
    let action = LittleEndian::read_u32(&bytes[width..]);
    Kid { parent, action }
}

/// Adds the entries whose bytes end before this place.
fn push_entries(
    entries: &mut Vec<Entry>,
    version: Version,
    bytes: &[u8],
    end: usize,
) -> Result<(), NoMemory>
    requires whole { AreWhole version bytes.now }
    requires within { length bytes.now ≤ end }
    ensures { IfOk result (λ _. HasAdded version (end - length bytes.now) bytes.now []
        entries.old.items entries.new.items) }
{
    let width = version.entry_width();
    let mut rest = bytes;
    while !rest.is_empty() {
        let (front, after) = rest.split_at(width);
        let Kid { parent, action } = kid_in(version, front);
        let at = (end - rest.len()) as u64;
        entries.push(Entry { parent, action, at })?;
        rest = after;
    }
    Ok(())
}

/// Returns how many bytes so many entries have.
fn entries_len(version: Version, count: usize) -> usize
    requires { count ≤ MAX_GROUP }
    ensures len { result ≡ entry_width version * count }
    ensures bound { result ≤ 9 * count }
{
    match version {
        Version::One => 8 * count,
        Version::Two => 9 * count,
    }
}

/// Returns how many bytes the count and the entries of a group have, where it stands after an open
/// gate with the byte of the next one.
fn group_len(version: Version, behind: &[u8]) -> Option<usize>
    ensures some { IfSome result (λ len. IsGroupLen version behind.now len) }
    ensures none { IfNone result (¬ HasGroup version behind.now) }
{
    if behind.len() < 4 {
        return None;
    }
    let count = LittleEndian::read_u32(behind) as usize;
    if count < 1 || count > MAX_GROUP {
        return None;
    }
    let len = 4 + entries_len(version, count);
    if len < behind.len() { Some(len) } else { None }
}

/// Returns the entries of the groups after the header, and the bytes from the last gate on.
///
/// Memory is taken once, by the bytes that are there.
pub(crate) fn walk(
    alloc: Global,
    version: Version,
    content: &[u8],
) -> Result<(Vec<Entry>, &[u8]), ImageError>
    requires { FIRST_GATE < length content.now }
    ensures walked { IfOk result (λ x. HasWalked version (drop FIRST_GATE content.now)
        x.1.now x.0.items) }
    ensures ended { IfOk result (λ x. slice_index x.1.now 0 ≢ 1) }
    ensures refused { IfErr result (λ e. Stumbles version (drop FIRST_GATE content.now) e) }
{
    let Ok(mut entries) = Vec::with_capacity(alloc, content.len() / version.entry_width()) else {
        return Err(ImageError::NoMemory);
    };
    let mut rest = &content[FIRST_GATE..];
    while rest[0] == OPEN {
        let Some(len) = group_len(version, &rest[1..]) else {
            return Err(ImageError::Damaged((content.len() - rest.len()) as u64));
        };
        let (group, next) = rest.split_at(1 + len);
        let end = content.len() - next.len();
        let Ok(()) = push_entries(&mut entries, version, &group[5..], end) else {
            return Err(ImageError::NoMemory);
        };
        rest = next;
    }
    Ok((entries, rest))
}
