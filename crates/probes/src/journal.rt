//! Probes of a section's journal.
ghost use Rattle.std.specs.Prelude.{◌≡◌};

use crate::desk::Desk;
use crate::playing::verb_of;
use crate::texts::{hex_of, kids_of, kids_text};
use hd_journal::{DIGEST_LEN, Group, Journal, MAX_GROUP};
use hd_store::MemoryDisk;
use std::alloc::{AllocError, Global};

/// Returns a copy of the journal's bytes. The journal is closed for it, and opened again.
fn bytes_of(desk: &mut Desk) -> Result<Option<Vec<u8>>, AllocError>
    ensures { desk.new.task.now ≡ desk.old.task.now }
{
    let alloc = desk.alloc;
    let Some(journal) = desk.journal.take() else {
        return Ok(None);
    };
    let disk = journal.into_store();
    let copy = Vec::from_slice(alloc, disk.bytes())?;
    if let Ok(journal) = Journal::open(alloc, disk, &desk.digest) {
        desk.journal = Some(journal);
    }
    Ok(Some(copy))
}

/// Reads a group: `FIRST: KIDS`.
pub fn group_in(alloc: Global, text: &str) -> Result<Option<Group>, AllocError> {
    let Some((first, kids)) = text.split_once(": ") else {
        return Ok(None);
    };
    match (first.parse::<u64>(), kids_of(alloc, kids)?) {
        (Ok(first), Some(kids)) if !kids.is_empty() && kids.len() <= MAX_GROUP => {
            Ok(Some(Group::of(first, kids)))
        }
        _ => Ok(None),
    }
}

/// Answers `append FIRST: KIDS`: that the group is appended, or the refusal and the group that
/// comes back.
fn appended(desk: &mut Desk, text: &str) -> Result<Option<String>, AllocError>
    ensures { desk.new.task.now ≡ desk.old.task.now }
{
    let alloc = desk.alloc;
    let Some(journal) = desk.journal.as_mut() else {
        return Ok(None);
    };
    let Some(group) = group_in(alloc, text)? else {
        return Ok(None);
    };
    match journal.append(group) {
        Ok(flushed) => {
            let (first, kids) = flushed.parts();
            let kids = kids_text(alloc, &kids)?;
            Ok(Some(format!(in alloc; "appended {first}: {kids}")?))
        }
        Err((group, error)) => {
            let (first, kids) = group.parts();
            let kids = kids_text(alloc, &kids)?;
            Ok(Some(format!(in alloc; "{error}, back {first}: {kids}")?))
        }
    }
}

/// Changes bytes as `text` says: `cut to N`, or `byte N is M`.
fn damage(bytes: &mut Vec<u8>, text: &str) {
    if let Some(length) = text.strip_prefix("cut to ")
        && let Ok(length) = length.parse::<usize>()
    {
        bytes.truncate(length);
    }
    if let Some(rest) = text.strip_prefix("byte ")
        && let Some((place, value)) = rest.split_once(" is ")
        && let (Ok(place), Ok(value)) = (place.parse::<usize>(), value.parse::<u8>())
        && place < bytes.len()
    {
        bytes[place] = value;
    }
}

/// Returns a disk of these bytes after what `text` says: as above, `read N fails` or `change N
/// fails`.
fn disk_of(alloc: Global, bytes: Vec<u8>, text: &str) -> Result<MemoryDisk, AllocError> {
    let mut bytes = bytes;
    damage(&mut bytes, text);
    let mut disk = MemoryDisk::of(alloc, bytes)?;
    let (what, rest) = verb_of(text);
    let (number, _) = verb_of(rest);
    match (what, number.parse::<u64>()) {
        ("read", Ok(n)) if n > 0 => disk.fail_read(n),
        ("change", Ok(n)) if n > 0 => disk.fail_at(n),
        _ => {}
    }
    Ok(disk)
}

/// Opens a journal: how many entries and bytes it has, or the refusal.
fn opened(
    alloc: Global,
    disk: MemoryDisk,
    digest: &[u8; DIGEST_LEN],
) -> Result<String, AllocError> {
    match Journal::open(alloc, disk, digest) {
        Ok(journal) => {
            let entries = journal.entries().len();
            let disk = journal.into_store();
            format!(in alloc; "entries {entries}, bytes {}", disk.bytes().len())
        }
        Err((disk, error)) => format!(in alloc; "{error}, bytes {}", disk.bytes().len()),
    }
}

/// Answers `open`, with what is done to a copy of the journal before: how it opens.
fn tried(desk: &mut Desk, text: &str) -> Result<Option<String>, AllocError>
    ensures { desk.new.task.now ≡ desk.old.task.now }
{
    let alloc = desk.alloc;
    let Some(bytes) = bytes_of(desk)? else {
        return Ok(None);
    };
    let disk = disk_of(alloc, bytes, text)?;
    Ok(Some(opened(alloc, disk, &desk.digest)?))
}

/// Answers `disk`, with what will fail: the journal goes on with that disk.
fn changed(desk: &mut Desk, text: &str) -> Result<Option<String>, AllocError>
    ensures { desk.new.task.now ≡ desk.old.task.now }
{
    let alloc = desk.alloc;
    let Some(bytes) = bytes_of(desk)? else {
        return Ok(None);
    };
    let disk = disk_of(alloc, bytes, text)?;
    match Journal::open(alloc, disk, &desk.digest) {
        Ok(journal) => {
            let text = format!(in alloc; "entries {}", journal.entries().len())?;
            desk.journal = Some(journal);
            Ok(Some(text))
        }
        Err((_, error)) => Ok(Some(format!(in alloc; "{error}")?)),
    }
}

/// Answers `bytes`, how many the journal has, and `bytes from N`, those from a place on.
fn counted(desk: &mut Desk, text: &str) -> Result<Option<String>, AllocError>
    ensures { desk.new.task.now ≡ desk.old.task.now }
{
    let alloc = desk.alloc;
    let Some(bytes) = bytes_of(desk)? else {
        return Ok(None);
    };
    let Some(place) = text.strip_prefix("from ") else {
        return Ok(Some(format!(in alloc; "{}", bytes.len())?));
    };
    match place.parse::<usize>() {
        Ok(place) if place <= bytes.len() => Ok(Some(hex_of(alloc, &bytes[place..])?)),
        _ => Ok(None),
    }
}

/// Answers a question about the journal: `bytes ..`, `append ..`, `open ..` or `disk ..`.
pub fn ask_journal(desk: &mut Desk, verb: &str, rest: &str) -> Result<Option<String>, AllocError>
    ensures { desk.new.task.now ≡ desk.old.task.now }
{
    match verb {
        "bytes" => counted(desk, rest),
        "append" => appended(desk, rest),
        "open" => tried(desk, rest),
        "disk" => changed(desk, rest),
        _ => Ok(None),
    }
}
