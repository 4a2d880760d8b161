//! Groups as bytes.
ghost use Rattle.std.specs.Prelude.{◌≡◌, ◌<◌, ◌≤◌, ◌^◌, ◌∷◌, ◌++◌, [], IfOk, IsTrue, length};
ghost use Rattle.std.specs.List.{list_all, flat_map, AllByRecursion};
ghost use Rattle.byteorder.specs.Endian.{little_bytes};
ghost use Rattle.hd_image.specs.Image.{HasNumber, HasBytes, IsGroup, fits_parent, parent_number, entry_bytes, counted};

use crate::{CLOSED, MAX_GROUP, Version};
use byteorder::{ByteOrder, LittleEndian};
use hd_base::NoMemory;
use hd_task::{Kid, ROOT_PARENT};
use std::alloc::Global;

/// Reports whether a parent may be written.
fn fits_one(version: Version, parent: u64) -> bool
    ensures { result ≡ fits_parent version parent }
{
    parent == ROOT_PARENT || parent < version.most()
}

/// Reports whether each parent may be written.
fn all_fit(version: Version, kids: &[Kid]) -> bool
    ensures { result ≡ list_all (λ kid. fits_parent version kid.parent) kids.now }
{
    kids.iter().all(|kid| fits_one(version, kid.parent))
}

/// Reports whether each parent may be written in a journal of this version: it is the root's, or
/// the number of an entry that the journal may have. Parents that may be written can be told by
/// their bytes.
pub fn fits(version: Version, kids: &[Kid]) -> bool
    ensures all { result ≡ list_all (λ kid. fits_parent version kid.parent) kids.now }
    ensures told { IsTrue result
        → AllByRecursion (λ kid. HasNumber version kid.parent) kids.now }
{
    all_fit(version, kids)
}

/// Appends a number in as many bytes as said, the lowest first.
fn push_number(bytes: &mut Vec<u8>, number: u64, width: usize) -> Result<(), NoMemory>
    requires low { 1 ≤ width }
    requires high { width ≤ 8 }
    requires fits { number < 256 ^ width }
    ensures { IfOk result (λ _. bytes.new.items ≡ bytes.old.items ++ little_bytes width number) }
{
    let mut all = [0; 8];
    LittleEndian::write_uint(&mut all, number, width);
    bytes.extend_from_slice(&all[..width])?;
    Ok(())
}

/// Returns the number that stands for a parent.
fn number_of(version: Version, parent: u64) -> u64
    ensures { result ≡ parent_number version parent }
{
    if parent == ROOT_PARENT {
        version.root_number()
    } else {
        parent
    }
}

/// Appends the bytes of an entry.
fn push_entry(bytes: &mut Vec<u8>, version: Version, kid: &Kid) -> Result<(), NoMemory>
    requires { HasNumber version kid.now.parent }
    ensures bytes { IfOk result (λ _. bytes.new.items
        ≡ bytes.old.items ++ entry_bytes version kid.now) }
    ensures held { IfOk result (λ _. HasBytes version kid.now) }
{
    let number = number_of(version, kid.parent);
    push_number(bytes, number, version.parent_width())?;
    push_number(bytes, kid.action as u64, 4)?;
    Ok(())
}

/// Appends the bytes of entries, one after the other.
fn push_entries(bytes: &mut Vec<u8>, version: Version, kids: &[Kid]) -> Result<(), NoMemory>
    requires { AllByRecursion (λ kid. HasNumber version kid.parent) kids.now }
    ensures bytes { IfOk result (λ _. bytes.new.items
        ≡ bytes.old.items ++ flat_map (entry_bytes version) kids.now) }
    ensures held { IfOk result (λ _. AllByRecursion (HasBytes version) kids.now) }
{
    let mut rest = kids;
    while let [first, after @ ..] = rest {
        push_entry(bytes, version, first)?;
        rest = after;
    }
    Ok(())
}

/// Returns what is written after the last gate to append a group: its count, its entries, and the
/// next gate, closed.
///
/// # Errors
/// - `NoMemory`: there is no room for the bytes.
pub fn closed_group(alloc: Global, version: Version, kids: &[Kid]) -> Result<Vec<u8>, NoMemory>
    requires some { 1 ≤ length kids.now }
    requires most { length kids.now ≤ MAX_GROUP }
    requires parents { AllByRecursion (λ kid. HasNumber version kid.parent) kids.now }
    ensures bytes { IfOk result (λ bytes. bytes.items ≡ counted version kids.now ++ 0 ∷ []) }
    ensures group { IfOk result (λ _. IsGroup version kids.now) }
{
    let mut bytes = Vec::with_capacity(alloc, 5 + kids.len() * 9)?;
    push_number(&mut bytes, kids.len() as u64, 4)?;
    push_entries(&mut bytes, version, kids)?;
    bytes.push(CLOSED)?;
    Ok(bytes)
}
