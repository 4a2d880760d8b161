//! Entries appended to a journal, in groups as large as may be.
ghost use Rattle.std.specs.Prelude.{◌≡◌, ◌⊎◌, ◌<◌, ◌≤◌, ◌^◌, ◌∷◌, ◌++◌, [], true, false, length, IfOk, IfErr, OnOk};
ghost use Rattle.std.specs.List.{list_all, AllByRecursion};
ghost use Rattle.hd_image.specs.declared.entry.TheConstants.{MAX_GROUP};
ghost use Rattle.hd_image.specs.Image.{IsGroup, fits_parent};
ghost use Rattle.hd_journal.specs.Appending.{Appends, AppendsOne, Breaks};

use crate::{Group, Journal, JournalError, Kid, MAX_GROUP};
use hd_base::NoMemory;
use hd_store::Store;
use std::alloc::Global;

/// Pushes the pair of a parent and an action, which is a number of four bytes.
fn push_kid(copied: &mut Vec<Kid>, parent: u64, action: u32) -> Result<(), NoMemory>
    ensures items { OnOk result (copied.new.items
        ≡ copied.old.items ++ record { parent = parent; action = action } ∷ []) }
    ensures action { action < 2 ^ 32 }
{
    copied.push(Kid { parent, action })?;
    Ok(())
}

/// Pairs as a list of their own, and that their actions are numbers of four bytes.
fn owned(alloc: Global, kids: &[Kid]) -> Result<Vec<Kid>, NoMemory>
    ensures kids { IfOk result (λ v. v.items ≡ kids.now) }
    ensures actions { OnOk result (AllByRecursion (λ kid. kid.action < 2 ^ 32) kids.now) }
{
    let mut copied = Vec::with_capacity(alloc, kids.len())?;
    let mut rest = kids;
    while let [first, after @ ..] = rest {
        push_kid(&mut copied, first.parent, first.action)?;
        rest = after;
    }
    Ok(copied)
}

/// Appends a list of pairs as one group.
///
/// # Errors
/// - `Device`: the device failed.
/// - `NoMemory`.
fn append_owned<S: Store>(journal: &mut Journal<S>, kids: Vec<Kid>) -> Result<(), JournalError>
    requires group { IsGroup journal.old.version kids.items }
    requires fit { list_all (λ kid. fits_parent journal.old.version kid.parent) kids.items ≡ true }
    requires running { journal.old.failed ≡ false }
    ensures appended { OnOk result (AppendsOne journal.old kids.items journal.new) }
    ensures refused { IfErr result (λ error. Breaks journal.old kids.items error journal.new) }
{
    let group = Group::of(journal.entries().len() as u64, kids);
    match journal.append(group) {
        Ok(flushed) => {
            drop(flushed.parts());
            Ok(())
        }
        Err((group, error)) => {
            drop(group.parts());
            Err(error)
        }
    }
}

/// Appends entries as one group.
///
/// # Errors
/// - `Device`: the device failed.
/// - `NoMemory`.
fn append_group<S: Store>(
    alloc: Global,
    journal: &mut Journal<S>,
    kids: &[Kid],
) -> Result<(), JournalError>
    requires some { 1 ≤ length kids.now }
    requires most { length kids.now ≤ MAX_GROUP }
    requires fit { list_all (λ kid. fits_parent journal.old.version kid.parent) kids.now ≡ true }
    requires running { journal.old.failed ≡ false }
    ensures appended { OnOk result (AppendsOne journal.old kids.now journal.new) }
    ensures refused { IfErr result (λ error. Breaks journal.old kids.now error journal.new) }
{
    match owned(alloc, kids) {
        Ok(kids) => append_owned(journal, kids),
        Err(_) => Err(JournalError::NoMemory),
    }
}

/// Returns the first entries, as many as a group may have, and the others.
fn first_group(kids: &[Kid]) -> (&[Kid], &[Kid])
    requires { 1 ≤ length kids.now }
    ensures joined { result.0.now ++ result.1.now ≡ kids.now }
    ensures some { 1 ≤ length result.0.now }
    ensures most { length result.0.now ≤ MAX_GROUP }
    ensures full { (length result.0.now ≡ MAX_GROUP) ⊎ (result.1.now ≡ []) }
{
    kids.split_at(kids.len().min(MAX_GROUP))
}

/// Appends entries, in groups as large as may be.
///
/// # Errors
/// - `Device`: the device failed.
/// - `NoMemory`.
pub(crate) fn append_all<S: Store>(
    alloc: Global,
    journal: &mut Journal<S>,
    kids: &[Kid],
) -> Result<(), JournalError>
    requires fit { list_all (λ kid. fits_parent journal.old.version kid.parent) kids.now ≡ true }
    requires running { journal.old.failed ≡ false }
    ensures appended { OnOk result (Appends journal.old kids.now journal.new) }
    ensures refused { IfErr result (λ error. Breaks journal.old kids.now error journal.new) }
{
    let mut rest = kids;
    while !rest.is_empty() {
        let (group, after) = first_group(rest);
        match append_group(alloc, journal, group) {
            Ok(()) => rest = after,
            Err(error) => return Err(error),
        }
    }
    Ok(())
}
