//! From the entries of a journal in one file to a journal of them in another.
ghost use Rattle.std.specs.Prelude.{◌≡◌, ◌≢◌, ◌⊎◌, ℕ, List, true, is_some, IfOk, IfErr, OnOk, OnErr};
ghost use Rattle.std.specs.List.{list_all};
ghost use Rattle.hd_image.specs.declared.version.Version.TheVariants.{Two};
ghost use Rattle.hd_image.specs.Image.{fits_parent};
ghost use Rattle.hplan.specs.Kept.{OnFile};
ghost use Rattle.hplan.specs.Migrating.{AreNotMoved, AreRead, FailsToCopy, HasNoKids, HasNoMigration, HasNoMigrationYet, IsCopied, IsFoundBy, IsLostBy, IsMigration, IsNamedIn, NamesNothing, migrated_text, moving};
ghost use Rattle.hplan.specs.Written.{WritesA, WritesFrontOfA};

use crate::certifying::entries_of;
use crate::fault::{Fault, certify_in, journal_in, store_in};
use crate::output::write_out;
use crate::places::Places;
use crate::reading::task_file;
use crate::text::migrated_text;
use hd_certify::certified_kids;
use hd_image::read;
use hd_journal::{DIGEST_LEN, ImageError, JournalError, Kid, Salvaged, copy, salvage};
use hd_plan::Watched;
use hd_task::Task;
use hd_texts::{Unheard, digest_of};
use std::alloc::Global;
use std::io::Write;

/// How much of a journal is taken over.
#[derive(Clone, Copy, Debug, PartialEq, Eq)]
pub enum Extent {
    /// All of it, and nothing if it is damaged.
    Whole,
    /// The entries before its damage, from an open gate on that has no whole group after it; or all
    /// of them.
    UpToDamage,
}

/// What is taken over of a journal.
#[derive(Drop)]
struct NamedKids {
    /// The pairs of its entries.
    kids: Vec<Kid>,
    /// The place from which on the rest is dropped, if it is.
    dropped: Option<u64>,
}

/// Returns what a content is as a journal of this digest, and from where on it is dropped.
fn found_in(
    alloc: Global,
    digest: &[u8; DIGEST_LEN],
    extent: Extent,
    content: Vec<u8>,
) -> Result<Salvaged, ImageError>
    ensures found { IfOk result (λ s.
        IsFoundBy extent digest.now content.items s.dropped s.found) }
    ensures lost { IfErr result (IsLostBy extent digest.now content.items) }
{
    match extent {
        Extent::UpToDamage => salvage(alloc, content, digest),
        Extent::Whole => {
            let found = read(alloc, &content, digest);
            drop(content);
            match found {
                Ok(found) => Ok(Salvaged {
                    found,
                    dropped: None,
                }),
                Err(error) => Err(error),
            }
        }
    }
}

/// Returns the pairs of the entries of a content, which name a legal list of a task.
fn named_in(
    alloc: Global,
    task: &Task,
    digest: &[u8; DIGEST_LEN],
    extent: Extent,
    content: Vec<u8>,
) -> Result<NamedKids, Fault>
    ensures named { IfOk result (λ n.
        IsNamedIn task.now digest.now extent content.items n.dropped n.kids.items) }
    ensures fit { IfOk result (λ n.
        list_all (λ kid. fits_parent Two kid.parent) n.kids.items ≡ true) }
    ensures refusal { IfErr result (NamesNothing task.now digest.now extent content.items) }
{
    let salvaged = match found_in(alloc, digest, extent, content) {
        Ok(salvaged) => salvaged,
        Err(error) => return Err(journal_in(JournalError::from(error))),
    };
    let dropped = salvaged.dropped;
    let (entries, most) = entries_of(alloc, salvaged.found);
    let kids = certified_kids(alloc, task, entries.as_slice(), most);
    drop(entries);
    match kids {
        Ok(kids) => Ok(NamedKids { kids, dropped }),
        Err(error) => Err(certify_in(error)),
    }
}

/// Returns the pairs of the entries of the journal of two texts, in a file.
fn kids_of<P: Places>(
    alloc: Global,
    places: &mut P,
    name: &str,
    domain: &[u8],
    problem: &[u8],
    extent: Extent,
) -> Result<NamedKids, Fault>
    ensures read { IfOk result (λ n. AreRead domain.now problem.now extent
        (P.file_of places.old name.now) n.dropped n.kids.items) }
    ensures fit { IfOk result (λ n.
        list_all (λ kid. fits_parent Two kid.parent) n.kids.items ≡ true) }
    ensures refusal { IfErr result
        (HasNoKids domain.now problem.now extent (P.file_of places.old name.now)) }
    ensures alone { places.new ≡ places.old }
{
    let read = match task_file(alloc, places, name, domain, problem, &mut Unheard) {
        Ok(read) => read,
        Err(fault) => return Err(fault),
    };
    let content = read.content;
    let named = named_in(alloc, &read.task, &read.digest, extent, content);
    drop(read.task);
    named
}

/// Writes entries to a file that is not there or empty, as a journal of version two.
fn copy_to<P: Places>(
    alloc: Global,
    places: &mut P,
    name: &str,
    digest: &[u8; DIGEST_LEN],
    kids: &[Kid],
) -> Result<(), Fault>
    requires { list_all (λ kid. fits_parent Two kid.parent) kids.now ≡ true }
    ensures copied { OnOk result (OnFile (P.file_of places.old name.now)
        (P.file_of places.new name.now) (IsCopied digest.now kids.now)) }
    ensures refusal { IfErr result (FailsToCopy digest.now kids.now
        (P.file_of places.old name.now) (P.file_of places.new name.now)) }
    ensures known { is_some (P.file_of places.old name.now) ≡ true
        → is_some (P.file_of places.new name.now) ≡ true }
    ensures others { (other : List ℕ) → other ≢ name.now
        → P.file_of places.new other ≡ P.file_of places.old other }
{
    let disk = match places.store(alloc, name, true) {
        Ok(disk) => disk,
        Err(error) => return Err(store_in(error)),
    };
    let (disk, copied) = copy(alloc, kids, digest, disk);
    places.give_back(name, disk);
    match copied {
        Ok(()) => Ok(()),
        Err(error) => Err(journal_in(error)),
    }
}

/// Writes entries to a file of another name, which is not there or empty, and returns what is
/// reported of that.
fn write_entries<P: Places>(
    alloc: Global,
    places: &mut P,
    from: &str,
    to: &str,
    domain: &[u8],
    problem: &[u8],
    extent: Extent,
    named: &NamedKids,
) -> Result<Vec<u8>, Fault>
    requires fit { list_all (λ kid. fits_parent Two kid.parent) named.now.kids.items ≡ true }
    requires read { AreRead domain.now problem.now extent (P.file_of places.old from.now)
        named.now.dropped named.now.kids.items }
    ensures told { IfOk result (λ text. IsMigration domain.now problem.now
        (moving extent from.now to.now (P.file_of places.old from.now)
        (P.file_of places.old to.now) (P.file_of places.new to.now))
        text.items) }
    ensures refusal { IfErr result (AreNotMoved domain.now problem.now
        (moving extent from.now to.now (P.file_of places.old from.now)
        (P.file_of places.old to.now) (P.file_of places.new to.now))) }
    ensures alone { P.file_of places.new from.now ≡ P.file_of places.old from.now }
    ensures known { is_some (P.file_of places.old to.now) ≡ true
        → is_some (P.file_of places.new to.now) ≡ true }
    ensures others { (other : List ℕ) → other ≢ to.now
        → P.file_of places.new other ≡ P.file_of places.old other }
{
    if from == to {
        return Err(Fault::Journal(JournalError::JournalExists));
    }
    let Ok(text) = migrated_text(alloc, named.kids.len() as u64, named.dropped) else {
        return Err(Fault::NoMemory);
    };
    match copy_to(alloc, places, to, &digest_of(domain, problem), &named.kids) {
        Ok(()) => Ok(text),
        Err(fault) => {
            drop(text);
            Err(fault)
        }
    }
}

/// Reads the entries of a journal of two texts in one file, writes them to another, and answers
/// what is reported of that.
fn migration<P: Places>(
    alloc: Global,
    places: &mut P,
    from: &str,
    to: &str,
    domain: &[u8],
    problem: &[u8],
    extent: Extent,
) -> Result<Vec<u8>, Fault>
    ensures told { IfOk result (λ text. IsMigration domain.now problem.now
        (moving extent from.now to.now (P.file_of places.old from.now)
        (P.file_of places.old to.now) (P.file_of places.new to.now))
        text.items) }
    ensures refusal { IfErr result (HasNoMigrationYet domain.now problem.now
        (moving extent from.now to.now (P.file_of places.old from.now)
        (P.file_of places.old to.now) (P.file_of places.new to.now))) }
    ensures alone { P.file_of places.new from.now ≡ P.file_of places.old from.now }
    ensures known { is_some (P.file_of places.old to.now) ≡ true
        → is_some (P.file_of places.new to.now) ≡ true }
    ensures others { (other : List ℕ) → other ≢ to.now
        → P.file_of places.new other ≡ P.file_of places.old other }
{
    match kids_of(alloc, places, from, domain, problem, extent) {
        Ok(named) => {
            let told = write_entries(alloc, places, from, to, domain, problem, extent, &named);
            drop(named);
            told
        }
        Err(fault) => Err(fault),
    }
}

/// Writes the entries of the journal in one file, which is one of the task that two texts say, to
/// another file, as a journal of version two in groups as large as may be; and reports how many
/// they are. The first file is read, and left alone; the other has to be empty, or is made. Up to
/// the damage, the place from which on the first file is dropped is reported on a second line.
///
/// # Errors
/// - The first fault of the texts; that the first file can't be read; why its bytes are no journal
///   of theirs, or, if all of it is wanted, that they are damaged; the first entry that is no step
///   of a search of the task; that the other file is not empty, or is the same by its name, and
///   then it is as it was; that it can't be had or written, and then it has a header that is still
///   to be made, or a journal of the first of the entries; or what is reported of the error that
///   the writer has answered. A beginning of the text has then been written, and not all of it, and
///   else nothing.
pub fn migrate<P: Places, W: Write>(
    alloc: Global,
    places: &mut P,
    from: &str,
    to: &str,
    domain: &[u8],
    problem: &[u8],
    extent: Extent,
    out: &mut Watched<'_, W>,
) -> Result<(), Fault>
    ensures whole { OnOk result (WritesA (IsMigration domain.now problem.now
        (moving extent from.now to.now (P.file_of places.old from.now)
        (P.file_of places.old to.now) (P.file_of places.new to.now)))
        (W.contents out.old.writer.now) (W.contents out.new.writer.now)) }
    ensures front { OnErr result
        ((W.contents out.new.writer.now ≡ W.contents out.old.writer.now)
        ⊎ WritesFrontOfA (IsMigration domain.now problem.now
        (moving extent from.now to.now (P.file_of places.old from.now)
        (P.file_of places.old to.now) (P.file_of places.new to.now)))
        (W.contents out.old.writer.now) (W.contents out.new.writer.now)) }
    ensures refusal { IfErr result (HasNoMigration domain.now problem.now
        (moving extent from.now to.now (P.file_of places.old from.now)
        (P.file_of places.old to.now) (P.file_of places.new to.now))
        (W.contents out.old.writer.now) (W.contents out.new.writer.now)
        out.old.fault out.new.fault) }
    ensures no_fault { OnOk result (out.new.fault ≡ out.old.fault) }
    // The file that is read is as it was, and so is each file but the other, which is there
    // still, if its bytes are known.
    ensures alone { P.file_of places.new from.now ≡ P.file_of places.old from.now }
    ensures known { is_some (P.file_of places.old to.now) ≡ true
        → is_some (P.file_of places.new to.now) ≡ true }
    ensures others { (other : List ℕ) → other ≢ to.now
        → P.file_of places.new other ≡ P.file_of places.old other }
{
    let text = migration(alloc, places, from, to, domain, problem, extent)?;
    let written = write_out(out, &text);
    drop(text);
    match written {
        Ok(()) => Ok(()),
        Err(fault) => Err(fault),
    }
}
