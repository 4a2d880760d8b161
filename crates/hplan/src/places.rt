//! Where the program's files are.
ghost use Rattle.std.specs.Prelude.{◌≡◌, ◌≢◌, List, ℕ, ◌++◌, ◌<◌, [], ◌∷◌, None, Some, true, is_some, IfErr, IfOk, IfSome, OnOk, OnErr, MatchResult, length, option_map, slice_get, slice_set};
ghost use Rattle.std.specs.IoError.{error_kind};
ghost use Rattle.hd_store.specs.Device.{content_of};
ghost use Rattle.hd_store.specs.MemoryDisk.{device_of};
ghost use Rattle.hplan.specs.Places.{KeepsFile, MissesFile, file_in, place_in, files_shown};

use crate::host::{Host, NoHost, System, SystemHost};
use crate::streams::{is_output, is_same_file};
use crate::trouble::{Failure, Tried, Trouble, trouble_of, trouble_of_old};
use hd_image::FIRST_GATE;
use hd_store::{FileStore, MemoryDisk, Store, StoreError};
use std::alloc::{AllocError, Global};
use std::cell::Cell;
use std::fs::File;
use std::marker::Model;
use std::rt::Files;
use std::time::{Clock, Instant};
use std::{fs, io, mem};

/// Where named files are read, and lent as disks: the system's files, or byte lists in memory.
pub trait Places {
    ghost use Rattle.std.specs.Prelude.{List, ℕ, Option, None};

    // The bytes of the file of this name, where they are known.
    ghost file_of: { Self → List ℕ → Option (List ℕ) } = { λ _ _. None };

    /// A file that is lent.
    type Disk: Store + Drop;

    /// Returns the bytes of a file, whole. One whose bytes are known is read, if there is memory.
    fn read(&mut self, alloc: Global, name: &str) -> io::Result<Vec<u8>>
        ensures bytes { IfOk result (λ v.
            IfSome (file_of self.old name.now) (λ bytes. v.items ≡ bytes)) }
        ensures missed { IfErr result (λ e.
            MissesFile (file_of self.old name.now) (error_kind e)) }
        ensures alone { self.new ≡ self.old };

    /// Lends a file, and makes it, empty, if it is to be made and is not there. It is to be given
    /// back. All others are as they were.
    ///
    /// # Errors
    /// - A failure where it can't be had: one whose bytes are known can. Lack of memory. All files
    ///   are then as they were.
    fn store(&mut self, alloc: Global, name: &str, make: bool) -> Result<Self::Disk, StoreError>
        ensures lent { IfOk result (λ disk. IfSome (file_of self.old name.now)
            (λ bytes. content_of (Self.Disk.device disk) ≡ bytes)) }
        ensures known { is_some (file_of self.old name.now) ≡ true
            → is_some (file_of self.new name.now) ≡ true }
        ensures others { (other : List ℕ) → other ≢ name.now
            → file_of self.new other ≡ file_of self.old other }
        ensures kept { IfErr result (KeepsFile (file_of self.old name.now)) }
        ensures err { OnErr result (self.new ≡ self.old) };

    /// Takes a file back, as it is now: one that is known is known still. All others are as they
    /// were.
    fn give_back(&mut self, name: &str, disk: Self::Disk)
        ensures given { IfSome (file_of self.new name.now)
            (λ bytes. content_of (Self.Disk.device disk) ≡ bytes) }
        ensures known { is_some (file_of self.old name.now) ≡ true
            → is_some (file_of self.new name.now) ≡ true }
        ensures others { (other : List ℕ) → other ≢ name.now
            → file_of self.new other ≡ file_of self.old other };

    /// Takes a file back after a search that failed, as `give_back`. The system removes it if the
    /// last `store` has made it, and it holds no entry.
    fn take_back(&mut self, name: &str, disk: Self::Disk)
        ensures given { IfSome (file_of self.new name.now)
            (λ bytes. content_of (Self.Disk.device disk) ≡ bytes) }
        ensures known { is_some (file_of self.old name.now) ≡ true
            → is_some (file_of self.new name.now) ≡ true }
        ensures others { (other : List ℕ) → other ≢ name.now
            → file_of self.new other ≡ file_of self.old other };

    /// Reports whether two names lead to the same file.
    fn is_one_file(&self, one: &str, other: &str) -> bool;

    /// Tries whether the file of this name can be replaced, and leaves it alone.
    ///
    /// # Errors
    /// - It can't be: why not is noted.
    fn try_replace(&self, name: &str) -> io::Result<()>;

    /// Has the file of this name have these bytes. Whoever reads it has its old bytes, or the new
    /// ones. All others are as they were.
    ///
    /// # Errors
    /// - Those of the system, or lack of memory; the file is as it was.
    fn replace(&mut self, alloc: Global, name: &str, bytes: &[u8]) -> io::Result<()>
        ensures put { OnOk result
            (IfSome (file_of self.new name.now) (λ put. put ≡ bytes.now)) }
        ensures err { OnErr result (self.new ≡ self.old) }
        ensures others { (other : List ℕ) → other ≢ name.now
            → file_of self.new other ≡ file_of self.old other };

    /// Notes why the file for the best plan can't be had, for explanations alone.
    fn note_plan(&self, trouble: Trouble);

    /// What is asked of the machine beside the files.
    type Host: Host + Sync + Drop;

    /// Returns the machine.
    fn host(&self) -> Self::Host;

    /// Returns why the last call failed that did, for explanations alone.
    fn last_failure(&self) -> Option<Failure>;
}

/// The system's files, of whose bytes nothing is known.
#[derive(Drop)]
pub struct SystemFiles<'r, R> {
    rt: &'r R,
    /// The file that was lent last was not there before.
    is_made: bool,
    /// When this was made, if there is a clock.
    began: Option<Instant>,
    /// Standard error is a terminal.
    is_terminal: bool,
    /// Why the last call failed that did.
    last: Cell<Option<Failure>>,
}

impl<'r, R: Clock> SystemFiles<'r, R> {
    /// Returns the files of this runtime.
    pub fn new(rt: &'r R) -> SystemFiles<'r, R> {
        SystemFiles::beside(rt, false)
    }

    /// Returns the files of this runtime, and whether standard error is a terminal.
    pub fn beside(rt: &'r R, is_terminal: bool) -> SystemFiles<'r, R> {
        SystemFiles {
            rt,
            is_made: false,
            began: Instant::now(rt).ok(),
            is_terminal,
            last: Cell::new(None),
        }
    }
}

impl<R> SystemFiles<'_, R> {
    /// Notes why a file was not lent.
    fn note(&self, trouble: Trouble) {
        self.last.set(Some(Failure::of_disk(trouble)));
    }

    /// Notes why a call on a file failed while it was lent, if one did.
    fn note_of(&self, disk: &FileStore) {
        if disk.failures() > 0 {
            self.note(match disk.last_error() {
                Some(kind) => Trouble::Call(kind),
                None => Trouble::Changed,
            });
        }
    }
}

/// Makes an empty file if none is: reports whether it did.
fn make_new<R: Files<File = File>>(rt: &R, name: &str) -> bool {
    File::create_new(rt, name).is_ok()
}

/// Reports whether a file is too short for a journal's first entry.
fn has_no_entry<R: Files>(rt: &R, name: &str) -> bool {
    match fs::metadata(rt, name) {
        Ok(metadata) => metadata.len() <= FIRST_GATE as u64 + 1,
        Err(_) => false,
    }
}

impl<'r, R: Files<File = File> + AllocGlobal + Clock + System + Sync> Places
    for SystemFiles<'r, R> {
    type Disk = FileStore;

    fn read(&mut self, _alloc: Global, name: &str) -> io::Result<Vec<u8>> {
        match fs::read(self.rt, name) {
            Ok(bytes) => Ok(bytes),
            Err(error) => {
                self.last.set(Some(Failure::of_read(error.kind())));
                Err(error)
            }
        }
    }

    /// Refuses what standard output or standard error is written to.
    fn store(&mut self, alloc: Global, name: &str, make: bool) -> Result<FileStore, StoreError> {
        if is_output(self.rt, name) {
            self.note(Trouble::Output);
            return Err(StoreError::Failed);
        }
        let is_made = make && make_new(self.rt, name);
        match FileStore::open(self.rt, alloc, name, make) {
            Ok(disk) => {
                self.is_made = is_made;
                Ok(disk)
            }
            Err(error) => {
                self.note(trouble_of(self.rt, name));
                Err(error)
            }
        }
    }

    fn give_back(&mut self, _name: &str, disk: FileStore) {
        self.note_of(&disk);
        drop(disk);
    }

    fn take_back(&mut self, name: &str, disk: FileStore) {
        self.note_of(&disk);
        if self.is_made && has_no_entry(self.rt, name) {
            // A file that stays is no reason for another fault: it holds nothing.
            let _ = fs::remove_file(self.rt, name);
        }
        drop(disk);
    }

    fn is_one_file(&self, one: &str, other: &str) -> bool {
        is_same_file(self.rt, one, other)
    }

    fn try_replace(&self, name: &str) -> io::Result<()> {
        if let Some(trouble) = trouble_of_old(self.rt, name) {
            self.note_plan(trouble);
            return Err(io::Error::from(io::ErrorKind::InvalidInput));
        }
        match self.rt.try_replace(name) {
            Ok(()) => Ok(()),
            Err(error) => {
                self.note_plan(Trouble::Call(error.kind()));
                Err(error)
            }
        }
    }

    fn replace(&mut self, _alloc: Global, name: &str, bytes: &[u8]) -> io::Result<()> {
        self.host().put(name, bytes)
    }

    fn note_plan(&self, trouble: Trouble) {
        self.last.set(Some(Failure::of_plan(trouble)));
    }

    type Host = SystemHost<'r, R>;

    fn host(&self) -> SystemHost<'r, R> {
        SystemHost::new(self.rt, self.began, self.is_terminal)
    }

    fn last_failure(&self) -> Option<Failure> {
        self.last.get()
    }
}

/// Files in memory, which contracts see as names with their bytes. A name names the first file
/// that has it. A file that is lent is empty until it is given back.
#[derive(Drop)]
pub struct Shelf {
    files: Vec<(String, MemoryDisk)>,
    /// Why the last call failed that did.
    last: Cell<Option<Failure>>,
}

impl Model for Shelf {
    ghost use Rattle.std.specs.Prelude.{List, ℕ};
    ghost use Rattle.hplan.specs.Places.{files_shown};

    ghost Value = { List (List ℕ × List ℕ) };

    ghost view = { λ s. files_shown s.files.items };
}

impl Shelf {
    /// Returns no files.
    pub fn empty(alloc: Global) -> Shelf
        ensures { result ≡ [] }
    {
        Shelf {
            files: Vec::new(alloc),
            last: Cell::new(None),
        }
    }

    /// Notes that a file is not there.
    fn note_missing(&self, tried: Tried) {
        self.last.set(Some(Failure {
            tried,
            trouble: Trouble::Call(io::ErrorKind::NotFound),
        }));
    }

    /// Notes that a call on a file failed while it was lent, if one did.
    fn note_of(&self, disk: &MemoryDisk) {
        if disk.failures() > 0 {
            self.last.set(Some(Failure::of_disk(Trouble::Device)));
        }
    }

    /// Adds one file more, whose bytes are those of a disk.
    ///
    /// # Errors
    /// - `AllocError`: there is no room for it; the shelf is then as it was.
    pub fn put_disk(
        &mut self,
        alloc: Global,
        name: &str,
        disk: MemoryDisk,
    ) -> Result<(), AllocError>
        ensures ok { OnOk result (self.new
            ≡ self.old ++ (name.now, content_of (device_of disk)) ∷ []) }
        ensures err { OnErr result (self.new ≡ self.old) }
    {
        let name = String::from_str(alloc, name)?;
        self.files.push((name, disk))?;
        Ok(())
    }

    /// Adds one file more.
    ///
    /// # Errors
    /// - `AllocError`: there is no room for it; the shelf is then as it was.
    pub fn put(&mut self, alloc: Global, name: &str, bytes: &[u8]) -> Result<(), AllocError>
        ensures ok { OnOk result (self.new ≡ self.old ++ (name.now, bytes.now) ∷ []) }
        ensures err { OnErr result (self.new ≡ self.old) }
    {
        let bytes = Vec::from_slice(alloc, bytes)?;
        let disk = MemoryDisk::of(alloc, bytes)?;
        self.put_disk(alloc, name, disk)
    }

    /// Puts a disk in the place of the first file of this name, whose disk is answered; or else
    /// it is answered itself.
    fn swap(&mut self, name: &str, disk: MemoryDisk) -> Result<MemoryDisk, MemoryDisk>
        ensures before { MatchResult result
            (λ was. file_in self.old name.now ≡ Some (content_of (device_of was)))
            (λ _. file_in self.old name.now ≡ None) }
        ensures after { OnOk result
            (file_in self.new name.now ≡ Some (content_of (device_of disk))) }
        ensures none { OnErr result (self.new ≡ self.old) }
        ensures back { IfErr result (λ back. back ≡ disk) }
        ensures others { (other : List ℕ) → other ≢ name.now
            → file_in self.new other ≡ file_in self.old other }
    {
        exchange(&mut self.files, name, disk)
    }

    /// Has the first file of this name have the bytes of a disk, or adds it.
    ///
    /// # Errors
    /// - `AllocError`: there is no room for it; the shelf is then as it was.
    fn set_disk(&mut self, alloc: Global, name: &str, disk: MemoryDisk) -> Result<(), AllocError>
        ensures put { OnOk result
            (file_in self.new name.now ≡ Some (content_of (device_of disk))) }
        ensures err { OnErr result (self.new ≡ self.old) }
        ensures others { (other : List ℕ) → other ≢ name.now
            → file_in self.new other ≡ file_in self.old other }
    {
        match self.swap(name, disk) {
            Ok(was) => {
                drop(was);
                Ok(())
            }
            Err(disk) => {
                self.put_disk(alloc, name, disk)?;
                Ok(())
            }
        }
    }

    /// Has the first file of this name have these bytes, or adds it.
    ///
    /// # Errors
    /// - `AllocError`: there is no room for it; the shelf is then as it was.
    fn set(&mut self, alloc: Global, name: &str, bytes: &[u8]) -> Result<(), AllocError>
        ensures put { OnOk result (file_in self.new name.now ≡ Some bytes.now) }
        ensures err { OnErr result (self.new ≡ self.old) }
        ensures others { (other : List ℕ) → other ≢ name.now
            → file_in self.new other ≡ file_in self.old other }
    {
        let bytes = Vec::from_slice(alloc, bytes)?;
        let disk = MemoryDisk::of(alloc, bytes)?;
        self.set_disk(alloc, name, disk)
    }
}

/// Returns the place of the first file of this name.
fn place_of(files: &[(String, MemoryDisk)], name: &str) -> Option<usize>
    ensures place { result ≡ place_in (files_shown files.now) name.now }
    ensures within { IfSome result (λ place. place < length files.now) }
{
    let mut place = 0;
    let mut rest = files;
    while let [first, after @ ..] = rest {
        if first.0.as_str() == name {
            return Some(place);
        }
        place += 1;
        rest = after;
    }
    None
}

/// Returns the bytes of the first file of this name.
fn find<'s>(files: &'s [(String, MemoryDisk)], name: &str) -> Option<&'s [u8]>
    ensures { option_map (λ b. b.now) result ≡ file_in (files_shown files.now) name.now }
{
    match place_of(files, name) {
        Some(place) => Some(files[place].1.bytes()),
        None => None,
    }
}

/// Puts a disk in the place of one, which is answered.
fn put_at(files: &mut [(String, MemoryDisk)], place: usize, disk: MemoryDisk) -> MemoryDisk
    requires { place < length files.old }
    ensures was { IfSome (slice_get files.old place) (λ file. result ≡ file.1) }
    ensures now { IfSome (slice_get files.old place)
        (λ file. files.new ≡ slice_set files.old place (file.0, disk)) }
{
    mem::replace(&mut files[place].1, disk)
}

/// Puts a disk in the place of the first file of this name, whose disk is answered; or else it is
/// answered itself.
fn exchange(
    files: &mut [(String, MemoryDisk)],
    name: &str,
    disk: MemoryDisk,
) -> Result<MemoryDisk, MemoryDisk>
    ensures before { MatchResult result
        (λ was. file_in (files_shown files.old) name.now ≡ Some (content_of (device_of was)))
        (λ _. file_in (files_shown files.old) name.now ≡ None) }
    ensures after { OnOk result
        (file_in (files_shown files.new) name.now ≡ Some (content_of (device_of disk))) }
    ensures none { OnErr result (files.new ≡ files.old) }
    ensures back { IfErr result (λ back. back ≡ disk) }
    ensures others { (other : List ℕ) → other ≢ name.now
        → file_in (files_shown files.new) other ≡ file_in (files_shown files.old) other }
{
    match place_of(files, name) {
        Some(place) => Ok(put_at(files, place, disk)),
        None => Err(disk),
    }
}

impl Places for Shelf {
    ghost file_of = { λ s name. file_in s name };

    type Disk = MemoryDisk;

    fn read(&mut self, alloc: Global, name: &str) -> io::Result<Vec<u8>>
        ensures found { IfOk result (λ v. file_in self.old name.now ≡ Some v.items) }
        ensures missed { IfErr result (λ e.
            MissesFile (file_in self.old name.now) (error_kind e)) }
        ensures alone { self.new ≡ self.old }
    {
        let Some(bytes) = find(self.files.as_slice(), name) else {
            self.note_missing(Tried::Read);
            return Err(io::Error::from(io::ErrorKind::NotFound));
        };
        Ok(Vec::from_slice(alloc, bytes)?)
    }

    fn store(&mut self, alloc: Global, name: &str, make: bool) -> Result<MemoryDisk, StoreError> {
        match self.swap(name, MemoryDisk::new(alloc)) {
            Ok(disk) => Ok(disk),
            Err(disk) if make => {
                self.put_disk(alloc, name, MemoryDisk::new(alloc))?;
                Ok(disk)
            }
            Err(_) => {
                self.note_missing(Tried::Lend);
                Err(StoreError::Failed)
            }
        }
    }

    fn give_back(&mut self, name: &str, disk: MemoryDisk) {
        self.note_of(&disk);
        let _ = self.swap(name, disk);
    }

    fn take_back(&mut self, name: &str, disk: MemoryDisk) {
        self.give_back(name, disk);
    }

    fn is_one_file(&self, one: &str, other: &str) -> bool {
        one == other
    }

    fn try_replace(&self, _name: &str) -> io::Result<()> {
        Ok(())
    }

    fn replace(&mut self, alloc: Global, name: &str, bytes: &[u8]) -> io::Result<()> {
        match self.set(alloc, name, bytes) {
            Ok(()) => Ok(()),
            Err(error) => Err(io::Error::from(error)),
        }
    }

    fn note_plan(&self, trouble: Trouble) {
        self.last.set(Some(Failure::of_plan(trouble)));
    }

    type Host = NoHost;

    fn host(&self) -> NoHost {
        NoHost
    }

    fn last_failure(&self) -> Option<Failure> {
        self.last.get()
    }
}
