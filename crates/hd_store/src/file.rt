//! A disk over a file.
ghost use Rattle.std.specs.Prelude.{◌≡◌, ◌==◌, ◌||◌, ◌↔◌, true, false, is_err, IsTrue, IfErr, OnOk, OnErr, IfOk};
ghost use Rattle.hd_store.specs.declared.error.StoreError.TheVariants.{Failed};
ghost use Rattle.hd_store.specs.Device.{one_more};

use crate::error::{MOST_FAILURES, StoreError};
use crate::image::Image;
use crate::memory::end_of;
use crate::store::Store;
use std::alloc::Global;
use std::cell::Cell;
use std::fs::{File, OpenOptions};
use std::io::{self, ErrorKind};
use std::os::fd::AsRawFd;
use std::os::unix::fs::{FileExt, MetadataExt};
use std::path::Path;
use std::rt::Files;

/// The descriptor of standard error, the last of the three streams.
const LAST_STREAM: i32 = 2;

/// A disk over a file, which is locked as long as the store is there.
///
/// Keeps in memory what was read of the file at the start and what was written since then. An
/// answer of the file that differs from it is a failure. After a write, a cut or a sync that
/// failed, no call reaches the file any more: each fails.
///
/// No contract can say what a file holds. That it is the disk that contracts see is a premise,
/// and so is that nobody else writes it. Each write and sync, and each question for the length,
/// first looks whether the file has the length that it should have, and still has a name: else the
/// premise is broken, and it fails.
#[derive(Drop)]
pub struct FileStore {
    file: File,
    image: Image,
    failures: u64,
    is_broken: bool,
    /// The system's error of the last call that failed by one. It is for explanations alone.
    last: Cell<Option<ErrorKind>>,
}

/// Compares two lists of bytes.
fn is_same(one: &[u8], other: &[u8]) -> bool
    ensures { IsTrue result ↔ (one.now ≡ other.now) }
{
    one == other
}

/// Moves an open file away from the descriptors of the three streams.
///
/// A program that was started with a closed stream gets that stream's descriptor for the next file
/// that it opens. Whatever is then written to the stream would land in the file.
///
/// # Errors
/// - `Failed`: the system has no other descriptor.
fn off_the_streams(file: File) -> Result<File, StoreError> {
    if file.as_raw_fd() > LAST_STREAM {
        return Ok(file);
    }
    match file.try_clone() {
        Ok(moved) => {
            drop(file);
            Ok(moved)
        }
        Err(_) => Err(StoreError::Failed),
    }
}

/// Reports whether a file keeps bytes: no folder, no terminal, no pipe and no device does.
fn is_regular(file: &File) -> bool {
    match file.metadata() {
        Ok(metadata) => metadata.is_file(),
        Err(_) => false,
    }
}

/// Reads all bytes of a file.
fn whole(alloc: Global, file: &File) -> Result<Vec<u8>, StoreError> {
    let Ok(metadata) = file.metadata() else {
        return Err(StoreError::Failed);
    };
    let mut bytes = Vec::new(alloc);
    bytes.resize(metadata.len() as usize, 0)?;
    if file.read_exact_at(&mut bytes, 0).is_err() {
        return Err(StoreError::Failed);
    }
    Ok(bytes)
}

/// Syncs the folder of a file, so that the file keeps its name.
///
/// A folder that may not be read cannot be synced, and some systems sync no folders. Then it is
/// left to the system.
fn sync_folder<R: Files<File = File>>(rt: &R, path: &str) -> Result<(), StoreError> {
    let folder = match Path::new(path).parent() {
        Some(folder) if !folder.as_os_str().is_empty() => folder,
        _ => Path::new("."),
    };
    let mut options = OpenOptions::new();
    options.read(true);
    let synced = match options.open(rt, folder) {
        Ok(folder) => folder.sync_all(),
        Err(error) => Err(error),
    };
    match synced {
        Ok(()) => Ok(()),
        Err(error) => match error.kind() {
            ErrorKind::PermissionDenied | ErrorKind::InvalidInput => Ok(()),
            _ => Err(StoreError::Failed),
        },
    }
}

impl FileStore {
    ghost use Rattle.hd_store.specs.FileStore.{device_of, IsNewlyOpened};

    /// Opens and locks a file, and makes it first if `make` says so and it is not there.
    ///
    /// Syncs the file before it is read: a run that was killed may have left bytes in the
    /// system's memory alone. Syncs its folder too, where the system does that. Never keeps a
    /// file under the descriptor of a stream.
    ///
    /// # Errors
    /// - `Failed`: the file or its folder cannot be opened, locked, synced or read; it is no
    ///   regular file; another store has it open. An empty file may have been made.
    /// - `NoMemory`: there is no room for the file's bytes.
    pub fn open<R: Files<File = File>>(
        rt: &R,
        alloc: Global,
        path: &str,
        make: bool,
    ) -> Result<FileStore, StoreError>
        ensures { IfOk result IsNewlyOpened }
    {
        let mut options = OpenOptions::new();
        options.read(true).write(true).create(make);
        let Ok(file) = options.open(rt, path) else {
            return Err(StoreError::Failed);
        };
        let file = off_the_streams(file)?;
        if !is_regular(&file) || file.try_lock().is_err() || file.sync_all().is_err() {
            return Err(StoreError::Failed);
        }
        sync_folder(rt, path)?;
        let bytes = whole(alloc, &file)?;
        Ok(FileStore {
            file,
            image: Image::of(alloc, bytes)?,
            failures: 0,
            is_broken: false,
            last: Cell::new(None),
        })
    }

    /// Returns the system's error of the last call that failed by one. Without one, a call that
    /// failed has found the file changed, or without a name.
    pub fn last_error(&self) -> Option<ErrorKind> {
        self.last.get()
    }

    /// Reports whether a call of the system has failed, and notes its error.
    fn has_failed(&self, called: io::Result<()>) -> bool
        ensures { result ≡ is_err called }
    {
        match called {
            Ok(()) => false,
            Err(error) => {
                self.last.set(Some(error.kind()));
                true
            }
        }
    }

    /// Counts one failure more.
    fn count(&mut self)
        ensures { self.new ≡ record self.old { failures = one_more self.old.failures } }
    {
        self.failures = self.failures.saturating_add(1);
    }

    /// Counts a write, a cut or a sync that failed. The file is not asked any more.
    fn break_off(&mut self)
        ensures { self.new
            ≡ record self.old { failures = one_more self.old.failures; is_broken = true } }
    {
        self.is_broken = true;
        self.count();
    }

    /// Looks whether the file is as long as it should be and still has a name.
    fn is_there(&self) -> bool {
        match self.file.metadata() {
            Ok(metadata) => {
                metadata.nlink() > 0 && metadata.len() == self.image.bytes().len() as u64
            }
            Err(_) => false,
        }
    }

    /// Begins a call. It fails where the file is not to be asked any more.
    fn begin(&mut self) -> Result<(), StoreError>
        ensures begun { OnOk result (self.new ≡ self.old) }
        ensures few { OnOk result ((self.old.failures == MOST_FAILURES) ≡ false) }
        ensures running { OnOk result (self.old.is_broken ≡ false) }
        ensures error { IfErr result (λ error. error ≡ Failed) }
        ensures closed { OnErr result
            ((self.old.failures == MOST_FAILURES) || self.old.is_broken ≡ true) }
        ensures counted { OnErr result
            (self.new ≡ record self.old { failures = one_more self.old.failures }) }
    {
        if self.failures == MOST_FAILURES || self.is_broken {
            self.count();
            return Err(StoreError::Failed);
        }
        Ok(())
    }
}

impl Store for FileStore {
    ghost use Rattle.hd_store.specs.FileStore.{device_of};

    ghost device = { device_of };

    ghost small = { λ store. store.image.small };

    fn len(&mut self) -> Result<u64, StoreError> {
        self.begin()?;
        if !self.is_there() {
            self.count();
            return Err(StoreError::Failed);
        }
        Ok(self.image.bytes().len() as u64)
    }

    fn read_at(&mut self, at: u64, into: &mut [u8]) -> Result<(), StoreError> {
        self.begin()?;
        let first = at as usize;
        if self.has_failed(self.file.read_exact_at(into, at))
            || !is_same(into, &self.image.bytes()[first..first + into.len()])
        {
            self.count();
            return Err(StoreError::Failed);
        }
        Ok(())
    }

    fn write_at(&mut self, at: u64, bytes: &[u8]) -> Result<(), StoreError> {
        self.begin()?;
        let first = at as usize;
        let Some(end) = end_of(first, bytes.len()) else {
            return Err(StoreError::NoMemory);
        };
        self.image.make_room(end)?;
        if !self.is_there() || self.has_failed(self.file.write_all_at(bytes, at)) {
            self.image.break_write(first, bytes.len());
            self.break_off();
            return Err(StoreError::Failed);
        }
        self.image.write(first, bytes);
        Ok(())
    }

    fn sync(&mut self) -> Result<(), StoreError> {
        self.begin()?;
        if !self.is_there() || self.has_failed(self.file.sync_data()) {
            self.image.break_sync();
            self.break_off();
            return Err(StoreError::Failed);
        }
        self.image.sync();
        Ok(())
    }

    fn cut(&mut self, len: u64) -> Result<(), StoreError> {
        self.begin()?;
        if self.has_failed(self.file.set_len(len)) {
            self.image.break_cut(len as usize);
            self.break_off();
            return Err(StoreError::Failed);
        }
        self.image.cut(len as usize);
        Ok(())
    }

    fn failures(&self) -> u64 {
        self.failures
    }
}
