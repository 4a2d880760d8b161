//! The files of a case: in memory, or the system's.

use crate::host::Host;
use crate::stop::Stop;
use hd_store::{MemoryDisk, StoreError};
use hplan::{Places, Shelf};
use std::alloc::{AllocError, Global};
use std::{fs, mem};

/// A name, and the bytes of the file, if there is one.
type Kept = (String, Option<Vec<u8>>);

/// The files of a case.
#[derive(Drop)]
pub struct CaseFiles {
    /// Those in memory.
    pub shelf: Shelf,
    /// Whether the files are the system's.
    pub is_system: bool,
    /// The names of all that may be there, and what the last run found under them.
    kept: Vec<Kept>,
}

/// Says why a disk was not to be had.
fn stop_of(_error: StoreError) -> Stop {
    Stop::Broken
}

impl CaseFiles {
    /// Returns no files, in memory.
    pub fn empty(alloc: Global) -> CaseFiles {
        CaseFiles {
            shelf: Shelf::empty(alloc),
            is_system: false,
            kept: Vec::new(alloc),
        }
    }

    /// Returns whether a name was noted.
    fn is_known(&self, name: &str) -> bool {
        self.kept.iter().any(|kept| kept.0.as_str() == name)
    }

    /// Notes that a file of this name may be there.
    pub fn note(&mut self, alloc: Global, name: &str) -> Result<(), AllocError> {
        if self.is_known(name) {
            return Ok(());
        }
        self.kept.push((String::from_str(alloc, name)?, None))?;
        Ok(())
    }

    /// Returns the bytes of a file, if it is there.
    pub fn get(&mut self, rt: &impl Host, name: &str) -> Option<Vec<u8>> {
        if self.is_system {
            fs::read(rt, name).ok()
        } else {
            self.shelf.read(rt.alloc(), name).ok()
        }
    }

    /// Makes a file of these bytes, in the place of one that may be there.
    pub fn put(&mut self, rt: &impl Host, name: &str, bytes: Vec<u8>) -> Result<(), Stop> {
        self.note(rt.alloc(), name)?;
        if self.is_system {
            return Ok(fs::write(rt, name, bytes)?);
        }
        let disk = MemoryDisk::of(rt.alloc(), bytes).map_err(|_| Stop::Broken)?;
        self.exchange(rt.alloc(), name, disk)
    }

    /// Puts a disk in the place of the file of this name, or beside the others.
    fn exchange(&mut self, alloc: Global, name: &str, disk: MemoryDisk) -> Result<(), Stop> {
        let before = self.shelf.store(alloc, name, true).map_err(stop_of)?;
        drop(before);
        self.shelf.give_back(name, disk);
        Ok(())
    }

    /// Lends the disk of a file in memory; an empty one is made if there is none.
    pub fn disk(&mut self, alloc: Global, name: &str) -> Result<MemoryDisk, Stop> {
        self.note(alloc, name)?;
        self.shelf.store(alloc, name, true).map_err(stop_of)
    }

    /// Keeps what the files hold now.
    pub fn keep(&mut self, rt: &impl Host) {
        let mut kept = mem::replace(&mut self.kept, Vec::new(rt.alloc()));
        for entry in kept.iter_mut() {
            entry.1 = self.get(rt, entry.0.as_str());
        }
        self.kept = kept;
    }

    /// Returns the bytes that a file had before the last run, if it was there.
    pub fn before(&self, name: &str) -> Option<&[u8]> {
        let kept = self.kept.iter().find(|kept| kept.0.as_str() == name)?;
        match &kept.1 {
            Some(bytes) => Some(bytes.as_slice()),
            None => None,
        }
    }

    /// Has the files be the system's.
    pub fn move_to_system(&mut self, rt: &impl Host) -> Result<(), Stop> {
        self.keep(rt);
        self.is_system = true;
        for (name, bytes) in self.kept.iter() {
            if let Some(bytes) = bytes {
                fs::write(rt, name.as_str(), bytes.as_slice())?;
            }
        }
        Ok(())
    }

    /// Removes a file.
    pub fn remove(&mut self, rt: &impl Host, name: &str) -> Result<(), Stop> {
        if self.is_system {
            let _ = fs::remove_file(rt, name);
            return Ok(());
        }
        self.keep(rt);
        self.shelf = Shelf::empty(rt.alloc());
        for (other, bytes) in self.kept.iter() {
            if let Some(bytes) = bytes
                && other.as_str() != name
            {
                self.shelf.put(rt.alloc(), other.as_str(), bytes)?;
            }
        }
        Ok(())
    }

    /// Removes all files of the system that the case may have made.
    pub fn clear(&self, rt: &impl Host) {
        if !self.is_system {
            return;
        }
        for (name, _) in self.kept.iter() {
            let _ = fs::remove_file(rt, name.as_str());
        }
    }
}
