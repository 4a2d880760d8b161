//! Why a file can't be had or kept.

use crate::streams::is_output;
use std::fs::{self, File, OpenOptions};
use std::io::ErrorKind;
use std::rt::Files;

/// Why a file can't be had or kept, as far as it is known.
#[derive(Clone, Copy, Debug, PartialEq, Eq)]
pub enum Trouble {
    /// The system's call failed by this error.
    Call(ErrorKind),
    /// Standard output or standard error is written to the file.
    Output,
    /// It is a terminal, a pipe or a device, which keep no bytes.
    NotRegular,
    /// Another process has locked it.
    InUse,
    /// A call on the file failed while it was lent.
    Device,
    /// The command reads it too.
    ReadToo,
    /// Another program has changed or removed it.
    Changed,
    /// Nothing is known of it.
    Unknown,
}

/// What a call on a file was to do.
#[derive(Clone, Copy, Debug, PartialEq, Eq)]
pub enum Tried {
    /// To read it whole.
    Read,
    /// To lend it, or to work on it while it was lent.
    Lend,
    /// To replace it by the best plan.
    Replace,
}

/// A call on a file that failed last.
#[derive(Clone, Copy, Debug, PartialEq, Eq)]
pub struct Failure {
    pub tried: Tried,
    pub trouble: Trouble,
}

impl Failure {
    /// Returns the failure of a call that was to read a file.
    pub fn of_read(kind: ErrorKind) -> Failure {
        Failure {
            tried: Tried::Read,
            trouble: Trouble::Call(kind),
        }
    }

    /// Returns the failure of a call that was to lend a file, or of one on a file that was lent.
    pub fn of_disk(trouble: Trouble) -> Failure {
        Failure {
            tried: Tried::Lend,
            trouble,
        }
    }

    /// Returns why the file for the best plan can't be had.
    pub fn of_plan(trouble: Trouble) -> Failure {
        Failure {
            tried: Tried::Replace,
            trouble,
        }
    }
}

impl Trouble {
    /// Returns what a person is told of it.
    pub fn text(self) -> &'static str {
        match self {
            Trouble::Call(kind) => text_of_call(kind),
            Trouble::Output => "standard output or standard error is written to it",
            Trouble::NotRegular => "it is no regular file, and keeps no bytes",
            Trouble::InUse => "it is in use by another process",
            Trouble::Device => {
                "the device failed or is full, or another program changed the file: mend that, then `resume`"
            }
            Trouble::ReadToo => "it is read by this command too: give another name",
            Trouble::Changed => "another program has changed or removed it",
            Trouble::Unknown => "the call failed",
        }
    }
}

/// Returns what a person is told of a system's error.
fn text_of_call(kind: ErrorKind) -> &'static str {
    match kind {
        ErrorKind::NotFound => "no such file or folder",
        ErrorKind::PermissionDenied => "permission denied",
        ErrorKind::IsADirectory => "it is a folder",
        ErrorKind::NotADirectory => "a part of its path is no folder",
        ErrorKind::StorageFull => "no space left: free some, then `resume` a journal",
        ErrorKind::QuotaExceeded => "the quota is used up: free some, then `resume` a journal",
        ErrorKind::FileTooLarge => "the file would be too large",
        ErrorKind::ReadOnlyFilesystem => "its file system is read-only",
        ErrorKind::BrokenPipe => "nobody reads it any more",
        ErrorKind::UnexpectedEof => "it is shorter than it was",
        ErrorKind::InvalidFilename | ErrorKind::InvalidInput => "the name is none of a file",
        ErrorKind::FilesystemLoop => "its links lead to one another",
        ErrorKind::WriteZero => "it takes no more bytes",
        ErrorKind::WouldBlock | ErrorKind::ResourceBusy => "it is busy",
        _ => "the call failed",
    }
}

/// Returns why a file that has this name is none that a new one takes the place of, if it is none:
/// it is a folder, a device or a pipe, or an output of the program.
pub fn trouble_of_old<R: Files>(rt: &R, name: &str) -> Option<Trouble> {
    if is_output(rt, name) {
        return Some(Trouble::Output);
    }
    match fs::metadata(rt, name) {
        Ok(metadata) if metadata.is_dir() => Some(Trouble::Call(ErrorKind::IsADirectory)),
        Ok(metadata) if !metadata.is_file() => Some(Trouble::NotRegular),
        _ => None,
    }
}

/// Looks why a file was refused that was to be opened for a journal.
pub fn trouble_of<R: Files<File = File>>(rt: &R, name: &str) -> Trouble {
    match fs::metadata(rt, name) {
        Err(error) => Trouble::Call(error.kind()),
        Ok(metadata) if metadata.is_dir() => Trouble::Call(ErrorKind::IsADirectory),
        Ok(metadata) if !metadata.is_file() => Trouble::NotRegular,
        Ok(_) => trouble_of_file(rt, name),
    }
}

/// Looks why a regular file was refused. An error that does not come again stays unknown.
fn trouble_of_file<R: Files<File = File>>(rt: &R, name: &str) -> Trouble {
    let mut options = OpenOptions::new();
    options.read(true).write(true);
    match options.open(rt, name) {
        Err(error) => Trouble::Call(error.kind()),
        Ok(file) => {
            let is_free = file.try_lock().is_ok();
            drop(file);
            if is_free {
                Trouble::Unknown
            } else {
                Trouble::InUse
            }
        }
    }
}
