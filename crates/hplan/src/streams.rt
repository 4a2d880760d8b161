//! The program's three streams, and the files after names.
use std::fs::{self, File};
use std::io;
use std::os::fd::AsRawFd;
use std::os::unix::fs::MetadataExt;
use std::rt::Files;

/// The descriptor of standard error, the last of the three streams.
const LAST_STREAM: i32 = 2;

/// What takes the places of closed streams, as long as it is kept.
#[derive(Drop)]
pub struct HeldStreams {
    files: [Option<File>; 3],
}

impl HeldStreams {
    /// Opens a file in the place of each closed stream, so that no file that is opened later gets
    /// the descriptor of a stream.
    ///
    /// A closed stream stays of no use: what is opened can't be written to.
    ///
    /// # Errors
    /// - Those of the system: nothing can be opened.
    pub fn hold<R: Files<File = File>>(rt: &R) -> io::Result<HeldStreams> {
        Ok(HeldStreams {
            files: [hold_one(rt)?, hold_one(rt)?, hold_one(rt)?],
        })
    }
}

/// Opens a file, and keeps it if it has the descriptor of a stream, which then was closed.
fn hold_one<R: Files<File = File>>(rt: &R) -> io::Result<Option<File>> {
    let file = match File::open(rt, "/dev/null") {
        Ok(file) => file,
        // A machine without this device has the root folder, which can't be written to either.
        Err(_) => File::open(rt, "/")?,
    };
    if file.as_raw_fd() > LAST_STREAM {
        return Ok(None);
    }
    Ok(Some(file))
}

/// Reports whether two names lead to the same file, which is there.
pub fn is_same_file<R: Files>(rt: &R, one: &str, other: &str) -> bool {
    match (fs::metadata(rt, one), fs::metadata(rt, other)) {
        (Ok(one), Ok(other)) => {
            one.ino() != 0 && one.ino() == other.ino() && one.dev() == other.dev()
        }
        _ => false,
    }
}

/// Reports whether a name leads to what standard output or standard error is written to.
pub fn is_output<R: Files>(rt: &R, name: &str) -> bool {
    is_same_file(rt, name, "/dev/stdout") || is_same_file(rt, name, "/dev/stderr")
}
