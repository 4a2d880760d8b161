//! The machine that a command runs on, as far as it is asked beside the files.

use crate::trouble::trouble_of_old;
use hd_search::Machine;
use std::fs::{self, File};
use std::io::{self, Write};
use std::rt::Files;
use std::time::{Clock, Instant};

/// What the system reports of the process, a line each.
const STATUS: &str = "/proc/self/status";

/// What the name of a file ends with that is to take the place of another.
const FRESH: &str = ".hplan";

/// How many such files may be left of runs that were killed.
const MOST_LEFT: u64 = 100;

/// What a command asks of the machine beside its files: the time, the memory, and a file that is
/// replaced while threads run.
pub trait Host: Machine {
    /// Returns how many milliseconds have passed since the program began; 0 if no clock can be
    /// read.
    fn milliseconds(&self) -> u64;

    /// Returns how many kilobytes of memory the process had at most, if that is known.
    fn most_kilobytes(&self) -> Option<u64>;

    /// Has the file of this name have these bytes. Whoever reads it has its old bytes, or the new
    /// ones, also after a stop.
    ///
    /// # Errors
    /// - Those of the system; the file is as it was.
    fn put(&self, name: &str, bytes: &[u8]) -> io::Result<()>;
}

/// What a [`SystemHost`] asks of a runtime, by calls that any thread may make: [`Files`] has types
/// that may be of one thread alone.
pub trait System {
    /// Returns the number of kilobytes that the system reports of the process under this name, if
    /// it does.
    fn kilobytes(&self, name: &str) -> Option<u64>;

    /// Makes a file beside that of this name, and removes it again.
    ///
    /// # Errors
    /// - Those of the system: no file can take the place of that of this name.
    fn try_replace(&self, name: &str) -> io::Result<()>;

    /// Has the file of this name have these bytes, as [`Host::put`] does.
    ///
    /// # Errors
    /// - As there.
    fn replace(&self, name: &str, bytes: &[u8]) -> io::Result<()>;
}

/// The machine, by the runtime.
#[derive(Drop)]
pub struct SystemHost<'r, R> {
    rt: &'r R,
    began: Option<Instant>,
    is_terminal: bool,
}

impl<'r, R> SystemHost<'r, R> {
    /// Returns the machine of this runtime, where the program began at a moment, and whether
    /// standard error is a terminal.
    pub fn new(rt: &'r R, began: Option<Instant>, is_terminal: bool) -> SystemHost<'r, R> {
        SystemHost {
            rt,
            began,
            is_terminal,
        }
    }
}

/// Returns the number of kilobytes in the line of a text that begins with `name`.
fn kilobytes_in(text: &str, name: &str) -> Option<u64> {
    for line in text.split('\n') {
        if let Some(rest) = line.strip_prefix(name) {
            let (number, _) = rest.trim().split_once(' ')?;
            return number.parse::<u64>().ok();
        }
    }
    None
}

/// Makes a file beside another, under a name that no file has: one that stayed when a run was
/// killed is left alone.
///
/// # Errors
/// - Those of the system.
fn make_beside<R: Files<File = File> + AllocGlobal>(
    rt: &R,
    name: &str,
) -> io::Result<(String, File)> {
    for number in 0..MOST_LEFT {
        let fresh = format!(in rt.alloc(); "{name}.{number}{FRESH}")?;
        match File::create_new(rt, fresh.as_str()) {
            Ok(file) => return Ok((fresh, file)),
            Err(error) if error.kind() == io::ErrorKind::AlreadyExists => {}
            Err(error) => return Err(error),
        }
    }
    Err(io::Error::from(io::ErrorKind::AlreadyExists))
}

/// Has a new file have these bytes, sure to be in it, and the name of another.
///
/// # Errors
/// - Those of the system.
fn fill_and_rename<R: Files<File = File>>(
    rt: &R,
    file: File,
    fresh: &str,
    name: &str,
    bytes: &[u8],
) -> io::Result<()> {
    let mut file = file;
    file.write_all(bytes)?;
    file.sync_all()?;
    fs::rename(rt, fresh, name)
}

impl<R: Files<File = File> + AllocGlobal> System for R {
    fn kilobytes(&self, name: &str) -> Option<u64> {
        match fs::read_to_string(self, STATUS) {
            Ok(text) => kilobytes_in(text.as_str(), name),
            Err(_) => None,
        }
    }

    fn try_replace(&self, name: &str) -> io::Result<()> {
        let (fresh, file) = make_beside(self, name)?;
        drop(file);
        fs::remove_file(self, fresh.as_str())
    }

    fn replace(&self, name: &str, bytes: &[u8]) -> io::Result<()> {
        if trouble_of_old(self, name).is_some() {
            return Err(io::Error::from(io::ErrorKind::InvalidInput));
        }
        let (fresh, file) = make_beside(self, name)?;
        let put = fill_and_rename(self, file, fresh.as_str(), name, bytes);
        if put.is_err() {
            // A file that stays is no reason for another fault.
            let _ = fs::remove_file(self, fresh.as_str());
        }
        put
    }
}

impl<R: System> Machine for SystemHost<'_, R> {
    fn megabytes(&self) -> Option<u64> {
        Some(self.rt.kilobytes("VmRSS:")? / 1024)
    }

    fn is_terminal(&self) -> bool {
        self.is_terminal
    }
}

impl<R: System + Clock> Host for SystemHost<'_, R> {
    fn milliseconds(&self) -> u64 {
        match self.began {
            Some(began) => match began.elapsed(self.rt) {
                Ok(passed) => u64::try_from(passed.as_millis()).unwrap_or(u64::MAX),
                Err(_) => 0,
            },
            None => 0,
        }
    }

    fn most_kilobytes(&self) -> Option<u64> {
        self.rt.kilobytes("VmHWM:")
    }

    fn put(&self, name: &str, bytes: &[u8]) -> io::Result<()> {
        self.rt.replace(name, bytes)
    }
}

/// A machine without a clock, of whose memory nothing is known, and where nobody reads a file while
/// threads run.
#[derive(Clone, Copy, Debug, Drop)]
pub struct NoHost;

impl Machine for NoHost {
    fn megabytes(&self) -> Option<u64> {
        None
    }

    fn is_terminal(&self) -> bool {
        false
    }
}

impl Host for NoHost {
    fn milliseconds(&self) -> u64 {
        0
    }

    fn most_kilobytes(&self) -> Option<u64> {
        None
    }

    fn put(&self, _name: &str, _bytes: &[u8]) -> io::Result<()> {
        Ok(())
    }
}
