//! Where a case is played: its files, and the run that its lines speak of.

use crate::files::CaseFiles;
use crate::host::Host;
use crate::output::Room;
use crate::parts::bytes_by;
use crate::running::{ROOMY, Run, run_line};
use crate::stop::{Stop, failed, unread};
use crate::texts::{add_line, bytes_of, digit_of, joined, shown};
use hd_store::MemoryDisk;
use hplan::Places;
use std::alloc::{AllocError, Global};
use std::fs;
use std::io::ErrorKind;

/// A file whose lines are being read.
#[derive(Drop)]
struct Block {
    name: String,
    text: Vec<u8>,
}

/// Where a case is played.
#[derive(Drop)]
pub struct Stage {
    files: CaseFiles,
    block: Option<Block>,
    run: Option<Run>,
    room: Room,
}

/// Returns the two parts of a line, at this text.
fn halves<'t>(alloc: Global, text: &'t str, at: &str) -> Result<(&'t str, &'t str), Stop> {
    match text.split_once(at) {
        Some(halves) => Ok(halves),
        None => Err(Stop::Failed(format!(in alloc; "a line without `{at}`")?)),
    }
}

/// Returns a number.
fn number_of(alloc: Global, text: &str) -> Result<u64, Stop> {
    match text.parse::<u64>() {
        Ok(number) => Ok(number),
        Err(_) => unread(alloc, "a number"),
    }
}

/// Returns the kind of an error by its name.
fn fault_of(alloc: Global, name: &str) -> Result<ErrorKind, Stop> {
    match name {
        "Interrupted" => Ok(ErrorKind::Interrupted),
        "BrokenPipe" => Ok(ErrorKind::BrokenPipe),
        "WouldBlock" => Ok(ErrorKind::WouldBlock),
        "OutOfMemory" => Ok(ErrorKind::OutOfMemory),
        "WriteZero" => Ok(ErrorKind::WriteZero),
        _ => unread(alloc, "the kind of an error"),
    }
}

/// Plans that a call on a disk fails, or that the machine stops there.
fn plan(alloc: Global, disk: &mut MemoryDisk, text: &str) -> Result<(), Stop> {
    let (what, number) = match text.rsplit_once(" ") {
        Some((what, number)) => (what, number_of(alloc, number)?),
        None => return unread(alloc, "a plan of a disk"),
    };
    if number == 0 {
        return unread(alloc, "a plan of a disk");
    }
    match what {
        "fail change" => disk.fail_at(number),
        "fail read" => disk.fail_read(number),
        "stop" => disk.stop_at(number),
        _ => return unread(alloc, "a plan of a disk"),
    }
    Ok(())
}

/// Returns the byte of two digits.
fn byte_of(alloc: Global, text: &str) -> Result<u8, Stop> {
    let [high, low] = text.as_bytes() else {
        return unread(alloc, "a byte");
    };
    match (digit_of(*high), digit_of(*low)) {
        (Some(high), Some(low)) => Ok(joined(high, low)),
        _ => unread(alloc, "a byte"),
    }
}

/// Returns a text as often as this, one after the other.
fn repeated(alloc: Global, bytes: &[u8], times: u64) -> Result<Vec<u8>, AllocError> {
    let mut all = Vec::new(alloc);
    for _ in 0..times {
        all.extend_from_slice(bytes)?;
    }
    Ok(all)
}

/// Adds a file's bytes with each of these replaced, and returns whether there was one.
fn replaced(
    alloc: Global,
    bytes: &[u8],
    old: &[u8],
    new: &[u8],
) -> Result<Option<Vec<u8>>, AllocError> {
    let mut all = Vec::new(alloc);
    let mut skipped = 0;
    let mut is_found = false;
    for at in 0..bytes.len() {
        let (_, rest) = bytes.split_at(at);
        if skipped > 0 {
            skipped -= 1;
        } else if !old.is_empty() && rest.starts_with(old) {
            all.extend_from_slice(new)?;
            skipped = old.len() - 1;
            is_found = true;
        } else {
            all.extend_from_slice(rest.split_at(1).0)?;
        }
    }
    Ok(if is_found { Some(all) } else { None })
}

impl Stage {
    /// Returns a stage without files.
    pub fn empty(alloc: Global) -> Stage {
        Stage {
            files: CaseFiles::empty(alloc),
            block: None,
            run: None,
            room: ROOMY,
        }
    }

    /// Ends what the lines before have begun: makes their file, or judges their run.
    pub fn close(&mut self, rt: &impl Host) -> Result<(), Stop> {
        if let Some(Block { name, text }) = self.block.take() {
            self.files.put(rt, name.as_str(), text)?;
        }
        match self.run.take() {
            Some(run) => run.check(rt, &mut self.files),
            None => Ok(()),
        }
    }

    /// Removes what the case has made on the system.
    pub fn clear(&self, rt: &impl Host) {
        self.files.clear(rt);
    }

    /// Plays a line.
    pub fn play(&mut self, rt: &impl Host, line: &str) -> Result<(), Stop> {
        let (word, rest) = match line.split_once(" ") {
            Some(parts) => parts,
            None => (line, ""),
        };
        match word {
            "|" => self.add_to_block(rt.alloc(), rest),
            ">" | "!" | ">*" | "!*" | "or" | "cost" => self.want(rt.alloc(), word, rest),
            _ => {
                self.close(rt)?;
                self.begin(rt, word, rest)
            }
        }
    }

    /// Adds a line to the file that is being read.
    fn add_to_block(&mut self, alloc: Global, line: &str) -> Result<(), Stop> {
        match &mut self.block {
            Some(block) => add_line(alloc, &mut block.text, line),
            None => failed(alloc, "a line of no file"),
        }
    }

    /// Takes a line of what is wanted of the last run.
    fn want(&mut self, alloc: Global, word: &str, rest: &str) -> Result<(), Stop> {
        match &mut self.run {
            Some(run) => run.want(alloc, word, rest),
            None => failed(alloc, "no run before this line"),
        }
    }

    /// Plays a line that begins something.
    fn begin(&mut self, rt: &impl Host, word: &str, rest: &str) -> Result<(), Stop> {
        match word {
            "$" => {
                self.run = Some(run_line(rt, &mut self.files, rest, self.room)?);
                self.room = ROOMY;
                Ok(())
            }
            "room" => self.set_room(rt.alloc(), rest),
            "holds" | "text" | "length" | "gone" | "same" => self.look(rt, word, rest),
            _ => self.set_up(rt, word, rest),
        }
    }

    /// Plays a line that makes or changes a file.
    fn set_up(&mut self, rt: &impl Host, word: &str, rest: &str) -> Result<(), Stop> {
        match word {
            "task" => self.put_task(rt, rest),
            "file" => self.put_file(rt, rest),
            "append" => self.append(rt, rest),
            "bytes" => {
                let (name, parts) = named(rest);
                let bytes = bytes_by(rt, &mut self.files, parts)?;
                self.files.put(rt, name, bytes)
            }
            "replace" => self.replace(rt, rest),
            "remove" => self.files.remove(rt, rest),
            "disk" => self.plan_disk(rt.alloc(), rest),
            "settle" => self.settle(rt.alloc(), rest),
            "system" => self.files.move_to_system(rt),
            _ => unread(rt.alloc(), "the line"),
        }
    }

    /// Sets how much room the next run's output has.
    fn set_room(&mut self, alloc: Global, text: &str) -> Result<(), Stop> {
        let (number, fault) = match text.split_once(" ") {
            Some((number, fault)) => (number, fault_of(alloc, fault)?),
            None => (text, ErrorKind::BrokenPipe),
        };
        let bytes = number_of(alloc, number)? as usize;
        self.room = Room { bytes, fault };
        Ok(())
    }

    /// Makes the two files of a task.
    fn put_task(&mut self, rt: &impl Host, name: &str) -> Result<(), Stop> {
        let domain = format!(in rt.alloc(); "tasks/{name}.domain")?;
        let problem = format!(in rt.alloc(); "tasks/{name}.problem")?;
        self.files.put(rt, "d", fs::read(rt, domain.as_str())?)?;
        self.files.put(rt, "p", fs::read(rt, problem.as_str())?)
    }

    /// Makes a file of one text, or begins one of lines.
    fn put_file(&mut self, rt: &impl Host, rest: &str) -> Result<(), Stop> {
        if let Some((name, text)) = rest.split_once(": ") {
            let bytes = bytes_of(rt.alloc(), text)?;
            return self.files.put(rt, name, bytes);
        }
        match rest.strip_suffix(":") {
            Some(name) => self.files.put(rt, name, Vec::new(rt.alloc())),
            None => {
                self.block = Some(Block {
                    name: String::from_str(rt.alloc(), rest)?,
                    text: Vec::new(rt.alloc()),
                });
                Ok(())
            }
        }
    }

    /// Adds a text to a file, once or as often as the line says.
    fn append(&mut self, rt: &impl Host, rest: &str) -> Result<(), Stop> {
        let alloc = rt.alloc();
        let (head, text) = halves(alloc, rest, ": ")?;
        let (name, times) = match head.strip_suffix(" times") {
            Some(head) => {
                let (name, number) = halves(alloc, head, " ")?;
                (name, number_of(alloc, number)?)
            }
            None => (head, 1),
        };
        let mut bytes = self.files.get(rt, name).unwrap_or(Vec::new(alloc));
        let text = bytes_of(alloc, text)?;
        bytes.extend_from_slice(&repeated(alloc, &text, times)?)?;
        self.files.put(rt, name, bytes)
    }

    /// Replaces a text in a file.
    fn replace(&mut self, rt: &impl Host, rest: &str) -> Result<(), Stop> {
        let alloc = rt.alloc();
        let (name, change) = halves(alloc, rest, ": ")?;
        let (old, new) = match change.split_once(" => ") {
            Some(parts) => parts,
            None => (change.strip_suffix(" =>").unwrap_or(change), ""),
        };
        let Some(bytes) = self.files.get(rt, name) else {
            return failed(alloc, "no such file");
        };
        let (old, new) = (bytes_of(alloc, old)?, bytes_of(alloc, new)?);
        match replaced(alloc, &bytes, &old, &new)? {
            Some(bytes) => self.files.put(rt, name, bytes),
            None => failed(alloc, "nothing to replace"),
        }
    }

    /// Plans what a disk does.
    fn plan_disk(&mut self, alloc: Global, rest: &str) -> Result<(), Stop> {
        let (name, text) = halves(alloc, rest, " ")?;
        let mut disk = self.files.disk(alloc, name)?;
        let planned = plan(alloc, &mut disk, text);
        self.files.shelf.give_back(name, disk);
        planned
    }

    /// Has a disk settle after a stop.
    fn settle(&mut self, alloc: Global, rest: &str) -> Result<(), Stop> {
        let (name, fill) = halves(alloc, rest, " ")?;
        let fill = byte_of(alloc, fill)?;
        let mut disk = self.files.disk(alloc, name)?;
        let settled = disk.settle(fill);
        self.files.shelf.give_back(name, disk);
        match settled {
            Ok(()) => Ok(()),
            Err(_) => Err(Stop::Broken),
        }
    }

    /// Compares what a file holds.
    fn look(&mut self, rt: &impl Host, word: &str, rest: &str) -> Result<(), Stop> {
        let alloc = rt.alloc();
        match word {
            "gone" => match self.files.get(rt, rest) {
                Some(_) => failed(alloc, "the file is there"),
                None => Ok(()),
            },
            "same" => self.look_for_change(rt, rest),
            "length" => {
                let (name, number) = halves(alloc, rest, " ")?;
                self.look_at_length(rt, name, number_of(alloc, number)?)
            }
            "holds" => {
                let (name, parts) = named(rest);
                let bytes = bytes_by(rt, &mut self.files, parts)?;
                self.look_at(rt, name, &bytes)
            }
            _ => {
                let (name, text) = named(rest);
                let bytes = bytes_of(alloc, text)?;
                self.look_at(rt, name, &bytes)
            }
        }
    }

    /// Compares a file with what it was before the last run.
    fn look_for_change(&mut self, rt: &impl Host, name: &str) -> Result<(), Stop> {
        let now = self.files.get(rt, name);
        match (self.files.before(name), &now) {
            (Some(before), Some(now)) if before == now.as_slice() => Ok(()),
            _ => failed(rt.alloc(), "the file has changed"),
        }
    }

    /// Compares the length of a file.
    fn look_at_length(&mut self, rt: &impl Host, name: &str, wanted: u64) -> Result<(), Stop> {
        let alloc = rt.alloc();
        let Some(bytes) = self.files.get(rt, name) else {
            return failed(alloc, "no such file");
        };
        let found = bytes.len() as u64;
        if found == wanted {
            return Ok(());
        }
        Err(Stop::Failed(format!(in alloc; "length wanted {wanted} found {found}")?))
    }

    /// Compares the bytes of a file.
    fn look_at(&mut self, rt: &impl Host, name: &str, wanted: &[u8]) -> Result<(), Stop> {
        let alloc = rt.alloc();
        let Some(found) = self.files.get(rt, name) else {
            return failed(alloc, "no such file");
        };
        if found.as_slice() == wanted {
            return Ok(());
        }
        let (wanted, found) = (shown(alloc, wanted)?, shown(alloc, &found)?);
        Err(Stop::Failed(format!(in alloc; "{name} wanted \"{wanted}\" found \"{found}\"")?))
    }
}

/// Returns a name and what stands after its colon.
fn named(text: &str) -> (&str, &str) {
    match text.split_once(":") {
        Some((name, rest)) => (name, rest.strip_prefix(" ").unwrap_or(rest)),
        None => (text, ""),
    }
}
