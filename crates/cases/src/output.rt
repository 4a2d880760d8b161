//! An output that may have little room.

use std::alloc::Global;
use std::io::{self, ErrorKind, Write};

/// An output that takes so many bytes, and then fails.
#[derive(Drop)]
pub struct Output {
    /// What it took.
    pub taken: Vec<u8>,
    room: usize,
    fault: ErrorKind,
}

/// How much room an output has, and how it then fails.
#[derive(Clone, Copy)]
pub struct Room {
    /// The number of bytes that it takes.
    pub bytes: usize,
    /// The kind of the error; by `WriteZero` it answers that it took nothing.
    pub fault: ErrorKind,
}

impl Output {
    /// Returns an empty output of this room.
    pub fn of(alloc: Global, room: Room) -> Output {
        Output {
            taken: Vec::new(alloc),
            room: room.bytes,
            fault: room.fault,
        }
    }
}

impl Write for Output {
    fn write(&mut self, bytes: &[u8]) -> io::Result<usize> {
        if self.room == 0 && self.fault == ErrorKind::WriteZero {
            return Ok(0);
        }
        if self.room == 0 {
            return Err(io::Error::from(self.fault));
        }
        let count = bytes.len().min(self.room);
        let (now, _) = bytes.split_at(count);
        self.taken.extend_from_slice(now)?;
        self.room -= count;
        Ok(count)
    }

    fn flush(&mut self) -> io::Result<()> {
        Ok(())
    }
}
