//! A writer that notes its errors, so that they can be explained.

use std::io::{self, ErrorKind, Write};

/// A writer, and the kind of the first error that it answered.
#[derive(Drop)]
pub struct Noted<'w, W> {
    writer: &'w mut W,
    fault: Option<ErrorKind>,
}

impl<'w, W: Write> Noted<'w, W> {
    /// Returns a writer that has answered no error yet.
    pub fn of(writer: &'w mut W) -> Noted<'w, W> {
        Noted {
            writer,
            fault: None,
        }
    }

    /// Returns the kind of the first error that the writer answered, if it has answered one.
    pub fn fault(&self) -> Option<ErrorKind> {
        self.fault
    }

    /// Notes an error, if it is the first.
    fn note(&mut self, kind: ErrorKind) {
        if self.fault.is_none() {
            self.fault = Some(kind);
        }
    }
}

impl<W: Write> Write for Noted<'_, W> {
    fn write(&mut self, bytes: &[u8]) -> io::Result<usize> {
        match self.writer.write(bytes) {
            Ok(count) => {
                if count == 0 && !bytes.is_empty() {
                    self.note(ErrorKind::WriteZero);
                }
                Ok(count)
            }
            Err(error) => {
                self.note(error.kind());
                Err(error)
            }
        }
    }

    fn flush(&mut self) -> io::Result<()> {
        match self.writer.flush() {
            Ok(()) => Ok(()),
            Err(error) => {
                self.note(error.kind());
                Err(error)
            }
        }
    }
}
