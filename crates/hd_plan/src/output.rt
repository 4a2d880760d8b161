//! Bytes to a writer, and what becomes of its faults.
ghost use Rattle.std.specs.Prelude.{◌≡◌, ◌<◌, None, Some, length, IfOk, IfErr, OnOk, OnErr};
ghost use Rattle.std.specs.Io.KnownBytes.{Appends, WriteAppends};
ghost use Rattle.hd_plan.specs.Output.{AppendsShort, IsPartOf, NotesFault};
ghost use Rattle.hd_plan.specs.declared.output.WriteFault.TheVariants.{NoMemory};

use std::alloc::{AllocError, AllocFailed};
use std::io::{self, Write};

/// Why a text was not written.
#[derive(Clone, Copy, Debug, PartialEq, Eq)]
pub enum WriteFault {
    /// Memory ran out before anything was written.
    NoMemory,
    /// The writer failed, with this kind of error.
    Device(io::ErrorKind),
}

impl From<AllocError> for WriteFault {
    ghost from_gives = { λ _ error. error ≡ NoMemory };

    fn from(_error: AllocError) -> WriteFault {
        WriteFault::NoMemory
    }
}

impl<T: Drop> From<AllocFailed<T>> for WriteFault {
    ghost from_gives = { λ _ error. error ≡ NoMemory };

    fn from(_error: AllocFailed<T>) -> WriteFault {
        WriteFault::NoMemory
    }
}

/// A writer, with the kind of the error that it answered last, if it has answered one.
///
/// No contract over `std::io::Write` alone can say that a writer failed. This one notes each error
/// that its writer answers, so that what is reported of the writer can be held against it.
#[derive(Drop)]
pub struct Watched<'w, W> {
    writer: &'w mut W,
    fault: Option<io::ErrorKind>,
}

impl<'w, W: Write> Watched<'w, W> {
    /// Returns a writer that has answered no error yet.
    pub fn of(writer: &'w mut W) -> Watched<'w, W>
        ensures no_fault { result.fault ≡ None }
        ensures held { W.contents result.writer.now ≡ W.contents writer.old }
    {
        Watched {
            writer,
            fault: None,
        }
    }

    /// Returns the kind of the error that the writer answered last, if it has answered one.
    pub fn fault(&self) -> Option<io::ErrorKind>
        ensures { result ≡ self.now.fault }
    {
        self.fault
    }

    /// Writes some of these bytes, and answers how many. This alone notes an error.
    ///
    /// # Errors
    /// - The kind of the error that the writer answers, after which nothing of them has been
    ///   written. A writer that takes none of the bytes has failed with `WriteZero`.
    fn write(&mut self, bytes: &[u8]) -> Result<usize, io::ErrorKind>
        requires { 0 < length bytes.now }
        ensures part { IfOk result (IsPartOf bytes.now) }
        ensures bytes { WriteAppends (W.contents self.old.writer.now)
            (W.contents self.new.writer.now) result bytes.now }
        ensures fault { NotesFault self.old.fault self.new.fault result }
    {
        let kind = match self.writer.write(bytes) {
            Ok(0) => io::ErrorKind::WriteZero,
            Ok(count) => return Ok(count),
            Err(error) => error.kind(),
        };
        self.fault = Some(kind);
        Err(kind)
    }

    /// Writes bytes, whole.
    ///
    /// # Errors
    /// - The kind of the error that the writer answers, after which a beginning of the bytes has
    ///   been written, and not all of them.
    #[tactic(auto, using(crate::proofs::Parts::part_appended))]
    pub fn put(&mut self, bytes: &[u8]) -> Result<(), io::ErrorKind>
        // All bytes are written, or a beginning of them: where the writer's bytes are known, it is
        // told which of both.
        ensures whole { OnOk result (Appends (W.contents self.old.writer.now)
            (W.contents self.new.writer.now) bytes.now) }
        ensures short { OnErr result (AppendsShort (W.contents self.old.writer.now)
            (W.contents self.new.writer.now) bytes.now) }

        // An error is reported only where the writer has answered it.
        ensures fault { NotesFault self.old.fault self.new.fault result }
    {
        let mut done = 0;
        while done < bytes.len() {
            done += self.write(&bytes[done..])?;
        }
        Ok(())
    }
}

/// Writes bytes, whole, to a writer of which nothing is noted.
///
/// # Errors
/// - The writer's fault, after which a beginning of the bytes has been written, and not all of
///   them.
#[tactic(auto, using(crate::proofs::Parts::part_appended))]
pub fn put<W: Write>(out: &mut W, bytes: &[u8]) -> io::Result<()>
    ensures whole { OnOk result (Appends (W.contents out.old) (W.contents out.new) bytes.now) }
    ensures short { OnErr result
        (AppendsShort (W.contents out.old) (W.contents out.new) bytes.now) }
{
    let mut done = 0;
    while done < bytes.len() {
        let count = out.write(&bytes[done..])?;
        if count == 0 {
            return Err(io::Error::from(io::ErrorKind::WriteZero));
        }
        done += count;
    }
    Ok(())
}
