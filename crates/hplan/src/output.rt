//! What is written, whole or with a fault.
ghost use Rattle.std.specs.Prelude.{◌≡◌, OnOk, OnErr};
ghost use Rattle.std.specs.Io.KnownBytes.{Appends};
ghost use Rattle.hd_plan.specs.Output.{AppendsShort};
ghost use Rattle.hplan.specs.Fault.{AnswersAsNoted};

use crate::fault::{Fault, kind_fault};
use hd_plan::Watched;
use std::io::Write;

/// Writes bytes, whole.
///
/// # Errors
/// - What is reported of the error that the writer has then answered. A beginning of the bytes has
///   been written, and not all of them.
pub fn write_out<W: Write>(out: &mut Watched<'_, W>, bytes: &[u8]) -> Result<(), Fault>
    ensures whole { OnOk result (Appends (W.contents out.old.writer.now)
        (W.contents out.new.writer.now) bytes.now) }
    ensures short { OnErr result (AppendsShort (W.contents out.old.writer.now)
        (W.contents out.new.writer.now) bytes.now) }
    ensures fault { AnswersAsNoted out.old.fault out.new.fault result }
{
    match out.put(bytes) {
        Ok(()) => Ok(()),
        Err(kind) => Err(kind_fault(kind)),
    }
}
