//! From the bytes of a file to what is reported of the journal in them, whatever its task.
ghost use Rattle.std.specs.Prelude.{◌≡◌, ◌⊎◌, IfOk, IfErr, OnErr, OnOk};
ghost use Rattle.hplan.specs.Inspection.{IsToldOfContent, IsInspection, IsNotTold, HasNoInspection, HasNoInspectionYet};
ghost use Rattle.hplan.specs.Written.{WritesA, WritesFrontOfA};

use crate::fault::{Fault, device_fault, journal_in};
use crate::output::write_out;
use crate::places::Places;
use crate::text::inspected_text;
use hd_journal::JournalError;
use hd_plan::Watched;
use std::alloc::Global;
use std::io::Write;

/// Returns what is reported of a content.
fn inspection_of_content(alloc: Global, content: &[u8]) -> Result<Vec<u8>, Fault>
    ensures told { IfOk result (λ text. IsToldOfContent content.now text.items) }
    ensures refusal { IfErr result (IsNotTold content.now) }
{
    match hd_image::inspect(alloc, content) {
        Ok(inspected) => match inspected_text(alloc, &inspected) {
            Ok(text) => Ok(text),
            Err(_) => Err(Fault::NoMemory),
        },
        Err(error) => Err(journal_in(JournalError::from(error))),
    }
}

/// Returns what is reported of a file. It is read, and left alone.
fn told_of_file<P: Places>(alloc: Global, places: &mut P, name: &str) -> Result<Vec<u8>, Fault>
    ensures told { IfOk result (λ text.
        IsInspection (P.file_of places.old name.now) text.items) }
    ensures refusal { IfErr result (HasNoInspectionYet (P.file_of places.old name.now)) }
    ensures alone { places.new ≡ places.old }
{
    let content = match places.read(alloc, name) {
        Ok(content) => content,
        Err(error) => return Err(device_fault(error)),
    };
    let told = inspection_of_content(alloc, &content);
    drop(content);
    told
}

/// Reports what the bytes of a file are, as a journal of any task: its version, the digest of the
/// task's texts, how many entries and groups it has, and how many bytes stand after them; or
/// that a header is not there yet. The file is read, and left alone.
///
/// # Errors
/// - That the file can't be read; why its bytes are no journal, or a damaged one; or what is
///   reported of the error that the writer has answered. A beginning of the text has then been
///   written, and not all of it, and else nothing.
pub fn inspect<P: Places, W: Write>(
    alloc: Global,
    places: &mut P,
    name: &str,
    out: &mut Watched<'_, W>,
) -> Result<(), Fault>
    ensures whole { OnOk result (WritesA (IsInspection (P.file_of places.old name.now))
        (W.contents out.old.writer.now) (W.contents out.new.writer.now)) }
    ensures front { OnErr result
        ((W.contents out.new.writer.now ≡ W.contents out.old.writer.now)
        ⊎ WritesFrontOfA (IsInspection (P.file_of places.old name.now))
        (W.contents out.old.writer.now) (W.contents out.new.writer.now)) }
    ensures refusal { IfErr result (HasNoInspection (P.file_of places.old name.now)
        (W.contents out.old.writer.now) (W.contents out.new.writer.now)
        out.old.fault out.new.fault) }
    ensures no_fault { OnOk result (out.new.fault ≡ out.old.fault) }
    ensures alone { places.new ≡ places.old }
{
    let text = told_of_file(alloc, places, name)?;
    let written = write_out(out, &text);
    drop(text);
    match written {
        Ok(()) => Ok(()),
        Err(fault) => Err(fault),
    }
}
