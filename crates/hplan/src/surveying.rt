//! From the bytes of two texts and of a journal to what is reported of the search in it.
ghost use Rattle.std.specs.Prelude.{◌≡◌, ◌⊎◌, IfOk, IfErr, OnErr, OnOk};
ghost use Rattle.hd_journal.specs.Journal.{found_in};
ghost use Rattle.hd_image.specs.Reading.{IsFound};
ghost use Rattle.hd_image.specs.declared.contents.Found.{Found as FoundData};
ghost use Rattle.hd_certify.specs.Survey.{IsSurveyOf};
ghost use Rattle.hplan.specs.Certifying.{ShowsNothing};
ghost use Rattle.hplan.specs.Surveying.{HasNoSurvey, HasNoSurveyYet, IsSurveyText, IsSurveyedIn, TellsNothing};
ghost use Rattle.hplan.specs.Written.{WritesA, WritesFrontOfA};

use crate::certifying::entries_of;
use crate::fault::{Fault, certify_in, journal_in};
use crate::output::write_out;
use crate::places::Places;
use crate::reading::task_file;
use crate::survey_text::survey_text;
use hd_certify::Survey;
use hd_image::read;
use hd_journal::{DIGEST_LEN, JournalError};
use hd_plan::Watched;
use hd_task::Task;
use hd_texts::Unheard;
use std::alloc::Global;
use std::io::Write;

/// Returns what the entries of a content tell of the search of a task.
fn survey_in(
    alloc: Global,
    task: &Task,
    digest: &[u8; DIGEST_LEN],
    content: &[u8],
) -> Result<Survey, Fault>
    ensures tells { IfOk result (λ s. (found : FoundData)
        × IsFound digest.now content.now found × IsSurveyOf task.now (found_in found) s) }
    ensures refusal { IfErr result (ShowsNothing task.now digest.now content.now) }
{
    let found = match read(alloc, content, digest) {
        Ok(found) => found,
        Err(error) => return Err(journal_in(JournalError::from(error))),
    };
    let (entries, most) = entries_of(alloc, found);
    let survey = hd_certify::survey(alloc, task, entries.as_slice(), most);
    drop(entries);
    match survey {
        Ok(survey) => Ok(survey),
        Err(error) => Err(certify_in(error)),
    }
}

/// Returns what is reported of a content, and of the search in it.
fn surveyed_in(
    alloc: Global,
    task: &Task,
    digest: &[u8; DIGEST_LEN],
    content: &[u8],
) -> Result<Vec<u8>, Fault>
    ensures told { IfOk result (λ text.
        IsSurveyedIn task.now digest.now content.now text.items) }
    ensures refusal { IfErr result (TellsNothing task.now digest.now content.now) }
{
    let survey = match survey_in(alloc, task, digest, content) {
        Ok(survey) => survey,
        Err(fault) => return Err(fault),
    };
    match hd_image::inspect(alloc, content) {
        Ok(inspected) => match survey_text(alloc, task, &inspected, &survey) {
            Ok(text) => Ok(text),
            Err(_) => Err(Fault::NoMemory),
        },
        Err(error) => Err(journal_in(JournalError::from(error))),
    }
}

/// Returns what is reported of the journal of two texts in a file, and of the search in it.
fn survey_of<P: Places>(
    alloc: Global,
    places: &mut P,
    name: &str,
    domain: &[u8],
    problem: &[u8],
) -> Result<Vec<u8>, Fault>
    ensures told { IfOk result (λ text. IsSurveyText domain.now problem.now
        (P.file_of places.old name.now) text.items) }
    ensures refusal { IfErr result (HasNoSurveyYet domain.now problem.now
        (P.file_of places.old name.now)) }
    ensures alone { places.new ≡ places.old }
{
    let read = match task_file(alloc, places, name, domain, problem, &mut Unheard) {
        Ok(read) => read,
        Err(fault) => return Err(fault),
    };
    let told = surveyed_in(alloc, &read.task, &read.digest, &read.content);
    drop(read);
    told
}

/// Reports what the bytes of a file are, as `inspect` does, and after it how far the search of the
/// task that two texts say has come by the entries in it: how many plans are posted, and how many
/// of them settled, as far as the entries show it; the bound with its plan; the first departure;
/// and how many entries there are of each depth, and of each cost. The file is read, and left
/// alone.
///
/// # Errors
/// - As [`certify`](crate::certify), with the text of the survey.
pub fn survey<P: Places, W: Write>(
    alloc: Global,
    places: &mut P,
    name: &str,
    domain: &[u8],
    problem: &[u8],
    out: &mut Watched<'_, W>,
) -> Result<(), Fault>
    ensures whole { OnOk result (WritesA
        (IsSurveyText domain.now problem.now (P.file_of places.old name.now))
        (W.contents out.old.writer.now) (W.contents out.new.writer.now)) }
    ensures front { OnErr result
        ((W.contents out.new.writer.now ≡ W.contents out.old.writer.now)
        ⊎ WritesFrontOfA
        (IsSurveyText domain.now problem.now (P.file_of places.old name.now))
        (W.contents out.old.writer.now) (W.contents out.new.writer.now)) }
    ensures refusal { IfErr result (HasNoSurvey domain.now problem.now
        (P.file_of places.old name.now)
        (W.contents out.old.writer.now) (W.contents out.new.writer.now)
        out.old.fault out.new.fault) }
    ensures no_fault { OnOk result (out.new.fault ≡ out.old.fault) }
    ensures alone { places.new ≡ places.old }
{
    let text = survey_of(alloc, places, name, domain, problem)?;
    let written = write_out(out, &text);
    drop(text);
    match written {
        Ok(()) => Ok(()),
        Err(fault) => Err(fault),
    }
}
