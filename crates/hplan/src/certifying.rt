//! From the bytes of two texts and of a journal to what the journal shows by itself.
ghost use Rattle.std.specs.Prelude.{◌≡◌, ◌⊎◌, IfOk, IfErr, IfSome, OnErr, OnOk};
ghost use Rattle.hd_image.specs.Image.{most_of};
ghost use Rattle.hd_journal.specs.Journal.{found_in, version_in};
ghost use Rattle.hd_certify.specs.Certificate.{IsTrueOf};
ghost use Rattle.hplan.specs.Certifying.{CanBeTold, IsShownIn, IsToldBy, IsCertificate, IsCertificateText, ShowsNothing, HasNoCertificate, HasNoCertificateYet};
ghost use Rattle.hplan.specs.Written.{WritesA, WritesFrontOfA};

use crate::account::Account;
use crate::cost::cost_of;
use crate::fault::{Fault, certify_in, journal_in};
use crate::host::Host;
use crate::output::write_out;
use crate::places::Places;
use crate::reading::task_file;
use crate::text::certified_text;
use hd_base::Sequence;
use hd_certify::Certified;
use hd_image::{Entry, Found, Version, read};
use hd_journal::{DIGEST_LEN, JournalError};
use hd_plan::Watched;
use hd_task::Task;
use std::alloc::Global;
use std::io::Write;

/// What is reported of what a journal shows.
#[derive(Debug, Drop)]
struct Certificate {
    /// Whether it shows a verdict.
    is_certified: bool,
    /// How it is told.
    text: Vec<u8>,
}

/// Returns the entries of what was found, and how many a journal of its version may have.
pub fn entries_of(alloc: Global, found: Found) -> (Sequence<Entry>, u64)
    ensures entries { result.0 ≡ found_in found }
    ensures most { result.1 ≡ most_of (version_in found) }
{
    match found {
        Found::Unmade | Found::HalfMade => (Sequence::empty(alloc), Version::Two.most()),
        Found::Journal(contents) => {
            let most = contents.version.most();
            (contents.entries, most)
        }
    }
}

/// Returns what the bytes of a journal show of a task.
fn shown_in<H: Host>(
    alloc: Global,
    task: &Task,
    digest: &[u8; DIGEST_LEN],
    content: &[u8],
    account: &mut Account<'_, H>,
) -> Result<Option<Certified>, Fault>
    ensures shown { IfOk result (IsShownIn task.now digest.now content.now) }
    ensures is_true { IfOk result (λ shown. IfSome shown (IsTrueOf task.now)) }
    ensures can_be_told { IfOk result (λ shown. IfSome shown (CanBeTold task.now)) }
    ensures refusal { IfErr result (ShowsNothing task.now digest.now content.now) }
{
    let found = match read(alloc, content, digest) {
        Ok(found) => found,
        Err(error) => return Err(journal_in(JournalError::from(error))),
    };
    let (entries, most) = entries_of(alloc, found);
    let listed = entries.as_slice();
    account.count_journal(listed, most);
    account.cap_journal(content.len());
    let shown = hd_certify::certify(alloc, task, listed, most);
    drop(entries);
    match shown {
        Ok(shown) => Ok(shown),
        Err(error) => Err(certify_in(error)),
    }
}

/// Notes the cost and the length of the plan that is shown, if one is, where the numbers are
/// reported.
fn note_shown<H: Host>(
    alloc: Global,
    task: &Task,
    shown: &Option<Certified>,
    account: &mut Account<'_, H>,
) {
    let (true, Some(Certified::Optimal(plan))) = (account.stats, shown) else {
        return;
    };
    if let Ok(Some(cost)) = cost_of(alloc, task, plan) {
        account.note_plan(cost, plan.as_slice().len());
    }
}

/// Returns what is reported of what the bytes of a journal show of a task.
fn told_in<H: Host>(
    alloc: Global,
    task: &Task,
    digest: &[u8; DIGEST_LEN],
    content: &[u8],
    account: &mut Account<'_, H>,
) -> Result<Certificate, Fault>
    ensures told { IfOk result (λ c.
        IsToldBy task.now digest.now content.now c.is_certified c.text.items) }
    ensures refusal { IfErr result (ShowsNothing task.now digest.now content.now) }
{
    let shown = shown_in(alloc, task, digest, content, account)?;
    note_shown(alloc, task, &shown, account);
    let text = certified_text(alloc, task, &shown);
    let is_certified = shown.is_some();
    drop(shown);
    match text {
        Ok(text) => Ok(Certificate { is_certified, text }),
        Err(_) => Err(Fault::NoMemory),
    }
}

/// Returns what is reported of what the file of a journal shows of the task of two texts.
fn certificate_of<P: Places, H: Host>(
    alloc: Global,
    places: &mut P,
    name: &str,
    domain: &[u8],
    problem: &[u8],
    account: &mut Account<'_, H>,
) -> Result<Certificate, Fault>
    ensures found { IfOk result (λ c. IsCertificate domain.now problem.now
        (P.file_of places.old name.now) c.is_certified c.text.items) }
    ensures refusal { IfErr result (HasNoCertificateYet domain.now problem.now
        (P.file_of places.old name.now)) }
    ensures alone { places.new ≡ places.old }
{
    let read = match task_file(alloc, places, name, domain, problem, account) {
        Ok(read) => read,
        Err(fault) => return Err(fault),
    };
    let told = told_in(alloc, &read.task, &read.digest, &read.content, account);
    account.end_recovery();
    drop(read);
    told
}

/// Reports what the journal in a file shows by itself of the task that two texts say, whoever made
/// it: `certified optimal; cost = N`, `certified no plan`, or `not certified`; and answers
/// whether it shows a verdict. The file is read, and left alone. What is counted beside it is in
/// the account.
///
/// # Errors
/// - The first fault of the texts; that the file can't be read; why its bytes are no journal of
///   theirs; the first entry that is no step of a search of the task; or what is reported of the
///   error that the writer has answered. A beginning of the text has then been written, and not all
///   of it, and else nothing.
pub fn certify<P: Places, H: Host, W: Write>(
    alloc: Global,
    places: &mut P,
    name: &str,
    domain: &[u8],
    problem: &[u8],
    account: &mut Account<'_, H>,
    out: &mut Watched<'_, W>,
) -> Result<bool, Fault>
    // What is reported is shown by the file's bytes, and true of all plans of the domain.
    ensures whole { IfOk result (λ answer. WritesA
        (IsCertificate domain.now problem.now (P.file_of places.old name.now) answer)
        (W.contents out.old.writer.now) (W.contents out.new.writer.now)) }
    ensures front { OnErr result
        ((W.contents out.new.writer.now ≡ W.contents out.old.writer.now)
        ⊎ WritesFrontOfA
        (IsCertificateText domain.now problem.now (P.file_of places.old name.now))
        (W.contents out.old.writer.now) (W.contents out.new.writer.now)) }
    ensures refusal { IfErr result (HasNoCertificate domain.now problem.now
        (P.file_of places.old name.now)
        (W.contents out.old.writer.now) (W.contents out.new.writer.now)
        out.old.fault out.new.fault) }
    ensures no_fault { OnOk result (out.new.fault ≡ out.old.fault) }
    ensures alone { places.new ≡ places.old }
{
    let told = certificate_of(alloc, places, name, domain, problem, account)?;
    let is_certified = told.is_certified;
    let written = write_out(out, &told.text);
    drop(told);
    match written {
        Ok(()) => Ok(is_certified),
        Err(fault) => Err(fault),
    }
}
