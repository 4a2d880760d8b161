//! A new journal with entries that there are.
ghost use Rattle.std.specs.Prelude.{◌≡◌, ◌≢◌, true, [], IfErr, OnOk};
ghost use Rattle.std.specs.List.{list_all};
ghost use Rattle.hd_image.specs.declared.version.Version.TheVariants.{Two};
ghost use Rattle.hd_image.specs.Image.{fits_parent};
ghost use Rattle.hd_store.specs.Device.{content_of};
ghost use Rattle.hd_journal.specs.Moments.{IsSettled, LeavesSince};
ghost use Rattle.hd_journal.specs.Copy.{IsCopyOf, IsNotCopied, IsCopyUnderWay};

use crate::grouping::append_all;
use crate::{DIGEST_LEN, Journal, JournalError, Kid};
use hd_store::Store;
use std::alloc::Global;

/// Makes a journal of version two on an empty store, for the task of this digest, and appends
/// these entries to it, in groups as large as may be. The store is answered, as it is then, and
/// whether all are there.
///
/// # Errors
/// - `JournalExists`: the store is not empty, and then it is as it was.
/// - `Device`: the device failed.
/// - `NoMemory`. After these two the store has a header that is still to be made, or a journal of
///   the first of the entries.
pub fn copy<S: Store>(
    alloc: Global,
    kids: &[Kid],
    digest: &[u8; DIGEST_LEN],
    store: S,
) -> (S, Result<(), JournalError>)
    requires { list_all (λ kid. fits_parent Two kid.parent) kids.now ≡ true }
    ensures empty { OnOk result.1 (content_of (S.device store) ≡ []) }
    ensures copied { OnOk result.1
        (IsCopyOf digest.now kids.now (content_of (S.device result.0))) }
    ensures failures { OnOk result.1
        ((S.device result.0).failures ≡ (S.device store).failures) }
    ensures refused { IfErr result.1 (λ error.
        IsNotCopied (S.device store) error (S.device result.0)) }
    // A store that is not empty is as it was.
    ensures kept { content_of (S.device store) ≢ []
        → content_of (S.device result.0) ≡ content_of (S.device store) }
    // What is there in the end, also after an error, is a header that is still to be made, or a
    // journal of the first of the entries; and so is what a stop leaves at any moment.
    ensures left { content_of (S.device store) ≡ []
        → IsCopyUnderWay digest.now kids.now (content_of (S.device result.0)) }
    ensures moments { IsSettled (S.device store) → content_of (S.device store) ≡ []
        → LeavesSince (IsCopyUnderWay digest.now kids.now) (S.device store) (S.device result.0) }
    ensures settled { OnOk result.1 (IsSettled (S.device result.0)) }
{
    match Journal::create(alloc, store, digest) {
        Ok(journal) => {
            let mut journal = journal;
            let appended = append_all(alloc, &mut journal, kids);
            (journal.into_store(), appended)
        }
        Err((store, error)) => (store, Err(error)),
    }
}
