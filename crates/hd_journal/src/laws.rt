//! Laws over the definitions. Each function does nothing: its contract is the law.
ghost use Rattle.std.specs.Prelude.{◌≡◌, ◌⊎◌, ◌∷◌, ◌++◌, ℕ, List, [], length, Err};
ghost use Rattle.std.specs.List.{AllByRecursion};
ghost use Rattle.hd_task.specs.declared.plan.Kid.{Kid};
ghost use Rattle.hd_image.specs.declared.version.Version.{Version};
ghost use Rattle.hd_image.specs.declared.header.TheConstants.{DIGEST_LEN};
ghost use Rattle.hd_image.specs.declared.contents.Contents.{Contents};
ghost use Rattle.hd_image.specs.declared.contents.Found.TheVariants.{Journal};
ghost use Rattle.hd_image.specs.declared.error.ImageError.{ImageError};
ghost use Rattle.hd_image.specs.declared.error.ImageError.TheVariants.{NoMemory};
ghost use Rattle.hd_image.specs.Image.{IsGroup};
ghost use Rattle.hd_image.specs.Reading.{IsFound, IsRefused};
ghost use Rattle.hd_image.specs.Stops.{IsBeforeOrAfter, IsMaking};
ghost use Rattle.hd_store.specs.declared.error.StoreError.TheVariants as store;
ghost use Rattle.hd_store.specs.Device.{Device, content_of, one_more};
ghost use Rattle.hd_journal.specs.Answers.{StandsIn};
ghost use Rattle.hd_journal.specs.Calls.{Call, Ran, RanThrough, after_calls};
ghost use Rattle.hd_journal.specs.Journal.{mend_calls};

/// Law: calls that were all done leave the device that they lead to.
pub fn journal_calls_that_were_done_lead_on()
    ensures { (old new : Device) (calls : List Call)
        → RanThrough old calls new → new ≡ after_calls old calls }
{}

/// Law: calls of which one failed leave one failure more counted, up to the greatest count.
pub fn journal_calls_that_fail_are_counted()
    ensures { (old new : Device) (calls : List Call)
        → Ran old calls (Err store.Failed) new → new.failures ≡ one_more old.failures }
{}

/// Law: what a stop leaves while a group is appended holds the groups before, or these and the
/// whole new one.
pub fn what_a_stop_leaves_holds_groups()
    ensures { (v : Version) (digest : List ℕ) (groups : List (List Kid)) (next : List Kid)
        (content : List ℕ) → AllByRecursion (IsGroup v) groups → IsGroup v next
        → IsBeforeOrAfter v digest groups next content
        → StandsIn v digest groups content ⊎ StandsIn v digest (groups ++ next ∷ []) content }
{}

/// Law: nothing is said against a content in which groups stand, nor against what a stop leaves
/// while a header is made.
pub fn journals_after_a_stop_are_not_refused()
    ensures groups { (v : Version) (digest : List ℕ) (groups : List (List Kid))
        (content : List ℕ) (error : ImageError) → length digest ≡ DIGEST_LEN
        → StandsIn v digest groups content → IsRefused digest content error → error ≡ NoMemory }
    ensures making { (v : Version) (digest content : List ℕ) (error : ImageError)
        → length digest ≡ DIGEST_LEN → IsMaking v digest content
        → IsRefused digest content error → error ≡ NoMemory }
{}

/// Law: mending a journal that is found wants no memory: each write lies within the length.
pub fn mending_wants_no_memory()
    ensures { (digest : List ℕ) (old new : Device) (found : Contents)
        → IsFound digest (content_of old) (Journal found)
        → ¬ Ran old (mend_calls found) (Err store.NoMemory) new }
{}
