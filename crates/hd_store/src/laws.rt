//! Laws of what a stop leaves. Each function does nothing: its contract is the law.
ghost use Rattle.std.specs.Prelude.{◌≡◌, ℕ, ◌+◌, ◌<◌, ◌↔◌, List, [], ◌∷◌};
ghost use Rattle.hd_store.specs.declared.change.DiskChange.TheVariants.{Write, Cut, Sync, FailedSync};
ghost use Rattle.hd_store.specs.Bytes.{IsPartOfWrite, IsPartOfCut};
ghost use Rattle.hd_store.specs.Past.{Step, content_after, made_step};
ghost use Rattle.hd_store.specs.Device.{one_more};
ghost use Rattle.hd_store.specs.declared.error.TheConstants.{MOST_FAILURES};
ghost use Rattle.hd_store.specs.Stop.{MayLeave, IsAtRest, IsSynced, IsFilled};

/// Law: at its start, and after a sync that succeeded, a stop leaves what a read gives, and
/// nothing else.
pub fn a_sync_leaves_one_content()
    ensures start { (start : List ℕ) → IsAtRest start [] }
    ensures sync { (start now : List ℕ) (steps : List Step)
        → IsAtRest start (made_step Sync now ∷ steps) }
    ensures left { (start : List ℕ) (steps : List Step)
        → IsSynced steps → MayLeave start steps (content_after start steps) }
{}

/// Law: after a sync and one change, a stop leaves any part of the change, and nothing else.
pub fn a_change_leaves_any_part_of_itself()
    ensures write { (start : List ℕ) (steps : List Step) (at count : ℕ) (now found : List ℕ)
        → IsSynced steps → MayLeave start (made_step (Write at count) now ∷ steps) found
        ↔ IsPartOfWrite (content_after start steps) at count found }
    ensures cut { (start : List ℕ) (steps : List Step) (len : ℕ) (now found : List ℕ)
        → IsSynced steps → MayLeave start (made_step (Cut len) now ∷ steps) found
        ↔ IsPartOfCut (content_after start steps) len found }
{}

/// Law: what a stop may leave before a write or a cut it may leave after it. So what a stop within
/// the change leaves, one right after it may leave too.
pub fn a_change_takes_nothing_away()
    ensures write { (start : List ℕ) (steps : List Step) (at count : ℕ) (now found : List ℕ)
        → MayLeave start steps found
        → MayLeave start (made_step (Write at count) now ∷ steps) found }
    ensures cut { (start : List ℕ) (steps : List Step) (len : ℕ) (now found : List ℕ)
        → MayLeave start steps found → MayLeave start (made_step (Cut len) now ∷ steps) found }
{}

/// Law: a sync that failed makes nothing sure, and takes nothing away.
pub fn a_failed_sync_changes_nothing()
    ensures { (start : List ℕ) (steps : List Step) (now found : List ℕ)
        → MayLeave start (made_step FailedSync now ∷ steps) found ↔ MayLeave start steps found }
{}

/// Law: of all that a stop may leave, one content alone is the longest in which each byte that is
/// not sure is a given one.
pub fn a_filled_disk_is_one()
    ensures { (start : List ℕ) (steps : List Step) (fill : ℕ) (one other : List ℕ)
        → IsFilled start steps fill one → IsFilled start steps fill other → one ≡ other }
{}

/// Law: a call that fails counts one failure, up to the greatest count.
pub fn failures_are_counted()
    ensures below { (failures : ℕ) → failures < MOST_FAILURES → one_more failures ≡ failures + 1 }
    ensures greatest { one_more MOST_FAILURES ≡ MOST_FAILURES }
{}
