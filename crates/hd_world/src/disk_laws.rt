//! Laws of the disk alone: what a stop leaves in a file, and what is found there; and that the
//! journal of a run is hd_journal's. Each function does nothing: its contract is the law.
ghost use Rattle.std.specs.Prelude.{◌≡◌, ℕ, List, Some, Result, length, true};
ghost use Rattle.hd_task.specs.declared.plan.Kid.{Kid};
ghost use Rattle.hd_store.specs.declared.error.StoreError.{StoreError};
ghost use Rattle.hd_store.specs.Device.{Device, content_of};
ghost use Rattle.hd_book.specs.declared.queue.TheConstants as book_limits;
ghost use Rattle.hd_image.specs.declared.header.TheConstants.{DIGEST_LEN};
ghost use Rattle.hd_image.specs.declared.entry.TheConstants as group_limits;
ghost use Rattle.hd_image.specs.declared.error.ImageError.{ImageError};
ghost use Rattle.hd_image.specs.declared.error.ImageError.TheVariants.{NoMemory};
ghost use Rattle.hd_image.specs.declared.version.Version.{Version};
ghost use Rattle.hd_image.specs.declared.contents.Found.{Found};
ghost use Rattle.hd_image.specs.Image.{front};
ghost use Rattle.hd_image.specs.Reading.{IsFound, IsRefused};
ghost use Rattle.hd_journal.specs.Calls.{Call, Ran, after_calls};
ghost use Rattle.hd_journal.specs.Answers as journals;
ghost use Rattle.hd_journal.specs.Group.{GroupView};
ghost use Rattle.hd_journal.specs.Journal.{IsOf, append_calls, kids_of, open_calls};
ghost use Rattle.hd_journal.specs.Moments.{IsSettled, LeavesSince};
ghost use Rattle.hd_world.specs.Stops.{File, appending, at_rest, journal_bytes, journal_entries, is_next, stopped_in, with_appended, Opens};
ghost use Rattle.hd_world.specs.Left.{Doing, Appending, IsFoundAfter, IsHeaderLeft, IsLeft, HasGroups, StopMayLeave};

use hd_journal::Journal;
use hd_store::Store;

/// Law: a stop within any of the calls that append a group, or before them, leaves the groups with
/// anything after their closed gate, or the whole new group after a gate that reads anything.
pub fn a_stop_in_an_append_leaves_the_groups()
    ensures { (digest : List ℕ) (f : File) (next : List Kid) (c : ℕ) (content : List ℕ)
        → StopMayLeave (stopped_in (at_rest (journal_bytes digest f))
        (append_calls f.version (length (front f.version digest f.groups)) next) c) content
        → IsLeft digest (Appending f next) content }
{}

/// Law: a stop within any of the calls that open what stops left, or before them, leaves again what
/// those may have left.
pub fn a_stop_in_an_opening_leaves_as_much()
    ensures { (digest : List ℕ) (doing : Doing) (content : List ℕ) (calls : List Call) (f : File)
        (c : ℕ) (left : List ℕ) → length digest ≡ DIGEST_LEN → HasGroups doing
        → IsLeft digest doing content → Opens digest content calls f
        → StopMayLeave (stopped_in (at_rest content) calls c) left → IsLeft digest doing left }
{}

/// Law: while a header of either version is opened that an earlier stop left, whatever its gate
/// reads, and no group stands after it, a stop at any moment leaves again what that one may have
/// left: from the device as it was, until `Journal::open` has made these calls or broken off.
pub fn a_stop_in_the_opening_of_a_header_leaves_as_much()
    ensures { (v : Version) (digest : List ℕ) (found : Found) (old new : Device)
        (result : Result (Unit {0}) StoreError) → length digest ≡ DIGEST_LEN → IsSettled old
        → IsHeaderLeft v digest (content_of old) → IsFound digest (content_of old) found
        → Ran old (open_calls digest found) result new
        → LeavesSince (IsHeaderLeft v digest) old new }
{}

/// Law: what stops left is opened, and the journal that is there then is the one that stood there,
/// or that with the whole group that was being appended; or the first one, where one was being
/// made.
pub fn what_stops_left_is_opened()
    ensures some { (digest : List ℕ) (doing : Doing) (content : List ℕ)
        → length digest ≡ DIGEST_LEN → HasGroups doing → IsLeft digest doing content
        → (calls : List Call) × (f : File) × Opens digest content calls f }
    ensures found { (digest : List ℕ) (doing : Doing) (content : List ℕ) (calls : List Call)
        (f : File) → length digest ≡ DIGEST_LEN → HasGroups doing → IsLeft digest doing content
        → Opens digest content calls f → IsFoundAfter doing f }
{}

/// Law: nothing is said against what stops left.
pub fn what_stops_left_is_not_refused()
    ensures { (digest : List ℕ) (doing : Doing) (content : List ℕ) (error : ImageError)
        → length digest ≡ DIGEST_LEN → HasGroups doing → IsLeft digest doing content
        → IsRefused digest content error → error ≡ NoMemory }
{}

/// Law: a content is opened by one list of calls, as one journal.
pub fn contents_are_opened_in_one_way()
    ensures calls { (digest content : List ℕ) (calls other : List Call) (f g : File)
        → Opens digest content calls f → Opens digest content other g → calls ≡ other }
    ensures file { (digest content : List ℕ) (calls other : List Call) (f g : File)
        → Opens digest content calls f → Opens digest content other g → f ≡ g }
{}

/// Law: where all calls were done that open a content, the journal's bytes are there; where all
/// were done that append a group, those of the journal with that group; and nothing is pending.
pub fn calls_that_were_done_leave_a_journal()
    ensures opened { (digest content : List ℕ) (calls : List Call) (f : File)
        → length digest ≡ DIGEST_LEN → Opens digest content calls f
        → content_of (after_calls (at_rest content) calls) ≡ journal_bytes digest f }
    ensures opened_surely { (digest content : List ℕ) (calls : List Call) (f : File)
        → length digest ≡ DIGEST_LEN → Opens digest content calls f
        → IsSettled (after_calls (at_rest content) calls) }
    ensures appended { (digest : List ℕ) (f : File) (next : List Kid)
        → content_of (after_calls (at_rest (journal_bytes digest f))
        (append_calls f.version (length (front f.version digest f.groups)) next))
        ≡ journal_bytes digest (with_appended next f) }
    ensures appended_surely { (digest : List ℕ) (f : File) (next : List Kid)
        → IsSettled (after_calls (at_rest (journal_bytes digest f))
        (append_calls f.version (length (front f.version digest f.groups)) next)) }
{}

/// Law: where the journal of a run stands on a store, its entries are the run's, it takes just the
/// groups that may be appended there, and by the same calls.
pub fn the_journal_of_a_run_is_a_journal<S: Store>(_journal: &Journal<S>)
    ensures entries { (digest : List ℕ) (f : File) → IsOf digest f.groups _journal.now
        → kids_of _journal.now ≡ journal_entries f }
    ensures next { (digest : List ℕ) (f : File) (g : GroupView)
        → IsOf digest f.groups _journal.now → _journal.now.version ≡ f.version
        → journals.is_next _journal.now g ≡ is_next f g }
    ensures calls { (digest : List ℕ) (f : File) (g : GroupView)
        → IsOf digest f.groups _journal.now → _journal.now.version ≡ f.version
        → journals.is_next _journal.now g ≡ true → appending f digest (Some g)
        ≡ append_calls _journal.now.version _journal.now.last_gate g.kids }
{}

/// Law: a group of the book has room for as many entries as one of a journal may have, and no more.
pub fn groups_of_a_world_fit_a_journal()
    ensures { book_limits.MAX_GROUP ≡ group_limits.MAX_GROUP }
{}
