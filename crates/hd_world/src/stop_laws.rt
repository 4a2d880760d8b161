//! Laws of all schedules, whatever their stops leave of the disk. Each function does nothing: its
//! contract is the law.
ghost use Rattle.std.specs.Prelude.{◌≡◌, ◌≤◌, ℕ, List, Option, None, length, take, true};
ghost use Rattle.hd_task.specs.declared.task.Task.{Task};
ghost use Rattle.hd_task.specs.declared.plan.Kid.{Kid};
ghost use Rattle.hd_image.specs.declared.error.ImageError.{ImageError};
ghost use Rattle.hd_image.specs.declared.error.ImageError.TheVariants.{NoMemory};
ghost use Rattle.hd_image.specs.declared.header.TheConstants.{DIGEST_LEN};
ghost use Rattle.hd_image.specs.Image.{most_of};
ghost use Rattle.hd_image.specs.Reading.{IsRefused};
ghost use Rattle.hd_journal.specs.Calls.{Call};
ghost use Rattle.hd_entries.specs.Resuming.{AreLegal};
ghost use Rattle.hd_world.specs.declared.moves.Move.{Move};
ghost use Rattle.hd_world.specs.declared.moves.Move.TheVariants.{Resume};
ghost use Rattle.hd_world.specs.declared.moves.StopAt.{StopAt};
ghost use Rattle.hd_zobrist.specs.declared.owners.TheConstants.{MAX_WORKERS};
ghost use Rattle.hd_world.specs.Headline.{StartsFromJournal, IsResumed, Rests};
ghost use Rattle.hd_world.specs.Seats.{Run};
ghost use Rattle.hd_world.specs.Sound.{IsSound};
ghost use Rattle.hd_world.specs.Stops.{File, Anything, Opens, journal_entries};
ghost use Rattle.hd_world.specs.World.{World, Stopped, Running, is_recovered, Plays, IsBeginning, LeadsTo, StepsTo};
ghost use Rattle.hd_world.specs.Filling.{Filled};
ghost use Rattle.hd_world.specs.Lasting.{IsSoundWorld};

/// Law: a search goes on from each beginning of the entries of a legal list, if the journal may
/// have so many.
pub fn beginnings_are_recovered()
    ensures { (t : Task) (f : File) (entries : List Kid) (n : ℕ) → AreLegal t entries
        → n ≤ length entries → length entries ≤ most_of f.version
        → journal_entries f ≡ take n entries
        → is_recovered t f ≡ true }
{}

/// Law: each world that a schedule comes to, from an empty disk or a journal, is sound: the search
/// that runs; or what stops left of one. Each move leaves it so.
pub fn worlds_are_sound()
    ensures steps { (t : Task) (digest : List ℕ) (w after : World) (m : Move)
        → length digest ≡ DIGEST_LEN → IsSoundWorld t digest w
        → StepsTo Anything t digest w m after → IsSoundWorld t digest after }
    ensures reached { (t : Task) (digest start : List ℕ) (earlier : File) (moves : List Move)
        (w : World) → length digest ≡ DIGEST_LEN → IsBeginning t digest start earlier
        → LeadsTo Anything t digest start moves w → IsSoundWorld t digest w }
    ensures running { (t : Task) (digest start : List ℕ) (earlier : File) (moves : List Move)
        (f : File) (r : Run) → length digest ≡ DIGEST_LEN → IsBeginning t digest start earlier
        → LeadsTo Anything t digest start moves (Running f r) → IsSound t f r }
{}

/// Law: the first run is the search of the journal that is there before, or the search at first.
/// Where a run ends, and one goes on after moves during which nothing runs, a beginning of its
/// search is left that has all acknowledged entries, and those of the group that was appended, if
/// one was.
pub fn searches_go_on()
    ensures first { (t : Task) (digest start : List ℕ) (earlier : File) (moves : List Move)
        (content : List ℕ) (workers : ℕ) (stop : Option StopAt) (f : File) (r : Run)
        → length digest ≡ DIGEST_LEN → IsBeginning t digest start earlier
        → Rests t digest start moves content
        → StepsTo Anything t digest (Stopped content) (Resume workers stop) (Running f r)
        → StartsFromJournal t earlier workers f r }
    ensures stops { (t : Task) (digest start : List ℕ) (earlier : File)
        (before between : List Move) (f f2 : File) (r r2 : Run) (m : Move) (workers : ℕ)
        (stop : Option StopAt) (content left : List ℕ) → length digest ≡ DIGEST_LEN
        → IsBeginning t digest start earlier → LeadsTo Anything t digest start before (Running f r)
        → StepsTo Anything t digest (Running f r) m (Stopped content)
        → Rests t digest content between left
        → StepsTo Anything t digest (Stopped left) (Resume workers stop) (Running f2 r2)
        → IsResumed f r t workers f2 r2 }
{}

/// Law: whatever stops left, in any number, is opened and not refused, and a search goes on from
/// the entries that are found.
pub fn what_is_left_goes_on()
    ensures opens { (t : Task) (digest start : List ℕ) (earlier : File) (moves : List Move)
        (content : List ℕ) → length digest ≡ DIGEST_LEN → IsBeginning t digest start earlier
        → LeadsTo Anything t digest start moves (Stopped content)
        → (calls : List Call) × (f : File) × Opens digest content calls f }
    ensures unrefused { (t : Task) (digest start : List ℕ) (earlier : File) (moves : List Move)
        (content : List ℕ) (error : ImageError) → length digest ≡ DIGEST_LEN
        → IsBeginning t digest start earlier
        → LeadsTo Anything t digest start moves (Stopped content)
        → IsRefused digest content error → error ≡ NoMemory }
    ensures recovers { (t : Task) (digest start : List ℕ) (earlier : File) (moves : List Move)
        (content : List ℕ) (calls : List Call) (f : File) → length digest ≡ DIGEST_LEN
        → IsBeginning t digest start earlier
        → LeadsTo Anything t digest start moves (Stopped content) → Opens digest content calls f
        → is_recovered t f ≡ true }
    // So a resumption without a stop comes to a run.
    ensures resumes { (t : Task) (digest start : List ℕ) (earlier : File) (moves : List Move)
        (content : List ℕ) (workers : ℕ) → length digest ≡ DIGEST_LEN
        → IsBeginning t digest start earlier → 1 ≤ workers → workers ≤ MAX_WORKERS
        → LeadsTo Anything t digest start moves (Stopped content)
        → (f : File) × (r : Run)
        × StepsTo Anything t digest (Stopped content) (Resume workers None) (Running f r) }
{}

/// Law: what a schedule comes to where each stop leaves the bytes that are not sure as the schedule
/// names them, it may come to where a stop may leave anything: so all laws of schedules hold of
/// it.
pub fn named_bytes_are_among_any()
    ensures steps { (t : Task) (digest : List ℕ) (w after : World) (m : Move)
        → StepsTo Filled t digest w m after → StepsTo Anything t digest w m after }
    ensures plays { (t : Task) (digest : List ℕ) (moves : List Move) (w after : World)
        → Plays Filled t digest w moves after → Plays Anything t digest w moves after }
{}
