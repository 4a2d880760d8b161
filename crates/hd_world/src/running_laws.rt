//! Laws of a run. Each function does nothing: its contract is the law.
ghost use Rattle.std.specs.Prelude.{◌≡◌, ◌⊎◌, ◌≤◌, ℕ, Some, None, [], length, slice_get, false, true};
ghost use Rattle.std.specs.List.{AllByRecursion};
ghost use Rattle.hd_task.specs.declared.task.Task.{Task};
ghost use Rattle.hd_hmax.specs.Rounds.{hmax};
ghost use Rattle.hd_node.specs.declared.batch.Outcome.{Outcome};
ghost use Rattle.hd_entries.specs.declared.refusal.Refusal.TheVariants.{SettledBefore};
ghost use Rattle.hd_image.specs.Image.{IsGroup, most_of};
ghost use Rattle.hd_journal.specs.Group.{GroupView};
ghost use Rattle.hd_entries.specs.Settling.{first_refusal};
ghost use Rattle.hd_entries.specs.Resuming.{first_fault};
ghost use Rattle.hd_entries.specs.Answers.{is_over};
ghost use Rattle.hd_entries.specs.Holding.{Released};
ghost use Rattle.hd_book.specs.declared.refusal.CommitRefusal.{CommitRefusal};
ghost use Rattle.hd_book.specs.Groups.{is_group_out};
ghost use Rattle.hd_book.specs.Refusing.{commit_refusal_to};
ghost use Rattle.hd_turns.specs.Calls.{batch_of};
ghost use Rattle.hd_turns.specs.Settling.{IsOutcomeOf};
ghost use Rattle.hd_world.specs.declared.moves.Move.{Move};
ghost use Rattle.hd_world.specs.declared.moves.Move.TheVariants.{Expand};
ghost use Rattle.hd_world.specs.Seats.{Seat, Run};
ghost use Rattle.hd_world.specs.Moves.{is_dropped, TurnsTo};
ghost use Rattle.hd_world.specs.Truth.{IsTrueRun};
ghost use Rattle.hd_world.specs.Once.{IsOnce, LosesNone, IsIdle};
ghost use Rattle.hd_world.specs.Order.{AreTicketsOut, HaveRoom, InOrder};
ghost use Rattle.hd_world.specs.Sound.{IsSound};
ghost use Rattle.hd_world.specs.Headline.{AllIsAdmissible, MovesSearch};
ghost use Rattle.hd_world.specs.Starting.{run_after};
ghost use Rattle.hd_world.specs.Stops.{File, journal_entries, with_appended, is_next};

/// Law: where all that a run holds is true of its book, no batch is refused for what it says, but
/// that a successor of it is settled; and as long as none is dropped for that, all of it stays true
/// over each move.
pub fn runs_stay_true()
    ensures batches { (t : Task) (r : Run) (k : ℕ) (s : Seat) → IsTrueRun t r
        → slice_get r.seats k ≡ Some s
        → (first_refusal r.book.state [] (batch_of s.worker) ≡ None)
        ⊎ (first_refusal r.book.state [] (batch_of s.worker) ≡ Some SettledBefore) }
    ensures turns { (t : Task) (r r' : Run) (m : Move) → IsTrueRun t r
        → ((k : ℕ) (s : Seat) (c : CommitRefusal) → slice_get r.seats k ≡ Some s
        → commit_refusal_to r.book (batch_of s.worker) ≡ Some c → is_dropped c ≡ false)
        → TurnsTo t r m r' → IsTrueRun t r' }
{}

/// Law: where, besides, each successor is in one place at most, and in none once it is settled, no
/// batch is refused for what it says, none is dropped, and all of it stays so over each move.
pub fn kids_stay_once()
    ensures batches { (t : Task) (r : Run) (k : ℕ) (s : Seat) → IsTrueRun t r → IsOnce r
        → slice_get r.seats k ≡ Some s → first_refusal r.book.state [] (batch_of s.worker) ≡ None }
    ensures dropped { (t : Task) (r : Run) (k : ℕ) (s : Seat) (c : CommitRefusal)
        → IsTrueRun t r → IsOnce r → slice_get r.seats k ≡ Some s
        → commit_refusal_to r.book (batch_of s.worker) ≡ Some c → is_dropped c ≡ false }
    ensures turns { (t : Task) (r r' : Run) (m : Move)
        → IsTrueRun t r → IsOnce r → TurnsTo t r m r' → IsTrueRun t r' }
    ensures once { (t : Task) (r r' : Run) (m : Move)
        → IsTrueRun t r → IsOnce r → TurnsTo t r m r' → IsOnce r' }
{}

/// Law: where all that a run holds is true of its book, each open node has an outcome; so `expand`
/// comes to a run, whatever the worker and the place.
pub fn open_nodes_have_outcomes()
    ensures outcomes { (t : Task) (r : Run) (k place : ℕ) (s : Seat) (p : Released)
        → IsTrueRun t r → slice_get r.seats k ≡ Some s
        → slice_get s.worker.waiting place ≡ Some p
        → (o : Outcome) × IsOutcomeOf t (hmax t) s.worker.closed s.worker.seen p o }
    ensures expands { (t : Task) (r : Run) (k place : ℕ) → IsTrueRun t r
        → (r' : Run) × TurnsTo t r (Expand k place) r' }
{}

/// Law: each ticket that a worker holds is out, each one that is out is held exactly once, and the
/// worker has room for what they release: it stays so over each move. And so does the order of a
/// run with its journal: where a group was pulled, it is whole batches after the entries of the
/// journal, and where one was appended, it is the one that is out.
pub fn tickets_and_groups_of_a_world_stay_out()
    ensures tickets { (t : Task) (r r' : Run) (m : Move)
        → AreTicketsOut r → TurnsTo t r m r' → AreTicketsOut r' }
    ensures rooms { (t : Task) (r r' : Run) (m : Move)
        → AreTicketsOut r → HaveRoom r → TurnsTo t r m r' → HaveRoom r' }
    ensures order { (t : Task) (f : File) (r r' : Run) (m : Move)
        → InOrder f r → TurnsTo t r m r' → InOrder f r' }
    ensures flushed { (t : Task) (f : File) (r : Run) (g : GroupView)
        → IsSound t f r → r.flushed ≡ Some g → is_group_out r.book g ≡ true }
{}

/// Law: a run is sound after a resumption, and stays sound over each move and each flush.
/// The resumption is from the entries of a journal, which are not too many and none of which is
/// faulty; a flush appends a group that may be appended.
pub fn runs_stay_sound()
    ensures starts { (t : Task) (f : File) (workers : ℕ)
        → AllByRecursion (IsGroup f.version) f.groups
        → first_fault t [] (journal_entries f) ≡ None
        → length (journal_entries f) ≤ most_of f.version
        → IsSound t f (run_after t (most_of f.version) workers (journal_entries f)) }
    ensures turns { (t : Task) (f : File) (r r' : Run) (m : Move)
        → IsSound t f r → TurnsTo t r m r' → IsSound t f r' }
    ensures flush { (t : Task) (f : File) (r : Run) (g : GroupView) → IsSound t f r
        → r.group ≡ Some g → IsSound t (with_appended g.kids f)
        (record {
          book = r.book;
          seats = r.seats;
          mailboxes = r.mailboxes;
          bound = r.bound;
          group = None;
          flushed = Some g;
        }) }
    ensures next { (t : Task) (f : File) (r : Run) (g : GroupView) → IsSound t f r
        → r.group ≡ Some g → is_next f g ≡ true }
    ensures whole { (t : Task) (f : File) (r : Run) (g : GroupView) → IsSound t f r
        → r.group ≡ Some g → IsGroup f.version g.kids }
{}

/// Law: in a sound run no batch is refused for what it says, and no ticket and no group is refused;
/// and each ticket that is out is held by exactly one worker, once.
pub fn nothing_is_refused()
    ensures { (t : Task) (f : File) (r : Run) → IsSound t f r → AllIsAdmissible f r }
{}

/// Law: each move of a sound run moves its search as an abstract search may be moved: a commit
/// lengthens it by exactly the expansions of the batch, if the worker may commit one and the book
/// does not refuse it; else it changes nothing. `ack` acknowledges the group that was appended, if
/// there is one. No other move changes it.
pub fn moves_move_the_search()
    ensures { (t : Task) (f : File) (r r' : Run) (m : Move)
        → IsSound t f r → TurnsTo t r m r' → MovesSearch t r m r' }
{}

/// Law: no move of a sound run loses a successor: where each one that is posted and not settled is
/// in exactly one place, it stays so.
pub fn no_kid_is_lost()
    ensures turns { (t : Task) (f : File) (r r' : Run) (m : Move)
        → IsSound t f r → LosesNone r → TurnsTo t r m r' → LosesNone r' }
    // So if nothing is left to do, all is settled.
    ensures ends { (t : Task) (f : File) (r : Run)
        → IsSound t f r → LosesNone r → IsIdle r → is_over r.book.state ≡ true }
{}
