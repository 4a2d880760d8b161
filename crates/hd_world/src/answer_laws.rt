//! Laws of a run. Each function does nothing: its contract is the law.
ghost use Rattle.std.specs.Prelude.{◌≡◌, ◌<◌, ◌≤◌, ℕ, List, [], None, length, true, false};
ghost use Rattle.hd_task.specs.declared.task.Task.{Task};
ghost use Rattle.hd_task.specs.declared.plan.Kid.{Kid};
ghost use Rattle.hd_task.specs.declared.plan.TheConstants.{ROOT_PARENT};
ghost use Rattle.hd_entries.specs.Settling.{is_posted};
ghost use Rattle.hd_entries.specs.Resuming.{has, first_fault, resumed_state};
ghost use Rattle.hd_world.specs.Seats.{Run};
ghost use Rattle.hd_world.specs.Starting.{run_after};
ghost use Rattle.hd_world.specs.Truth.{IsTrueRun};
ghost use Rattle.hd_world.specs.Once.{in_run, weight_like, room_of};
ghost use Rattle.hd_world.specs.Stops.{File, Anything};
ghost use Rattle.hd_world.specs.World.{Running, StepsTo};
ghost use Rattle.hd_world.specs.Sound.{IsSound};
ghost use Rattle.hd_world.specs.Headline.{MovesSearch, AnswersTruly};
ghost use Rattle.hd_world.specs.declared.moves.Move.{Move};
ghost use Rattle.hd_world.specs.Owners.{IsOpenAtOwner, IsClosedAtOwner};

/// Law: where a search goes on from entries that have no fault, no successor is lost and none is
/// doubled: each one that the entries post, and that is none of them, is in exactly one place, and
/// any other in none. That place is the open list of the worker that owns the successor's state;
/// and each entry is closed at the worker that owns its state.
pub fn resumptions_lose_no_kid()
    ensures once { (t : Task) (most workers : ℕ) (entries : List Kid) (k : Kid)
        → length entries < ROOT_PARENT → first_fault t [] entries ≡ None → 1 ≤ workers
        → in_run (weight_like k) (run_after t most workers entries)
        ≡ room_of (resumed_state t entries) k }
    ensures open_kids { (t : Task) (workers : ℕ) (entries : List Kid) (k : Kid)
        → length entries < ROOT_PARENT → first_fault t [] entries ≡ None
        → is_posted (resumed_state t entries) k ≡ true → has entries k ≡ false
        → IsOpenAtOwner t entries workers k }
    ensures closed { (t : Task) (workers : ℕ) (entries : List Kid) (n : ℕ)
        → length entries < ROOT_PARENT → first_fault t [] entries ≡ None
        → n < length entries → IsClosedAtOwner t entries workers n }
{}

/// Law: where all that a run holds is true of its book, what it answers is true of all plans, or
/// names the first departure that was recorded; and the plan of the bound is valid.
pub fn answers_are_true()
    ensures { (t : Task) (r : Run) → IsTrueRun t r → AnswersTruly t r }
{}

/// Law: where a sound run goes on after a move, its search was moved as an abstract search may be
/// moved: a flush, and a stop that falls in no call, change nothing of it.
pub fn steps_move_the_search()
    ensures { (t : Task) (digest : List ℕ) (f f' : File) (r r' : Run) (m : Move) → IsSound t f r
        → StepsTo Anything t digest (Running f r) m (Running f' r') → MovesSearch t r m r' }
{}
