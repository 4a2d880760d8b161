//! Laws over the definitions.
ghost use Rattle.std.specs.Prelude.{◌≡◌, ℕ, ◌<◌, ◌≤◌, List, true, false, Some, None, find, length, nat_le, slice_get};
ghost use Rattle.hd_task.specs.declared.state.State.{State};
ghost use Rattle.hd_task.specs.declared.action.Action.{Action};
ghost use Rattle.hd_task.specs.declared.task.Task.{Task};
ghost use Rattle.hd_task.specs.Conditions.{literals_hold};
ghost use Rattle.hd_task.specs.Plans.{Node};
ghost use Rattle.hd_task.specs.Departures.{action_departs};
ghost use Rattle.hd_task.specs.Expansions.{is_applicable};
ghost use Rattle.hd_successors.specs.declared.watching.WatchedAtoms.{WatchedAtoms};
ghost use Rattle.hd_successors.specs.Watching.{IsWatchedBy, is_candidate, candidates};

/// Law: candidates suffice: an action whose conditions on atoms and objects hold is one, and what
/// is none neither applies nor departs.
pub fn candidates_suffice()
    ensures holding { (t : Task) (watched : List WatchedAtoms) (s : State) (n : ℕ) (a : Action)
        → IsWatchedBy t.actions watched → slice_get t.actions n ≡ Some a
        → literals_hold s a.condition ≡ true → is_candidate watched s n ≡ true }
    ensures applies { (t : Task) (watched : List WatchedAtoms) (r : Node) (n : ℕ)
        → IsWatchedBy t.actions watched → is_candidate watched r.state n ≡ false
        → is_applicable t (Some r) n ≡ false }
    ensures departs { (t : Task) (watched : List WatchedAtoms) (r : Node) (n : ℕ)
        → IsWatchedBy t.actions watched → is_candidate watched r.state n ≡ false
        → action_departs t r n ≡ false }
{}

/// Law: the first candidate from a number on: those before it are none, and if there is no first
/// one, none follows.
pub fn first_successor_candidates()
    ensures some { (watched : List WatchedAtoms) (s : State) (from n : ℕ)
        → find (nat_le from) (candidates watched s) ≡ Some n
        → (from ≤ n) × (n < length watched)
        × ((m : ℕ) → from ≤ m → m < n → is_candidate watched s m ≡ false) }
    ensures none { (watched : List WatchedAtoms) (s : State) (from m : ℕ)
        → find (nat_le from) (candidates watched s) ≡ None
        → from ≤ m → is_candidate watched s m ≡ false }
{}
