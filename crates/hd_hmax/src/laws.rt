//! Laws over the definitions. A function does nothing: its contract is the law.
ghost use Rattle.std.specs.Prelude.{◌≡◌, Some};
ghost use Rattle.hd_task.specs.declared.task.Task.{Task};
ghost use Rattle.hd_task.specs.Covers.{IsAdmissible};
ghost use Rattle.hd_task.specs.Examples.{two_actions, a_and_b};
ghost use Rattle.hd_hmax.specs.Rounds.{hmax};

/// Law: the estimate is admissible: no steps from a state to the goal cost less, and it is infinite
/// only if there are none.
pub fn hmax_is_admissible()
    ensures { (t : Task) → IsAdmissible t (hmax t) }
{}

/// Law: an example, computed by the definition: two actions, one after the other, lead to the goal.
pub fn an_estimate_computes()
    ensures two_left { hmax two_actions two_actions.initial ≡ Some 2 }
    ensures none_left { hmax two_actions a_and_b ≡ Some 0 }
{}
