//! Worked examples of plans and searches, each a checked equation. The function does nothing.
//! Examples of steps are in hd_lifted.
ghost use Rattle.std.specs.Prelude.{◌≡◌, [], ◌∷◌, Some};
ghost use Rattle.hd_task.specs.declared.plan.TheConstants.{ROOT_PARENT, ROOT_ACTION};
ghost use Rattle.hd_task.specs.Plans.{node, exec};
ghost use Rattle.hd_task.specs.Expansions.{generated, bound_of};
ghost use Rattle.hd_task.specs.Entries.{plans_of};
ghost use Rattle.hd_task.specs.Examples.{two_actions, a_and_b, three_expansions, their_plans, kid};

/// Law: the definitions on the small task of `specs/Examples.antt`.
pub fn task_examples_compute()
    // Two actions, one after the other, reach both atoms at cost 2.
    ensures executes { exec two_actions (0 ∷ 1 ∷ []) ≡ Some (node a_and_b 2) }

    // Each expansion generates its one applicable action; `set-b` stays applicable.
    ensures generates { generated two_actions three_expansions ≡ their_plans }
    ensures bounds { bound_of two_actions three_expansions ≡ Some 2 }

    // A pair of a parent and an action names a plan; the root's pair names the empty one.
    ensures names { plans_of (kid ROOT_PARENT ROOT_ACTION ∷ kid 0 0 ∷ kid 1 1 ∷ [])
        ≡ Some three_expansions }
{}
