//! Laws over the definitions. Each function does nothing: its contract is the law.
ghost use Rattle.std.specs.Prelude.{◌≡◌, ◌≢◌, ◌≤◌, ◌<◌, ◌↔◌, ◌++◌, [], List, length, Contains, find};
ghost use Rattle.std.specs.List.{AllPairs};
ghost use Rattle.hd_lifted.specs.declared.instance.Instance.{Instance};
ghost use Rattle.hd_lifted.specs.declared.schema.Ground.{Ground};
ghost use Rattle.hd_lifted.specs.declared.task.LiftedTask.{LiftedTask};
ghost use Rattle.hd_task.specs.declared.task.TheConstants.{MAX_ATOMS, MAX_FLUENTS};
ghost use Rattle.hd_lifted.specs.Kept.{IsReachable};
ghost use Rattle.hd_lifted.specs.Numbering.{form_key, HasExactly, NumbersInstances, NumbersAtoms, NumbersFluents};
ghost use Rattle.hd_lifted.specs.Questions.{is_undefined};
ghost use Rattle.hd_grounding.specs.Faults.{met_by_all, undefined_in, IsTooLarge};
ghost use Rattle.hd_images.specs.Meeting.{IsMet, with_forms, goal_atoms};

/// Law: where the kept instances and the goal meet no more fluents than a task may have, those that
/// they meet are the task's, in its order.
pub fn fluents_of_images_are_numbered()
    ensures { (t : LiftedTask) (instances : List Instance) (met numbers : List Ground)
        → NumbersInstances t instances → IsMet MAX_FLUENTS (met_by_all t instances) met
        → length met ≤ MAX_FLUENTS → HasExactly (Contains met) form_key numbers
        → NumbersFluents t numbers }
{}

/// Law: where they meet more, the task is too large.
pub fn images_of_many_fluents_are_too_many()
    ensures { (t : LiftedTask) (instances : List Instance) (met : List Ground)
        → NumbersInstances t instances → IsMet MAX_FLUENTS (met_by_all t instances) met
        → AllPairs (λ g h. g ≢ h) met → MAX_FLUENTS < length met → IsTooLarge t }
{}

/// Law: where they do not, the first fluent without a first value is the first of those that are
/// met, each once.
pub fn first_undefined_is_found()
    ensures { (t : LiftedTask) (instances : List Instance) (met : List Ground)
        → IsMet MAX_FLUENTS (met_by_all t instances) met → length met ≤ MAX_FLUENTS
        → find (is_undefined t) met ≡ undefined_in t instances }
{}

/// Law: the atoms that are reached and those that the goal names, each once, are the task's, in its
/// order.
pub fn gathered_atoms_are_numbered()
    ensures { (t : LiftedTask) (atoms numbers : List Ground)
        → ((g : Ground) → IsReachable t g ↔ Contains atoms g)
        → HasExactly (Contains (with_forms [] (atoms ++ goal_atoms t))) form_key numbers
        → NumbersAtoms t numbers }
{}

/// Law: if there are more of them than a task may have, the task is too large.
pub fn images_of_many_atoms_are_too_many()
    ensures { (t : LiftedTask) (atoms : List Ground)
        → ((g : Ground) → IsReachable t g ↔ Contains atoms g)
        → AllPairs (λ g h. g ≢ h) (with_forms [] (atoms ++ goal_atoms t))
        → MAX_ATOMS < length (with_forms [] (atoms ++ goal_atoms t)) → IsTooLarge t }
{}
