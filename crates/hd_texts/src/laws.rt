//! Laws over the definitions. Each function does nothing: its contract is the law.
ghost use Rattle.std.specs.Prelude.{◌≡◌, ℕ, ◌<◌, ◌^◌, true, false, List, Some};
ghost use Rattle.hd_lifted.specs.declared.task.LiftedTask.{LiftedTask};
ghost use Rattle.hd_task.specs.declared.task.Task.{Task};
ghost use Rattle.hd_task.specs.Plans.{Node, exec, IsValidAt};
ghost use Rattle.hd_task.specs.Departures.{goal_departs};
ghost use Rattle.hd_grounding.specs.Grounding.{IsGrounding};
ghost use Rattle.hd_plan.specs.PlanText.{plan_text};
ghost use Rattle.hd_plan.specs.Text.{ReadsAs};
ghost use Rattle.hd_texts.specs.Tasks.{IsLiftedOf};
ghost use Rattle.hd_plan.specs.Plans.{IsValidatedBy};
ghost use Rattle.hd_texts.specs.Printing.{HasTextNames, steps_of, GoesThrough, GroundGoalStays};

/// Law: a plan of a grounding that is valid at a cost, where none of its steps leaves the range and
/// the goal does not at its end, is validated at this cost, as the validator judges it: by the
/// names of its steps, in the lifted task.
pub fn printed_plans_are_validated()
    ensures { (t : LiftedTask) (u : Task) (p : List ℕ) (cost : ℕ)
        → IsGrounding t u → IsValidAt u p cost → GoesThrough u p → GroundGoalStays u p
        → IsValidatedBy t (steps_of u p) cost }
{}

/// Law: where the names of schemas and objects are those of texts, what is printed of the plan is
/// read back as these steps.
pub fn printed_plans_are_read_back()
    ensures { (t : LiftedTask) (u : Task) (p : List ℕ) (cost : ℕ)
        → IsGrounding t u → HasTextNames t → IsValidAt u p cost → cost < 2 ^ 64
        → ReadsAs (plan_text (steps_of u p) cost) (steps_of u p) }
{}

/// Law: the names of the schemas and objects that two texts declare are names of texts, in lower
/// case, as the reader folds them.
pub fn names_of_texts_are_read()
    ensures { (domain problem : List ℕ) (t : LiftedTask) → IsLiftedOf domain problem t
        → HasTextNames t }
{}
