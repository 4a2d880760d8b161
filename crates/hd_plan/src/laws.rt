//! Laws over the definitions. Each function does nothing: its contract is the law, for every task
//! and every plan.
ghost use Rattle.std.specs.Prelude.{◌≡◌, ℕ, List};
ghost use Rattle.hd_plan.specs.declared.step.Step.{Step};
ghost use Rattle.hd_lifted.specs.declared.task.LiftedTask.{LiftedTask};
ghost use Rattle.hd_lifted.specs.declared.instance.Instance.{Instance};
ghost use Rattle.hd_lifted.specs.WellFormed.{HasDistinctNames};
ghost use Rattle.hd_judge.specs.declared.fault.PlanFault.{PlanFault};
ghost use Rattle.hd_plan.specs.Naming.{IsStep};
ghost use Rattle.hd_plan.specs.Plans.{IsValidatedBy, IsFirstFaultBy};

/// Law: where no name stands twice, a step is one of no two instances.
pub fn steps_are_told_apart()
    ensures { (t : LiftedTask) (s : Step) (i j : Instance) → HasDistinctNames t
        → IsStep t s i → IsStep t s j → i ≡ j }
{}

/// Law: where no name stands twice, a plan of steps is validated or it has a first fault: never
/// both, and never neither. It has no two first faults, and no two costs.
pub fn named_plans_are_judged()
    ensures never_both { (t : LiftedTask) (steps : List Step) (cost : ℕ) (fault : PlanFault)
        → HasDistinctNames t → IsValidatedBy t steps cost → IsFirstFaultBy t steps fault → ⊥ }
    ensures never_neither { (t : LiftedTask) (steps : List Step)
        → ((cost : ℕ) → IsValidatedBy t steps cost → ⊥)
        → ((fault : PlanFault) → IsFirstFaultBy t steps fault → ⊥) → ⊥ }
    ensures one_fault { (t : LiftedTask) (steps : List Step) (fault other : PlanFault)
        → HasDistinctNames t → IsFirstFaultBy t steps fault → IsFirstFaultBy t steps other
        → fault ≡ other }
    ensures one_cost { (t : LiftedTask) (steps : List Step) (cost other : ℕ)
        → HasDistinctNames t → IsValidatedBy t steps cost → IsValidatedBy t steps other
        → cost ≡ other }
{}
