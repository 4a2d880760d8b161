//! Laws over the definitions. Each function does nothing: its contract is the law, for every task
//! and every plan.
ghost use Rattle.std.specs.Prelude.{◌≡◌, ℕ, List, Some, pos};
ghost use Rattle.hd_lifted.specs.declared.task.LiftedTask.{LiftedTask};
ghost use Rattle.hd_lifted.specs.declared.instance.Instance.{Instance};
ghost use Rattle.hd_judge.specs.declared.fault.PlanFault.{PlanFault};
ghost use Rattle.hd_lifted.specs.Steps.{Reached};
ghost use Rattle.hd_judge.specs.Validity.{IsValidated, IsFirstFault, IsFaultless};

/// Law: a plan is validated or it has a first fault: never both, and never neither. It has no two
/// first faults.
///
/// So the order of the questions decides only which fault is reported, and no plan that is valid by
/// the meaning alone is refused.
pub fn plans_are_judged()
    ensures never_both { (t : LiftedTask) (p : List Instance) (cost : ℕ) (fault : PlanFault)
        → IsValidated t p cost → IsFirstFault t p fault → ⊥ }
    ensures never_neither { (t : LiftedTask) (p : List Instance)
        → ((cost : ℕ) → IsValidated t p cost → ⊥)
        → ((fault : PlanFault) → IsFirstFault t p fault → ⊥) → ⊥ }
    ensures one_fault { (t : LiftedTask) (p : List Instance) (fault other : PlanFault)
        → IsFirstFault t p fault → IsFirstFault t p other → fault ≡ other }
{}

/// Law: a plan is validated exactly where no question about its steps and its end reports a fault:
/// at the cost that is then reached.
pub fn faultless_plans_are_validated()
    ensures validated { (t : LiftedTask) (p : List Instance) (end : Reached) (cost : ℕ)
        → IsFaultless t p end → end.cost ≡ Some (pos cost) → IsValidated t p cost }
    ensures faultless { (t : LiftedTask) (p : List Instance) (cost : ℕ)
        → IsValidated t p cost
        → (end : Reached) × IsFaultless t p end × (end.cost ≡ Some (pos cost)) }
{}
