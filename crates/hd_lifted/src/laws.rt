//! Laws over the definitions. Each function does nothing: its contract is the law, for every task
//! and every plan.
ghost use Rattle.std.specs.Prelude.{ℕ, List};
ghost use Rattle.hd_lifted.specs.Types.{IsRooted, IsAcyclic};
ghost use Rattle.hd_lifted.specs.declared.task.LiftedTask.{LiftedTask};
ghost use Rattle.hd_lifted.specs.declared.instance.Instance.{Instance};
ghost use Rattle.hd_lifted.specs.Plans.{HasOneCost, CostTheSame};

/// Law: a plan that is valid at a cost is valid at no other cost, and all optimal plans cost the
/// same.
pub fn costs_are_unique()
    ensures one_cost { (t : LiftedTask) (p : List Instance) → HasOneCost t p }
    ensures optimal { (t : LiftedTask) (p q : List Instance) → CostTheSame t p q }
{}

/// Law: where steps lead from each type to `object`, no type lies on a cycle.
pub fn rooted_types_are_acyclic()
    ensures { (parents : List ℕ) → IsRooted parents → IsAcyclic parents }
{}
