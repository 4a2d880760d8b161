//! Laws over the definitions. Each function does nothing: its contract is the law, for every domain
//! and every problem.
ghost use Rattle.hd_pddl.specs.declared.tree.DomainAst.{DomainAst};
ghost use Rattle.hd_pddl.specs.declared.tree.ProblemAst.{ProblemAst};
ghost use Rattle.hd_lifted.specs.declared.task.LiftedTask.{LiftedTask};
ghost use Rattle.hd_lifted.specs.Checked.{HasCostMetric, HasCostsByMetric, IsChecked};
ghost use Rattle.hd_lifted.specs.WellFormed.{IsWellFormed, HasDistinctNames, AreOfDifferentFluents};
ghost use Rattle.hd_check.specs.Whole.{AreFaultlessTexts, IsOfTexts, HasNoFault, HoldsOfFaultless, lifted_task};

/// Law: no texts have both a task and a fault: a check answers a task exactly where no fault
/// stands.
pub fn faults_leave_no_task()
    ensures { (d : DomainAst) (p : ProblemAst) → AreFaultlessTexts d p → HasNoFault d p }
{}

/// Law: the task of a domain and a problem without a fault is well formed.
pub fn faultless_texts_are_well_formed()
    ensures { HoldsOfFaultless IsWellFormed }
{}

/// Law: in the task of a domain and a problem without a fault no two objects have one name, and so
/// of predicates, functions and schemas.
pub fn checked_names_are_distinct()
    ensures { HoldsOfFaultless HasDistinctNames }
{}

/// Law: in the task of a domain and a problem without a fault no fluent has two first values.
pub fn checked_fluents_have_one_first_value()
    ensures { HoldsOfFaultless (λ (t : LiftedTask). AreOfDifferentFluents t.values) }
{}

/// Law: the metric of the task of a domain and a problem without a fault is a function without
/// parameters that is used as a cost alone.
pub fn checked_metric_is_a_cost()
    ensures { HoldsOfFaultless HasCostMetric }
{}

/// Law: without a metric no effect of the task of a domain and a problem is a cost.
pub fn checks_without_a_metric_give_no_costs()
    ensures { (d : DomainAst) (p : ProblemAst) → HasCostsByMetric (lifted_task d p) }
{}

/// Law: the task of some texts without a fault is well formed, its names are distinct, its first
/// values are of different fluents, and its metric is a cost; without one there are no costs.
pub fn checks_give_well_formed_tasks()
    ensures { (t : LiftedTask) → IsOfTexts t → IsChecked t }
{}
