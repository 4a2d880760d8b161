//! Laws over the definitions. Each function does nothing: its contract is the law.
ghost use Rattle.std.specs.Prelude.{◌≡◌, true, List, Contains};
ghost use Rattle.std.specs.List.{AllZip};
ghost use Rattle.hd_lifted.specs.declared.schema.AppliedSymbol.{AppliedSymbol};
ghost use Rattle.hd_lifted.specs.declared.schema.Ground.{Ground};
ghost use Rattle.hd_lifted.specs.declared.schema.Literal.{Literal};
ghost use Rattle.hd_lifted.specs.declared.task.LiftedTask.{LiftedTask};
ghost use Rattle.hd_lifted.specs.declared.instance.Instance.{Instance};
ghost use Rattle.hd_lifted.specs.Checked.{IsChecked};
ghost use Rattle.hd_lifted.specs.Plans.{IsInstance};
ghost use Rattle.hd_lifted.specs.States.{ground_form_of};
ghost use Rattle.hd_lifted.specs.WellFormed.{IsGround, IsWellFormed};
ghost use Rattle.hd_lifted.specs.Met.{met_by};
ghost use Rattle.hd_task.specs.declared.action.Action.{Action};
ghost use Rattle.hd_task.specs.declared.task.Task.{Task};
ghost use Rattle.hd_grounding.specs.Grounding.{IsActionOf, IsGrounding};
ghost use Rattle.hd_grounding.specs.Faults.{IsTooLarge};
ghost use Rattle.hd_grounding.specs.Counted.{AreCounted, AreFaultless};
ghost use Rattle.hd_grounding.specs.Fitting.{grounded_parts_fit, HasGroundedParts};

/// Law: where the lists that number a task are within the limits of one, and no instance has too
/// many amounts, it is not too large.
pub fn groundings_of_few_are_not_too_large()
    ensures { (t : LiftedTask) (instances : List Instance) (atoms fluents : List Ground)
        → AreCounted t instances atoms fluents → IsTooLarge t → ⊥ }
{}

/// Law: what a checked task is grounded to fits together, where it is within the limits and has no
/// fault: so `Task::new` answers it.
pub fn grounded_parts_fit_together()
    ensures { (t : LiftedTask) (instances : List Instance) (atoms fluents : List Ground)
        (actions : List Action)
        → IsChecked t → AreCounted t instances atoms fluents → AreFaultless t instances
        → AllZip (IsActionOf t atoms fluents) instances actions
        → grounded_parts_fit t atoms fluents actions ≡ true }
{}

/// Law: a task of the parts that are made of what is counted and has no fault is the grounding of
/// the lifted task.
pub fn grounded_parts_are_a_grounding()
    ensures { (t : LiftedTask) (instances : List Instance) (atoms fluents : List Ground)
        (actions : List Action) (u : Task)
        → AreCounted t instances atoms fluents → AreFaultless t instances
        → AllZip (IsActionOf t atoms fluents) instances actions
        → HasGroundedParts t atoms fluents actions u → IsGrounding t u }
{}

/// Law: what an instance of a well formed task applies to its objects is of the declared types: the
/// atoms that it asks for, adds and deletes, and the fluents that it meets.
pub fn grounded_instances_are_typed()
    ensures adds { (t : LiftedTask) (i : Instance) (is : IsInstance t i) (a : AppliedSymbol)
        → IsWellFormed t → Contains is.schema.adds a
        → IsGround t t.predicates (ground_form_of i.objects a) }
    ensures deletes { (t : LiftedTask) (i : Instance) (is : IsInstance t i) (a : AppliedSymbol)
        → IsWellFormed t → Contains is.schema.deletes a
        → IsGround t t.predicates (ground_form_of i.objects a) }
    ensures literals { (t : LiftedTask) (i : Instance) (is : IsInstance t i) (l : Literal)
        → IsWellFormed t → Contains is.schema.condition.literals l
        → IsGround t t.predicates (ground_form_of i.objects l.atom) }
    ensures fluents { (t : LiftedTask) (i : Instance) (is : IsInstance t i) (g : Ground)
        → IsWellFormed t → Contains (met_by i.objects is.schema) g
        → IsGround t t.functions g }
{}
