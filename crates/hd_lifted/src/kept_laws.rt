//! Laws over the definitions. Each function does nothing: its contract is the law, for every task
//! and every plan.
ghost use Rattle.std.specs.Prelude.{◌≡◌, true, false, List, All, Contains, Some, ◌↔◌};
ghost use Rattle.hd_lifted.specs.declared.task.LiftedTask.{LiftedTask};
ghost use Rattle.hd_lifted.specs.Steps.{Reached};
ghost use Rattle.hd_lifted.specs.declared.instance.Instance.{Instance};
ghost use Rattle.hd_lifted.specs.Plans.{IsInstance, exec};
ghost use Rattle.hd_lifted.specs.declared.schema.Ground.{Ground};
ghost use Rattle.hd_lifted.specs.States.{same, first_value};
ghost use Rattle.hd_lifted.specs.Conditions.{literals_hold};
ghost use Rattle.hd_lifted.specs.Kept.{IsKept, IsClosed};
ghost use Rattle.hd_lifted.specs.Numbering.{NumbersInstances, NumbersAtoms, NumbersFluents};
ghost use Rattle.hd_lifted.specs.Amounts.{is_changed};

/// Law: a plan whose steps are all defined uses kept instances alone, so that nothing is lost where
/// the others are left out.
pub fn plans_are_kept()
    ensures { (t : LiftedTask) (p : List Instance) (r : Reached)
        → All (IsInstance t) p → exec t p ≡ Some r → All (IsKept t) p }
{}

/// Law: an instance whose conditions on atoms and objects hold where a plan leads is kept, whatever
/// its comparisons say: so one that is left out can neither be used there nor leave the range.
pub fn instances_that_hold_are_kept()
    ensures { (t : LiftedTask) (p : List Instance) (r : Reached)
        (i : Instance) (is : IsInstance t i)
        → All (IsInstance t) p → exec t p ≡ Some r
        → literals_hold r.state i.objects is.schema.condition ≡ true → IsKept t i }
{}

/// Law: the kept instances are the least set of their kind: each closed list of instances has all
/// of them.
pub fn kept_instances_are_least()
    ensures { (t : LiftedTask) (instances : List Instance)
        → IsClosed t instances → (i : Instance) → IsKept t i → Contains instances i }
{}

/// Law: there is one list of the kept instances in their order, one of the atoms, and one of the
/// fluents: so the same texts are numbered alike each time.
pub fn numberings_are_one()
    ensures instances { (t : LiftedTask) (xs ys : List Instance)
        → NumbersInstances t xs → NumbersInstances t ys → xs ≡ ys }
    ensures atoms { (t : LiftedTask) (xs ys : List Ground)
        → NumbersAtoms t xs → NumbersAtoms t ys → xs ≡ ys }
    ensures fluents { (t : LiftedTask) (xs ys : List Ground)
        → NumbersFluents t xs → NumbersFluents t ys → xs ≡ ys }
{}

/// Law: where no schema changes a function, its fluents keep their first values along each plan: so
/// what is constant at first is constant.
pub fn unchanged_lifted_functions_keep_their_values()
    ensures { (t : LiftedTask) (p : List Instance) (r : Reached) (g : Ground)
        → All (IsInstance t) p → exec t p ≡ Some r → is_changed t g.symbol ≡ false
        → r.state.values g ≡ first_value t.values g }
{}

/// Law: `same`, by which ground forms are compared, is equality.
pub fn same_ground_forms_are_equal()
    ensures { (g h : Ground) → same g h ≡ true ↔ g ≡ h }
{}
