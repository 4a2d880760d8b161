//! Laws over the definitions. Each function does nothing: its contract is the law.
ghost use Rattle.std.specs.Prelude.{◌≡◌, ℕ, ℤ, false, List, filter, Some, slice_get};
ghost use Rattle.hd_lifted.specs.declared.schema.Ground.{Ground};
ghost use Rattle.hd_lifted.specs.declared.schema.Condition as lifted;
ghost use Rattle.hd_lifted.specs.declared.schema.Schema.{Schema};
ghost use Rattle.hd_lifted.specs.declared.task.LiftedTask.{LiftedTask};
ghost use Rattle.hd_lifted.specs.declared.instance.Instance.{Instance};
ghost use Rattle.hd_lifted.specs.Effects.{atoms_after, value_after, effects_clash};
ghost use Rattle.hd_lifted.specs.States as domain;
ghost use Rattle.hd_lifted.specs.Conditions as meaning;
ghost use Rattle.hd_task.specs.declared.state.State.{State};
ghost use Rattle.hd_task.specs.declared.action.Action.{Action};
ghost use Rattle.hd_task.specs.declared.task.Task.{Task};
ghost use Rattle.hd_task.specs.Effects.{atom_after, sum_of_costs};
ghost use Rattle.hd_lifted.specs.Effects as domain_costs;
ghost use Rattle.hd_lifted.specs.Numbering.{NumbersAtoms};
ghost use Rattle.hd_task.specs.Conditions.{holds};
ghost use Rattle.hd_grounding.specs.Images.{condition_of, costs_of, is_on, change_of, changed_value};
ghost use Rattle.hd_grounding.specs.Grounding.{IsGrounding};
ghost use Rattle.hd_grounding.specs.Faults.{IsTooLarge, IsUndefined, IsNegative};
ghost use Rattle.hd_grounding.specs.Agreement.{Agree, IsNumbered, HasAtomsOf, KeepsFirstValues, HasNumberedEffects};

/// Law: where a state of the domain and one of the task agree, a condition holds in the one exactly
/// where its image does in the other, if each atom that it wants to be true has a number, and each
/// fluent that it reads.
pub fn conditions_are_grounded()
    ensures { (atoms fluents : List Ground) (objects : List ℕ) (c : lifted.Condition)
        (s : domain.State) (n : State)
        → Agree atoms fluents s n → IsNumbered atoms fluents objects c
        → meaning.holds s objects c ≡ holds n (condition_of atoms fluents objects c) }
{}

/// Law: where the states agree, they agree on each atom with a number after an action, too: (s
/// minus Del) union Add, in both.
pub fn atoms_are_grounded()
    ensures { (t : LiftedTask) (atoms fluents : List Ground) (objects : List ℕ) (a : Schema)
        (b : Action) (s : domain.State) (n : State) (k : ℕ) (g : Ground)
        → NumbersAtoms t atoms → Agree atoms fluents s n → HasAtomsOf atoms objects a b
        → slice_get atoms k ≡ Some g → atoms_after s.atoms a objects g ≡ atom_after n b k }
{}

/// Law: where the states agree, the amounts of an action add up to one cost in both, by the values
/// before it.
pub fn costs_are_grounded()
    ensures { (t : LiftedTask) (atoms fluents : List Ground) (objects : List ℕ) (a : Schema)
        (s : domain.State) (n : State)
        → Agree atoms fluents s n → KeepsFirstValues t s → HasNumberedEffects fluents objects a
        → domain_costs.sum_of_costs s.values a objects
        ≡ Some (sum_of_costs n.fluents (costs_of t fluents objects a)) }
{}

/// Law: where the states agree, a fluent has the same value after an action in both: its effects
/// become one change, since none clash.
pub fn values_are_grounded()
    ensures { (atoms fluents : List Ground) (objects : List ℕ) (a : Schema)
        (s : domain.State) (n : State) (g : Ground) (z : ℤ)
        → Agree atoms fluents s n → HasNumberedEffects fluents objects a
        → effects_clash objects a.effects ≡ false → s.values g ≡ Some z
        → value_after s.values a objects g ≡ Some (changed_value n.fluents
        (change_of fluents objects (filter (is_on objects g) a.effects)) z) }
{}

/// Law: a lifted task has one grounding at most: whoever grounds it makes the same task, with the
/// same numbers.
pub fn groundings_are_one()
    ensures { (t : LiftedTask) (u v : Task) → IsGrounding t u → IsGrounding t v → u ≡ v }
{}

/// Law: what is too large, reads a fluent without a first value, or costs less than 0 in each state
/// has no grounding: so no fault is reported of a task that could have been made.
pub fn faults_leave_no_grounding()
    ensures too_large { (t : LiftedTask) (u : Task) → IsGrounding t u → IsTooLarge t → ⊥ }
    ensures undefined { (t : LiftedTask) (u : Task) (g : Ground)
        → IsGrounding t u → IsUndefined t g → ⊥ }
    ensures negative { (t : LiftedTask) (u : Task) (i : Instance)
        → IsGrounding t u → IsNegative t i → ⊥ }
{}

/// Law: one fault is reported of a task at most: where something is too large, that alone; else the
/// first fluent without a first value, if there is one; else the first instance of a negative cost.
pub fn faults_are_one()
    ensures undefined { (t : LiftedTask) (g h : Ground)
        → IsUndefined t g → IsUndefined t h → g ≡ h }
    ensures negative { (t : LiftedTask) (i j : Instance)
        → IsNegative t i → IsNegative t j → i ≡ j }
    ensures undefined_first { (t : LiftedTask) (g : Ground) (i : Instance)
        → IsUndefined t g → IsNegative t i → ⊥ }
    ensures too_large_first { (t : LiftedTask) (g : Ground)
        → IsTooLarge t → IsUndefined t g → ⊥ }
    ensures too_large_alone { (t : LiftedTask) (i : Instance)
        → IsTooLarge t → IsNegative t i → ⊥ }
{}
