//! Worked examples of the definitions, each a checked fact. The function does nothing.
ghost use Rattle.std.specs.Prelude.{◌≡◌, ◌-◌, [], ◌∷◌, true, false, pos, Some, None};
ghost use Rattle.hd_base.specs.declared.range.TheConstants.{RANGE_END};
ghost use Rattle.hd_lifted.specs.Plans.{exec, IsValidAt};
ghost use Rattle.hd_lifted.specs.Example.{journey, way_by_b, only, the_x, the_y, the_atom, value_at, is_true_at, action_departs};
ghost use Rattle.hd_lifted.specs.Example.{delete_and_add, swapping, up_and_down, missing_amount, one_up};

/// Law: the definitions on the small tasks of `specs/Example.antt`.
pub fn lifted_examples_compute()
    // From a to b and on to c: the goal holds there, and the plan costs the fuel that it uses up.
    ensures arrives { IsValidAt journey way_by_b (pos 9) }

    // Deletes come before adds.
    ensures adds_last { is_true_at the_atom (exec delete_and_add (only ∷ [])) ≡ true }

    // Effects read the values before the action.
    ensures swaps_x { value_at the_x (exec swapping (only ∷ [])) ≡ Some (pos 2) }
    ensures swaps_y { value_at the_y (exec swapping (only ∷ [])) ≡ Some (pos 1) }

    // Increases and decreases add up.
    ensures adds_up { value_at the_x (exec up_and_down (only ∷ [])) ≡ Some (pos 7) }

    // An amount without a value leaves its fluent without one.
    ensures misses { value_at the_x (exec missing_amount (only ∷ [])) ≡ None }

    // The end of the range is in it.
    ensures departs { action_departs (one_up (pos RANGE_END)) ≡ true }
    ensures reaches_end { action_departs (one_up (pos (RANGE_END - 1))) ≡ false }
{}
