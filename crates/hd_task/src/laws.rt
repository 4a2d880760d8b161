//! Laws over the definitions. Each function does nothing: its contract is the law, for every task
//! and every list.
ghost use Rattle.std.specs.Prelude.{◌≡◌, ◌≢◌, ℕ, ◌+◌, ◌≤◌, ◌++◌, [], ◌∷◌, List, Option, Some, None, Contains, if◌then◌else◌, take, length};
ghost use Rattle.std.specs.List.{AllPairs};
ghost use Rattle.hd_task.specs.declared.state.State.{State};
ghost use Rattle.hd_task.specs.declared.task.Task.{Task};
ghost use Rattle.hd_task.specs.declared.applying.Applied.TheVariants as Answer;
ghost use Rattle.hd_task.specs.Plans.{IsStateOf, Node, step_by, exec, IsValidAt};
ghost use Rattle.hd_task.specs.Departures.{goal_departs, action_departs};
ghost use Rattle.hd_task.specs.Applying.{goal_of, applied_at, goes_on, leaves_range, says_yes, says_departs};
ghost use Rattle.hd_task.specs.Expansions.{followed_by, is_applicable, generated, IsNext, IsLegal, goal_cost, bound_of, departures_from, departures_of};
ghost use Rattle.hd_task.specs.Covers.{Estimate, IsAdmissible, IsJustified, zero_estimate};
ghost use Rattle.hd_task.specs.Verdicts.{IsFinished, IsTrueVerdict, Optimal, NoPlan};

/// Law: a finished search has the last word: the bound is the cost of an optimal plan, and without
/// a bound there is no plan.
///
/// Validity and cost are in exact integers, without a range, and speak of all plans of the task.
pub fn verdicts_are_true()
    ensures optimal { (t : Task) (h : Estimate) (expanded : List (List ℕ)) (c : ℕ)
        → IsFinished t h expanded → bound_of t expanded ≡ Some c
        → (p : List ℕ) × Contains expanded p × IsValidAt t p c
        × ((q : List ℕ) (d : ℕ) → IsValidAt t q d → c ≤ d) }

    // Each plan at which the goal holds at the bound's cost is an optimal one.
    ensures each_optimal { (t : Task) (h : Estimate) (expanded : List (List ℕ)) (c : ℕ)
        → IsFinished t h expanded → bound_of t expanded ≡ Some c
        → (p : List ℕ) → goal_cost t (exec t p) ≡ Some c → IsTrueVerdict t (Optimal p) }
    ensures no_plan { (t : Task) (h : Estimate) (expanded : List (List ℕ))
        → IsFinished t h expanded → bound_of t expanded ≡ None → IsTrueVerdict t NoPlan }
{}

/// Law: a plan at which the goal holds and does not depart is valid, whatever else departs.
pub fn goal_plans_are_valid()
    ensures { (t : Task) (p : List ℕ) (c : ℕ)
        → goal_cost t (exec t p) ≡ Some c → IsValidAt t p c }
{}

/// Law: what stays when a list of expansions grows: what is justified, a bound that never rises,
/// and the recorded departures, before those of the further entries.
pub fn expansions_grow()
    ensures justified { (t : Task) (h : Estimate) (expanded more : List (List ℕ)) (p : List ℕ)
        → IsJustified t h expanded p → IsJustified t h (expanded ++ more) p }
    ensures bound { (t : Task) (expanded more : List (List ℕ)) (b : ℕ)
        → bound_of t expanded ≡ Some b
        → (c : ℕ) × (bound_of t (expanded ++ more) ≡ Some c) × (c ≤ b) }
    ensures departures { (t : Task) (expanded more : List (List ℕ))
        → departures_of t (expanded ++ more)
        ≡ departures_of t expanded ++ departures_from t (length expanded) more }
{}

/// Law: a beginning of a legal list of expansions is legal, and so is a legal list with one
/// generated plan more, which it has not.
pub fn legal_lists()
    ensures beginning { (t : Task) (expanded : List (List ℕ)) (m : ℕ)
        → IsLegal t expanded → IsLegal t (take m expanded) }
    ensures one_more { (t : Task) (expanded : List (List ℕ)) (p : List ℕ)
        → IsLegal t expanded → IsNext t expanded p → IsLegal t (expanded ++ p ∷ []) }
{}

/// Law: what a legal list of expansions generates holds no plan twice: its length is the number of
/// plans generated.
pub fn generated_once()
    ensures { (t : Task) (expanded : List (List ℕ))
        → IsLegal t expanded → AllPairs (λ (p q : List ℕ). p ≢ q) (generated t expanded) }
{}

/// Law: the estimate 0 is admissible.
pub fn zero_is_admissible()
    ensures { (t : Task) → IsAdmissible t zero_estimate }
{}

/// Law: what [`crate::apply`] and [`crate::goal`] answer in a plan's state decides, with the plan's
/// cost, what happens at the plan: whether an action is applicable, whether it departs, where it
/// leads, and what the goal says.
pub fn answers_decide()
    ensures applicable { (t : Task) (r : Node) (n : ℕ)
        → is_applicable t (Some r) n ≡ goes_on r.cost (applied_at t r.state n) }
    ensures departs { (t : Task) (r : Node) (n : ℕ)
        → action_departs t r n ≡ leaves_range r.cost (applied_at t r.state n) }
    ensures leads { (t : Task) (p : List ℕ) (r : Node) (n : ℕ) (s : State) (c : ℕ)
        → exec t p ≡ Some r → applied_at t r.state n ≡ Answer.Next s c
        → exec t (followed_by p n) ≡ Some (record { state = s; cost = r.cost + c }) }
    ensures goal { (t : Task) (r : Node)
        → goal_cost t (Some r) ≡ (if says_yes (goal_of t r.state) then Some r.cost else None) }
    ensures goal_departs { (t : Task) (r : Node)
        → goal_departs t r ≡ says_departs (goal_of t r.state) }
{}

/// Law: a plan leads to a state of the task.
pub fn plans_of_a_task_lead_to_its_states()
    ensures { (t : Task) (p : List ℕ) (r : Node) → exec t p ≡ Some r → IsStateOf t r.state }
{}
