//! Laws over the definitions of a book. Each function does nothing: its contract is the law.
ghost use Rattle.std.specs.Prelude.{◌≡◌, ◌↔◌, ℕ, ◌<◌, ◌++◌, false, true, [], ◌∷◌, List, All, Some, None, map, length, flat_map};
ghost use Rattle.std.specs.List.{AllByRecursion};
ghost use Rattle.hd_task.specs.declared.task.Task.{Task};
ghost use Rattle.hd_task.specs.declared.plan.Kid.{Kid};
ghost use Rattle.hd_task.specs.declared.plan.TheConstants.{ROOT_PARENT};
ghost use Rattle.hd_task.specs.Plans.{exec};
ghost use Rattle.hd_task.specs.Expansions.{generated, goal_cost, bound_of, departures_of};
ghost use Rattle.hd_task.specs.Entries.{plan_of};
ghost use Rattle.hd_task.specs.Covers.{IsCovered};
ghost use Rattle.hd_hmax.specs.Rounds.{hmax};
ghost use Rattle.hd_task.specs.Verdicts.{IsTrueVerdict, Optimal, NoPlan};
ghost use Rattle.hd_node.specs.declared.batch.Outcome.{Outcome};
ghost use Rattle.hd_entries.specs.Kids.{posted_by};
ghost use Rattle.hd_entries.specs.Resuming.{first_fault, resumed_state, AreLegal};
ghost use Rattle.hd_entries.specs.Settling.{BookState, expansions, IsBookKept, IsOutcomeOfTask, entry_of, first_refusal, all_settled};

/// Law: what a book posts names what its expansions generate, in order: a successor is a place in
/// both.
pub fn entries_post_what_they_generate()
    ensures names { (t : Task) (expanded : List (List ℕ))
        → length expanded < ROOT_PARENT
        → map (plan_of expanded) (posted_by t expanded) ≡ map Some (generated t expanded) }
    ensures count { (t : Task) (expanded : List (List ℕ))
        → length expanded < ROOT_PARENT
        → length (posted_by t expanded) ≡ length (generated t expanded) }
{}

/// Law: a book without entries is kept, and so is each book after a batch that is not refused: no
/// batch can make a book hold what is not justified.
pub fn books_are_kept()
    ensures first { (t : Task)
        → IsBookKept (record { task = t; entries = []; marks = false ∷ [] }) }
    ensures batch { (b : BookState) (outcomes : List Outcome)
        → IsBookKept b → AllByRecursion (IsOutcomeOfTask b.task) outcomes
        → first_refusal b [] outcomes ≡ None
        → length (all_settled b outcomes).entries < ROOT_PARENT
        → IsBookKept (all_settled b outcomes) }
    ensures entries { (b : BookState) (outcomes : List Outcome)
        → (all_settled b outcomes).entries ≡ b.entries ++ flat_map entry_of outcomes }
{}

/// Law: a kept book in which all successors are marked is covered; where nothing departs, it has
/// the last word.
pub fn full_entries_decide()
    ensures covered { (b : BookState)
        → IsBookKept b → All (λ m. m ≡ true) b.marks
        → IsCovered b.task (hmax b.task) (expansions b) }
    ensures optimal { (b : BookState) (c : ℕ) → IsBookKept b → All (λ m. m ≡ true) b.marks
        → departures_of b.task (expansions b) ≡ [] → bound_of b.task (expansions b) ≡ Some c
        → (p : List ℕ)
        → goal_cost b.task (exec b.task p) ≡ Some c → IsTrueVerdict b.task (Optimal p) }
    ensures no_plan { (b : BookState) → IsBookKept b → All (λ m. m ≡ true) b.marks
        → departures_of b.task (expansions b) ≡ [] → bound_of b.task (expansions b) ≡ None
        → IsTrueVerdict b.task NoPlan }
{}

/// Law: a list of entries has no fault exactly where it names the plans of a legal list. What is
/// made again from such a list is kept.
pub fn faultless_entries_are_legal()
    ensures legal { (t : Task) (entries : List Kid) → length entries < ROOT_PARENT
        → (first_fault t [] entries ≡ None) ↔ AreLegal t entries }
    ensures kept { (t : Task) (entries : List Kid) → length entries < ROOT_PARENT
        → first_fault t [] entries ≡ None → IsBookKept (resumed_state t entries) }
{}
