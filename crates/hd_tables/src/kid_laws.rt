//! Laws over the definitions.
ghost use Rattle.std.specs.Prelude.{◌≡◌, ℕ, Bool, true, false, List, slice_set, slice_index_or};
ghost use Rattle.std.specs.List.{AllByRecursion, fold};

/// Law: marks that were set where none was are taken back, in any order: what is left are the marks
/// before.
pub fn table_marks_are_taken_back()
    ensures { (marks : List Bool) (places : List ℕ)
        → AllByRecursion (λ k. slice_index_or marks k true ≡ false) places
        → fold (λ ms k. slice_set ms k false)
        (fold (λ ms k. slice_set ms k true) marks places) places
        ≡ marks }
{}
