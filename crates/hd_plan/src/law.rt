//! Laws of plan files: what `read_plan` answers is always there, is always one, and is what was
//! written.

ghost use Rattle.std.specs.Prelude.{◌≡◌, ◌⊎◌, ◌<◌, ◌^◌, ℕ, List};
ghost use Rattle.std.specs.List.{AllByRecursion};
ghost use Rattle.hd_plan.specs.PlanText.{plan_text};
ghost use Rattle.hd_plan.specs.Text.{IsStep, ReadsAs, IsFirstBadLine};
ghost use Rattle.hd_plan.specs.declared.step.Step.{Step};

/// Law: every text reads as steps, just these, or has a first bad line, just this, and never both.
pub fn each_text_reads_or_has_a_bad_line()
    ensures reads_or_bad { (text : List ℕ)
        → ((steps : List Step) × ReadsAs text steps) ⊎ ((n : ℕ) × IsFirstBadLine text n) }
    ensures one_answer { (text : List ℕ) (a b : List Step)
        → ReadsAs text a → ReadsAs text b → a ≡ b }
    ensures one_line { (text : List ℕ) (a b : ℕ)
        → IsFirstBadLine text a → IsFirstBadLine text b → a ≡ b }
    ensures not_both { (text : List ℕ) (steps : List Step) (n : ℕ)
        → ReadsAs text steps → IsFirstBadLine text n → ⊥ }
{}

/// Law: the text of a plan reads as the steps of that plan, whatever it costs.
pub fn what_is_written_is_read_back()
    ensures read_back { (steps : List Step) (cost : ℕ) → cost < 2 ^ 64
        → AllByRecursion IsStep steps → ReadsAs (plan_text steps cost) steps }
{}
