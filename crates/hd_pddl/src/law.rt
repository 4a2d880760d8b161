//! Laws of texts: what is read is the only thing that a text says.

ghost use Rattle.std.specs.Prelude.{◌≡◌, ℕ, List};
ghost use Rattle.hd_pddl.specs.Text.{IsDomainText, IsProblemText};
ghost use Rattle.hd_pddl.specs.declared.tree.DomainAst.{DomainAst};
ghost use Rattle.hd_pddl.specs.declared.tree.ProblemAst.{ProblemAst};

/// Law: no text is two domains.
pub fn each_text_says_one_domain()
    ensures { (text : List ℕ) (a b : DomainAst)
        → IsDomainText text a → IsDomainText text b → a ≡ b }
{}

/// Law: no text is two problems.
pub fn each_text_says_one_problem()
    ensures { (text : List ℕ) (a b : ProblemAst)
        → IsProblemText text a → IsProblemText text b → a ≡ b }
{}
