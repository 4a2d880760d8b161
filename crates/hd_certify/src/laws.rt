//! Laws over the definitions. Each function does nothing: its contract is the law.
ghost use Rattle.std.specs.Prelude.{◌≡◌, ◌<◌, ℕ, List, [], Option, Some, None, map, length};
ghost use Rattle.hd_task.specs.declared.task.Task.{Task};
ghost use Rattle.hd_task.specs.declared.plan.TheConstants.{ROOT_PARENT};
ghost use Rattle.hd_task.specs.Entries.{plans_of};
ghost use Rattle.hd_task.specs.Expansions.{IsLegal};
ghost use Rattle.hd_task.specs.Covers.{IsCovered};
ghost use Rattle.hd_hmax.specs.Rounds.{hmax};
ghost use Rattle.hd_image.specs.declared.entry.Entry.{Entry};
ghost use Rattle.hd_journal.specs.Journal.{kid_of};
ghost use Rattle.hd_entries.specs.declared.verdict.Verdict.TheVariants as Verdict;
ghost use Rattle.hd_entries.specs.Answers.{IsAnswer};
ghost use Rattle.hd_certify.specs.declared.certified.Certified.{Certified};
ghost use Rattle.hd_certify.specs.declared.certified.Certified.TheVariants as Certified;
ghost use Rattle.hd_certify.specs.declared.error.RecoverError.TheVariants.{Damaged};
ghost use Rattle.hd_certify.specs.Certificate.{IsCertificateOf};
ghost use Rattle.hd_certify.specs.Error.{IsRecoverRefusal};

/// Law: entries show one thing.
pub fn entries_show_one_thing()
    ensures { (t : Task) (entries : List Entry) (c d : Option Certified)
        → IsCertificateOf t entries c → IsCertificateOf t entries d → c ≡ d }
{}

/// Law: the journal of a search that has ended without a departure is certified: where its entries
/// name a legal list that is covered, and a verdict is this list's answer, they show just this
/// verdict, and are not refused as damaged.
pub fn ended_searches_are_certified()
    ensures optimal { (t : Task) (entries : List Entry) (expanded : List (List ℕ)) (p : List ℕ)
        → plans_of (map kid_of entries) ≡ Some expanded → IsLegal t expanded
        → IsCovered t (hmax t) expanded → IsAnswer t expanded (Verdict.Optimal p)
        → IsCertificateOf t entries (Some (Certified.Optimal p)) }
    ensures no_plan { (t : Task) (entries : List Entry) (expanded : List (List ℕ))
        → plans_of (map kid_of entries) ≡ Some expanded → IsLegal t expanded
        → IsCovered t (hmax t) expanded → IsAnswer t expanded Verdict.NoPlan
        → IsCertificateOf t entries (Some Certified.NoPlan) }
    ensures whole { (t : Task) (entries : List Entry) (expanded : List (List ℕ)) (most at : ℕ)
        → plans_of (map kid_of entries) ≡ Some expanded → IsLegal t expanded
        → IsRecoverRefusal t most entries (Damaged at) → ⊥ }
{}
