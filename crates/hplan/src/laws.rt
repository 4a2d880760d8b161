//! Laws over the definitions. Each function does nothing: its contract is the law.
ghost use Rattle.std.specs.Prelude.{◌≡◌, ◌⊎◌, ℕ, List, [], length, Option};
ghost use Rattle.hd_plan.specs.PlanText.{step_text};
ghost use Rattle.hd_task.specs.FormText.{form_text};
ghost use Rattle.hd_task.specs.declared.form.GroundForm.{GroundForm};
ghost use Rattle.hd_task.specs.declared.form.Names.{Names};
ghost use Rattle.hd_task.specs.declared.plan.Kid.{Kid};
ghost use Rattle.hd_image.specs.declared.error.ImageError.{ImageError};
ghost use Rattle.hd_image.specs.declared.error.ImageError.TheVariants.{NoMemory};
ghost use Rattle.hd_image.specs.declared.header.TheConstants.{DIGEST_LEN};
ghost use Rattle.hd_image.specs.declared.version.Version.{Version};
ghost use Rattle.hd_image.specs.Reading.{IsRefused};
ghost use Rattle.hd_journal.specs.Answers.{StandsIn};
ghost use Rattle.hd_journal.specs.Copy.{kids_in};
ghost use Rattle.hd_base.specs.Lists.{BeginsWith};
ghost use Rattle.hd_texts.specs.Printing.{step_of_form};
ghost use Rattle.hd_words.specs.declared.request.TheConstants as words;
ghost use Rattle.hd_zobrist.specs.declared.owners.TheConstants as owners;
ghost use Rattle.hplan.specs.declared.kept.Start.TheVariants.{Kept};
ghost use Rattle.hplan.specs.declared.told.Ending.{Ending};
ghost use Rattle.hplan.specs.declared.told.Ending.TheVariants.{Optimal};
ghost use Rattle.hplan.specs.Answer.{IsSolved};
ghost use Rattle.hplan.specs.Kept.{HoldsEntries};
ghost use Rattle.hplan.specs.PlanFiles.{IsValidatedFile, IsFileOfValid, IsFileOfOptimal};

/// Law: a step of a plan is printed as the ground form of its action: so a plan's lines are actions
/// as `ground` prints them.
pub fn commands_print_ground_forms()
    ensures form { (names : Names) (g : GroundForm)
        → step_text (step_of_form names g) ≡ form_text names.schemas names.objects g }
{}

/// Law: what is written of an answer is a plan file: it is valid in the task of the same two texts,
/// as `validate` judges it, at the cost that stands in it. Nothing is written only if there is
/// no plan, and so not of an answer that ends with an optimal one.
pub fn commands_print_valid_plans()
    ensures optimal { (limit : Option ℕ) (domain problem text : List ℕ)
        → IsSolved limit domain problem Optimal text → IsValidatedFile domain problem text }
    ensures given { (limit : Option ℕ) (domain problem text : List ℕ) (ending : Ending)
        → IsSolved limit domain problem ending text
        → (text ≡ []) ⊎ IsValidatedFile domain problem text }
{}

/// Law: the steps that such a file says, read back, name the instances of a plan that is valid in
/// the domain and problem, at that cost; where the answer ends with an optimal plan, no valid plan
/// costs less.
pub fn written_plans_are_valid()
    ensures optimal { (limit : Option ℕ) (domain problem text : List ℕ)
        → IsSolved limit domain problem Optimal text → IsFileOfOptimal domain problem text }
    ensures given { (limit : Option ℕ) (domain problem text : List ℕ) (ending : Ending)
        → IsSolved limit domain problem ending text
        → (text ≡ []) ⊎ IsFileOfValid domain problem text }
{}

/// Law: a file whose search goes on is not refused, and what it holds then begins with the groups
/// that stood in it.
pub fn commands_go_on_with_what_stood()
    ensures unrefused { (digest : List ℕ) (kids : List Kid) (before after : List ℕ)
        (error : ImageError) → HoldsEntries Kept digest kids before after
        → IsRefused digest before error → error ≡ NoMemory }
    ensures begins { (digest : List ℕ) (kids : List Kid) (before after : List ℕ)
        (v : Version) (groups : List (List Kid)) → length digest ≡ DIGEST_LEN
        → HoldsEntries Kept digest kids before after → StandsIn v digest groups before
        → BeginsWith kids (kids_in groups) }
{}

/// Law: the command line allows just as many workers as states may have owners.
pub fn workers_of_commands_have_owners()
    ensures { words.MAX_WORKERS ≡ owners.MAX_WORKERS }
{}
