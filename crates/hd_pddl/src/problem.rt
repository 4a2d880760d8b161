//! Problems.

ghost use Rattle.std.specs.Prelude.{◌≡◌, ◌⊎◌, [], IfOk, IfErr, MatchResult};
ghost use Rattle.hd_lex.specs.Text.{IsFault};
ghost use Rattle.hd_lex.specs.declared.error.LexError.{LexError};
ghost use Rattle.hd_base.specs.Answers.{Gives};
ghost use Rattle.hd_forms.specs.Reading.{Refuses};
ghost use Rattle.hd_forms.specs.Text.{IsUnbalanced, Explains};
ghost use Rattle.hd_forms.specs.View.{forms_view};
ghost use Rattle.hd_forms.specs.declared.error.ReadError.{ReadError};
ghost use Rattle.hd_pddl.specs.Problem.{IsProblem};
ghost use Rattle.hd_pddl.specs.Reading.{problem_domain_at, value_of, initial_of, initial_after, init_at, goal_at, metric_in, metric_of, problem_in, problem_of};
ghost use Rattle.hd_pddl.specs.Text.{IsProblemText};
ghost use Rattle.hd_pddl.specs.declared.tree.ProblemAst.{ProblemAst};

use crate::definition::{behind_requirements, head_at, section_at};
use crate::sections::names_at;
use crate::tree::{Init, InitialValue, ProblemAst};
use hd_base::{Boxed, Sequence};
use hd_forms::{
    Form, FormWord, NameAt, ReadError, end_at, first_refusal, form_refusal, forms_behind_keyword,
    forms_behind_name, group_at, name_at, number_at, text_forms,
};
use hd_terms::{Condition, atom_of, condition_at, is_equal, negated_atom_of};
use std::alloc::Global;

/// Returns the name of the problem's domain, and what follows. The place `end` is that after the
/// forms.
#[tactic(auto, unfolding(crate::specs::Reading::problem_domain_at))]
fn problem_domain_at(
    alloc: Global,
    forms: &[Form],
    end: usize,
) -> Result<(NameAt, &[Form]), ReadError>
    ensures { Gives Refuses (λ x. (x.0, forms_view x.1.now)) result
        (problem_domain_at (forms_view forms.now)) }
{
    let (inside, to, rest) = section_at(alloc, "domain", forms, end)?;
    let (name, more) = name_at(alloc, inside, to)?;
    end_at(alloc, more)?;
    Ok((name, rest))
}

/// Returns a fluent and its first value, in a form that ends at the place `to`.
#[tactic(auto, unfolding(crate::specs::Reading::value_of))]
fn value_of(alloc: Global, rest: &[Form], to: usize) -> Result<Init, ReadError>
    ensures { Gives Refuses (λ x. x) result (value_of (forms_view rest.now)) }
{
    let (inside, inside_to, rest) = group_at(alloc, rest, to)?;
    let fluent = atom_of(alloc, inside, inside_to)?;
    let (value, at, rest) = number_at(alloc, rest, to)?;
    end_at(alloc, rest)?;
    let fluent = Boxed::of(alloc, fluent)?;
    Ok(Init::Value(InitialValue { fluent, value, at }))
}

/// Returns the initial fact that stands in a form which ends at the place `to`.
#[tactic(auto, unfolding(crate::specs::Reading::initial_of))]
fn initial_of(alloc: Global, inside: &[Form], to: usize) -> Result<Init, ReadError>
    ensures { Gives Refuses (λ x. x) result (initial_of (forms_view inside.now)) }
{
    match inside {
        [
            Form::Word {
                at,
                word: FormWord::Not,
            },
            rest @ ..,
        ] => Ok(Init::NotAtom(negated_atom_of(alloc, *at, rest, to)?)),
        [
            Form::Word {
                word: FormWord::Operator(operator),
                ..
            },
            rest @ ..,
        ] => {
            if is_equal(*operator) {
                value_of(alloc, rest, to)
            } else {
                Err(first_refusal(alloc, inside, to))
            }
        }
        _ => Ok(Init::Atom(atom_of(alloc, inside, to)?)),
    }
}

/// Returns the initial facts that these forms are, one each.
#[tactic(auto, unfolding(crate::specs::Reading::initial_after))]
fn initial_in(alloc: Global, forms: &[Form]) -> Result<Sequence<Init>, ReadError>
    ensures { Gives Refuses (λ x. x) result (initial_after (forms_view forms.now) []) }
{
    let mut facts = Vec::new(alloc);
    let mut rest = forms;
    while let [first, after @ ..] = rest {
        match first {
            Form::Word { .. } => return Err(form_refusal(alloc, first)),
            Form::List { inside, to, .. } => facts.push(initial_of(alloc, inside, to.get())?)?,
        }
        rest = after;
    }
    Ok(Sequence::from_vec(facts))
}

/// Returns the initial facts, and what follows. The place `end` is that after the forms.
#[tactic(auto, unfolding(crate::specs::Reading::init_at))]
fn init_at(
    alloc: Global,
    forms: &[Form],
    end: usize,
) -> Result<(Sequence<Init>, &[Form]), ReadError>
    ensures { Gives Refuses (λ x. (x.0, forms_view x.1.now)) result
        (init_at (forms_view forms.now)) }
{
    let (inside, _, rest) = section_at(alloc, "init", forms, end)?;
    let facts = initial_in(alloc, inside)?;
    Ok((facts, rest))
}

/// Returns the parts of the goal, and what follows. The place `end` is that after the forms.
#[tactic(auto, unfolding(crate::specs::Reading::goal_at))]
fn goal_at(
    alloc: Global,
    forms: &[Form],
    end: usize,
) -> Result<(Sequence<Condition>, &[Form]), ReadError>
    ensures { Gives Refuses (λ x. (x.0, forms_view x.1.now)) result
        (goal_at (forms_view forms.now)) }
{
    let (inside, to, rest) = section_at(alloc, "goal", forms, end)?;
    let (goal, more) = condition_at(alloc, inside, to)?;
    end_at(alloc, more)?;
    Ok((goal, rest))
}

/// Returns the function of the metric that stands in a form which ends at the place `to`.
#[tactic(auto, unfolding(crate::specs::Reading::metric_in))]
fn metric_in(alloc: Global, inside: &[Form], to: usize) -> Result<NameAt, ReadError>
    ensures { Gives Refuses (λ x. x) result (metric_in (forms_view inside.now)) }
{
    let rest = forms_behind_keyword(alloc, "metric", inside, to)?;
    let rest = forms_behind_name(alloc, "minimize", rest, to)?;
    let (group, group_to, rest) = group_at(alloc, rest, to)?;
    let (name, more) = name_at(alloc, group, group_to)?;
    end_at(alloc, more)?;
    end_at(alloc, rest)?;
    Ok(name)
}

/// Returns the function of the metric, if these forms are one and not none.
#[tactic(auto, unfolding(crate::specs::Reading::metric_of))]
fn metric_of(alloc: Global, forms: &[Form]) -> Result<Option<NameAt>, ReadError>
    ensures { Gives Refuses (λ x. x) result (metric_of (forms_view forms.now)) }
{
    match forms {
        [] => Ok(None),
        [form @ Form::Word { .. }, ..] => Err(form_refusal(alloc, form)),
        [Form::List { inside, to, .. }, rest @ ..] => {
            let name = metric_in(alloc, inside, to.get())?;
            end_at(alloc, rest)?;
            Ok(Some(name))
        }
    }
}

/// Returns the problem that stands in a form which ends at the place `to`.
#[tactic(auto, unfolding(crate::specs::Reading::problem_in))]
fn problem_in(alloc: Global, inside: &[Form], to: usize) -> Result<ProblemAst, ReadError>
    ensures { Gives Refuses (λ x. x) result (problem_in (forms_view inside.now)) }
{
    let (name, rest) = head_at(alloc, "problem", inside, to)?;
    let (domain, rest) = problem_domain_at(alloc, rest, to)?;
    let rest = behind_requirements(alloc, rest)?;
    let (objects, rest) = names_at(alloc, "objects", rest)?;
    let (init, rest) = init_at(alloc, rest, to)?;
    let (goal, rest) = goal_at(alloc, rest, to)?;
    let metric = metric_of(alloc, rest)?;
    Ok(ProblemAst {
        name,
        domain,
        objects,
        init,
        goal,
        metric,
    })
}

/// Returns the problem that these forms, all of a text of this length in bytes, are.
#[tactic(auto, unfolding(crate::specs::Reading::problem_of))]
fn problem_of(alloc: Global, forms: &[Form], end: usize) -> Result<ProblemAst, ReadError>
    ensures { Gives Refuses (λ x. x) result (problem_of (forms_view forms.now)) }
{
    let (inside, to, rest) = group_at(alloc, forms, end)?;
    let problem = problem_in(alloc, inside, to)?;
    end_at(alloc, rest)?;
    Ok(problem)
}

/// Returns the problem that a text is, or why it is none.
///
/// Any bytes may come. The only error that the text of a problem meets is lack of memory. Errors
/// name places in bytes from
/// 0. The time and the memory that are taken grow with the text's length alone.
pub fn read_problem(alloc: Global, text: &[u8]) -> Result<ProblemAst, ReadError>
    // What is read is what the text says, and what the text says is read, unless memory runs out.
    ensures found { IfOk result (IsProblemText text.now) }
    ensures only { (tree : ProblemAst) → IsProblemText text.now tree
        → MatchResult result (λ answer. answer ≡ tree) (λ error. error ≡ ReadError.NoMemory) }

    // What is reported: the first bad word, the first fault of the parentheses, or that the text is
    // outside of the grammar.
    ensures refusal { IfErr result (Explains IsProblem text.now) }

    // A bad word is reported, and in a text without one a fault of the parentheses, unless memory
    // ran out.
    ensures bad_word { (fault : LexError) → IsFault text.now fault
        → MatchResult result (λ _. ⊥)
        (λ error. (error ≡ ReadError.NoMemory) ⊎ (error ≡ ReadError.Lex fault)) }
    ensures bad_parentheses { (fault : ReadError) → IsUnbalanced text.now fault
        → MatchResult result (λ _. ⊥) (λ error. (error ≡ ReadError.NoMemory) ⊎ (error ≡ fault)) }
{
    let forms = text_forms(alloc, text)?;
    problem_of(alloc, &forms, text.len())
}
