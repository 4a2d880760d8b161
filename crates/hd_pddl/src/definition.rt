//! What domains and problems share.

ghost use Rattle.std.specs.Prelude.{◌≡◌, Some, None, MatchOption};
ghost use Rattle.hd_base.specs.Answers.{Gives};
ghost use Rattle.hd_forms.specs.Reading.{Refuses, IsOfGrammar};
ghost use Rattle.hd_forms.specs.View.{forms_view};
ghost use Rattle.hd_pddl.specs.Sections.{is_requirement};
ghost use Rattle.hd_pddl.specs.Reading.{head_at, section_at, requirements_of, behind_requirements};

use hd_forms::{
    Form, FormWord, NameAt, ReadError, end_at, find_keyword_form, form_refusal,
    forms_behind_keyword, forms_behind_name, group_at, name_at,
};
use std::alloc::Global;

/// Returns the name in the head of a definition of this kind, which ends at the place `to`, and
/// what follows the head.
#[tactic(auto, unfolding(crate::specs::Reading::head_at))]
pub fn head_at<'a>(
    alloc: Global,
    kind: &str,
    inside: &'a [Form],
    to: usize,
) -> Result<(NameAt, &'a [Form]), ReadError>
    ensures { Gives Refuses (λ x. (x.0, forms_view x.1.now)) result
        (head_at kind.now (forms_view inside.now)) }
{
    let rest = forms_behind_name(alloc, "define", inside, to)?;
    let (title, title_to, rest) = group_at(alloc, rest, to)?;
    let title = forms_behind_name(alloc, kind, title, title_to)?;
    let (name, more) = name_at(alloc, title, title_to)?;
    end_at(alloc, more)?;
    Ok((name, rest))
}

/// Returns what stands after this keyword in the first form, the place of the form's closing
/// parenthesis, and what follows it.
#[tactic(auto, unfolding(crate::specs::Reading::section_at))]
pub fn section_at<'a>(
    alloc: Global,
    keyword: &str,
    forms: &'a [Form],
    end: usize,
) -> Result<(&'a [Form], usize, &'a [Form]), ReadError>
    ensures { Gives Refuses (λ x. (forms_view x.0.now, forms_view x.2.now)) result
        (section_at keyword.now (forms_view forms.now)) }
{
    let (inside, to, rest) = group_at(alloc, forms, end)?;
    let inside = forms_behind_keyword(alloc, keyword, inside, to)?;
    Ok((inside, to, rest))
}

/// Returns the same, if such a section stands first.
#[tactic(auto, unfolding(crate::specs::Reading::section_at))]
pub fn find_section<'a>(keyword: &str, forms: &'a [Form]) -> Option<(&'a [Form], usize, &'a [Form])>
    ensures { MatchOption result
        (section_at keyword.now (forms_view forms.now) ≡ None)
        (λ x. section_at keyword.now (forms_view forms.now)
        ≡ Some (forms_view x.0.now, forms_view x.2.now)) }
{
    match forms {
        [Form::List { inside, to, .. }, rest @ ..] => match find_keyword_form(keyword, inside) {
            Some(inside) => Some((inside, to.get(), rest)),
            None => None,
        },
        _ => None,
    }
}

/// Reports whether the keyword, without its `:`, is one of the seven requirements.
fn is_requirement(keyword: &str) -> bool
    ensures { result ≡ is_requirement keyword.now }
{
    keyword == "strips"
        || keyword == "typing"
        || keyword == "negative-preconditions"
        || keyword == "equality"
        || keyword == "fluents"
        || keyword == "numeric-fluents"
        || keyword == "action-costs"
}

/// Refuses a form in the list of requirements that is none. A keyword is to blame itself.
fn requirement_refusal(alloc: Global, form: &Form) -> ReadError
    ensures { IsOfGrammar result }
{
    match form {
        Form::Word {
            at,
            word: FormWord::Keyword(name),
        } => match format!(in alloc; ":{name}") {
            Ok(text) => ReadError::Unsupported(text, *at),
            Err(_) => ReadError::NoMemory,
        },
        _ => form_refusal(alloc, form),
    }
}

/// Asks that these forms are requirements, which say nothing.
#[tactic(auto, unfolding(crate::specs::Reading::requirements_of))]
fn requirements_of(alloc: Global, forms: &[Form]) -> Result<(), ReadError>
    ensures { Gives Refuses (λ _. tt) result (requirements_of (forms_view forms.now)) }
{
    let mut rest = forms;
    while let [first, after @ ..] = rest {
        match first {
            Form::Word {
                word: FormWord::Keyword(name),
                ..
            } => {
                if !is_requirement(name.as_str()) {
                    return Err(requirement_refusal(alloc, first));
                }
            }
            _ => return Err(requirement_refusal(alloc, first)),
        }
        rest = after;
    }
    Ok(())
}

/// Returns what follows the list of requirements, if it stands first.
#[tactic(auto, unfolding(crate::specs::Reading::behind_requirements))]
pub fn behind_requirements(alloc: Global, forms: &[Form]) -> Result<&[Form], ReadError>
    ensures { Gives Refuses (λ x. forms_view x.now) result
        (behind_requirements (forms_view forms.now)) }
{
    match find_section("requirements", forms) {
        Some((words, _, rest)) => {
            requirements_of(alloc, words)?;
            Ok(rest)
        }
        None => Ok(forms),
    }
}
