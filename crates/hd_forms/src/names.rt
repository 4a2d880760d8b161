//! What may stand first: a name, a keyword, a number, a form, or nothing.

ghost use Rattle.std.specs.Prelude.{◌≡◌, Some, None, MatchOption, IfOk};
ghost use Rattle.hd_base.specs.Answers.{Gives};
ghost use Rattle.hd_forms.specs.Reading.{Refuses, placed_name, name_at, number_at, group_at, end_at, forms_behind_name, forms_behind_keyword};
ghost use Rattle.hd_forms.specs.View.{forms_view};

use crate::error::ReadError;
use crate::forms::Form;
use crate::refusal::{first_refusal, form_refusal};
use crate::word::FormWord;
use hd_base::Name;
use std::alloc::{AllocError, Global};

/// A name in lower case, and the place of its first byte in the text, counted from 0.
#[derive(Debug, PartialEq, Eq, Drop)]
pub struct NameAt {
    pub name: Name,
    pub at: usize,
}

/// Returns the name at this place, in memory of its own.
pub fn placed_name(alloc: Global, name: &Name, at: usize) -> Result<NameAt, AllocError>
    ensures { IfOk result (λ n. n ≡ placed_name name.now at) }
{
    let name = name.copied(alloc)?;
    Ok(NameAt { name, at })
}

/// Returns the first name, and what follows it. The place `end` is that after the forms.
pub fn name_at(alloc: Global, forms: &[Form], end: usize) -> Result<(NameAt, &[Form]), ReadError>
    ensures { Gives Refuses (λ x. (x.0, forms_view x.1.now)) result
        (name_at (forms_view forms.now)) }
{
    match forms {
        [
            Form::Word {
                at,
                word: FormWord::Name(name),
            },
            rest @ ..,
        ] => {
            let name = placed_name(alloc, name, *at)?;
            Ok((name, rest))
        }
        _ => Err(first_refusal(alloc, forms, end)),
    }
}

/// Returns the first number, its place, and what follows it. The place `end` is that after the
/// forms.
pub fn number_at(
    alloc: Global,
    forms: &[Form],
    end: usize,
) -> Result<(i64, usize, &[Form]), ReadError>
    ensures { Gives Refuses (λ x. (x.0, x.1, forms_view x.2.now)) result
        (number_at (forms_view forms.now)) }
{
    match forms {
        [
            Form::Word {
                at,
                word: FormWord::Number(number),
            },
            rest @ ..,
        ] => Ok((*number, *at, rest)),
        _ => Err(first_refusal(alloc, forms, end)),
    }
}

/// Returns what stands in the first form, the place of its closing parenthesis, and what follows
/// it.
pub fn group_at(
    alloc: Global,
    forms: &[Form],
    end: usize,
) -> Result<(&[Form], usize, &[Form]), ReadError>
    ensures { Gives Refuses (λ x. (forms_view x.0.now, forms_view x.2.now)) result
        (group_at (forms_view forms.now)) }
{
    match forms {
        [Form::List { inside, to, .. }, rest @ ..] => Ok((inside.as_slice(), to.get(), rest)),
        _ => Err(first_refusal(alloc, forms, end)),
    }
}

/// Asks that nothing follows.
pub fn end_at(alloc: Global, forms: &[Form]) -> Result<(), ReadError>
    ensures { Gives Refuses (λ _. tt) result (end_at (forms_view forms.now)) }
{
    match forms {
        [] => Ok(()),
        [form @ Form::Word { .. }, ..] => Err(form_refusal(alloc, form)),
        [form @ Form::List { .. }, ..] => Err(form_refusal(alloc, form)),
    }
}

/// Returns what follows this name.
pub fn forms_behind_name<'a>(
    alloc: Global,
    text: &str,
    forms: &'a [Form],
    end: usize,
) -> Result<&'a [Form], ReadError>
    ensures { Gives Refuses (λ x. forms_view x.now) result
        (forms_behind_name text.now (forms_view forms.now)) }
{
    match forms {
        [
            Form::Word {
                word: FormWord::Name(name),
                ..
            },
            rest @ ..,
        ] => {
            if name.as_str() == text {
                Ok(rest)
            } else {
                Err(first_refusal(alloc, forms, end))
            }
        }
        _ => Err(first_refusal(alloc, forms, end)),
    }
}

/// Returns what follows this keyword, if it stands first.
pub fn find_keyword_form<'a>(text: &str, forms: &'a [Form]) -> Option<&'a [Form]>
    ensures { MatchOption result
        (forms_behind_keyword text.now (forms_view forms.now) ≡ None)
        (λ rest. forms_behind_keyword text.now (forms_view forms.now) ≡ Some (forms_view rest.now)) }
{
    match forms {
        [
            Form::Word {
                word: FormWord::Keyword(name),
                ..
            },
            rest @ ..,
        ] => {
            if name.as_str() == text {
                Some(rest)
            } else {
                None
            }
        }
        _ => None,
    }
}

/// Returns what follows this keyword.
pub fn forms_behind_keyword<'a>(
    alloc: Global,
    text: &str,
    forms: &'a [Form],
    end: usize,
) -> Result<&'a [Form], ReadError>
    ensures { Gives Refuses (λ x. forms_view x.now) result
        (forms_behind_keyword text.now (forms_view forms.now)) }
{
    match find_keyword_form(text, forms) {
        Some(rest) => Ok(rest),
        None => Err(first_refusal(alloc, forms, end)),
    }
}
