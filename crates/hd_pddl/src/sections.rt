//! Sections of names, of predicates and of functions.

ghost use Rattle.std.specs.Prelude.{◌≡◌, []};
ghost use Rattle.hd_base.specs.Answers.{Gives};
ghost use Rattle.hd_forms.specs.Reading.{Refuses};
ghost use Rattle.hd_forms.specs.View.{forms_view};
ghost use Rattle.hd_pddl.specs.Reading.{names_of, names_at, signature_of, signatures_of, predicates_at, functions_of, functions_at};

use crate::definition::find_section;
use crate::tree::Signature;
use hd_base::Sequence;
use hd_forms::{Form, FormWord, ReadError, first_refusal, form_refusal, name_at};
use hd_terms::{ItemKind, Typed, is_minus_term, typed_of};
use std::alloc::Global;

/// Returns the names with their types after `keyword`, none if that section is absent, and what
/// follows.
#[tactic(auto, unfolding(crate::specs::Reading::names_at, crate::specs::Reading::names_of))]
pub fn names_at<'a>(
    alloc: Global,
    keyword: &str,
    forms: &'a [Form],
) -> Result<(Sequence<Typed>, &'a [Form]), ReadError>
    ensures { Gives Refuses (λ x. (x.0, forms_view x.1.now)) result
        (names_at keyword.now (forms_view forms.now)) }
{
    match find_section(keyword, forms) {
        Some((inside, to, rest)) => {
            let names = typed_of(alloc, ItemKind::Name, inside, to)?;
            Ok((names, rest))
        }
        None => Ok((Sequence::empty(alloc), forms)),
    }
}

/// Returns the signature that stands in a form which ends at the place `to`.
#[tactic(auto, unfolding(crate::specs::Reading::signature_of))]
fn signature_of(alloc: Global, inside: &[Form], to: usize) -> Result<Signature, ReadError>
    ensures { Gives Refuses (λ x. x) result (signature_of (forms_view inside.now)) }
{
    let (name, rest) = name_at(alloc, inside, to)?;
    let parameters = typed_of(alloc, ItemKind::Variable, rest, to)?;
    Ok(Signature { name, parameters })
}

/// Returns the signatures that these forms are, one each.
#[tactic(auto, unfolding(crate::specs::Reading::signatures_of, crate::specs::Reading::signatures_after))]
fn signatures_of(alloc: Global, forms: &[Form]) -> Result<Sequence<Signature>, ReadError>
    ensures { Gives Refuses (λ x. x) result (signatures_of (forms_view forms.now)) }
{
    let mut signatures = Vec::new(alloc);
    let mut rest = forms;
    while let [first, after @ ..] = rest {
        match first {
            Form::Word { .. } => return Err(form_refusal(alloc, first)),
            Form::List { inside, to, .. } => signatures.push(signature_of(
                alloc,
                inside,
                to.get(),
            )?)?,
        }
        rest = after;
    }
    Ok(Sequence::from_vec(signatures))
}

/// Returns the predicates, none where their section is absent, and what follows.
#[tactic(auto, unfolding(crate::specs::Reading::predicates_at))]
pub fn predicates_at(
    alloc: Global,
    forms: &[Form],
) -> Result<(Sequence<Signature>, &[Form]), ReadError>
    ensures { Gives Refuses (λ x. (x.0, forms_view x.1.now)) result
        (predicates_at (forms_view forms.now)) }
{
    match find_section("predicates", forms) {
        Some((inside, _, rest)) => {
            let predicates = signatures_of(alloc, inside)?;
            Ok((predicates, rest))
        }
        None => Ok((Sequence::empty(alloc), forms)),
    }
}

/// Returns the functions that these forms are, each with `- number` after it or not. The place
/// `end` is that after the forms.
#[tactic(auto, unfolding(crate::specs::Reading::functions_of, crate::specs::Reading::functions_after))]
fn functions_of(alloc: Global, forms: &[Form], end: usize) -> Result<Sequence<Signature>, ReadError>
    ensures { Gives Refuses (λ x. x) result (functions_of (forms_view forms.now)) }
{
    let mut functions = Vec::new(alloc);
    let mut behind = false;
    let mut rest = forms;
    while let [first, after @ ..] = rest {
        match first {
            Form::List { inside, to, .. } => {
                functions.push(signature_of(alloc, inside, to.get())?)?;
                behind = true;
                rest = after;
            }
            Form::Word { word, .. } => {
                if !is_minus_term(word) || !behind {
                    return Err(form_refusal(alloc, first));
                }
                let [
                    Form::Word {
                        word: FormWord::Name(name),
                        ..
                    },
                    more @ ..,
                ] = after
                else {
                    return Err(first_refusal(alloc, after, end));
                };
                if name.as_str() != "number" {
                    return Err(first_refusal(alloc, after, end));
                }
                behind = false;
                rest = more;
            }
        }
    }
    Ok(Sequence::from_vec(functions))
}

/// Returns the functions, none where their section is absent, and what follows.
#[tactic(auto, unfolding(crate::specs::Reading::functions_at))]
pub fn functions_at(
    alloc: Global,
    forms: &[Form],
) -> Result<(Sequence<Signature>, &[Form]), ReadError>
    ensures { Gives Refuses (λ x. (x.0, forms_view x.1.now)) result
        (functions_at (forms_view forms.now)) }
{
    match find_section("functions", forms) {
        Some((inside, to, rest)) => {
            let functions = functions_of(alloc, inside, to)?;
            Ok((functions, rest))
        }
        None => Ok((Sequence::empty(alloc), forms)),
    }
}
