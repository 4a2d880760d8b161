//! Atoms and fluents.

ghost use Rattle.std.specs.Prelude.{◌≡◌, []};
ghost use Rattle.hd_base.specs.Answers.{Gives};
ghost use Rattle.hd_forms.specs.Reading.{Refuses};
ghost use Rattle.hd_forms.specs.View.{forms_view};
ghost use Rattle.hd_terms.specs.Reading.{term_at, terms_after, atom_of};

use crate::terms::Terms;
use crate::tree::{Atom, Term};
use hd_forms::{Form, FormWord, ReadError, first_refusal, form_refusal, name_at, placed_name};
use std::alloc::Global;

/// Returns the first term, and what follows it. The place `end` is that after the forms.
pub fn term_at(alloc: Global, forms: &[Form], end: usize) -> Result<(Term, &[Form]), ReadError>
    ensures { Gives Refuses (λ x. (x.0, forms_view x.1.now)) result
        (term_at (forms_view forms.now)) }
{
    match forms {
        [Form::Word { at, word }, rest @ ..] => match word {
            FormWord::Name(name) => Ok((Term::Name(placed_name(alloc, name, *at)?), rest)),
            FormWord::Variable(name) => Ok((Term::Variable(placed_name(alloc, name, *at)?), rest)),
            _ => Err(first_refusal(alloc, forms, end)),
        },
        _ => Err(first_refusal(alloc, forms, end)),
    }
}

/// Returns the terms that these forms are, one each.
#[tactic(auto, unfolding(crate::specs::Reading::terms_after))]
fn terms_of(alloc: Global, forms: &[Form]) -> Result<Terms, ReadError>
    ensures { Gives Refuses (λ x. x) result (terms_after (forms_view forms.now) []) }
{
    let mut terms = Vec::with_capacity(alloc, forms.len())?;
    let mut rest = forms;
    while let [first, after @ ..] = rest {
        let Form::Word { at, word } = first else {
            return Err(form_refusal(alloc, first));
        };
        match word {
            FormWord::Name(name) => terms.push(Term::Name(placed_name(alloc, name, *at)?))?,
            FormWord::Variable(name) => terms.push(Term::Variable(placed_name(alloc, name, *at)?))?,
            _ => return Err(form_refusal(alloc, first)),
        }
        rest = after;
    }
    Ok(Terms::of(alloc, terms)?)
}

/// Returns the atom, or the fluent, that stands in a form which ends at the place `to`.
#[tactic(auto, unfolding(crate::specs::Reading::atom_of))]
pub fn atom_of(alloc: Global, inside: &[Form], to: usize) -> Result<Atom, ReadError>
    ensures { Gives Refuses (λ x. x) result (atom_of (forms_view inside.now)) }
{
    let (name, rest) = name_at(alloc, inside, to)?;
    let terms = terms_of(alloc, rest)?;
    Ok(Atom { name, terms })
}
