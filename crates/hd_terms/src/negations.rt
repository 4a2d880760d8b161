//! What may stand after `not`.

ghost use Rattle.std.specs.Prelude.{◌≡◌};
ghost use Rattle.hd_base.specs.Answers.{Gives};
ghost use Rattle.hd_forms.specs.Reading.{Refuses, IsOfGrammar};
ghost use Rattle.hd_forms.specs.View.{forms_view};
ghost use Rattle.hd_terms.specs.Reading.{begins_with_term, atom_of, negated_atom_of};

use crate::atoms::atom_of;
use crate::tree::Atom;
use hd_forms::{Form, FormWord, ReadError, end_at, first_refusal, group_at};
use hd_lex::Operator;
use std::alloc::Global;

/// Reports whether a term stands first.
pub fn begins_with_term(forms: &[Form]) -> bool
    ensures { result ≡ begins_with_term (forms_view forms.now) }
{
    match forms {
        [Form::Word { word, .. }, ..] => match word {
            FormWord::Name(_) => true,
            FormWord::Variable(_) => true,
            _ => false,
        },
        _ => false,
    }
}

/// Reports whether this begins as an equality of two objects.
fn begins_as_equality(inside: &[Form]) -> bool {
    match inside {
        [
            Form::Word {
                word: FormWord::Operator(Operator::Equal),
                ..
            },
            rest @ ..,
        ] => begins_with_term(rest),
        _ => false,
    }
}

/// Refuses the `not` at the place `not`, since what stands after it can't be denied.
pub fn negation_refusal(alloc: Global, not: usize) -> ReadError
    ensures { IsOfGrammar result }
{
    match String::from_str(alloc, "not") {
        Ok(text) => ReadError::Unsupported(text, not),
        Err(_) => ReadError::NoMemory,
    }
}

/// Returns the atom that stands in a form after the `not` at the place `not`. The form ends at
/// `to`.
#[tactic(auto, unfolding(crate::specs::Reading::atom_of))]
fn atom_behind(alloc: Global, not: usize, inside: &[Form], to: usize) -> Result<Atom, ReadError>
    ensures { Gives Refuses (λ x. x) result (atom_of (forms_view inside.now)) }
{
    match inside {
        [
            Form::Word {
                word: FormWord::Name(_),
                ..
            },
            ..
        ] => atom_of(alloc, inside, to),
        _ => {
            if begins_as_equality(inside) {
                Err(first_refusal(alloc, inside, to))
            } else {
                Err(negation_refusal(alloc, not))
            }
        }
    }
}

/// Returns the atom after the `not` at the place `not`, in a form that ends at `to`.
#[tactic(auto, unfolding(crate::specs::Reading::negated_atom_of))]
pub fn negated_atom_of(
    alloc: Global,
    not: usize,
    rest: &[Form],
    to: usize,
) -> Result<Atom, ReadError>
    ensures { Gives Refuses (λ x. x) result (negated_atom_of (forms_view rest.now)) }
{
    let (inside, inside_to, after) = group_at(alloc, rest, to)?;
    let atom = atom_behind(alloc, not, inside, inside_to)?;
    end_at(alloc, after)?;
    Ok(atom)
}
