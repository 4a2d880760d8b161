//! How effects are read.

ghost use Rattle.std.specs.Prelude.{◌≡◌, ◌<◌, List, IfOk, IfErr};
ghost use Rattle.hd_forms.specs.Forms.{Forms, append, size};
ghost use Rattle.hd_base.specs.Answers.{Gives, Leaves};
ghost use Rattle.hd_forms.specs.Reading.{Refuses};
ghost use Rattle.hd_forms.specs.View.{form_view, forms_view};
ghost use Rattle.hd_terms.specs.Effects.{place_of};
ghost use Rattle.hd_terms.specs.Reading.{change_of, part_of_effect, effects_after, effect_at};
ghost use Rattle.hd_terms.specs.Steps.{effects_by, effects_go_on, size_in_effect};
ghost use Rattle.hd_terms.specs.declared.tree.Effect.{Effect};

use crate::atoms::atom_of;
use crate::expressions::expression_of;
use crate::negations::negated_atom_of;
use crate::tree::{Effect, FluentChange};
use hd_base::{Boxed, Sequence};
use hd_forms::{ChangeWord, Form, FormWord, ReadError, first_refusal, form_refusal, group_at};
use std::alloc::Global;
use std::slice;

/// Returns the place of the first token of these forms, or 0 if there are none.
fn place_of(forms: &[Form]) -> usize
    ensures { result ≡ place_of (forms_view forms.now) }
{
    match forms {
        [] => 0,
        [Form::Word { at, .. }, ..] => *at,
        [Form::List { from, .. }, ..] => *from,
    }
}

/// Returns the change of a fluent by an amount, in a form that ends at the place `to`.
#[tactic(auto, unfolding(crate::specs::Reading::change_of))]
fn change_of(
    alloc: Global,
    change: ChangeWord,
    rest: &[Form],
    to: usize,
) -> Result<Effect, ReadError>
    ensures { Gives Refuses (λ x. x) result (change_of change (forms_view rest.now)) }
{
    let (inside, inside_to, rest) = group_at(alloc, rest, to)?;
    let fluent = atom_of(alloc, inside, inside_to)?;
    let amount = expression_of(alloc, rest, to)?;
    let change = Boxed::of(
        alloc,
        FluentChange {
            change,
            fluent,
            amount,
            at: place_of(rest),
        },
    )?;
    Ok(Effect::Change(change))
}

/// Returns the part of an effect that stands in a form which ends at the place `to`.
#[tactic(auto, unfolding(crate::specs::Reading::part_of_effect))]
fn part_of_effect(alloc: Global, inside: &[Form], to: usize) -> Result<Effect, ReadError>
    ensures { Gives Refuses (λ x. x) result (part_of_effect (forms_view inside.now)) }
{
    match inside {
        [
            Form::Word {
                at,
                word: FormWord::Not,
            },
            rest @ ..,
        ] => Ok(Effect::Delete(negated_atom_of(alloc, *at, rest, to)?)),
        [
            Form::Word {
                word: FormWord::Change(change),
                ..
            },
            rest @ ..,
        ] => change_of(alloc, *change, rest, to),
        _ => Ok(Effect::Add(atom_of(alloc, inside, to)?)),
    }
}

/// What one effect says: nothing, all of the effects in it, or a part.
#[derive(Drop)]
enum EffectPart<'a> {
    Nothing,
    All(&'a [Form]),
    One(Effect),
}

/// Returns what one effect says.
#[tactic(auto, unfolding(crate::specs::Reading::effects_after))]
fn part_of(alloc: Global, form: &Form) -> Result<EffectPart<'_>, ReadError>
    ensures part { IfOk result (λ p. (rest : Forms) (found : List Effect)
        → effects_after (append (form_view form.now) rest) found
        ≡ effects_go_on (effects_by p found) rest) }
    ensures smaller { IfOk result (λ p. size_in_effect p < size (form_view form.now)) }
    ensures refused { IfErr result (λ e. (rest : Forms) (found : List Effect)
        → Refuses e (effects_after (append (form_view form.now) rest) found)) }
{
    let Form::List { inside, to, .. } = form else {
        return Err(form_refusal(alloc, form));
    };
    match inside.as_slice() {
        [] => Ok(EffectPart::Nothing),
        [
            Form::Word {
                word: FormWord::And,
                ..
            },
            rest @ ..,
        ] => Ok(EffectPart::All(rest)),
        _ => Ok(EffectPart::One(part_of_effect(alloc, inside, to.get())?)),
    }
}

/// Adds the parts of these effects, one after the other.
#[tactic(auto, unfolding(crate::specs::Reading::effects_after))]
fn add_effects(alloc: Global, forms: &[Form], found: &mut Vec<Effect>) -> Result<(), ReadError>
    ensures { Leaves Refuses result found.new.items
        (effects_after (forms_view forms.now) found.old.items) }
{
    let mut rest = forms;
    while let Some((first, after)) = rest.split_first() {
        match part_of(alloc, first)? {
            EffectPart::Nothing => {}
            EffectPart::All(inside) => add_effects(alloc, inside, found)?,
            EffectPart::One(effect) => found.push(effect)?,
        }
        rest = after;
    }
    Ok(())
}

/// Returns the parts of the first form, an effect, and what follows it. The place `end` is that
/// after the forms.
#[tactic(auto, unfolding(crate::specs::Reading::effect_at))]
pub fn effect_at(
    alloc: Global,
    forms: &[Form],
    end: usize,
) -> Result<(Sequence<Effect>, &[Form]), ReadError>
    ensures { Gives Refuses (λ x. (x.0, forms_view x.1.now)) result
        (effect_at (forms_view forms.now)) }
{
    match forms {
        [form @ Form::List { .. }, rest @ ..] => {
            let mut found = Vec::new(alloc);
            add_effects(alloc, slice::from_ref(form), &mut found)?;
            Ok((Sequence::from_vec(found), rest))
        }
        _ => Err(first_refusal(alloc, forms, end)),
    }
}
