//! Actions.

ghost use Rattle.std.specs.Prelude.{◌≡◌, []};
ghost use Rattle.hd_base.specs.Answers.{Gives};
ghost use Rattle.hd_forms.specs.Reading.{Refuses};
ghost use Rattle.hd_forms.specs.View.{forms_view};
ghost use Rattle.hd_pddl.specs.Reading.{precondition_at, action_effect_at, action_head_at, action_of, actions_after};

use crate::tree::Action;
use hd_base::Sequence;
use hd_forms::{
    Form, NameAt, ReadError, end_at, find_keyword_form, form_refusal, forms_behind_keyword,
    group_at, name_at,
};
use hd_terms::{Condition, Effect, ItemKind, Typed, condition_at, effect_at, typed_of};
use std::alloc::Global;

/// Returns the parts of the precondition, none where it is absent, and what follows. The place
/// `end` is that after the forms.
#[tactic(auto, unfolding(crate::specs::Reading::precondition_at))]
fn precondition_at(
    alloc: Global,
    forms: &[Form],
    end: usize,
) -> Result<(Sequence<Condition>, &[Form]), ReadError>
    ensures { Gives Refuses (λ x. (x.0, forms_view x.1.now)) result
        (precondition_at (forms_view forms.now)) }
{
    match find_keyword_form("precondition", forms) {
        Some(rest) => condition_at(alloc, rest, end),
        None => Ok((Sequence::empty(alloc), forms)),
    }
}

/// Returns the parts of the effect, none where it is absent, and what follows. The place `end` is
/// that after the forms.
#[tactic(auto, unfolding(crate::specs::Reading::action_effect_at))]
fn action_effect_at(
    alloc: Global,
    forms: &[Form],
    end: usize,
) -> Result<(Sequence<Effect>, &[Form]), ReadError>
    ensures { Gives Refuses (λ x. (x.0, forms_view x.1.now)) result
        (action_effect_at (forms_view forms.now)) }
{
    match find_keyword_form("effect", forms) {
        Some(rest) => effect_at(alloc, rest, end),
        None => Ok((Sequence::empty(alloc), forms)),
    }
}

/// Returns the name and the parameters of the action in a form which ends at the place `to`, and
/// what follows them.
#[tactic(auto, unfolding(crate::specs::Reading::action_head_at))]
fn action_head_at(
    alloc: Global,
    inside: &[Form],
    to: usize,
) -> Result<(NameAt, Sequence<Typed>, &[Form]), ReadError>
    ensures { Gives Refuses (λ x. (x.0, x.1, forms_view x.2.now)) result
        (action_head_at (forms_view inside.now)) }
{
    let rest = forms_behind_keyword(alloc, "action", inside, to)?;
    let (name, rest) = name_at(alloc, rest, to)?;
    let rest = forms_behind_keyword(alloc, "parameters", rest, to)?;
    let (parameters, parameters_to, rest) = group_at(alloc, rest, to)?;
    let parameters = typed_of(alloc, ItemKind::Variable, parameters, parameters_to)?;
    Ok((name, parameters, rest))
}

/// Returns the action that stands in a form which ends at the place `to`.
#[tactic(auto, unfolding(crate::specs::Reading::action_of))]
fn action_of(alloc: Global, inside: &[Form], to: usize) -> Result<Action, ReadError>
    ensures { Gives Refuses (λ x. x) result (action_of (forms_view inside.now)) }
{
    let (name, parameters, rest) = action_head_at(alloc, inside, to)?;
    let (precondition, rest) = precondition_at(alloc, rest, to)?;
    let (effect, rest) = action_effect_at(alloc, rest, to)?;
    end_at(alloc, rest)?;
    Ok(Action {
        name,
        parameters,
        precondition,
        effect,
    })
}

/// Returns the actions that these forms are, one each.
#[tactic(auto, unfolding(crate::specs::Reading::actions_after))]
pub fn actions_of(alloc: Global, forms: &[Form]) -> Result<Sequence<Action>, ReadError>
    ensures { Gives Refuses (λ x. x) result (actions_after (forms_view forms.now) []) }
{
    let mut actions = Vec::new(alloc);
    let mut rest = forms;
    while let [first, after @ ..] = rest {
        match first {
            Form::Word { .. } => return Err(form_refusal(alloc, first)),
            Form::List { inside, to, .. } => actions.push(action_of(alloc, inside, to.get())?)?,
        }
        rest = after;
    }
    Ok(Sequence::from_vec(actions))
}
