//! Lists of names, or of variables, with their types.

ghost use Rattle.std.specs.Prelude.{◌≡◌, ◌+◌, ◌≤◌, ◌++◌, ◌∷◌, Some, None, false, [], length, MatchOption, IfOk, IfErr, OnOk};
ghost use Rattle.hd_base.specs.Answers.{Gives, Leaves};
ghost use Rattle.hd_forms.specs.Reading.{Refuses, placed_name};
ghost use Rattle.hd_forms.specs.View.{forms_view};
ghost use Rattle.hd_terms.specs.Reading.{item_in, items_read, behind_items, is_minus_term, type_behind, typed_after};
ghost use Rattle.hd_terms.specs.Typed.{typed_by, with_type};

use crate::tree::Typed;
use crate::type_name::TypeName;
use hd_base::{Name, Sequence, exact};
use hd_forms::{Form, FormWord, ReadError, first_refusal, form_refusal, placed_name};
use hd_lex::Operator;
use std::alloc::Global;

/// What a typed list lists.
#[derive(Clone, Copy, Debug, PartialEq, Eq)]
pub enum ItemKind {
    Name,
    Variable,
}

/// Returns the item that a word is, if it is one.
fn item_in(kind: ItemKind, word: &FormWord) -> Option<&Name>
    ensures { MatchOption result
        (item_in kind word.now ≡ None)
        (λ name. item_in kind word.now ≡ Some name.now) }
{
    match kind {
        ItemKind::Name => match word {
            FormWord::Name(name) => Some(name),
            _ => None,
        },
        ItemKind::Variable => match word {
            FormWord::Variable(name) => Some(name),
            _ => None,
        },
    }
}

/// Reports whether the word is `-`.
pub fn is_minus_term(word: &FormWord) -> bool
    ensures { result ≡ is_minus_term word.now }
{
    match word {
        FormWord::Operator(Operator::Minus) => true,
        _ => false,
    }
}

/// Returns what follows the items that stand in front.
#[tactic(auto, unfolding(crate::specs::Reading::items_read, crate::specs::Reading::behind_items))]
fn behind_items(kind: ItemKind, forms: &[Form]) -> &[Form]
    ensures rest { forms_view result.now ≡ behind_items kind (forms_view forms.now) }
    ensures len { length result.now + length (items_read kind (forms_view forms.now))
        ≡ length forms.now }
{
    let mut rest = forms;
    while let [Form::Word { word, .. }, after @ ..] = rest {
        if item_in(kind, word).is_none() {
            return rest;
        }
        rest = after;
    }
    rest
}

/// Returns the type of the items that these forms follow, if one is given, and what follows it. The
/// list ends, or a type is given if there are items. The place `end` is that after the forms.
#[tactic(auto, unfolding(crate::specs::Reading::type_behind))]
fn type_behind(
    alloc: Global,
    some: bool,
    forms: &[Form],
    end: usize,
) -> Result<(Option<TypeName>, &[Form]), ReadError>
    ensures type_given { Gives Refuses (λ x. (x.0, forms_view x.1.now)) result
        (type_behind some (forms_view forms.now)) }
    ensures shorter { IfOk result (λ x. length x.1.now ≤ length forms.now) }
    ensures none { IfOk result (λ _. some ≡ false → length forms.now ≡ 0) }
{
    let [first, after @ ..] = forms else {
        return Ok((None, forms));
    };
    let Form::Word { word, .. } = first else {
        return Err(form_refusal(alloc, first));
    };
    if !is_minus_term(word) || !some {
        return Err(form_refusal(alloc, first));
    }
    let [
        Form::Word {
            at,
            word: FormWord::Name(name),
        },
        behind @ ..,
    ] = after
    else {
        return Err(first_refusal(alloc, after, end));
    };
    let of = TypeName::of(alloc, placed_name(alloc, name, *at)?)?;
    Ok((Some(of), behind))
}

/// Adds an item that has this type, or none.
fn add_item(
    alloc: Global,
    found: &mut Vec<Typed>,
    name: &Name,
    at: usize,
    of: &Option<TypeName>,
) -> Result<(), ReadError>
    ensures found { OnOk result (found.new.items
        ≡ found.old.items ++ typed_by of.now (placed_name name.now at) ∷ []) }
    ensures no_memory { IfErr result (λ e. e ≡ ReadError.NoMemory) }
{
    let of = match of {
        Some(of) => Some(of.share()?),
        None => None,
    };
    let name = placed_name(alloc, name, at)?;
    found.push(Typed { name, of })?;
    Ok(())
}

/// Adds the items that stand in front, which have this type, or none.
#[tactic(auto, unfolding(crate::specs::Reading::items_read))]
fn add_items(
    alloc: Global,
    found: &mut Vec<Typed>,
    kind: ItemKind,
    forms: &[Form],
    of: &Option<TypeName>,
) -> Result<(), ReadError>
    ensures found { OnOk result (found.new.items
        ≡ found.old.items ++ with_type of.now (items_read kind (forms_view forms.now))) }
    ensures no_memory { IfErr result (λ e. e ≡ ReadError.NoMemory) }
{
    let mut rest = forms;
    while let [Form::Word { at, word }, after @ ..] = rest {
        let Some(name) = item_in(kind, word) else {
            return Ok(());
        };
        add_item(alloc, found, name, *at, of)?;
        rest = after;
    }
    Ok(())
}

/// Adds the typed list that these forms are. The place `end` is that after the forms.
fn add_typed(
    alloc: Global,
    found: &mut Vec<Typed>,
    kind: ItemKind,
    forms: &[Form],
    end: usize,
) -> Result<(), ReadError>
    ensures { Leaves Refuses result found.new.items
        (typed_after kind (forms_view forms.now) found.old.items []) }
{
    let mut rest = forms;
    while !rest.is_empty() {
        let after = behind_items(kind, rest);
        let (of, behind) = type_behind(alloc, after.len() < rest.len(), after, end)?;
        add_items(alloc, found, kind, rest, &of)?;
        drop(of);
        rest = behind;
    }
    Ok(())
}

/// Returns the typed list that these forms are. The place `end` is that after the forms.
pub fn typed_of(
    alloc: Global,
    kind: ItemKind,
    forms: &[Form],
    end: usize,
) -> Result<Sequence<Typed>, ReadError>
    ensures { Gives Refuses (λ x. x) result (typed_after kind (forms_view forms.now) [] []) }
{
    let mut found = Vec::new(alloc);
    match add_typed(alloc, &mut found, kind, forms, end) {
        Ok(()) => Ok(Sequence::from_vec(exact(alloc, found)?)),
        Err(error) => {
            drop(found);
            Err(error)
        }
    }
}
