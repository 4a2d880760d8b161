//! The forms of a whole text.

ghost use Rattle.std.specs.Prelude.{◌≡◌, ◌+◌, ◌<◌, ◌^◌, [], length, IfOk, IfErr, OnOk, vec_len};
ghost use Rattle.hd_lex.specs.Reading.{IsRefusal};
ghost use Rattle.hd_forms.specs.Nesting.{IsNested, HasTokens};
ghost use Rattle.hd_forms.specs.Text.{IsFormsText, ExplainsForms};
ghost use Rattle.hd_forms.specs.View.{forms_view};

use crate::error::ReadError;
use crate::forms::{Form, OpenForm, take};
use hd_lex::{Front, LexError, front_of};
use std::alloc::Global;

/// Asks that the rest of a text, whose first byte stands at this place, has no bad word. A bad word
/// is reported before any parenthesis, also one that stands before it.
fn check_words(alloc: Global, text: &[u8], at: usize) -> Result<(), LexError>
    requires { at + length text.now < 2 ^ 64 }
    ensures good { IfOk result (λ _. HasTokens at text.now) }
    ensures refusal { IfErr result (IsRefusal at text.now) }
{
    let mut rest = text;
    let mut place = at;
    while !rest.is_empty() {
        let Front { token, len } = front_of(alloc, rest, place)?;
        drop(token);
        rest = &rest[len..];
        place += len;
    }
    Ok(())
}

/// Nests the forms of a text.
fn nest(
    alloc: Global,
    text: &[u8],
    around: &mut Vec<OpenForm>,
    forms: &mut Vec<Form>,
) -> Result<(), ReadError>
    requires none_open { vec_len around.old ≡ 0 }
    requires none_around { around.old.items ≡ [] }
    requires none { forms.old.items ≡ [] }
    ensures nested { OnOk result (IsNested text.now around.new forms.new.items
        (length text.now) []) }
    ensures refusal { IfErr result (ExplainsForms text.now) }
{
    let mut rest = text;
    let mut at = 0;
    while !rest.is_empty() {
        let Front { token, len } = front_of(alloc, rest, at)?;
        rest = &rest[len..];
        at += len;
        if let Some(token) = token {
            if let Err(error) = take(alloc, around, forms, token) {
                check_words(alloc, rest, at)?;
                return Err(error);
            }
        }
    }
    Ok(())
}

/// Returns the forms of a text, or the first fault of its words, or else of its parentheses.
pub fn text_forms(alloc: Global, text: &[u8]) -> Result<Vec<Form>, ReadError>
    ensures forms { IfOk result (λ forms. IsFormsText text.now (forms_view forms.items)) }
    ensures refusal { IfErr result (ExplainsForms text.now) }
{
    let mut around = Vec::new(alloc);
    let mut forms = Vec::new(alloc);
    match nest(alloc, text, &mut around, &mut forms) {
        Ok(()) => {}
        Err(error) => return Err(error),
    }
    if around.is_empty() {
        Ok(forms)
    } else {
        Err(ReadError::Unbalanced(text.len()))
    }
}
