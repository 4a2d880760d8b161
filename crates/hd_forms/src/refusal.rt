//! How the grammar refuses what it does not allow.

ghost use Rattle.hd_forms.specs.Reading.{IsOfGrammar};

use crate::error::ReadError;
use crate::forms::Form;
use crate::word::{FormWord, is_unsupported_keyword};
use hd_lex::Operator;
use std::alloc::{AllocError, Global};

/// Returns the word as it is written, if it belongs to a part of PDDL that is not read.
fn unsupported_text(alloc: Global, word: &FormWord) -> Result<Option<String>, AllocError> {
    match word {
        FormWord::Unsupported(name) => return Ok(Some(String::from_str(alloc, name.as_str())?)),
        FormWord::Keyword(name) => {
            if is_unsupported_keyword(name.as_str()) {
                return Ok(Some(format!(in alloc; ":{name}")?));
            }
        }
        FormWord::Operator(Operator::Divide) => return Ok(Some(String::from_str(alloc, "/")?)),
        _ => {}
    }
    Ok(None)
}

/// Refuses a token at the place `from`. Where this word, which stands at `at`, belongs to a part
/// that is not read, it is to blame.
fn refusal_by(alloc: Global, word: &FormWord, at: usize, from: usize) -> ReadError
    ensures { IsOfGrammar result }
{
    match unsupported_text(alloc, word) {
        Ok(Some(text)) => ReadError::Unsupported(text, at),
        Ok(None) => ReadError::Unexpected(from),
        Err(_) => ReadError::NoMemory,
    }
}

/// Refuses the first token of this form.
pub fn form_refusal(alloc: Global, form: &Form) -> ReadError
    ensures { IsOfGrammar result }
{
    match form {
        Form::Word { at, word } => refusal_by(alloc, word, *at, *at),
        Form::List { from, inside, .. } => match inside.first() {
            Some(Form::Word { at, word }) => refusal_by(alloc, word, *at, *from),
            _ => ReadError::Unexpected(*from),
        },
    }
}

/// Refuses the first token of these forms, or what stands after them, at the place `end`, where
/// there are none.
pub fn first_refusal(alloc: Global, forms: &[Form], end: usize) -> ReadError
    ensures { IsOfGrammar result }
{
    match forms.first() {
        Some(form) => form_refusal(alloc, form),
        None => ReadError::Unexpected(end),
    }
}
