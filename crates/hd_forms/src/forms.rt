//! From tokens to nested forms.

ghost use Rattle.std.specs.Prelude.{◌≡◌, ℕ, ◌+◌, ◌++◌, ◌∷◌, [], List, IfErr, OnOk, vec_len};
ghost use Rattle.hd_forms.specs.Forms.{Mark, mark_of, opening, closing, symbol, fault_from, Tells};
ghost use Rattle.hd_forms.specs.Nesting.{marks_written};
ghost use Rattle.hd_forms.specs.declared.forms.OpenForm.{OpenForm};

use crate::error::ReadError;
use crate::place::TextPlace;
use crate::word::{FormWord, name_word};
use hd_base::exact;
use hd_lex::Token;
use std::alloc::Global;
use std::mem;

/// The most forms that may be open at once.
const MOST_OPEN: usize = 64;

/// How many forms an open form has room for at first. Most have no more, and what they leave when
/// they are closed is just as large as what the next ones ask for: so it is taken again, and not
/// cut into pieces.
const ROOM: usize = 3;

/// A word, or a form in parentheses, with the places of its word or of its parentheses.
#[derive(Drop)]
pub enum Form {
    Word {
        at: usize,
        word: FormWord,
    },
    List {
        /// It stands first, beside the byte that tells a word from a list, so that a form is no
        /// larger than 40 bytes.
        to: TextPlace,
        from: usize,
        inside: Vec<Form>,
    },
}

/// A form that is open: the place of its parenthesis, and what stands before it in the form around
/// it.
#[derive(Drop)]
pub struct OpenForm {
    from: usize,
    before: Vec<Form>,
}

/// Opens a form at this place.
fn begin(
    alloc: Global,
    around: &mut Vec<OpenForm>,
    forms: &mut Vec<Form>,
    at: usize,
) -> Result<(), ReadError>
    ensures written { OnOk result (marks_written around.new.items forms.new.items
        ≡ marks_written around.old.items forms.old.items ++ opening at ∷ []) }
    ensures depth { OnOk result (vec_len around.new ≡ vec_len around.old + 1) }
    ensures no_memory { IfErr result (λ e. e ≡ ReadError.NoMemory) }
{
    let before = mem::replace(forms, Vec::with_capacity(alloc, ROOM)?);
    around.push(OpenForm { from: at, before })?;
    Ok(())
}

/// Adds a word to the innermost form.
fn add(forms: &mut Vec<Form>, at: usize, word: FormWord) -> Result<(), ReadError>
    ensures written { OnOk result ((around : List OpenForm)
        → marks_written around forms.new.items
        ≡ marks_written around forms.old.items ++ symbol at word ∷ []) }
    ensures no_memory { IfErr result (λ e. e ≡ ReadError.NoMemory) }
{
    forms.push(Form::Word { at, word })?;
    Ok(())
}

/// Adds a form in parentheses.
fn push_list(
    forms: &mut Vec<Form>,
    from: usize,
    inside: Vec<Form>,
    at: usize,
) -> Result<(), ReadError>
    ensures pushed { OnOk result (forms.new.items
        ≡ forms.old.items ++ Form.List at from inside ∷ []) }
    ensures no_memory { IfErr result (λ e. e ≡ ReadError.NoMemory) }
{
    let to = TextPlace::of(at)?;
    forms.push(Form::List { to, from, inside })?;
    Ok(())
}

/// Closes the innermost form at this place.
fn finish(alloc: Global, last: OpenForm, forms: &mut Vec<Form>, at: usize) -> Result<(), ReadError>
    ensures written { OnOk result ((around : List OpenForm)
        → marks_written around forms.new.items
        ≡ marks_written (around ++ last ∷ []) forms.old.items ++ closing at ∷ []) }
    ensures no_memory { IfErr result (λ e. e ≡ ReadError.NoMemory) }
{
    let OpenForm { from, before } = last;
    // Most lists are short, and there are many: so none keeps room for more.
    let inside = exact(alloc, mem::replace(forms, before))?;
    push_list(forms, from, inside, at)?;
    Ok(())
}

/// Takes the next token.
pub fn take(
    alloc: Global,
    around: &mut Vec<OpenForm>,
    forms: &mut Vec<Form>,
    token: Token,
) -> Result<(), ReadError>
    ensures written { OnOk result (marks_written around.new.items forms.new.items
        ≡ marks_written around.old.items forms.old.items ++ mark_of token ∷ []) }
    // The fault of what follows stays the same.
    ensures goes_on { OnOk result ((end : ℕ) (rest : List Mark)
        → fault_from end (vec_len around.old) (mark_of token ∷ rest)
        ≡ fault_from end (vec_len around.new) rest) }
    ensures fault { IfErr result (λ e. (end : ℕ) (rest : List Mark)
        → Tells e (fault_from end (vec_len around.old) (mark_of token ∷ rest))) }
{
    let Token { from: at, word, .. } = token;
    match word {
        hd_lex::Word::OpenParenthesis => {
            if around.len() == MOST_OPEN {
                return Err(ReadError::TooDeep(at));
            }
            begin(alloc, around, forms, at)
        }
        hd_lex::Word::CloseParenthesis => match around.pop() {
            Some(last) => finish(alloc, last, forms, at),
            None => Err(ReadError::Unbalanced(at)),
        },
        hd_lex::Word::Name(name) => add(forms, at, name_word(name)),
        hd_lex::Word::Variable(name) => add(forms, at, FormWord::Variable(name)),
        hd_lex::Word::Keyword(name) => add(forms, at, FormWord::Keyword(name)),
        hd_lex::Word::Number(number) => add(forms, at, FormWord::Number(number)),
        hd_lex::Word::SignedNumber(number) => add(forms, at, FormWord::Number(number)),
        hd_lex::Word::Operator(operator) => add(forms, at, FormWord::Operator(operator)),
    }
}
