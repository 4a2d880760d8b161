//! A step of a plan, and the words that make one.

ghost use Rattle.std.specs.Prelude.{◌≡◌, Some, None, IfOk, MatchOption};
ghost use Rattle.hd_plan.specs.Reading.{name_in, is_open, is_close, args_of, step_of, token_words};

use hd_base::{Name, NoMemory, Sequence};
use hd_lex::{Token, Word};
use std::alloc::Global;

/// A step of a plan by its names, which are in lower case.
#[derive(Debug, PartialEq, Eq, Drop)]
pub struct Step {
    /// The name of a schema.
    pub name: Name,
    /// The names of the objects in the place of its parameters.
    pub args: Sequence<Name>,
}

fn name_in(word: &Word) -> Option<&Name>
    ensures { MatchOption result
        (name_in word.now ≡ None)
        (λ name. name_in word.now ≡ Some name.now) }
{
    match word {
        Word::Name(name) => Some(name),
        _ => None,
    }
}

fn is_open(word: &Word) -> bool
    ensures { result ≡ is_open word.now }
{
    matches!(word, Word::OpenParenthesis)
}

fn is_close(word: &Word) -> bool
    ensures { result ≡ is_close word.now }
{
    matches!(word, Word::CloseParenthesis)
}

/// Returns the names in `tokens`, if they are names and a closing parenthesis at the end.
#[tactic(auto, unfolding(crate::specs::Reading::args_of), using(crate::proofs::Shapes::behind_args_more, crate::proofs::Shapes::behind_args_nil))]
fn args_of(alloc: Global, tokens: &[Token]) -> Result<Option<Sequence<Name>>, NoMemory>
    ensures { IfOk result (λ found. found ≡ args_of (token_words tokens.now)) }
{
    let mut args = Vec::new(alloc);
    let mut rest = tokens;
    while let [token, behind @ ..] = rest {
        let Some(name) = name_in(&token.word) else {
            if is_close(&token.word) && behind.is_empty() {
                return Ok(Some(Sequence::from_vec(args)));
            }
            return Ok(None);
        };
        args.push(name.copied(alloc)?)?;
        rest = behind;
    }
    Ok(None)
}

/// Returns the step that the tokens are, if they are one.
pub fn step_of(alloc: Global, tokens: &[Token]) -> Result<Option<Step>, NoMemory>
    ensures { IfOk result (λ found. found ≡ step_of (token_words tokens.now)) }
{
    let [first, second, rest @ ..] = tokens else {
        return Ok(None);
    };
    if !is_open(&first.word) {
        return Ok(None);
    }
    let Some(name) = name_in(&second.word) else {
        return Ok(None);
    };
    let Some(args) = args_of(alloc, rest)? else {
        return Ok(None);
    };
    let name = name.copied(alloc)?;
    Ok(Some(Step { name, args }))
}
