//! The tokens of a whole text.

ghost use Rattle.std.specs.Prelude.{◌≡◌, ◌⊎◌, ◌+◌, ◌++◌, ◌<◌, ◌≤◌, ◌^◌, All, List, length, take, drop, IfOk, IfErr, OnOk, MatchResult};
ghost use Rattle.hd_base.specs.Answers.{Means};
ghost use Rattle.hd_lex.specs.Reading.{IsFailure, token_of, listed};
ghost use Rattle.hd_lex.specs.Text.{AreTokens, BeginsWithToken, IsFault, IsFaultFrom, AreInOrder, IsAtItsBytes};
ghost use Rattle.hd_lex.specs.declared.error.LexError.{LexError};
ghost use Rattle.hd_lex.specs.declared.token.Token.{Token};

use crate::byte::{Class, class_of, line_len, word_len};
use crate::error::LexError;
use crate::token::{Front, Token};
use crate::word::word_of;
use std::alloc::Global;

/// Returns the token of the first `len` bytes, of which the first stands at this place.
fn token_of(alloc: Global, text: &[u8], at: usize, len: usize) -> Result<Token, LexError>
    requires within { len ≤ length text.now }
    requires place { at + len < 2 ^ 64 }
    ensures { Means IsFailure result (token_of (record { at = at; bytes = take len text.now })) }
{
    let word = word_of(alloc, &text[..len], at)?;
    Ok(Token {
        from: at,
        to: at + len,
        word,
    })
}

/// Returns what stands at the front of a text whose first byte stands at this place: a token, or a
/// blank or a comment.
///
/// Any bytes may come. So a text is read token by token, and no more of them are kept than are
/// wanted.
pub fn front_of(alloc: Global, text: &[u8], at: usize) -> Result<Front, LexError>
    requires some { 0 < length text.now }
    requires place { at + length text.now < 2 ^ 64 }

    // What is answered: what stands first, and how many bytes it has.
    ensures front { IfOk result (λ front.
        BeginsWithToken at text.now front.token (at + front.len) (drop front.len text.now)) }
    ensures progress { IfOk result (λ front. (0 < front.len) × (front.len ≤ length text.now)) }

    // What is reported: the fault of the text's first bad word, which stands first, or lack of
    // memory.
    ensures refusal { IfErr result (λ error.
        (error ≡ LexError.NoMemory) ⊎ IsFaultFrom at text.now error) }
{
    match class_of(text[0]) {
        Class::Blank => Ok(Front {
            token: None,
            len: 1,
        }),
        Class::Semicolon => Ok(Front {
            token: None,
            len: line_len(text),
        }),
        Class::Parenthesis => {
            let token = token_of(alloc, text, at, 1)?;
            Ok(Front {
                token: Some(token),
                len: 1,
            })
        }
        Class::Word => {
            let len = word_len(text);
            let token = token_of(alloc, text, at, len)?;
            Ok(Front {
                token: Some(token),
                len,
            })
        }
    }
}

/// Adds a token, if there is one.
fn push_front(tokens: &mut Vec<Token>, token: Option<Token>) -> Result<(), LexError>
    ensures pushed { OnOk result (tokens.new.items ≡ tokens.old.items ++ listed token) }
    ensures no_memory { IfErr result (λ error. error ≡ LexError.NoMemory) }
{
    if let Some(token) = token {
        tokens.push(token)?;
    }
    Ok(())
}

/// Returns the tokens of a text in order, or the fault of its first bad word.
///
/// Any bytes may come. The only error that a good text meets is lack of memory.
pub fn tokens(alloc: Global, text: &[u8]) -> Result<Vec<Token>, LexError>
    // What is answered: the tokens of the text's words, one each, in order, and where they stand.
    ensures answer { IfOk result (λ found. AreTokens text.now found.items) }
    ensures spans_in_order { IfOk result (λ found. AreInOrder 0 found.items (length text.now)) }
    ensures spans_at_words { IfOk result (λ found. All (IsAtItsBytes text.now) found.items) }

    // What is reported: the fault of the text's first bad word, or lack of memory.
    ensures refusal { IfErr result (λ error. (error ≡ LexError.NoMemory) ⊎ IsFault text.now error) }

    // A text with no bad word is answered, and one with a bad word is refused, unless memory ran
    // out.
    ensures good_text { (tokens : List Token) → AreTokens text.now tokens
        → MatchResult result (λ found. found.items ≡ tokens) (λ error. error ≡ LexError.NoMemory) }
    ensures bad_text { (fault : LexError) → IsFault text.now fault
        → MatchResult result (λ _. ⊥) (λ error. (error ≡ LexError.NoMemory) ⊎ (error ≡ fault)) }
{
    let mut tokens = Vec::new(alloc);
    let mut rest = text;
    let mut at = 0;
    while !rest.is_empty() {
        let Front { token, len } = front_of(alloc, rest, at)?;
        push_front(&mut tokens, token)?;
        rest = &rest[len..];
        at += len;
    }
    Ok(tokens)
}
