//! What a single word is.

ghost use Rattle.std.specs.Prelude.{◌≡◌, ◌^◌, ◌<◌, true, Ok, map};
ghost use Rattle.std.specs.Char.{is_ascii_digit, to_ascii_lowercase};
ghost use Rattle.std.specs.List.{list_all};
ghost use Rattle.std.specs.Str.{IsAscii};
ghost use Rattle.std.specs.Str.Parse.{digits_value};
ghost use Rattle.hd_base.specs.Answers.{Means};
ghost use Rattle.hd_lex.specs.Byte.{is_name_byte};
ghost use Rattle.hd_lex.specs.Reading.{IsFailure, name_of, number_of, negative_of, sign_of, word_of};
ghost use Rattle.hd_lex.specs.Word.{is_name, begins_with_digit, is_number};
ghost use Rattle.hd_lex.specs.declared.word.TheConstants.{MOST_DIGITS};

use crate::byte::is_name_byte;
use crate::error::LexError;
use crate::token::{Operator, Word};
use hd_base::Name;
use std::alloc::Global;

/// The most bytes that a name has.
const LONGEST_NAME: usize = 255;

/// The most digits that a number has.
const MOST_DIGITS: usize = 18;

fn are_name_bytes(text: &[u8]) -> bool
    ensures { result ≡ list_all is_name_byte text.now }
{
    text.iter().all(|byte| is_name_byte(*byte))
}

/// Reports whether the text is a name of any length.
fn is_name(text: &[u8]) -> bool
    ensures { result ≡ is_name text.now }
{
    match text {
        [first, rest @ ..] => first.is_ascii_alphabetic() && are_name_bytes(rest),
        [] => false,
    }
}

/// Returns the name with its letters folded.
fn lower_case(alloc: Global, text: &[u8]) -> Result<Name, LexError>
    requires { IsAscii text.now }
    ensures { Means IsFailure result (Ok (map to_ascii_lowercase text.now)) }
{
    let Ok(text) = str::from_utf8(text) else {
        unreachable!()
    };
    Ok(Name::folded(alloc, text)?)
}

/// Returns the name that these bytes of the word at this place spell.
#[tactic(auto, unfolding(crate::specs::Reading::name_of))]
fn name_of(alloc: Global, text: &[u8], at: usize) -> Result<Name, LexError>
    ensures { Means IsFailure result (name_of at text.now) }
{
    if !is_name(text) {
        return Err(LexError::BadByte(at));
    }
    if text.len() > LONGEST_NAME {
        return Err(LexError::NameTooLong(at));
    }
    lower_case(alloc, text)
}

fn begins_with_digit(text: &[u8]) -> bool
    ensures { result ≡ begins_with_digit text.now }
{
    match text {
        [first, ..] => first.is_ascii_digit(),
        [] => false,
    }
}

fn are_digits(text: &[u8]) -> bool
    ensures { result ≡ list_all is_ascii_digit text.now }
{
    text.iter().all(|byte| byte.is_ascii_digit())
}

/// Reports whether the text is a number.
fn is_number(text: &[u8]) -> bool
    ensures { result ≡ is_number text.now }
{
    !text.is_empty() && text.len() <= MOST_DIGITS && are_digits(text)
}

/// Returns the number that the digits write.
fn value_of(digits: &[u8]) -> u64
    requires { is_number digits.now ≡ true }
    ensures value { result ≡ digits_value 10 digits.now }
    ensures small { result < 10 ^ MOST_DIGITS }
{
    let Ok(text) = str::from_utf8(digits) else {
        unreachable!()
    };
    let Ok(value) = text.parse() else {
        unreachable!()
    };
    value
}

/// Returns the number that these bytes of the word at this place write.
#[tactic(auto, unfolding(crate::specs::Reading::number_of))]
fn number_of(digits: &[u8], at: usize) -> Result<i64, LexError>
    ensures { Means IsFailure result (number_of at digits.now) }
{
    if is_number(digits) {
        Ok(value_of(digits) as i64)
    } else {
        Err(LexError::BadNumber(at))
    }
}

/// Returns the number after a minus sign that these bytes of the word at this place write.
#[tactic(auto, unfolding(crate::specs::Reading::negative_of))]
fn negative_of(digits: &[u8], at: usize) -> Result<i64, LexError>
    ensures { Means IsFailure result (negative_of at digits.now) }
{
    if is_number(digits) {
        Ok(-(value_of(digits) as i64))
    } else {
        Err(LexError::BadNumber(at))
    }
}

/// Returns the word without letters and digits, if the text is one.
fn sign_of(text: &[u8]) -> Option<Word>
    ensures { result ≡ sign_of text.now }
{
    match text {
        [b'('] => Some(Word::OpenParenthesis),
        [b')'] => Some(Word::CloseParenthesis),
        [b'+'] => Some(Word::Operator(Operator::Plus)),
        [b'-'] => Some(Word::Operator(Operator::Minus)),
        [b'*'] => Some(Word::Operator(Operator::Times)),
        [b'/'] => Some(Word::Operator(Operator::Divide)),
        [b'<'] => Some(Word::Operator(Operator::Less)),
        [b'='] => Some(Word::Operator(Operator::Equal)),
        [b'>'] => Some(Word::Operator(Operator::Greater)),
        [b'<', b'='] => Some(Word::Operator(Operator::LessOrEqual)),
        [b'>', b'='] => Some(Word::Operator(Operator::GreaterOrEqual)),
        _ => None,
    }
}

/// Returns what the word at this place is.
#[tactic(auto, unfolding(crate::specs::Reading::word_of))]
pub fn word_of(alloc: Global, text: &[u8], at: usize) -> Result<Word, LexError>
    ensures { Means IsFailure result (word_of at text.now) }
{
    let [first, rest @ ..] = text else {
        return Err(LexError::BadByte(at));
    };
    if first.is_ascii_alphabetic() {
        Ok(Word::Name(name_of(alloc, text, at)?))
    } else if *first == b'?' {
        Ok(Word::Variable(name_of(alloc, rest, at)?))
    } else if *first == b':' {
        Ok(Word::Keyword(name_of(alloc, rest, at)?))
    } else if first.is_ascii_digit() {
        Ok(Word::Number(number_of(text, at)?))
    } else if *first == b'-' && begins_with_digit(rest) {
        Ok(Word::SignedNumber(negative_of(rest, at)?))
    } else {
        sign_of(text).ok_or(LexError::BadByte(at))
    }
}
