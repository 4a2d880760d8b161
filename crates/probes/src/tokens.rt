//! Probes of tokens, and of the beginnings of a domain.
use crate::texts::add;
use hd_lex::{Operator, Token, Word, tokens};
use hd_pddl::read_domain;
use std::alloc::{AllocError, Global};

/// Returns the value of a hexadecimal digit.
fn digit_of(byte: u8) -> Option<u8> {
    match byte {
        b'0'..=b'9' => Some(byte - b'0'),
        b'A'..=b'F' => Some(byte - b'A' + 10),
        b'a'..=b'f' => Some(byte - b'a' + 10),
        _ => None,
    }
}

/// Appends what follows a backslash: `n`, `r`, `t`, or `x` and two digits, and then text.
fn push_escaped(bytes: &mut Vec<u8>, part: &[u8]) -> Result<bool, AllocError> {
    let rest = match part {
        [b'x', high, low, rest @ ..] => {
            let (Some(high), Some(low)) = (digit_of(*high), digit_of(*low)) else {
                return Ok(false);
            };
            bytes.push(high << 4 | low)?;
            rest
        }
        [b'n', rest @ ..] => {
            bytes.push(b'\n')?;
            rest
        }
        [b'r', rest @ ..] => {
            bytes.push(b'\r')?;
            rest
        }
        [b't', rest @ ..] => {
            bytes.push(b'\t')?;
            rest
        }
        _ => return Ok(false),
    };
    bytes.extend_from_slice(rest)?;
    Ok(true)
}

/// Returns the bytes that a text stands for.
fn bytes_of(alloc: Global, text: &str) -> Result<Option<Vec<u8>>, AllocError> {
    let mut bytes = Vec::new(alloc);
    for (place, part) in text.split('\\').enumerate() {
        if place == 0 {
            bytes.extend_from_slice(part.as_bytes())?;
        } else if !push_escaped(&mut bytes, part.as_bytes())? {
            return Ok(None);
        }
    }
    Ok(Some(bytes))
}

/// Returns an operator as it is written.
fn sign_of(operator: Operator) -> &'static str {
    match operator {
        Operator::Plus => "+",
        Operator::Minus => "-",
        Operator::Times => "*",
        Operator::Divide => "/",
        Operator::Less => "<",
        Operator::LessOrEqual => "<=",
        Operator::Equal => "=",
        Operator::GreaterOrEqual => ">=",
        Operator::Greater => ">",
    }
}

/// Writes a token with its span.
fn token_text(alloc: Global, token: &Token) -> Result<String, AllocError> {
    let (from, to) = (token.from, token.to);
    match &token.word {
        Word::OpenParenthesis => format!(in alloc; "( {from}..{to}"),
        Word::CloseParenthesis => format!(in alloc; ") {from}..{to}"),
        Word::Name(name) => format!(in alloc; "name {} {from}..{to}", name.as_str()),
        Word::Variable(name) => format!(in alloc; "variable {} {from}..{to}", name.as_str()),
        Word::Keyword(name) => format!(in alloc; "keyword {} {from}..{to}", name.as_str()),
        Word::Number(value) => format!(in alloc; "number {value} {from}..{to}"),
        Word::SignedNumber(value) => format!(in alloc; "signed {value} {from}..{to}"),
        Word::Operator(operator) => format!(in alloc; "{} {from}..{to}", sign_of(*operator)),
    }
}

/// Writes tokens with their spans.
fn tokens_text(alloc: Global, found: &[Token]) -> Result<String, AllocError> {
    let mut list = String::new(alloc);
    for token in found {
        let text = token_text(alloc, token)?;
        add(&mut list, text.as_str())?;
    }
    if list.is_empty() {
        list.push_str("none")?;
    }
    Ok(list)
}

/// Answers `tokens TEXT`: its tokens with their spans, or the refusal.
pub fn tokens_in(alloc: Global, text: &str) -> Result<Option<String>, AllocError> {
    let Some(bytes) = bytes_of(alloc, text)? else {
        return Ok(None);
    };
    match tokens(alloc, &bytes) {
        Ok(found) => Ok(Some(tokens_text(alloc, &found)?)),
        Err(error) => Ok(Some(format!(in alloc; "{error}")?)),
    }
}

/// Returns what reading the first `length` bytes of a domain gives.
fn beginning(alloc: Global, domain: &[u8], length: usize) -> Result<String, AllocError> {
    let text = match domain.get(..length) {
        Some(text) => text,
        None => domain,
    };
    match read_domain(alloc, text) {
        Ok(tree) => {
            drop(tree);
            String::from_str(alloc, "a domain")
        }
        Err(error) => {
            let unbalanced = format!(in alloc; "4 Unbalanced({length})")?;
            let text = format!(in alloc; "{error}")?;
            if text.as_str() == unbalanced.as_str() {
                return String::from_str(alloc, "4 Unbalanced(length)");
            }
            Ok(text)
        }
    }
}

/// Answers `beginnings FROM..TO`: what reading the beginnings of these lengths gives, if all are
/// alike.
pub fn beginnings(
    alloc: Global,
    domain: &[u8],
    lengths: &str,
) -> Result<Option<String>, AllocError> {
    let Some((from, to)) = lengths.split_once("..") else {
        return Ok(None);
    };
    let (Ok(from), Ok(to)) = (from.parse::<usize>(), to.parse::<usize>()) else {
        return Ok(None);
    };
    let first = beginning(alloc, domain, from)?;
    for length in from..to {
        let next = beginning(alloc, domain, length)?;
        if next.as_str() != first.as_str() {
            return Ok(Some(format!(in alloc; "{length}: {next}")?));
        }
    }
    Ok(Some(first))
}
