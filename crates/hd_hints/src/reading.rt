//! Errors of the reader, and of lines, explained.

use crate::excerpt::push_excerpt;
use crate::frames::{Frames, frames_of};
use crate::sentences::{instead_of, push_meant};
use crate::spot::{place_of_line, spot_of};
use crate::wanted::{push_wanted, wanted_after};
use crate::words::{push_shown, push_word, word_of};
use hd_base::NoMemory;
use hd_check::Source;
use hd_lex::{LexError, Token, front_of, tokens};
use hd_pddl::ReadError;
use std::alloc::{AllocError, Global};
use std::fmt::Write;

/// The three bytes of a byte order mark.
const BYTE_ORDER_MARK: [u8; 3] = [0xef, 0xbb, 0xbf];

/// Appends the name of a file, and the line and column of a place in it: `NAME:LINE:COLUMN: `.
pub(crate) fn push_spot(
    out: &mut String,
    name: &str,
    text: &[u8],
    at: usize,
) -> Result<(), NoMemory> {
    let spot = spot_of(text, at.min(text.len()));
    out.push_str(name)?;
    let (line, column) = (spot.line, spot.column);
    write!(out, ":{line}:{column}: ")
}

/// Returns a text from a place on.
pub(crate) fn text_from(text: &[u8], at: usize) -> &[u8] {
    &text[at.min(text.len())..]
}

/// Appends that the word at a place was found.
pub(crate) fn push_found(out: &mut String, text: &[u8], at: usize) -> Result<(), NoMemory> {
    out.push_str("found ")?;
    push_word(out, word_of(text_from(text, at)))
}

/// Appends why a word is none of a text.
fn push_bad_word(out: &mut String, text: &[u8], at: usize) -> Result<(), NoMemory> {
    let rest = text_from(text, at);
    if rest.starts_with(BYTE_ORDER_MARK.as_slice()) {
        return out.push_str("found a byte order mark: save the file without one");
    }
    push_found(out, text, at)?;
    let word = word_of(rest);
    if word.iter().any(|byte| *byte > b'~') {
        return out.push_str("; outside of comments the bytes of a file are ASCII");
    }
    out.push_str("; a name is a letter, and then letters, digits, `-` and `_`")
}

/// Reports whether a word is a whole number with a point and zeros behind it.
fn is_whole(word: &[u8]) -> bool {
    match word.iter().position(|byte| *byte == b'.') {
        Some(place) if place < word.len() => {
            word[..place]
                .iter()
                .all(|byte| byte.is_ascii_digit() || *byte == b'-')
                && word[place..]
                    .iter()
                    .all(|byte| *byte == b'0' || *byte == b'.')
        }
        _ => false,
    }
}

/// Appends why a word is no number.
fn push_bad_number(out: &mut String, text: &[u8], at: usize) -> Result<(), NoMemory> {
    push_found(out, text, at)?;
    let word = word_of(text_from(text, at));
    if is_whole(word) {
        let place = word.iter().position(|byte| *byte == b'.').unwrap_or(0);
        out.push_str("; numbers are whole: it is written `")?;
        push_shown(out, &word[..place.min(word.len())])?;
        return out.push_str("`");
    }
    if word.iter().any(|byte| *byte == b'.') {
        return out.push_str("; numbers are whole: count in a smaller unit");
    }
    if word
        .iter()
        .all(|byte| byte.is_ascii_digit() || *byte == b'-')
    {
        return out.push_str("; a number has at most 18 digits");
    }
    out.push_str("; a name begins with a letter, and a number has digits alone")
}

/// Appends why a word is none.
fn push_lex(out: &mut String, text: &[u8], error: LexError) -> Result<(), NoMemory> {
    match error {
        LexError::BadByte(at) => push_bad_word(out, text, at),
        LexError::BadNumber(at) => push_bad_number(out, text, at),
        LexError::NameTooLong(at) => {
            push_found(out, text, at)?;
            out.push_str("; a name has at most 255 bytes")
        }
        LexError::NoMemory => Err(AllocError),
    }
}

/// Returns the tokens of the text before a place.
fn tokens_before(alloc: Global, text: &[u8], at: usize) -> Result<Vec<Token>, NoMemory> {
    match tokens(alloc, &text[..at.min(text.len())]) {
        Ok(found) => Ok(found),
        Err(_) => Err(AllocError),
    }
}

/// Returns the token at a place, if one begins there.
fn token_at(alloc: Global, text: &[u8], at: usize) -> Option<Token> {
    let rest = text_from(text, at);
    if rest.is_empty() {
        return None;
    }
    match front_of(alloc, rest, 0) {
        Ok(front) => front.token,
        Err(_) => None,
    }
}

/// Appends how many forms are open at the end of a text, and where one of them begins.
fn push_open(out: &mut String, text: &[u8], frames: &Frames<'_>) -> Result<(), NoMemory> {
    let depth = frames.depth();
    if depth == 1 {
        out.push_str(", and a parenthesis is open")?;
    } else {
        write!(out, ", and {depth} parentheses are open")?;
    }
    let (lead, at) = match frames.unclosed {
        Some(at) => ("; a section begins within that of line ", at),
        None => ("; the innermost begins in line ", frames.innermost().from),
    };
    let line = spot_of(text, at.min(text.len())).line;
    out.push_str(lead)?;
    write!(out, "{line}")
}

/// Appends which parenthesis is too many or missing.
fn push_unbalanced(
    alloc: Global,
    out: &mut String,
    text: &[u8],
    at: usize,
) -> Result<(), NoMemory> {
    push_found(out, text, at)?;
    if at < text.len() {
        return out.push_str(", and no parenthesis is open");
    }
    let before = tokens_before(alloc, text, at)?;
    let frames = frames_of(alloc, &before)?;
    let done = push_open(out, text, &frames);
    drop(frames);
    done
}

/// Appends what is wanted in the place of a word, and what may be meant by it.
fn push_unexpected(
    alloc: Global,
    out: &mut String,
    source: Source,
    text: &[u8],
    at: usize,
) -> Result<(), NoMemory> {
    push_found(out, text, at)?;
    let before = tokens_before(alloc, text, at)?;
    let frames = frames_of(alloc, &before)?;
    let front = &text[..at.min(text.len())];
    let wanted = wanted_after(alloc, source, front, frames.depth())?;
    push_wanted(out, &wanted)?;
    let found = token_at(alloc, text, at);
    let word = match &found {
        Some(token) => Some(&token.word),
        None => None,
    };
    let done = push_meant(out, source, &frames, word);
    drop(frames);
    done
}

/// Appends the sentence of a reader's error.
fn push_sentence(
    alloc: Global,
    out: &mut String,
    source: Source,
    text: &[u8],
    error: &ReadError,
) -> Result<(), NoMemory> {
    match error {
        ReadError::Lex(error) => push_lex(out, text, *error),
        ReadError::Unbalanced(at) => push_unbalanced(alloc, out, text, *at),
        ReadError::Unexpected(at) => push_unexpected(alloc, out, source, text, *at),
        ReadError::Unsupported(word, at) => {
            push_found(out, text, *at)?;
            out.push_str(", which is not read; ")?;
            out.push_str(instead_of(word.as_str()))
        }
        ReadError::TooDeep(at) => {
            push_found(out, text, *at)?;
            out.push_str("; at most 64 parentheses may be open")
        }
        ReadError::NoMemory => Err(AllocError),
    }
}

/// Appends an explanation of a reader's error in the text of a file.
///
/// # Errors
/// - Lack of memory: a part may have been appended.
pub fn push_read_hint(
    alloc: Global,
    out: &mut String,
    name: &str,
    source: Source,
    text: &[u8],
    error: &ReadError,
) -> Result<(), NoMemory> {
    let Some(at) = crate::wanted::place_of(error) else {
        return Err(AllocError);
    };
    push_spot(out, name, text, at)?;
    push_sentence(alloc, out, source, text, error)?;
    out.push_str("\n")?;
    push_excerpt(out, text, at)
}

/// Appends a sentence about a line, counted from 1, of the text of a file.
///
/// # Errors
/// - Lack of memory: a part may have been appended.
pub fn push_line_hint(
    out: &mut String,
    name: &str,
    text: &[u8],
    line: u64,
    sentence: &str,
) -> Result<(), NoMemory> {
    let at = place_of_line(text, line);
    push_spot(out, name, text, at)?;
    push_found(out, text, at)?;
    out.push_str(sentence)?;
    out.push_str("\n")?;
    push_excerpt(out, text, at)
}
