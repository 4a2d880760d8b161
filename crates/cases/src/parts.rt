//! Bytes by their parts: hexadecimal digits, and parts of files.

use crate::files::CaseFiles;
use crate::host::Host;
use crate::stop::{Stop, unread};
use crate::texts::{digit_of, joined};
use std::alloc::Global;

/// Adds the byte of two digits, and returns whether these are two digits.
fn add_byte(bytes: &mut Vec<u8>, text: &[u8]) -> Result<bool, Stop> {
    let [high, low] = text else {
        return Ok(false);
    };
    let (Some(high), Some(low)) = (digit_of(*high), digit_of(*low)) else {
        return Ok(false);
    };
    bytes.push(joined(high, low))?;
    Ok(true)
}

/// Reads a range, as in `3..7]`.
fn range_in(text: &str) -> Option<(usize, usize)> {
    let (from, to) = text.strip_suffix("]")?.split_once("..")?;
    Some((from.parse::<usize>().ok()?, to.parse::<usize>().ok()?))
}

/// Adds a file's bytes, or a part of them, and returns whether there is such a part.
fn add_part(
    rt: &impl Host,
    files: &mut CaseFiles,
    bytes: &mut Vec<u8>,
    text: &str,
) -> Result<bool, Stop> {
    let (name, range) = match text.split_once("[") {
        Some((name, range)) => (name, Some(range)),
        None => (text, None),
    };
    let Some(file) = files.get(rt, name) else {
        return Ok(false);
    };
    let (from, to) = match range {
        Some(range) => range_in(range).unwrap_or((1, 0)),
        None => (0, file.len()),
    };
    match file.get(from..to) {
        Some(part) => {
            bytes.extend_from_slice(part)?;
            Ok(true)
        }
        None => Ok(false),
    }
}

/// Adds the bytes of one part, and returns whether it can be read.
fn add_word(
    rt: &impl Host,
    files: &mut CaseFiles,
    bytes: &mut Vec<u8>,
    word: &str,
) -> Result<bool, Stop> {
    match word.strip_prefix("@") {
        Some(part) => add_part(rt, files, bytes, part),
        None if word.is_empty() => Ok(true),
        None => add_byte(bytes, word.as_bytes()),
    }
}

/// Adds the bytes of all parts, and returns whether they can be read.
fn add_words(
    rt: &impl Host,
    files: &mut CaseFiles,
    bytes: &mut Vec<u8>,
    text: &str,
) -> Result<bool, Stop> {
    for word in text.split(' ') {
        if !add_word(rt, files, bytes, word)? {
            return Ok(false);
        }
    }
    Ok(true)
}

/// Returns the bytes of these parts.
pub fn bytes_by(rt: &impl Host, files: &mut CaseFiles, text: &str) -> Result<Vec<u8>, Stop> {
    let alloc: Global = rt.alloc();
    let mut bytes = Vec::new(alloc);
    match add_words(rt, files, &mut bytes, text)? {
        true => Ok(bytes),
        false => unread(alloc, "the bytes"),
    }
}
