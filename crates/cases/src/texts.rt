//! Texts with escapes, and bytes as texts.

use crate::stop::{Stop, unread};
use std::alloc::{AllocError, Global};

/// What the next byte of a text is.
#[derive(Clone, Copy)]
enum Reading {
    Plain,
    /// The one after a backslash.
    Escape,
    /// The first of two hexadecimal digits.
    High,
    /// The second one, after this first.
    Low(u8),
}

/// Returns the value of a hexadecimal digit.
pub fn digit_of(byte: u8) -> Option<u8> {
    match byte {
        b'0'..=b'9' => Some(byte - b'0'),
        b'a'..=b'f' => Some(byte - b'a' + 10),
        b'A'..=b'F' => Some(byte - b'A' + 10),
        _ => None,
    }
}

/// Returns the byte of two digits' values.
pub fn joined(high: u8, low: u8) -> u8 {
    ((high & 15) << 4) | (low & 15)
}

/// Returns the byte that a backslash and this byte stand for.
fn escaped(byte: u8) -> Option<u8> {
    match byte {
        b'n' => Some(b'\n'),
        b't' => Some(b'\t'),
        b'r' => Some(b'\r'),
        b's' => Some(b' '),
        b'\\' => Some(b'\\'),
        _ => None,
    }
}

/// Reads one byte of a text, and returns what the next one is, if this one may stand here.
fn read_byte(
    bytes: &mut Vec<u8>,
    reading: Reading,
    byte: u8,
) -> Result<Option<Reading>, AllocError> {
    match reading {
        Reading::Plain if byte == b'\\' => Ok(Some(Reading::Escape)),
        Reading::Plain => {
            bytes.push(byte)?;
            Ok(Some(Reading::Plain))
        }
        Reading::Escape if byte == b'x' => Ok(Some(Reading::High)),
        Reading::Escape => match escaped(byte) {
            Some(byte) => {
                bytes.push(byte)?;
                Ok(Some(Reading::Plain))
            }
            None => Ok(None),
        },
        Reading::High => match digit_of(byte) {
            Some(high) => Ok(Some(Reading::Low(high))),
            None => Ok(None),
        },
        Reading::Low(high) => match digit_of(byte) {
            Some(low) => {
                bytes.push(joined(high, low))?;
                Ok(Some(Reading::Plain))
            }
            None => Ok(None),
        },
    }
}

/// Adds the bytes that a text with escapes stands for, and returns whether it can be read.
fn add_text(bytes: &mut Vec<u8>, text: &str) -> Result<bool, AllocError> {
    let mut reading = Reading::Plain;
    for byte in text.as_bytes() {
        match read_byte(bytes, reading, *byte)? {
            Some(next) => reading = next,
            None => return Ok(false),
        }
    }
    Ok(matches!(reading, Reading::Plain))
}

/// Returns the bytes that a text with escapes stands for.
pub fn bytes_of(alloc: Global, text: &str) -> Result<Vec<u8>, Stop> {
    let mut bytes = Vec::new(alloc);
    match add_text(&mut bytes, text)? {
        true => Ok(bytes),
        false => unread(alloc, "an escape"),
    }
}

/// Adds the bytes of a line and its end.
pub fn add_line(alloc: Global, bytes: &mut Vec<u8>, text: &str) -> Result<(), Stop> {
    match add_text(bytes, text)? {
        true => Ok(bytes.push(b'\n')?),
        false => unread(alloc, "an escape"),
    }
}

/// Adds one byte as it is shown: itself, or its escape.
fn show_byte(shown: &mut String, byte: u8) -> Result<(), AllocError> {
    match byte {
        b'\n' => shown.push_str("\\n"),
        b'\\' => shown.push_str("\\\\"),
        b' '..=b'~' => Ok(shown.push(char::from(byte))?),
        _ => write!(shown, "\\x{byte:02x}"),
    }
}

/// Returns bytes as a text with escapes.
pub fn shown(alloc: Global, bytes: &[u8]) -> Result<String, AllocError> {
    let mut shown = String::new(alloc);
    for byte in bytes {
        show_byte(&mut shown, *byte)?;
    }
    Ok(shown)
}
