//! Why a text has no tokens.

ghost use Rattle.std.specs.Prelude.{◌≡◌, Some};
ghost use Rattle.hd_lex.specs.LexError.{text_of};
ghost use Rattle.hd_lex.specs.declared.error.LexError.TheVariants.{NoMemory};

use std::alloc::{AllocError, AllocFailed};
use std::fmt;
use thiserror::Error;

/// The first bad word of a text, by the place of its first byte, counted from 0.
#[derive(Clone, Copy, Debug, PartialEq, Eq, Error)]
pub enum LexError {
    /// A word that is none of a text's words.
    BadByte(usize),
    /// A word that begins as a number, and is none of 1 to 18 digits.
    BadNumber(usize),
    /// A name of more than 255 bytes, alone or after `?` or `:`.
    NameTooLong(usize),
    /// Memory ran out; no word is to blame.
    NoMemory,
}

impl fmt::Display for LexError {
    ghost output = { λ error. Some (text_of error) };

    fn fmt<W: fmt::Write>(&self, f: &mut fmt::Formatter<W>) -> fmt::Result {
        match self {
            LexError::BadByte(at) => write!(f, "1 BadByte({at})"),
            LexError::BadNumber(at) => write!(f, "2 BadNumber({at})"),
            LexError::NameTooLong(at) => write!(f, "3 NameTooLong({at})"),
            LexError::NoMemory => write!(f, "NoMemory"),
        }
    }
}

impl From<AllocError> for LexError {
    ghost from_gives = { λ _ error. error ≡ NoMemory };

    fn from(_error: AllocError) -> LexError {
        LexError::NoMemory
    }
}

impl<T: Drop> From<AllocFailed<T>> for LexError {
    ghost from_gives = { λ _ error. error ≡ NoMemory };

    fn from(_error: AllocFailed<T>) -> LexError {
        LexError::NoMemory
    }
}
