//! Why a text could not be read.

ghost use Rattle.std.specs.Prelude.{◌≡◌, Some};
ghost use Rattle.hd_forms.specs.Error.{text_of, of_lexer};
ghost use Rattle.hd_forms.specs.declared.error.ReadError.TheVariants.{NoMemory};

use hd_lex::LexError;
use std::alloc::{AllocError, AllocFailed};
use std::fmt;
use thiserror::Error;

/// The first fault of a text. Places are counted in bytes from 0.
///
/// The words of the whole text come first, then its parentheses, then the grammar from the left.
#[derive(Debug, PartialEq, Eq, Drop, Error)]
pub enum ReadError {
    /// A bad word.
    Lex(LexError),
    /// A `)` at this place where no form is open, or the end of the text, at its length, where one
    /// is.
    Unbalanced(usize),
    /// What stands at this place is not allowed there. The text's length, where a word is missing
    /// at the end.
    Unexpected(usize),
    /// This word, in lower case, at this place, belongs to a part of PDDL that is not read.
    Unsupported(String, usize),
    /// A `(` at this place would be the 65th open one.
    TooDeep(usize),
    /// Memory ran out; the text is not to blame.
    NoMemory,
}

impl fmt::Display for ReadError {
    ghost output = { λ error. Some (text_of error) };

    fn fmt<W: fmt::Write>(&self, f: &mut fmt::Formatter<W>) -> fmt::Result {
        match self {
            ReadError::Lex(error) => write!(f, "{error}"),
            ReadError::Unbalanced(at) => write!(f, "4 Unbalanced({at})"),
            ReadError::Unexpected(at) => write!(f, "5 Unexpected({at})"),
            ReadError::Unsupported(word, at) => write!(f, "6 Unsupported({word}, {at})"),
            ReadError::TooDeep(at) => write!(f, "7 TooDeep({at})"),
            ReadError::NoMemory => write!(f, "NoMemory"),
        }
    }
}

impl From<LexError> for ReadError {
    ghost from_gives = { λ fault error. error ≡ of_lexer fault };

    fn from(fault: LexError) -> ReadError {
        match fault {
            LexError::NoMemory => ReadError::NoMemory,
            LexError::BadByte(_) | LexError::BadNumber(_) | LexError::NameTooLong(_) => {
                ReadError::Lex(fault)
            }
        }
    }
}

impl From<AllocError> for ReadError {
    ghost from_gives = { λ _ error. error ≡ NoMemory };

    fn from(_error: AllocError) -> ReadError {
        ReadError::NoMemory
    }
}

impl<T: Drop> From<AllocFailed<T>> for ReadError {
    ghost from_gives = { λ _ error. error ≡ NoMemory };

    fn from(_error: AllocFailed<T>) -> ReadError {
        ReadError::NoMemory
    }
}
