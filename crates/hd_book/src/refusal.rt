//! Why a book refuses a batch.
ghost use Rattle.std.specs.Prelude.{Some};
ghost use Rattle.hd_book.specs.Refusing.{text_of};

use hd_entries::Refusal;
use std::fmt;
use thiserror::Error;

/// Why a book refuses a batch.
#[derive(Clone, Copy, Debug, PartialEq, Eq, Error)]
pub enum CommitRefusal {
    /// The book is halted.
    Halted,
    /// The entries refuse it, or there is no memory.
    Refused(Refusal),
}

impl fmt::Display for CommitRefusal {
    ghost output = { λ r. Some (text_of r) };

    fn fmt<W: fmt::Write>(&self, f: &mut fmt::Formatter<W>) -> fmt::Result {
        match self {
            CommitRefusal::Halted => write!(f, "30 Halted"),
            CommitRefusal::Refused(refusal) => write!(f, "{refusal}"),
        }
    }
}
