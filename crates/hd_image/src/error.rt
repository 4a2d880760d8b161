//! Why a file is no sound journal.
ghost use Rattle.std.specs.Prelude.{Some};
ghost use Rattle.hd_image.specs.Error.{text_of};

use std::fmt;
use thiserror::Error;

/// Why a file is no sound journal of the task.
#[derive(Clone, Copy, Debug, PartialEq, Eq, Error)]
pub enum ImageError {
    /// No header stands at the front.
    NotAJournal,
    /// The header is of another task.
    OtherTask,
    /// No whole group stands after the open gate at this place.
    Damaged(u64),
    /// Memory ran out; the file is not to blame.
    NoMemory,
}

impl fmt::Display for ImageError {
    ghost output = { λ error. Some (text_of error) };

    fn fmt<W: fmt::Write>(&self, f: &mut fmt::Formatter<W>) -> fmt::Result {
        match self {
            ImageError::NotAJournal => write!(f, "32 NotAJournal"),
            ImageError::OtherTask => write!(f, "33 OtherTask"),
            ImageError::Damaged(at) => write!(f, "34 Damaged({at})"),
            ImageError::NoMemory => write!(f, "NoMemory"),
        }
    }
}
