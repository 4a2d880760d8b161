//! Why a call on a journal failed.
ghost use Rattle.std.specs.Prelude.{◌≡◌, Some};
ghost use Rattle.hd_journal.specs.Error.{text_of, of_image, of_store};
ghost use Rattle.hd_journal.specs.declared.error.JournalError.TheVariants.{NoMemory};

use hd_image::ImageError;
use hd_store::StoreError;
use std::alloc::AllocError;
use std::fmt;
use thiserror::Error;

/// Why a call on a journal failed.
#[derive(Clone, Copy, Debug, PartialEq, Eq, Error)]
pub enum JournalError {
    /// No header of a journal stands at the front of the file.
    NotAJournal,
    /// The file is the journal of another task.
    OtherTask,
    /// No whole group stands after the open gate at this place.
    Damaged(u64),
    /// The device failed, and counted the failure.
    Device,
    /// The device failed in an earlier call; the file is to be opened again.
    Failed,
    /// There is a file already, and it is not empty.
    JournalExists,
    /// The group does not begin where the journal's entries end, or names a parent that cannot be
    /// written.
    NotOut,
    /// Memory ran out.
    NoMemory,
}

impl fmt::Display for JournalError {
    ghost output = { λ error. Some (text_of error) };

    fn fmt<W: fmt::Write>(&self, f: &mut fmt::Formatter<W>) -> fmt::Result {
        match self {
            JournalError::NotAJournal => write!(f, "32 NotAJournal"),
            JournalError::OtherTask => write!(f, "33 OtherTask"),
            JournalError::Damaged(at) => write!(f, "34 Damaged({at})"),
            JournalError::Device => write!(f, "35 Device"),
            JournalError::Failed => write!(f, "36 Failed"),
            JournalError::JournalExists => write!(f, "37 JournalExists"),
            JournalError::NotOut => write!(f, "38 NotOut"),
            JournalError::NoMemory => write!(f, "NoMemory"),
        }
    }
}

impl From<ImageError> for JournalError {
    ghost from_gives = { λ error of. of ≡ of_image error };

    fn from(error: ImageError) -> JournalError {
        match error {
            ImageError::NotAJournal => JournalError::NotAJournal,
            ImageError::OtherTask => JournalError::OtherTask,
            ImageError::Damaged(at) => JournalError::Damaged(at),
            ImageError::NoMemory => JournalError::NoMemory,
        }
    }
}

impl From<StoreError> for JournalError {
    ghost from_gives = { λ error of. of ≡ of_store error };

    fn from(error: StoreError) -> JournalError {
        match error {
            StoreError::NoMemory => JournalError::NoMemory,
            StoreError::Failed => JournalError::Device,
        }
    }
}

impl From<AllocError> for JournalError {
    ghost from_gives = { λ _ error. error ≡ NoMemory };

    fn from(_error: AllocError) -> JournalError {
        JournalError::NoMemory
    }
}
