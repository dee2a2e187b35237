use spb_types::NoMemory;
use std::alloc::{AllocError, AllocFailed};
use std::io;
use thiserror::Error;

/// Why a case can't be played.
#[derive(Clone, Copy, Debug, PartialEq, Eq, Error)]
pub(crate) enum Trouble {
    /// No memory was found.
    #[error("out of memory")]
    NoMemory,
    /// No file of cases is here.
    #[error("no file NAME.cases is in this folder")]
    NoCases,
    /// A file can't be read, or is no text, or nothing can be written.
    #[error("a file can't be read, or written")]
    NoFile,
    /// A line begins by `!`, and is no setting.
    #[error("there is no such setting")]
    NoSetting,
    /// A word is no number, or none that may stand there.
    #[error("there is no such number")]
    NoNumber,
    /// A `\` has no letter behind it that means something.
    #[error("there is no such letter behind a backslash")]
    NoEscape,
    /// A line that says of which lines it stands is none that may.
    #[error("this line can't stand there")]
    NoPlace,
}

impl From<AllocError> for Trouble {
    fn from(_refused: AllocError) -> Self {
        Trouble::NoMemory
    }
}

impl<T: Drop> From<AllocFailed<T>> for Trouble {
    fn from(_refused: AllocFailed<T>) -> Self {
        Trouble::NoMemory
    }
}

impl From<NoMemory> for Trouble {
    fn from(_refused: NoMemory) -> Self {
        Trouble::NoMemory
    }
}

impl From<io::Error> for Trouble {
    fn from(_failed: io::Error) -> Self {
        Trouble::NoFile
    }
}
