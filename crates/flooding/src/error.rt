//! Why a claim isn't heard: there is no place for it, or no memory.
ghost use Rattle.std.specs.Prelude.{◌≡◌};
ghost use Rattle.flooding.specs.declared.error.FloodError.TheVariants as errors;

use lsdb::PutError;
use std::alloc::{AllocError, AllocFailed};
use thiserror::Error;

/// Why nothing was heard.
#[derive(Clone, Copy, Debug, PartialEq, Eq, Error)]
pub enum FloodError {
    /// The id isn't held and isn't an own number, and 4,080 such ids are held.
    #[error("the database is full")]
    Full,
    /// No memory was found.
    #[error("out of memory")]
    NoMemory,
}

impl From<AllocError> for FloodError {
    ghost from_gives = { λ _ e. e ≡ errors.NoMemory };

    fn from(_refused: AllocError) -> Self {
        FloodError::NoMemory
    }
}

impl<T: Drop> From<AllocFailed<T>> for FloodError {
    ghost from_gives = { λ _ e. e ≡ errors.NoMemory };

    fn from(_refused: AllocFailed<T>) -> Self {
        FloodError::NoMemory
    }
}

impl From<PutError> for FloodError {
    ghost use Rattle.flooding.specs.Refusal.{flood_error};

    ghost from_gives = { λ refused e. e ≡ flood_error refused };

    fn from(refused: PutError) -> Self {
        match refused {
            PutError::Full => FloodError::Full,
            PutError::NoMemory => FloodError::NoMemory,
        }
    }
}
