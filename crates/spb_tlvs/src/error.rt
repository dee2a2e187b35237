//! Why a TLV can't be read.
ghost use Rattle.std.specs.Prelude.{◌≡◌};
ghost use Rattle.spb_tlvs.specs.declared.error.TlvError.TheVariants as errors;

use spb_types::NoMemory;
use std::alloc::{AllocError, AllocFailed};
use thiserror::Error;

/// Why a TLV's value could not be read.
#[derive(Clone, Copy, Debug, PartialEq, Eq, Error)]
pub enum TlvError {
    /// The value, or a part of it, has too few bytes or bytes that belong to no part.
    #[error("a TLV is cut")]
    Cut,
    /// A field has a number that it can't have.
    #[error("a field of a TLV is out of range")]
    Range,
    /// No memory was found.
    #[error("out of memory")]
    NoMemory,
}

impl From<NoMemory> for TlvError {
    ghost from_gives = { λ _ e. e ≡ errors.NoMemory };

    fn from(_refused: NoMemory) -> Self {
        TlvError::NoMemory
    }
}

impl From<AllocError> for TlvError {
    ghost from_gives = { λ _ e. e ≡ errors.NoMemory };

    fn from(_refused: AllocError) -> Self {
        TlvError::NoMemory
    }
}

impl<T: Drop> From<AllocFailed<T>> for TlvError {
    ghost from_gives = { λ _ e. e ≡ errors.NoMemory };

    fn from(_refused: AllocFailed<T>) -> Self {
        TlvError::NoMemory
    }
}
